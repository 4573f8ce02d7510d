//! The layout of generated plans.
ghost use Rattle.std.specs.Prelude.{◌≡◌, IfOk};
ghost use Rattle.plan_lang.specs.PlanReading.{heading_of};
ghost use Rattle.plan_gen.specs.Generated.{generated_layout};

use rdf_types::layout::{Layout, Protection, VolumeTrails};
use std::alloc::{AllocError, Global};

/// Two backups of eight volumes, which are all protected, on four image trails.
pub fn generated_layout(alloc: Global) -> Result<Layout, AllocError>
    ensures { IfOk result (λ layout. heading_of layout ≡ heading_of generated_layout) }
{
    let trail_of = trails(alloc, &[0, 1, 2, 3, 0, 1, 2, 3])?;
    let protect = protection(alloc, &[true, true, true, true, true, true, true, true])?;
    Ok(Layout {
        backups: 2,
        volumes: 8,
        trail_of,
        protect,
        extent: 64,
        retain: 4,
    })
}

fn trails(alloc: Global, numbers: &[u8]) -> Result<VolumeTrails, AllocError>
    ensures { IfOk result (λ trails. trails ≡ numbers.now) }
{
    let mut trails = VolumeTrails::new(alloc);
    for number in numbers {
        trails.push(*number)?;
    }
    Ok(trails)
}

fn protection(alloc: Global, flags: &[bool]) -> Result<Protection, AllocError>
    ensures { IfOk result (λ protect. protect ≡ flags.now) }
{
    let mut protect = Protection::new(alloc);
    for flag in flags {
        protect.push(*flag)?;
    }
    Ok(protect)
}
