//! What several of the tests begin with.
ghost use Rattle.std.specs.Prelude.{◌≡◌, IfOk};
ghost use Rattle.rdf_volume.specs.Views.{restart_of};

use fault_tables::{Stop, Untold};
use rdf_disk::Tear;
use rdf_types::layout::{Layout, Protection, VolumeTrails};
use rdf_volume::Volume;
use std::alloc::{AllocError, Global};
use std::test::Fail;

/// Two protected volumes, the second one on a secondary trail, and generations of 4 positions.
pub(crate) fn two_volumes(alloc: Global) -> Result<Layout, AllocError>
    ensures { IfOk result (λ layout. layout.volumes ≡ 2) }
{
    let mut trail_of = VolumeTrails::new(alloc);
    trail_of.push(0)?;
    trail_of.push(1)?;
    let mut protect = Protection::new(alloc);
    protect.push(true)?;
    protect.push(true)?;
    Ok(Layout {
        backups: 1,
        volumes: 2,
        trail_of,
        protect,
        extent: 4,
        retain: 2,
    })
}

/// A volume without rows.
pub(crate) fn empty_volume(alloc: Global) -> Result<Volume<Untold>, Fail>
    ensures { IfOk result (λ v. restart_of v ≡ 0) }
{
    match Volume::format(alloc, Untold::blank(alloc)) {
        Ok(volume) => Ok(volume),
        Err(shut) => Err(shut.fault)?,
    }
}

/// A stop that no test comes to.
pub(crate) const FAR: Stop = Stop {
    calls: 1_000_000,
    tear: Tear::Lose,
};
