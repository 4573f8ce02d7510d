//! Dropping the generations of image trails that a backup needs no longer.
#![tactic(auto)]

ghost use Rattle.std.specs.Prelude.{◌≡◌, ◌<◌, ◌≤◌, ◌^◌, ◌-◌};
ghost use Rattle.image_trails.specs.Trails.{AreInUse, trails_value};
ghost use Rattle.purger.specs.Purging.{least, first_may_go, gone, Purges};

use image_trails::ImageTrails;
use rdf_disk::Disk;
use rdf_gatelog::LogFault;
use rdf_types::records::Pos;

/// The position that no purge may pass: the least of the restart points of the protected volumes and the low position.
pub fn floor(restarts: &[Pos], low: Pos) -> Pos
    ensures { result ≡ least restarts.now low }
{
    restarts
        .iter()
        .fold(low, |least, restart| least.min(*restart))
}

/// Whether the first generation may go.
fn may_drop<D: Disk>(trails: &ImageTrails<D>, floor: Pos, retain: u32) -> bool
    requires some { 1 ≤ retain }
    requires few { retain < 2 ^ 32 - 1 }
    ensures { result ≡ first_may_go retain floor (trails_value trails.now).starts }
{
    match trails.second_start() {
        Some(second) => trails.generations() > retain && second <= floor,
        None => false,
    }
}

/// Drops the first generation while more than the retained ones stand and the second starts at or below the floor, and answers how many went
/// (4,294,967,295 where there were more). After an `Err` some first ones of these are gone, and the trails may only be closed.
pub fn purge<D: Disk>(trails: &mut ImageTrails<D>, floor: Pos, retain: u32) -> Result<u32, LogFault>
    requires some { 1 ≤ retain }
    requires few { retain < 2 ^ 32 - 1 }
    requires in_use { D.tells → AreInUse D.files trails.old }
    ensures { Purges D.tells D.files D.counts (gone retain floor (trails_value trails.old).starts) trails.old result trails.new }
{
    let mut went: u32 = 0;
    for _ in 0..u64::MAX {
        if !may_drop(trails, floor, retain) {
            return Ok(went);
        }
        trails.drop_first()?;
        went = went.saturating_add(1);
    }
    Ok(went)
}
