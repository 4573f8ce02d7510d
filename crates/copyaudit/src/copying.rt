//! A copy, message by message.
ghost use Rattle.std.specs.Prelude.{◌≡◌, ◌<◌, ◌≤◌, ◌+◌, min, max, OnOk};
ghost use Rattle.image_disks.specs.Values.{received, kept};
ghost use Rattle.image_trails.specs.Trails.{AreInUse, trails_value};
ghost use Rattle.copyaudit.specs.Copying.{part_of, CopiesNext, CopiesRest};

use crate::message::message_from;
use image_trails::ImageTrails;
use rdf_disk::Disk;
use rdf_gatelog::LogFault;

/// Stores the next message.
fn copy_next<D: Disk>(lag: &mut ImageTrails<D>, lead: &ImageTrails<D>) -> Result<(), LogFault>
    requires some { received (trails_value lag.old) < received (trails_value lead.now) }
    requires kept { D.tells → kept (trails_value lead.now) ≤ received (trails_value lag.old) }
    requires lag { D.tells → AreInUse D.files lag.old }
    requires lead { D.tells → AreInUse D.files lead.now }
    ensures { let at = received (trails_value lag.old) in let to = min (at + 64) (received (trails_value lead.now)) in
        CopiesNext D.tells D.files D.counts (part_of (trails_value lead.now) at to) lead.now lag.old result lag.new }
{
    let ship = message_from(lead, lag.received())?;
    lag.store(&ship)
}

/// Stores all that is left to copy.
pub fn copy_rest<D: Disk>(lag: &mut ImageTrails<D>, lead: &ImageTrails<D>) -> Result<(), LogFault>
    requires kept { kept (trails_value lead.now) ≤ received (trails_value lag.old) }
    requires lag { D.tells → AreInUse D.files lag.old }
    requires lead { D.tells → AreInUse D.files lead.now }
    ensures copies { CopiesRest D.tells D.files D.counts lead.now lag.old result lag.new }
    ensures upto { D.tells → OnOk result (received (trails_value lag.new) ≡ max (received (trails_value lag.old)) (received (trails_value lead.now))) }
{
    // Each message is of a position at least.
    for _ in lag.received()..lead.received() {
        if lead.received() <= lag.received() {
            return Ok(());
        }
        copy_next(lag, lead)?;
    }
    Ok(())
}
