//! The messages that a copy consists of.
ghost use Rattle.std.specs.Prelude.{◌≡◌, ◌+◌, ◌<◌, min, take, IfOk};
ghost use Rattle.rdf_codec.specs.Ships.{HasShipSpelling};
ghost use Rattle.image_disks.specs.Values.{received};
ghost use Rattle.image_trails.specs.Memory.{shipment};
ghost use Rattle.image_trails.specs.Trails.{AreInUse, trails_value};
ghost use Rattle.copyaudit.specs.Copying.{part_of, first_rising};

use image_trails::ImageTrails;
use rdf_codec::entries::Entries;
use rdf_codec::ships::Ship;
use rdf_disk::Disk;
use rdf_types::records::{Pos, Stamped};
use std::alloc::AllocError;

/// How many first entries rise from one position on and stay below another.
fn rising(entries: &[Stamped], from: Pos, to: Pos) -> usize
    ensures { take result entries.now ≡ first_rising from to entries.now }
{
    let mut low = from;
    for (i, entry) in entries.iter().enumerate() {
        if entry.pos < low || to <= entry.pos {
            return i;
        }
        low = entry.pos + 1;
    }
    entries.len()
}

/// What the trails have received from a position on, at most 64 positions of it.
pub fn message_from<D: Disk>(lead: &ImageTrails<D>, from: Pos) -> Result<Ship, AllocError>
    requires some { from < received (trails_value lead.now) }
    ensures spelled { IfOk result HasShipSpelling }
    ensures from { IfOk result (λ ship. ship.from ≡ from) }
    ensures to { IfOk result (λ ship. ship.to ≡ min (from + 64) (received (trails_value lead.now))) }
    ensures part { D.tells → AreInUse D.files lead.now
        → IfOk result (λ ship. shipment ship ≡ part_of (trails_value lead.now) from (min (from + 64) (received (trails_value lead.now)))) }
{
    let to = from.saturating_add(64).min(lead.received());
    // Of 64 entries those below `to` are all that there are.
    let mut part = lead.merged(from, 64)?;
    let count = rising(&part, from, to);
    part.truncate(count);
    Ok(Ship {
        from,
        to,
        part: Entries::new(part),
    })
}
