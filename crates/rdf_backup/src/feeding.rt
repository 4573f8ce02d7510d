//! What the updaters of a session are fed, and where their volumes are.
ghost use Rattle.std.specs.Prelude.{◌≡◌, ◌≤◌, ◌<◌, max, false, length, take, drop, get_or};
ghost use Rattle.rdf_codec.specs.Ships.{HasShipSpelling};
ghost use Rattle.rdf_types.specs.Entries.{RiseFrom, Rises, since as entries_since};
ghost use Rattle.rdf_backup.specs.Feeding.{flagged, least_of};

use crate::purging::with_point;
use rdf_codec::ships::Ship;
use rdf_disk::Disk;
use rdf_types::records::{Pos, Stamped, VolNo};
use volume_sessions::Watch;

/// Lets the first entries go.
fn drop_first(part: &mut Vec<Stamped>, count: usize)
    requires { count ≤ length part.old.items }
    ensures { part.new.items ≡ drop count part.old.items }
{
    let _ = part.drain(..count);
}

/// How many entries stand below the position.
fn below(part: &[Stamped], from: Pos) -> usize
    requires { RiseFrom 0 part.now }
    ensures rest { drop result part.now ≡ entries_since from part.now }
    ensures few { result ≤ length part.now }
{
    part.partition_point(|entry| entry.pos < from)
}

/// Lets the entries below the position go.
fn keep_since(part: &mut Vec<Stamped>, from: Pos)
    requires { RiseFrom 0 part.old.items }
    ensures { part.new.items ≡ entries_since from part.old.items }
{
    let count = below(part, from);
    drop_first(part, count);
}

/// The entries of a shipment from a position on.
pub(crate) fn new_part(ship: Ship, from: Pos) -> Vec<Stamped>
    requires spelled { HasShipSpelling ship }
    ensures new { result.items ≡ entries_since from ship.part }
    ensures few { length result.items ≤ 64 }
    ensures rises { Rises from result.items (max ship.to from) }
{
    let Ship {
        from: _,
        to: _,
        part,
    } = ship;
    let mut part = part.into_vec();
    keep_since(&mut part, from);
    part
}

/// How many are flagged.
pub(crate) fn count_flagged(flags: &[bool]) -> usize
    ensures { result ≡ flagged flags.now }
{
    let mut place = 0;
    for flag in flags {
        if *flag {
            place += 1;
        }
    }
    place
}

/// Whether a volume takes part in a session.
pub(crate) fn takes_part(flags: &[bool], vol: VolNo) -> bool
    requires there { vol < length flags.now }
    ensures { result ≡ get_or flags.now vol false }
{
    flags[vol.number() as usize]
}

/// Which of the places of a session a volume has: as many as are flagged below it.
pub(crate) fn place_of(flags: &[bool], vol: VolNo) -> usize
    requires there { vol < length flags.now }
    ensures { result ≡ flagged (take vol flags.now) }
{
    count_flagged(&flags[..vol.number() as usize])
}

/// The least of a position and the restart points of so many volumes, which are all of a session, as they were last looked at.
pub(crate) fn least_shown<D: Disk>(watch: &Watch<'_, D>, many: usize, low: Pos) -> Pos
    requires all { many ≡ length watch.now.volumes }
    ensures { result ≡ least_of low watch.now.volumes }
{
    let mut lowest = low;
    for place in 0..many {
        lowest = with_point(lowest, true, watch.point(place));
    }
    lowest
}
