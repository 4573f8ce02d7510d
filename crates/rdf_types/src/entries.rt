//! Parts of a list of entries whose positions rise strictly, found by search.
ghost use Rattle.std.specs.Prelude.{◌≡◌, ◌≤◌, ◌<◌, ℕ, length, take};
ghost use Rattle.rdf_types.specs.Entries.{RiseFrom, since as entries_since, before as entries_before};

use crate::records::{Pos, Stamped};

/// The entries from the position on.
pub fn since(part: &[Stamped], at: Pos) -> &[Stamped]
    requires { RiseFrom 0 part.now }
    ensures { result.now ≡ entries_since at part.now }
{
    let start = part.partition_point(|entry| entry.pos < at);
    &part[start..]
}

/// The entries below the position.
pub fn before(part: &[Stamped], at: Pos) -> &[Stamped]
    requires { RiseFrom 0 part.now }
    ensures { result.now ≡ entries_before at part.now }
{
    let end = part.partition_point(|entry| entry.pos < at);
    &part[..end]
}

/// The position of the entry at the index, or the end where there is none.
pub fn position_at(part: &[Stamped], index: usize, end: Pos) -> Pos
    requires below { entries_before end part.now ≡ part.now }
    ensures cut { RiseFrom 0 part.now → entries_before result part.now ≡ take index part.now }
    ensures behind { (at : ℕ) → at ≤ end → RiseFrom at part.now → at ≤ result }
    ensures within { result ≤ end }
    ensures past { length part.now ≤ index → result ≡ end }
    ensures amid { index < length part.now → result < end }
{
    if index < part.len() {
        return part[index].pos;
    }
    end
}
