//! Entries of the trail in the order of their positions, which may be lent.
ghost use Rattle.std.specs.Prelude.{◌≡◌, ◌≤◌, ℕ, length, map, take, refl};
ghost use Rattle.rdf_types.specs.declared.records.Stamped.{Stamped as AnyStamped};
ghost use Rattle.rdf_types.specs.Entries.{RiseFrom, since as entries_since, before as entries_before};

use rdf_types::records::{Pos, Stamped};
use rdf_volume::images::Entry;

/// What holds an entry of the trail: the entry itself, or a loan of it.
pub trait Held: Entry {
    // Its entry.
    ghost stands: { Self → AnyStamped };

    /// Its entry.
    fn stamped(&self) -> &Stamped
        ensures { result.now ≡ stands self.now };

    // The record that it holds is that of its entry.
    ghost same: { (x : Self) → Self.holds x ≡ (stands x).rec };
}

impl Held for Stamped {
    ghost stands = { λ s. s };

    ghost same = { λ s. refl };

    fn stamped(&self) -> &Stamped {
        self
    }
}

impl<'a> Held for &'a Stamped {
    ghost stands = { λ s. s.now };

    ghost same = { λ s. refl };

    fn stamped(&self) -> &Stamped {
        *self
    }
}

/// The entries from the position on.
pub(crate) fn since<E: Held>(part: &[E], at: Pos) -> &[E]
    requires { RiseFrom 0 (map E.stands part.now) }
    ensures { map E.stands result.now ≡ entries_since at (map E.stands part.now) }
{
    let start = part.partition_point(|entry| entry.stamped().pos < at);
    &part[start..]
}

/// The entries below the position.
pub(crate) fn before<E: Held>(part: &[E], at: Pos) -> &[E]
    requires { RiseFrom 0 (map E.stands part.now) }
    ensures { map E.stands result.now ≡ entries_before at (map E.stands part.now) }
{
    let end = part.partition_point(|entry| entry.stamped().pos < at);
    &part[..end]
}

/// The position of the entry at the index, or the end where there is none.
pub(crate) fn position_at<E: Held>(part: &[E], index: usize, end: Pos) -> Pos
    requires below { entries_before end (map E.stands part.now) ≡ map E.stands part.now }
    ensures cut { RiseFrom 0 (map E.stands part.now) → entries_before result (map E.stands part.now) ≡ take index (map E.stands part.now) }
    ensures behind { (at : ℕ) → at ≤ end → RiseFrom at (map E.stands part.now) → at ≤ result }
    ensures within { result ≤ end }
    ensures past { length part.now ≤ index → result ≡ end }
{
    if index < part.len() {
        return part[index].stamped().pos;
    }
    end
}
