//! Lists of entries whose positions rise: parts of them, and copies.
ghost use Rattle.std.specs.Prelude.{◌≡◌, ◌<◌, ◌≤◌, ◌-◌, ℕ, [], nat_lt, nat_le, length, take, drop, filter, get_or, vec_len, Option, IfOk, IfSome, MatchOption};
ghost use Rattle.std.specs.List.Sorted.{IsNonDecreasingBy};
ghost use Rattle.std.specs.VecDeque.{deque_len};
ghost use Rattle.rdf_types.specs.declared.records.Record.{Record as AnyRecord};
ghost use Rattle.rdf_types.specs.declared.records.Stamped.{Stamped as AnyStamped};
ghost use Rattle.image_disks.specs.Blocks.{found};
ghost use Rattle.image_disks.specs.Values.{listed, or_else};
ghost use Rattle.image_trails.specs.Lists.{AllRise, AreLeft, IsBare, IsNext, IsPast, is_on, items_in};
ghost use Rattle.image_trails.specs.Memory.{lists_of};

use rdf_types::records::{Pos, Stamped};
use std::alloc::{AllocError, Global};
use std::collections::VecDeque;

/// How many entries stand before a position.
pub(crate) fn count_before(list: &VecDeque<Stamped>, at: Pos) -> usize
    ensures bound { result ≤ deque_len list.now }
    ensures before { IsNonDecreasingBy (λ s. s.pos) list.now.items → take result list.now.items ≡ filter (λ s. nat_lt s.pos at) list.now.items }
    ensures past { IsNonDecreasingBy (λ s. s.pos) list.now.items → IsPast result at list.now.items }
    ensures behind { IsNonDecreasingBy (λ s. s.pos) list.now.items → drop result list.now.items ≡ filter (λ s. nat_le at s.pos) list.now.items }
{
    list.partition_point(|entry| entry.pos < at)
}

/// Leaves the entries before a position.
fn cut(list: &mut VecDeque<Stamped>, at: Pos)
    ensures { IsNonDecreasingBy (λ s. s.pos) list.old.items → list.new.items ≡ filter (λ s. nat_lt s.pos at) list.old.items }
{
    let count = count_before(list, at);
    list.truncate(count);
}

/// Leaves the entries from a position on.
fn forget(list: &mut VecDeque<Stamped>, at: Pos)
    ensures { IsNonDecreasingBy (λ s. s.pos) list.old.items → list.new.items ≡ filter (λ s. nat_le at s.pos) list.old.items }
{
    let count = count_before(list, at);
    let _ = list.drain(..count);
}

/// Which entries of a list are left: those before a position, or those from it on.
#[derive(Clone, Copy)]
pub(crate) enum Side {
    Before,
    From,
}

/// Leaves a list's entries on one side of a position.
fn leave(list: &mut VecDeque<Stamped>, side: Side, at: Pos)
    ensures { IsNonDecreasingBy (λ s. s.pos) list.old.items → list.new.items ≡ filter (λ s. is_on side at s.pos) list.old.items }
{
    match side {
        Side::Before => cut(list, at),
        Side::From => forget(list, at),
    }
}

/// Leaves each list's entries on one side of a position.
pub(crate) fn leave_all(lists: &mut Vec<VecDeque<Stamped>>, side: Side, at: Pos)
    ensures len { vec_len lists.new ≡ vec_len lists.old }
    ensures each { AreLeft side at (lists_of lists.old) (lists_of lists.new) }
{
    for list in lists.iter_mut() {
        leave(list, side, at);
    }
}

/// The entry at a place, where it stands before a position. What stands from the one position on begins there.
pub(crate) fn entry_at(
    list: &VecDeque<Stamped>,
    place: usize,
    at: Pos,
    below: Pos,
) -> Option<&Stamped>
    ensures next { IsNonDecreasingBy (λ s. s.pos) list.now.items → drop place list.now.items ≡ filter (λ s. nat_le at s.pos) list.now.items
        → MatchOption result (IsBare (found list.now.items) at below) (λ s. IsNext (found list.now.items) at below s.now) }
    ensures between { ((s : AnyStamped) → place < length list.now.items → at ≤ (get_or list.now.items place s).pos)
        → IfSome result (λ s. (at ≤ s.now.pos) × (s.now.pos < below)) }
{
    match list.get(place) {
        Some(entry) if entry.pos < below => Some(entry),
        _ => None,
    }
}

/// The first entry from one position on and before another.
fn first_between(list: &VecDeque<Stamped>, at: Pos, below: Pos) -> Option<&Stamped>
    ensures { IsNonDecreasingBy (λ s. s.pos) list.now.items
        → MatchOption result (IsBare (found list.now.items) at below) (λ s. IsNext (found list.now.items) at below s.now) }
{
    entry_at(list, count_before(list, at), at, below)
}

/// The one that stands earlier; where both stand at one position, the first of the two.
pub(crate) fn earlier<'a>(
    first: Option<&'a Stamped>,
    second: Option<&'a Stamped>,
) -> Option<&'a Stamped>
    ensures next { (f g : ℕ → Option AnyRecord) (at below : ℕ) → MatchOption first.entry (IsBare f at below) (λ s. IsNext f at below s.now)
        → MatchOption second.entry (IsBare g at below) (λ s. IsNext g at below s.now)
        → MatchOption result (IsBare (λ i. or_else (f i) (g i)) at below) (λ s. IsNext (λ i. or_else (f i) (g i)) at below s.now) }
    ensures between { (at below : ℕ) → IfSome first.entry (λ s. (at ≤ s.now.pos) × (s.now.pos < below))
        → IfSome second.entry (λ s. (at ≤ s.now.pos) × (s.now.pos < below)) → IfSome result (λ s. (at ≤ s.now.pos) × (s.now.pos < below)) }
{
    match (first, second) {
        (Some(one), Some(other)) if other.pos < one.pos => Some(other),
        (Some(one), _) => Some(one),
        (None, other) => other,
    }
}

/// The list of a trail.
pub(crate) fn list_of(lists: &[VecDeque<Stamped>], trail: usize) -> &VecDeque<Stamped>
    requires { trail < length lists.now }
    ensures { result.now.items ≡ get_or (items_in lists.now) trail [] }
{
    &lists[trail]
}

/// The first entry of one of the lists from one position on and before another.
fn first_of(lists: &[VecDeque<Stamped>], trail: usize, at: Pos, below: Pos) -> Option<&Stamped>
    requires { trail < length lists.now }
    ensures { AllRise (items_in lists.now) → MatchOption result (IsBare (found (get_or (items_in lists.now) trail [])) at below)
        (λ s. IsNext (found (get_or (items_in lists.now) trail [])) at below s.now) }
{
    first_between(list_of(lists, trail), at, below)
}

/// Copies of the entries of one of the lists from one position on and before another, at most so many.
pub(crate) fn gather(
    alloc: Global,
    lists: &[VecDeque<Stamped>],
    trail: usize,
    from: Pos,
    below: Pos,
    most: u32,
) -> Result<Vec<Stamped>, AllocError>
    requires { trail < length lists.now }
    ensures { AllRise (items_in lists.now)
        → IfOk result (λ entries. entries.items ≡ take most (listed (found (get_or (items_in lists.now) trail [])) from (below - from))) }
{
    let mut entries = Vec::new(alloc);
    let mut at = from;
    while entries.len() < most as usize {
        match first_of(lists, trail, at, below) {
            None => return Ok(entries),
            Some(entry) => {
                entries.push(entry.try_clone()?)?;
                at = entry.pos.saturating_add(1);
            }
        }
    }
    Ok(entries)
}
