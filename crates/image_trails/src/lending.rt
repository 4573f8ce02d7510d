//! The entries of all trails in the order of their positions, lent or copied.
ghost use Rattle.std.specs.Prelude.{◌≡◌, ◌<◌, ◌≤◌, ◌-◌, [], nat_le, length, take, drop, filter, get_or, map, IfOk, IfSome, MatchOption};
ghost use Rattle.std.specs.List.Sorted.{IsNonDecreasingBy};
ghost use Rattle.rdf_types.specs.declared.records.Stamped.{Stamped as AnyStamped};
ghost use Rattle.rdf_types.specs.Entries.{RiseFrom};
ghost use Rattle.image_disks.specs.Blocks.{found};
ghost use Rattle.image_disks.specs.Values.{listed};
ghost use Rattle.image_trails.specs.Lists.{AllRise, IsBare, IsNext, IsPast, all_of, items_in};

use crate::lists::{count_before, earlier, entry_at, list_of};
use rdf_types::records::{Pos, Stamped};
use std::alloc::{AllocError, Global};
use std::collections::VecDeque;

/// Where the entries from a position on begin, looked for from a place that is not beyond there.
fn place_from(list: &VecDeque<Stamped>, place: usize, at: Pos) -> usize
    requires { place ≤ length list.now.items }
    ensures within { result ≤ length list.now.items }
    ensures past { IsPast place at list.now.items → IsPast result at list.now.items }
    ensures behind { IsNonDecreasingBy (λ s. s.pos) list.now.items → IsPast place at list.now.items
        → drop result list.now.items ≡ filter (λ s. nat_le at s.pos) list.now.items }
    ensures from { (s : AnyStamped) → result < length list.now.items → at ≤ (get_or list.now.items result s).pos }
{
    let mut next = place;
    while next < list.len() {
        if at <= list[next].pos {
            return next;
        }
        next += 1;
    }
    next
}

/// The first entry of one of the lists from one position on and before another. The place is brought on to where it stands.
fn next_of<'a>(
    lists: &'a [VecDeque<Stamped>],
    trail: usize,
    place: &mut usize,
    at: Pos,
    below: Pos,
) -> Option<&'a Stamped>
    requires trail { trail < length lists.now }
    requires within { place.old ≤ length (get_or (items_in lists.now) trail []) }
    ensures within { place.new ≤ length (get_or (items_in lists.now) trail []) }
    ensures past { IsPast place.old at (get_or (items_in lists.now) trail []) → IsPast place.new at (get_or (items_in lists.now) trail []) }
    ensures next { AllRise (items_in lists.now) → IsPast place.old at (get_or (items_in lists.now) trail [])
        → MatchOption result (IsBare (found (get_or (items_in lists.now) trail [])) at below)
        (λ s. IsNext (found (get_or (items_in lists.now) trail [])) at below s.now) }
    ensures between { IfSome result (λ s. (at ≤ s.now.pos) × (s.now.pos < below)) }
{
    let list = list_of(lists, trail);
    *place = place_from(list, *place, at);
    entry_at(list, *place, at, below)
}

/// Where the entries of one of the lists from a position on begin.
fn place_in(lists: &[VecDeque<Stamped>], trail: usize, at: Pos) -> usize
    requires { trail < length lists.now }
    ensures within { result ≤ length (get_or (items_in lists.now) trail []) }
    ensures past { AllRise (items_in lists.now) → IsPast result at (get_or (items_in lists.now) trail []) }
{
    count_before(list_of(lists, trail), at)
}

/// The entries of all lists from one position on and before another, by position, at most so many; of two at one position
/// the one of the lower trail.
pub(crate) fn lend(
    alloc: Global,
    lists: &[VecDeque<Stamped>],
    from: Pos,
    below: Pos,
    most: usize,
) -> Result<Vec<&Stamped>, AllocError>
    requires { length lists.now ≡ 4 }
    ensures rising { IfOk result (λ entries. RiseFrom 0 (map (λ s. s.now) entries.items)) }
    ensures entries { AllRise (items_in lists.now)
        → IfOk result (λ entries. map (λ s. s.now) entries.items ≡ take most (listed (all_of (items_in lists.now)) from (below - from))) }
{
    let mut entries = Vec::new(alloc);
    let mut at = from;
    let mut master = place_in(lists, 0, from);
    let mut first = place_in(lists, 1, from);
    let mut second = place_in(lists, 2, from);
    let mut third = place_in(lists, 3, from);
    while entries.len() < most {
        let last = next_of(lists, 3, &mut third, at, below);
        let later = earlier(next_of(lists, 2, &mut second, at, below), last);
        let later = earlier(next_of(lists, 1, &mut first, at, below), later);
        match earlier(next_of(lists, 0, &mut master, at, below), later) {
            None => return Ok(entries),
            Some(entry) => {
                entries.push(entry)?;
                at = entry.pos.saturating_add(1);
            }
        }
    }
    Ok(entries)
}

/// Copies of entries that are lent.
pub(crate) fn copies_of(alloc: Global, lent: &[&Stamped]) -> Result<Vec<Stamped>, AllocError>
    ensures { IfOk result (λ entries. entries.items ≡ map (λ s. s.now) lent.now) }
{
    let mut entries = Vec::with_capacity(alloc, lent.len())?;
    for entry in lent {
        entries.push(entry.try_clone()?)?;
    }
    Ok(entries)
}
