//! Which losses of power the rules allow.
ghost use Rattle.std.specs.Prelude.{◌≡◌, ◌≢◌, ◌≤◌, ◌<◌, ◌^◌, ◌-◌, ℕ, min, max, true, false, length, take, reverse, slice_index};
ghost use Rattle.rdf_disk.specs.Outcomes.{OutcomeOf, IsRewritten, IsOutside, furthest, least};
ghost use Rattle.memory_folder.specs.Rows.{content, AreSame};
ghost use Rattle.memory_folder.specs.Losses.{covers_place, stays_at, stays_to, IsMixing, mixed, mixed_from};

/// What a loss of power leaves of each file of which something waits for a sync.
#[derive(Clone, Copy, Debug, PartialEq, Eq)]
pub enum Loss {
    /// What a read gives.
    Keep,
    /// What was durable.
    Lose,
    /// What was durable, with each second write that was asked for, where the file is there: the newest
    /// one among them, or not.
    Mix { newest: bool },
}

/// Whether these bytes, or none, are an outcome of the changes that were asked for.
#[tactic(auto, using(crate::proofs::Leaving::equal_left, crate::proofs::Leaving::removed_left, crate::proofs::Leaving::rewritten_left, crate::proofs::Leaving::kept_safe_only, crate::proofs::Leaving::unwritten_only, crate::proofs::Leaving::rewritten_only))]
pub fn is_outcome(
    writes: &[(u64, u64)],
    removed: bool,
    was_there: bool,
    safe: &[u8],
    there: bool,
    bytes: &[u8],
) -> bool
    ensures may { result ≡ true → OutcomeOf (reverse writes.now) removed (content was_there safe.now) (content there bytes.now) }
    ensures only { result ≡ false → OutcomeOf (reverse writes.now) removed (content was_there safe.now) (content there bytes.now) → ⊥ }
{
    if is_equal(there, bytes, was_there, safe) {
        return true;
    }
    if !there {
        return removed;
    }
    if writes.is_empty() {
        return false;
    }
    if was_there {
        return is_rewritten(writes, removed, safe, bytes);
    }
    is_rewritten(writes, removed, &[], bytes)
}

/// Whether two files, each of which may not be there, are the same.
#[tactic(auto, using(crate::proofs::Leaving::other_bytes, crate::proofs::Leaving::other_there))]
pub fn is_equal(there: bool, bytes: &[u8], other_there: bool, other: &[u8]) -> bool
    ensures same { result ≡ true → content there bytes.now ≡ content other_there other.now }
    ensures other { result ≡ false → content there bytes.now ≡ content other_there other.now → ⊥ }
{
    if there {
        return other_there && bytes == other;
    }
    !other_there
}

/// Whether these bytes may be left of a file that was written.
fn is_rewritten(writes: &[(u64, u64)], removed: bool, safe: &[u8], bytes: &[u8]) -> bool
    ensures may { result ≡ true → IsRewritten (reverse writes.now) removed safe.now bytes.now }
    ensures only { result ≡ false → IsRewritten (reverse writes.now) removed safe.now bytes.now → ⊥ }
{
    least_len(removed, safe) <= bytes.len()
        && is_reached(writes, safe, bytes)
        && is_same(writes, safe, bytes)
}

fn least_len(removed: bool, safe: &[u8]) -> usize
    ensures { result ≡ least removed safe.now }
{
    if removed { 0 } else { safe.len() }
}

fn is_reached(writes: &[(u64, u64)], safe: &[u8], bytes: &[u8]) -> bool
    ensures may { result ≡ true → length bytes.now ≤ max (length safe.now) (furthest (reverse writes.now)) }
    ensures only { result ≡ false → max (length safe.now) (furthest (reverse writes.now)) < length bytes.now }
{
    bytes.len() <= safe.len() || reaches(writes, bytes.len() as u64)
}

/// Whether the bytes that no write covers are as they were.
fn is_same(writes: &[(u64, u64)], safe: &[u8], bytes: &[u8]) -> bool
    ensures may { result ≡ true → AreSame (reverse writes.now) safe.now bytes.now }
    ensures only { result ≡ false → AreSame (reverse writes.now) safe.now bytes.now → ⊥ }
{
    for i in 0..bytes.len() {
        if !is_same_at(writes, safe, bytes, i) {
            return false;
        }
    }
    true
}

fn is_same_at(writes: &[(u64, u64)], safe: &[u8], bytes: &[u8], i: usize) -> bool
    requires { i < length bytes.now }
    ensures may { result ≡ true → IsOutside (reverse writes.now) i → slice_index bytes.now i ≡ slice_index safe.now i }
    ensures only { result ≡ false → (IsOutside (reverse writes.now) i) × (slice_index bytes.now i ≢ slice_index safe.now i) }
{
    covers(writes, i as u64) || bytes[i] == byte_at(safe, i)
}

fn byte_at(bytes: &[u8], i: usize) -> u8
    ensures { result ≡ slice_index bytes.now i }
{
    if i < bytes.len() { bytes[i] } else { 0 }
}

/// Whether a write reaches this length.
#[tactic(auto, using(crate::proofs::Leaving::reached, crate::proofs::Leaving::none_reaches))]
fn reaches(writes: &[(u64, u64)], len: u64) -> bool
    requires { 0 < len }
    ensures may { result ≡ true → len ≤ furthest (reverse writes.now) }
    ensures only { result ≡ false → furthest (reverse writes.now) < len }
{
    for k in 0..writes.len() {
        if writes[k].0.saturating_add(writes[k].1) >= len {
            return true;
        }
    }
    false
}

/// Whether a write covers this place.
#[tactic(auto, using(crate::proofs::Leaving::covered, crate::proofs::Leaving::none_covers))]
fn covers(writes: &[(u64, u64)], place: u64) -> bool
    ensures may { result ≡ true → IsOutside (reverse writes.now) place → ⊥ }
    ensures only { result ≡ false → IsOutside (reverse writes.now) place }
{
    for k in 0..writes.len() {
        if writes[k].0 <= place && place - writes[k].0 < writes[k].1 {
            return true;
        }
    }
    false
}

/// Whether a write that stays covers the place.
#[tactic(auto, using(crate::proofs::Mixing::stays_split, crate::proofs::Mixing::stays_none))]
fn stays(writes: &[(u64, u64)], newest: bool, place: u64) -> bool
    ensures { result ≡ stays_at newest (reverse writes.now) place }
{
    match writes.split_last() {
        None => false,
        Some((last, rest)) => (newest && is_in(*last, place)) || stays(rest, !newest, place),
    }
}

fn is_in(write: (u64, u64), place: u64) -> bool
    ensures { result ≡ covers_place write place }
{
    write.0 <= place && place - write.0 < write.1
}

/// The end of the write that stays and reaches furthest.
#[tactic(auto, using(crate::proofs::Mixing::reach_split, crate::proofs::Mixing::reach_none))]
fn reach(writes: &[(u64, u64)], newest: bool) -> u64
    ensures { result ≡ min (stays_to newest (reverse writes.now)) (2 ^ 64 - 1) }
{
    match writes.split_last() {
        None => 0,
        Some((last, rest)) => {
            let other = reach(rest, !newest);
            if newest {
                return last.0.saturating_add(last.1).max(other);
            }
            other
        }
    }
}

/// Puts what was durable in the place of what is lost.
#[tactic(auto, using(crate::proofs::Mixing::cut_so))]
pub fn mix(bytes: &mut Vec<u8>, writes: &[(u64, u64)], newest: bool, safe: &[u8])
    ensures { bytes.new.items ≡ mixed newest (reverse writes.now) safe.now bytes.old.items }
{
    let most = (safe.len() as u64).max(reach(writes, newest));
    bytes.truncate(most as usize);
    mix_all(bytes, writes, newest, safe);
}

#[tactic(auto, using(crate::proofs::Mixing::mixed_start, crate::proofs::Mixing::mixed_end))]
fn mix_all(bytes: &mut Vec<u8>, writes: &[(u64, u64)], newest: bool, safe: &[u8])
    ensures { bytes.new.items ≡ mixed_from newest (reverse writes.now) safe.now 0 bytes.old.items }
{
    for place in 0..bytes.len() {
        mix_at(bytes, writes, newest, safe, place);
    }
}

/// The same at one place.
#[tactic(auto, using(crate::proofs::Mixing::mixed_here, crate::proofs::Mixing::mixed_there))]
fn mix_at(bytes: &mut Vec<u8>, writes: &[(u64, u64)], newest: bool, safe: &[u8], place: usize)
    requires { place < length bytes.old.items }
    ensures mixed { IsMixing newest (reverse writes.now) safe.now place bytes.old.items bytes.new.items }
{
    if !stays(writes, newest, place as u64) {
        bytes[place] = byte_at(safe, place);
    }
}
