//! A file of a folder in memory.
ghost use Rattle.std.specs.Prelude.{◌≡◌, ◌≢◌, ◌≤◌, ◌<◌, ◌-◌, [], min, true, false, length, reverse, Some, None, OnOk, OnErr, IfOk};
ghost use Rattle.std.specs.Option.{option_map};
ghost use Rattle.rdf_disk.specs.Files.{bytes_of, patched};
ghost use Rattle.folder_disk.specs.Names.{IsRead, is_as_long};
ghost use Rattle.memory_folder.specs.Rows.{content, IsSoundRow, IsSoundRow-prop};

use crate::losses::{Loss, is_equal, is_outcome, mix};
use std::alloc::{AllocError, Global};
use std::mem;

/// A file: what a read gives, and, where it is not at rest, what was safe and what was asked since.
#[derive(Drop)]
pub struct Row {
    pub is_there: bool,
    pub bytes: Vec<u8>,
    pub is_rested: bool,
    pub was_there: bool,
    pub safe: Vec<u8>,
    pub writes: Vec<(u64, u64)>,
    pub removed: bool,
    pub dirty: bool,
    pub moved: bool,
    ghost sound: { IsSoundRow is_there bytes.items is_rested was_there safe.items (reverse writes.items) removed } by { IsSoundRow-prop is_there bytes.items is_rested was_there safe.items (reverse writes.items) removed },
}

impl Row {
    ghost use Rattle.folder_disk.specs.Names.{asked, asked_away, made, filled, unmade, flushed, flushed_if, is_steady, entered, rested, IsAsked, IsAskedAway, IsLeft, is_whole};
    ghost use Rattle.memory_folder.specs.Fakes.{name_of, clean_name};
    ghost use Rattle.memory_folder.specs.Losses.{Lost, mixed_if};

    /// A file that isn't there.
    pub fn new(alloc: Global) -> Row
        ensures { name_of result ≡ clean_name None }
    {
        Row {
            is_there: false,
            bytes: Vec::new(alloc),
            is_rested: true,
            was_there: false,
            safe: Vec::new(alloc),
            writes: Vec::new(alloc),
            removed: false,
            dirty: false,
            moved: false,
        }
    }

    /// Sets what is safe aside.
    fn unrest(&mut self, alloc: Global) -> Result<(), AllocError>
        ensures same { name_of self.new ≡ name_of self.old }
        ensures ok { OnOk result (self.new.is_rested ≡ false) }
    {
        if !self.is_rested {
            return Ok(());
        }
        self.safe = self.bytes.to_vec(alloc)?;
        self.was_there = self.is_there;
        self.writes.clear();
        self.removed = false;
        self.is_rested = false;
        Ok(())
    }

    /// A write is to come.
    pub fn ask(&mut self, alloc: Global, at: u64, len: u64) -> Result<(), AllocError>
        ensures ok { OnOk result (name_of self.new ≡ asked (name_of self.old) at len) }
        ensures err { OnErr result (name_of self.new ≡ name_of self.old) }
    {
        self.unrest(alloc)?;
        self.writes.push((at, len))?;
        Ok(())
    }

    /// A removal is to come.
    pub fn ask_away(&mut self, alloc: Global) -> Result<(), AllocError>
        ensures ok { OnOk result (name_of self.new ≡ asked_away (name_of self.old)) }
        ensures err { OnErr result (name_of self.new ≡ name_of self.old) }
    {
        if !self.is_there {
            return Ok(());
        }
        self.unrest(alloc)?;
        self.removed = true;
        Ok(())
    }

    /// The file is made where there was none; its entry waits for a sync of the folder.
    pub fn make(&mut self)
        requires { (name_of self.old).file.writes ≢ [] }
        ensures { name_of self.new ≡ made (name_of self.old) }
    {
        if !self.is_there {
            self.bytes.clear();
            self.is_there = true;
        }
        self.dirty = true;
        self.moved = true;
    }

    /// The file is removed; that its entry went waits for a sync of the folder.
    pub fn remove(&mut self)
        requires { IsAskedAway (name_of self.old).file }
        ensures { name_of self.new ≡ unmade (name_of self.old) None }
    {
        self.is_there = false;
        self.moved = true;
    }

    /// The file was synced: its bytes wait for nothing more.
    pub fn flush(&mut self)
        ensures { name_of self.new ≡ flushed (name_of self.old) }
    {
        self.dirty = false;
    }

    /// The file's data was synced: its bytes wait for nothing more where its entry and its length do not.
    pub fn flush_data(&mut self)
        ensures { name_of self.new ≡ flushed_if (is_steady (name_of self.old)) (name_of self.old) }
    {
        if !self.is_steady() {
            return;
        }
        self.dirty = false;
    }

    /// Whether neither the entry nor the length changed since the file was last whole.
    #[tactic(auto, using(crate::proofs::Steady::steady_moved, crate::proofs::Steady::steady_rested, crate::proofs::Steady::steady_removed, crate::proofs::Steady::steady_by_length))]
    fn is_steady(&self) -> bool
        ensures { result ≡ is_steady (name_of self.now) }
    {
        if self.moved {
            return false;
        }
        if self.is_rested {
            return true;
        }
        if self.removed {
            return false;
        }
        is_as_long(self.is_there, &self.bytes, self.was_there, &self.safe)
    }

    /// The folder was synced: the entry waits for nothing more.
    pub fn enter(&mut self)
        ensures { name_of self.new ≡ entered (name_of self.old) }
    {
        self.moved = false;
    }

    /// Where neither waits for a sync, what was asked before is forgotten.
    pub fn rest(&mut self)
        ensures { name_of self.new ≡ rested (name_of self.old) }
    {
        if (self.dirty && self.is_there) || self.moved {
            return;
        }
        self.is_rested = true;
    }

    /// A loss of power leaves these bytes, or none, exactly where the rules allow it.
    pub fn leave(&mut self, there: bool, bytes: Vec<u8>) -> bool
        ensures left { result ≡ true → IsLeft (name_of self.old) (content there bytes.items) }
        ensures only { result ≡ false → IsLeft (name_of self.old) (content there bytes.items) → ⊥ }
        ensures is { result ≡ true → name_of self.new ≡ clean_name (content there bytes.items) }
        ensures same { result ≡ false → name_of self.new ≡ name_of self.old }
    {
        if !self.may_leave(there, &bytes) {
            return false;
        }
        self.is_there = there;
        self.bytes = bytes;
        self.is_rested = true;
        self.dirty = false;
        self.moved = false;
        true
    }

    #[tactic(auto, using(crate::proofs::Leaving::kept_left, crate::proofs::Leaving::pending_left, crate::proofs::Leaving::kept_only, crate::proofs::Leaving::rested_only, crate::proofs::Leaving::pending_only))]
    fn may_leave(&self, there: bool, bytes: &[u8]) -> bool
        ensures may { result ≡ true → IsLeft (name_of self.now) (content there bytes.now) }
        ensures only { result ≡ false → IsLeft (name_of self.now) (content there bytes.now) → ⊥ }
    {
        if self.is_rested || self.is_whole() {
            return is_equal(there, bytes, self.is_there, &self.bytes);
        }
        is_outcome(
            &self.writes,
            self.removed,
            self.was_there,
            &self.safe,
            there,
            bytes,
        )
    }

    /// Whether nothing of the file waits for a sync.
    #[tactic(auto, using(crate::specs::Rows::seen_by))]
    fn is_whole(&self) -> bool
        ensures { result ≡ is_whole (name_of self.now) }
    {
        !(self.dirty && self.is_there) && !self.moved
    }

    /// A loss of power leaves what a read gives.
    #[tactic(auto, using(crate::specs::Rows::seen_by))]
    fn keep(&mut self)
        ensures { name_of self.new ≡ clean_name (name_of self.old).file.seen }
    {
        self.is_rested = true;
        self.dirty = false;
        self.moved = false;
    }

    /// A loss of power leaves what was durable.
    fn take_back(&mut self)
        requires { self.old.is_rested ≡ false }
        ensures { name_of self.new ≡ clean_name (name_of self.old).file.safe }
    {
        self.is_rested = true;
        self.dirty = false;
        self.moved = false;
        mem::swap(&mut self.bytes, &mut self.safe);
        self.is_there = self.was_there;
    }

    /// A loss of power leaves what was durable with some of what was written.
    fn mix(&mut self, newest: bool)
        requires { self.old.is_rested ≡ false }
        ensures { name_of self.new ≡ clean_name (mixed_if newest (name_of self.old).file (name_of self.old).file.seen) }
    {
        self.is_rested = true;
        self.dirty = false;
        self.moved = false;
        if !self.is_there {
            return;
        }
        let safe = durable(self.was_there, &self.safe);
        mix(&mut self.bytes, &self.writes, newest, safe);
    }

    /// A loss of power.
    #[tactic(auto, using(crate::proofs::Mixing::lost_rested, crate::proofs::Mixing::lost_whole, crate::proofs::Mixing::lost_keep, crate::proofs::Mixing::lost_safe, crate::proofs::Mixing::lost_mixed))]
    pub fn lose(&mut self, loss: Loss)
        ensures { Lost loss (name_of self.old) (name_of self.new) }
    {
        if self.is_rested {
            return self.keep();
        }
        if self.is_whole() {
            return self.keep();
        }
        match loss {
            Loss::Keep => self.keep(),
            Loss::Lose => self.take_back(),
            Loss::Mix { newest } => self.mix(newest),
        }
    }

    /// A change that was not done may have touched the bytes.
    pub fn soil(&mut self)
        ensures { name_of self.new ≡ filled (name_of self.old) (name_of self.old).file.seen }
    {
        self.dirty = true;
    }

    /// A removal that was not done may have touched the entry.
    pub fn disturb(&mut self)
        ensures { name_of self.new ≡ unmade (name_of self.old) (name_of self.old).file.seen }
    {
        self.moved = true;
    }

    /// The length of a file that is there.
    #[tactic(auto, using(crate::specs::Rows::seen_by))]
    pub fn len(&self) -> Option<u64>
        ensures { result ≡ option_map length (name_of self.now).file.seen }
    {
        if !self.is_there {
            return None;
        }
        Some(self.bytes.len() as u64)
    }

    /// Reads at most so many bytes from a place on.
    #[tactic(auto, using(crate::specs::Rows::seen_by))]
    pub fn read(&self, at: u64, into: &mut [u8], most: usize) -> usize
        requires { 0 < most }
        ensures read { IsRead (name_of self.now).file.seen at into.old result into.new }
        ensures piece { result ≡ min most (min (length into.old) (length (bytes_of (name_of self.now).file.seen) - at)) }
    {
        if !self.is_there {
            return 0;
        }
        read_some(&self.bytes, at, into, most)
    }

    /// Writes bytes within a write that was asked for. After an `Err` the bytes are as before, and wait for a sync.
    pub fn fill_or_soil(&mut self, alloc: Global, at: usize, new: &[u8]) -> Result<(), AllocError>
        requires asked { IsAsked (name_of self.old).file.writes at (length new.now) }
        requires no_gap { at ≤ length (bytes_of (name_of self.old).file.seen) }
        ensures ok { OnOk result (name_of self.new ≡ filled (name_of self.old) (Some (patched (bytes_of (name_of self.old).file.seen) at new.now))) }
        ensures err { OnErr result (name_of self.new ≡ filled (name_of self.old) (name_of self.old).file.seen) }
    {
        self.soil();
        self.fill(alloc, at, new)
    }

    /// The same. After an `Err` the file is as before.
    #[tactic(auto, using(crate::proofs::Sound::sound_filled))]
    pub fn fill(&mut self, alloc: Global, at: usize, new: &[u8]) -> Result<(), AllocError>
        requires asked { IsAsked (name_of self.old).file.writes at (length new.now) }
        requires no_gap { at ≤ length (bytes_of (name_of self.old).file.seen) }
        ensures ok { OnOk result (name_of self.new ≡ filled (name_of self.old) (Some (patched (bytes_of (name_of self.old).file.seen) at new.now))) }
        ensures err { OnErr result (name_of self.new ≡ name_of self.old) }
    {
        self.bytes = patch_if(alloc, self.is_there, &self.bytes, at, new)?;
        self.is_there = true;
        self.dirty = true;
        Ok(())
    }
}

/// Whether two files are as long, or neither is there.
fn is_as_long(there: bool, bytes: &[u8], other_there: bool, other: &[u8]) -> bool
    ensures { result ≡ is_as_long (content there bytes.now) (content other_there other.now) }
{
    if there {
        return other_there && bytes.len() == other.len();
    }
    !other_there
}

/// The bytes that were safe: none where there was no file.
fn durable(was_there: bool, safe: &[u8]) -> &[u8]
    ensures { result.now ≡ bytes_of (content was_there safe.now) }
{
    if was_there {
        return safe;
    }
    &[]
}

fn read_some(bytes: &[u8], at: u64, into: &mut [u8], most: usize) -> usize
    requires { 0 < most }
    ensures read { IsRead (Some bytes.now) at into.old result into.new }
    ensures piece { result ≡ min most (min (length into.old) (length bytes.now - at)) }
{
    let at = at as usize;
    if at >= bytes.len() {
        return 0;
    }
    let rest = &bytes[at..];
    let n = rest.len().min(into.len()).min(most);
    into[..n].copy_from_slice(&rest[..n]);
    n
}

/// Old bytes with others at a place.
fn patch(alloc: Global, old: &[u8], at: usize, new: &[u8]) -> Result<Vec<u8>, AllocError>
    requires { at ≤ length old.now }
    ensures { IfOk result (λ bytes. bytes.items ≡ patched old.now at new.now) }
{
    let mut bytes = Vec::new(alloc);
    bytes.extend_from_slice(&old[..at])?;
    bytes.extend_from_slice(new)?;
    let end = at.saturating_add(new.len());
    if end < old.len() {
        bytes.extend_from_slice(&old[end..])?;
    }
    Ok(bytes)
}

/// The same of a file that may not be there.
fn patch_if(
    alloc: Global,
    is_there: bool,
    old: &[u8],
    at: usize,
    new: &[u8],
) -> Result<Vec<u8>, AllocError>
    requires { at ≤ length (bytes_of (content is_there old.now)) }
    ensures { IfOk result (λ bytes. bytes.items ≡ patched (bytes_of (content is_there old.now)) at new.now) }
{
    if is_there {
        return patch(alloc, old, at, new);
    }
    patch(alloc, &[], at, new)
}
