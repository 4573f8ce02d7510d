//! A file of a disk in memory, with what takes its changes since the last sync back.
ghost use Rattle.std.specs.Prelude.{◌≡◌, ◌≤◌, ◌+◌, ℕ, length, reverse, vec_capacity, vec_len, OnOk, OnErr, None, IsSome, Bool, false};
ghost use Rattle.rdf_disk.specs.MemoryUndo.{IsEntry, IsEntry-prop};

use crate::fault::Tear;
use crate::memory_held::{Held, Undo};
use std::alloc::{AllocError, Global};

/// A file. The changes since the last sync are taken back by `undo`, whose last is the newest.
/// `redo` has room for each of them and is empty between calls.
#[derive(Drop)]
pub struct Entry {
    pub held: Held,
    pub undo: Vec<Undo>,
    pub redo: Vec<Undo>,
    ghost sound: { IsEntry held.bytes.items held.len (reverse undo.items) (vec_len redo) (vec_capacity redo) } by { IsEntry-prop held.bytes.items held.len (reverse undo.items) (vec_len redo) (vec_capacity redo) },
}

/// A change that is asked of a file.
#[derive(Clone, Copy)]
pub enum Edit<'a> {
    Put { at: usize, bytes: &'a [u8] },
    Delete,
    FailedPut { at: usize, n: usize },
    FailedDelete,
}

impl Entry {
    ghost use Rattle.std.specs.Option.{option_map};
    ghost use Rattle.rdf_disk.specs.Files.{bytes_of};
    ghost use Rattle.rdf_disk.specs.Calls.{Fills};
    ghost use Rattle.rdf_disk.specs.MemoryChanges.{Write, Remove, FailedWrite, FailedRemove, quiet, changed, left_by};
    ghost use Rattle.rdf_disk.specs.MemoryEntries.{told, HasRoom, meant, IsPossible};

    /// A file that isn't there.
    pub fn new(alloc: Global) -> Entry
        ensures { told result ≡ quiet None }
    {
        Entry {
            held: Held {
                bytes: Vec::new(alloc),
                len: None,
            },
            undo: Vec::new(alloc),
            redo: Vec::new(alloc),
        }
    }

    /// How long the file is, or None where it isn't there.
    pub fn len(&self) -> Option<usize>
        ensures { result ≡ option_map length (told self.now).seen }
    {
        self.held.len
    }

    /// Fills in as much as the file has from a place on.
    pub fn read(&self, at: u64, into: &mut [u8]) -> usize
        ensures { Fills (told self.now).seen at into.old result into.new }
    {
        let bytes = &self.held.bytes[..self.held.len.unwrap_or(0)];
        let at = at as usize;
        if at >= bytes.len() {
            return 0;
        }
        let rest = &bytes[at..];
        let n = rest.len().min(into.len());
        into[..n].copy_from_slice(&rest[..n]);
        n
    }

    /// Takes the memory for one change more and for bytes up to a place. The file stays.
    fn make_room(&mut self, end: usize) -> Result<(), AllocError>
        ensures same { told self.new ≡ told self.old }
        ensures ok { OnOk result (HasRoom self.new end) }
    {
        self.undo.reserve(1)?;
        self.redo.reserve(self.undo.len() + 1)?;
        if self.held.bytes.len() < end {
            self.held.bytes.resize(end, 0)?;
        }
        Ok(())
    }

    /// Makes a change. After an `Err` the file is as before.
    pub fn change(&mut self, alloc: Global, odd: bool, edit: Edit<'_>) -> Result<(), AllocError>
        requires { IsPossible edit (told self.old) }
        ensures ok { OnOk result (told self.new ≡ changed (meant odd edit.entry) (told self.old)) }
        ensures err { OnErr result (told self.new ≡ told self.old) }
    {
        match edit {
            Edit::Put { at, bytes } => return self.write(alloc, odd, at, bytes),
            Edit::Delete => return self.remove(odd),
            Edit::FailedPut { at, n } => return self.fail_write(at, n),
            Edit::FailedDelete => return self.fail_remove(),
        }
    }

    /// Writes bytes at a place within the file. After an `Err` the file is as before.
    fn write(&mut self, alloc: Global, odd: bool, at: usize, new: &[u8]) -> Result<(), AllocError>
        requires { at ≤ length (bytes_of (told self.old).seen) }
        ensures ok { OnOk result (told self.new ≡ changed (Write odd at new.now) (told self.old)) }
        ensures err { OnErr result (told self.new ≡ told self.old) }
    {
        let end = at + new.len();
        self.make_room(end)?;
        let held = self.held.bytes[at..end].to_vec(alloc)?;
        let len = self.held.len;
        self.held.put(at, new);
        let _ = self.undo.push(Undo::OfWrite { odd, at, held, len });
        Ok(())
    }

    /// Removes a file that is there. After an `Err` the file is as before.
    fn remove(&mut self, odd: bool) -> Result<(), AllocError>
        requires { IsSome (told self.old).seen }
        ensures ok { OnOk result (told self.new ≡ changed (Remove odd) (told self.old)) }
        ensures err { OnErr result (told self.new ≡ told self.old) }
    {
        self.make_room(0)?;
        let len = self.held.len.unwrap_or(0);
        self.held.len = None;
        let _ = self.undo.push(Undo::OfRemoval { odd, len });
        Ok(())
    }

    /// Notes a write that failed. After an `Err` the file is as before.
    fn fail_write(&mut self, at: usize, n: usize) -> Result<(), AllocError>
        ensures ok { OnOk result (told self.new ≡ changed (FailedWrite at n) (told self.old)) }
        ensures err { OnErr result (told self.new ≡ told self.old) }
    {
        self.make_room(0)?;
        let _ = self.undo.push(Undo::OfFailedWrite { at, n });
        Ok(())
    }

    /// Notes a removal that failed. After an `Err` the file is as before.
    fn fail_remove(&mut self) -> Result<(), AllocError>
        ensures ok { OnOk result (told self.new ≡ changed FailedRemove (told self.old)) }
        ensures err { OnErr result (told self.new ≡ told self.old) }
    {
        self.make_room(0)?;
        let _ = self.undo.push(Undo::OfFailedRemoval);
        Ok(())
    }

    /// The file becomes what a stop leaves of it.
    pub fn settle(&mut self, tear: Tear)
        ensures { told self.new ≡ quiet (left_by tear (told self.old)) }
    {
        match tear {
            Tear::Keep => self.undo.clear(),
            Tear::Lose => {
                self.held.take_all_back(&mut self.undo, &mut self.redo);
                self.redo.clear();
            }
            Tear::Mix => {
                self.held.take_all_back(&mut self.undo, &mut self.redo);
                self.held.redo_all_torn(&mut self.redo);
            }
        }
    }
}
