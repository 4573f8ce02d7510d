//! The bytes of a file in memory, and how its changes are taken back and done again.
ghost use Rattle.std.specs.Prelude.{◌≡◌, ◌≤◌, ◌+◌, ◌-◌, ℕ, length, take, drop, replicate, reverse, map, [], vec_len, vec_capacity, None, Some};
ghost use Rattle.rdf_disk.specs.Files.{patched, bytes_of};

/// The bytes of a file, of which the first so many are the file's, or None where there is no file.
#[derive(Drop)]
pub struct Held {
    pub bytes: Vec<u8>,
    pub len: Option<usize>,
}

/// How a change is taken back: what its range held, and how long the file was.
#[derive(Drop)]
pub enum Undo {
    OfWrite {
        odd: bool,
        at: usize,
        held: Vec<u8>,
        len: Option<usize>,
    },
    OfRemoval {
        odd: bool,
        len: usize,
    },
    OfFailedWrite {
        at: usize,
        n: usize,
    },
    OfFailedRemoval,
}

/// The bytes at a place are exchanged for others.
fn exchange(bytes: &mut Vec<u8>, at: usize, held: &mut Vec<u8>)
    requires { at + length held.old.items ≤ length bytes.old.items }
    ensures bytes { bytes.new.items ≡ patched bytes.old.items at held.old.items }
    ensures held { held.new.items ≡ take (length held.old.items) (drop at bytes.old.items) }
{
    let end = at + held.len();
    bytes[at..end].swap_with_slice(held);
}

/// Zeros are put where the file ends, up to a place.
fn clear(bytes: &mut Vec<u8>, len: usize, at: usize)
    requires order { len ≤ at }
    requires within { at ≤ length bytes.old.items }
    ensures { bytes.new.items ≡ patched bytes.old.items len (replicate (at - len) 0) }
{
    bytes[len..at].fill(0);
}

/// Bytes are written over others.
fn overwrite(bytes: &mut Vec<u8>, at: usize, new: &[u8])
    requires { at + length new.now ≤ length bytes.old.items }
    ensures { bytes.new.items ≡ patched bytes.old.items at new.now }
{
    bytes[at..at + new.len()].copy_from_slice(new);
}

impl Held {
    ghost use Rattle.rdf_disk.specs.MemoryChanges.{written, torn, mixed};
    ghost use Rattle.rdf_disk.specs.MemoryUndo.{content, IsWithin, AreWithin, IsLong, bytes_before, len_before, redo_of, change_of, changes_of, safe_of};

    /// Writes bytes, also past the end of the file.
    pub fn put(&mut self, at: usize, new: &[u8])
        requires within { at + length new.now ≤ length self.old.bytes.items }
        requires long { IsLong self.old.len (length self.old.bytes.items) }
        ensures content { content self.new.bytes.items self.new.len ≡ written (content self.old.bytes.items self.old.len) at new.now }
        ensures same { at ≤ length (bytes_of (content self.old.bytes.items self.old.len)) → self.new.bytes.items ≡ patched self.old.bytes.items at new.now }
        ensures length { length self.new.bytes.items ≡ length self.old.bytes.items }
        ensures long { IsLong self.new.len (length self.new.bytes.items) }
    {
        let len = self.len.unwrap_or(0);
        if len < at {
            clear(&mut self.bytes, len, at);
        }
        overwrite(&mut self.bytes, at, new);
        self.len = Some(len.max(at + new.len()));
    }

    /// Takes the newest change back, and answers it as it can be done again.
    pub fn take_back(&mut self, undo: Undo) -> Undo
        requires { IsWithin undo (length self.old.bytes.items) }
        ensures bytes { self.new.bytes.items ≡ bytes_before undo self.old.bytes.items }
        ensures len { self.new.len ≡ len_before undo self.old.len }
        ensures change { redo_of result ≡ change_of undo self.old.bytes.items }
        ensures within { IsWithin result (length self.new.bytes.items) }
        ensures length { length self.new.bytes.items ≡ length self.old.bytes.items }
    {
        match undo {
            Undo::OfWrite {
                odd,
                at,
                mut held,
                len,
            } => {
                exchange(&mut self.bytes, at, &mut held);
                self.len = len;
                return Undo::OfWrite { odd, at, held, len };
            }
            Undo::OfRemoval { odd, len } => {
                self.len = Some(len);
                return Undo::OfRemoval { odd, len };
            }
            Undo::OfFailedWrite { at, n } => return Undo::OfFailedWrite { at, n },
            Undo::OfFailedRemoval => return Undo::OfFailedRemoval,
        }
    }

    /// Does a change again as the tear `mix` leaves it.
    pub fn redo_torn(&mut self, change: Undo)
        requires within { IsWithin change (length self.old.bytes.items) }
        requires long { IsLong self.old.len (length self.old.bytes.items) }
        ensures content { content self.new.bytes.items self.new.len ≡ torn (redo_of change) (content self.old.bytes.items self.old.len) }
        ensures length { length self.new.bytes.items ≡ length self.old.bytes.items }
        ensures long { IsLong self.new.len (length self.new.bytes.items) }
    {
        match change {
            Undo::OfWrite {
                odd: true,
                at,
                held,
                len: _,
            } => {
                let n = held.len() / 2;
                if n == 0 {
                    return;
                }
                self.put(at, &held[..n]);
                return;
            }
            Undo::OfWrite {
                odd: false,
                at,
                held,
                len: _,
            } => {
                self.put(at, &held);
                return;
            }
            Undo::OfRemoval { odd: false, len: _ } => {
                self.len = None;
                return;
            }
            Undo::OfRemoval { odd: true, len: _ } => return,
            Undo::OfFailedWrite { at: _, n: _ } => return,
            Undo::OfFailedRemoval => return,
        }
    }

    /// Takes all changes back, the newest first, and puts them aside in that order.
    pub fn take_all_back(&mut self, undo: &mut Vec<Undo>, redo: &mut Vec<Undo>)
        requires within { AreWithin (reverse undo.old.items) (length self.old.bytes.items) }
        requires long { IsLong self.old.len (length self.old.bytes.items) }
        requires empty { redo.old.items ≡ [] }
        requires room { vec_len undo.old ≤ vec_capacity redo.old }
        ensures taken { undo.new.items ≡ [] }
        ensures redo { map redo_of redo.new.items ≡ changes_of (reverse undo.old.items) self.old.bytes.items }
        ensures within { AreWithin redo.new.items (length self.new.bytes.items) }
        ensures content { content self.new.bytes.items self.new.len ≡ safe_of (reverse undo.old.items) self.old.bytes.items self.old.len }
        ensures length { length self.new.bytes.items ≡ length self.old.bytes.items }
        ensures long { IsLong self.new.len (length self.new.bytes.items) }
    {
        while let Some(newest) = undo.pop() {
            let change = self.take_back(newest);
            let _ = redo.push(change);
        }
    }

    /// Does all changes again, the oldest first, as the tear `mix` leaves them.
    pub fn redo_all_torn(&mut self, redo: &mut Vec<Undo>)
        requires within { AreWithin redo.old.items (length self.old.bytes.items) }
        requires long { IsLong self.old.len (length self.old.bytes.items) }
        ensures done { redo.new.items ≡ [] }
        ensures content { content self.new.bytes.items self.new.len ≡ mixed (map redo_of redo.old.items) (content self.old.bytes.items self.old.len) }
        ensures length { length self.new.bytes.items ≡ length self.old.bytes.items }
        ensures long { IsLong self.new.len (length self.new.bytes.items) }
    {
        while let Some(oldest) = redo.pop() {
            self.redo_torn(oldest);
        }
    }
}
