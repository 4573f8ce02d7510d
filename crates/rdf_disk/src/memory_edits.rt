//! What a write and a removal of a disk in memory ask of their file.
ghost use Rattle.std.specs.Prelude.{◌≡◌, ◌≤◌, Bool, not, length, if◌then◌else◌, IsSome};
ghost use Rattle.rdf_disk.specs.Files.{bytes_of};
ghost use Rattle.rdf_disk.specs.MemoryChanges.{Told};
ghost use Rattle.rdf_disk.specs.MemoryEntries.{meant, next_odd, IsPossible};
ghost use Rattle.rdf_disk.specs.MemoryDisks.{wished, wished_away, is_done};

use crate::memory_entry::Edit;
use crate::memory_meter::Turn;

/// What a write asks of its file.
pub fn edit_of_write(turn: Turn, at: usize, bytes: &[u8]) -> Edit<'_>
    ensures change { (odd : Bool) → meant odd result ≡ wished turn odd at bytes.now }
    ensures odd { (odd : Bool) → next_odd odd result ≡ (if is_done turn then not odd else odd) }
    ensures possible { (t : Told) → at ≤ length (bytes_of t.seen) → IsPossible result t }
{
    match turn {
        Turn::Go | Turn::Stop(_) => Edit::Put { at, bytes },
        Turn::Fail | Turn::Off => Edit::FailedPut { at, n: bytes.len() },
    }
}

/// What a removal asks of its file.
pub fn edit_of_removal(turn: Turn) -> Edit<'static>
    ensures change { (odd : Bool) → meant odd result ≡ wished_away turn odd }
    ensures odd { (odd : Bool) → next_odd odd result ≡ (if is_done turn then not odd else odd) }
    ensures possible { (t : Told) → IsSome t.seen → IsPossible result t }
{
    match turn {
        Turn::Go | Turn::Stop(_) => Edit::Delete,
        Turn::Fail | Turn::Off => Edit::FailedDelete,
    }
}
