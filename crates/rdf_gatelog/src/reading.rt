//! Reading one block of a log in use.
ghost use Rattle.std.specs.Prelude.{◌≡◌, ◌++◌, ◌∷◌, ℕ, List, Some, Err, length, take, drop, IfOk};
ghost use Rattle.rdf_disk.specs.Calls.{Looks};
ghost use Rattle.rdf_disk.specs.Counts.{Causes, ending as disk_ending};
ghost use Rattle.rdf_disk.specs.Files.{bytes_of};
ghost use Rattle.rdf_gatelog.specs.Log.{IsPayload, StandsAt, framed};
ghost use Rattle.rdf_gatelog.specs.LogCalls.{OnlyLooks};
ghost use Rattle.rdf_gatelog.specs.LogCauses.{ending, NotDamaged};

use crate::fault::LogFault;
use rdf_disk::{Disk, DiskFault};
use std::alloc::Global;

/// The bytes of a file from a place on, so many of them, or as many as there are.
pub(crate) fn read_part<D: Disk>(
    alloc: Global,
    disk: &mut D,
    file: u32,
    at: u64,
    most: usize,
) -> Result<Vec<u8>, DiskFault>
    ensures ok { D.tells → IfOk result (λ bytes. bytes.items ≡ take most (drop at (bytes_of (D.files disk.old file).seen))) }
    ensures files { D.tells → Looks result (D.files disk.old) (D.files disk.new) }
    ensures cause { Causes (disk_ending result) (D.counts disk.old) (D.counts disk.new) }
{
    let Ok(mut bytes) = vec![in alloc; 0; most] else {
        return Err(DiskFault::NoMemory);
    };
    let n = disk.read(file, at, &mut bytes)?;
    bytes.truncate(n);
    Ok(bytes)
}

/// How long the payload is behind an open gate and a length, if a block may be so long.
fn payload_length(head: &[u8]) -> Option<usize>
    ensures { (payload : List ℕ) → IsPayload payload → (rest : List ℕ) → head.now ≡ take 5 ((1 ∷ framed payload) ++ rest) → result ≡ Some (length payload) }
{
    let [1, a, b, c, d] = head else {
        return None;
    };
    let len = u32::from_be_bytes([*a, *b, *c, *d]) as usize;
    if len == 0 || len > 65536 {
        return None;
    }
    Some(len)
}

/// The payload of the block whose gate stands at a place of a file. It is Damaged where no open gate or no whole block stands there.
pub(crate) fn block_there<D: Disk>(
    alloc: Global,
    disk: &mut D,
    file: u32,
    at: u64,
) -> Result<Vec<u8>, LogFault>
    ensures ok { D.tells → IfOk result (λ block. (payload : List ℕ) → StandsAt (bytes_of (D.files disk.old file).seen) at payload → block.items ≡ payload) }
    ensures files { D.tells → OnlyLooks result (D.files disk.old) (D.files disk.new) }
    ensures cause { Causes (ending result) (D.counts disk.old) (D.counts disk.new) }
    ensures damaged { (f p : ℕ) → result ≡ Err (LogFault.Damaged f p) → (f ≡ file) × (p ≡ at) }
    ensures sound { D.tells → (payload : List ℕ) → StandsAt (bytes_of (D.files disk.old file).seen) at payload → NotDamaged result }
{
    let damaged = LogFault::Damaged { file, at };
    let head = read_part(alloc, disk, file, at, 5)?;
    let Some(len) = payload_length(&head) else {
        return Err(damaged);
    };
    let Some(place) = at.checked_add(5) else {
        return Err(damaged);
    };
    let payload = read_part(alloc, disk, file, place, len)?;
    if payload.len() < len {
        return Err(damaged);
    }
    Ok(payload)
}
