//! Looks at a folder.
ghost use Rattle.std.specs.Prelude.{All, ◌≡◌, ◌≤◌, ◌<◌, ◌+◌, ◌-◌, ◌^◌, ℕ, List, [], ◌∷◌, ◌++◌, Option, None, Err, true, false, length, min, IfOk};
ghost use Rattle.std.specs.Option.{option_map};
ghost use Rattle.rdf_disk.specs.Files.{bytes_of, IsSpan};
ghost use Rattle.rdf_disk.specs.Calls.{Fills};
ghost use Rattle.folder_disk.specs.declared.fault.FolderFault.TheVariants.{NotFound};
ghost use Rattle.folder_disk.specs.Causes.{HasCause, is_failed, told_of};
ghost use Rattle.folder_disk.specs.Names.{Still, IsRead};
ghost use Rattle.folder_disk.specs.Tracked.{IsSpanOf, IsThere, Reaches, files_of};

use crate::call_fault::CallFault;
use crate::fault::FolderFault;
use crate::folder::{Folder, TRIES};
use std::alloc::Global;

/// For calls that change nothing.
pub fn fault_of_look(fault: FolderFault) -> CallFault
    ensures { result ≡ told_of fault }
{
    match fault {
        FolderFault::NoMemory => CallFault::NoMemory,
        FolderFault::NotFound
        | FolderFault::Interrupted
        | FolderFault::Refused
        | FolderFault::Failed => CallFault::Failed,
    }
}

/// How long a file is, or None where it isn't there.
#[tactic(auto, using(crate::proofs::Causing::told_missed))]
pub fn len_of<F: Folder>(folder: &mut F, file: u32) -> Result<Option<u64>, CallFault>
    ensures ok { F.tells → F.lost folder.old ≡ false → IfOk result (λ len. len ≡ option_map length (F.names folder.old file).file.seen) }
    ensures names { F.tells → Still (F.names folder.old) (F.names folder.new) }
    ensures lost { F.tells → F.lost folder.new ≡ F.lost folder.old }
    ensures cause { F.tells → F.lost folder.old ≡ false → HasCause (is_failed result) (F.refusals folder.old) (F.refusals folder.new) }
{
    match folder.len(file) {
        Ok(len) => Ok(Some(len)),
        Err(fault) => match fault {
            FolderFault::NotFound => Ok(None),
            _ => Err(fault_of_look(fault)),
        },
    }
}

/// How long a file is, unless the place is past its end: a gap would hide that bytes are gone.
#[tactic(auto, using(crate::proofs::Causing::any_failure, crate::proofs::Causing::none_refused, crate::proofs::Causing::no_failure))]
pub fn reach<F: Folder>(folder: &mut F, file: u32, at: u64) -> Result<Option<u64>, CallFault>
    requires no_gap { F.tells → at ≤ length (bytes_of (F.names folder.old file).file.seen) }
    ensures ok { F.tells → F.lost folder.old ≡ false → IfOk result (λ len. len ≡ option_map length (F.names folder.old file).file.seen) }
    ensures names { F.tells → Still (F.names folder.old) (F.names folder.new) }
    ensures lost { F.tells → F.lost folder.new ≡ F.lost folder.old }
    ensures cause { F.tells → F.lost folder.old ≡ false → HasCause (is_failed result) (F.refusals folder.old) (F.refusals folder.new) }
{
    match len_of(folder, file) {
        Ok(len) if at <= len.unwrap_or(0) => Ok(len),
        Ok(_) => Err(CallFault::Failed),
        Err(fault) => Err(fault),
    }
}

/// Whether a file that is there reaches the end of a write.
pub fn is_within(now: Option<u64>, at: u64, len: usize) -> bool
    ensures { (x : Option (List ℕ)) → now ≡ option_map length x → result ≡ true → Reaches x (at + len) }
{
    match now {
        Some(now) => at <= now && now - at >= len as u64,
        None => false,
    }
}

/// Opens a file that is there, and tells whether it is.
#[tactic(auto, using(crate::proofs::Causing::told_missed, crate::proofs::Opening::missing))]
pub fn is_opened<F: Folder>(folder: &mut F, file: u32) -> Result<bool, CallFault>
    ensures ok { F.tells → F.lost folder.old ≡ false → IfOk result (λ there. IsThere there (F.names folder.old file).file.seen) }
    ensures names { F.tells → Still (F.names folder.old) (F.names folder.new) }
    ensures lost { F.tells → F.lost folder.new ≡ F.lost folder.old }
    ensures cause { F.tells → HasCause (is_failed result) (F.refusals folder.old) (F.refusals folder.new) }
{
    match folder.open(file) {
        Ok(()) => Ok(true),
        Err(fault) => match fault {
            FolderFault::NotFound => Ok(false),
            _ => Err(fault_of_look(fault)),
        },
    }
}

/// The lowest number, and one more than the highest.
fn span_of(numbers: &[u32]) -> (u32, u32)
    requires { All (λ n. n < 2 ^ 32 - 1) numbers.now }
    ensures { IsSpanOf numbers.now result.0 result.1 }
{
    let mut span = (0, 0);
    for i in 0..numbers.len() {
        span = widened(span, numbers[i]);
    }
    span
}

/// The span with one number more.
fn widened(span: (u32, u32), number: u32) -> (u32, u32)
    requires { number < 2 ^ 32 - 1 }
    ensures { (all : List ℕ) → IsSpanOf all span.0 span.1 → IsSpanOf (all ++ number ∷ []) result.0 result.1 }
{
    if span.1 == 0 {
        return (number, number + 1);
    }
    (span.0.min(number), span.1.max(number + 1))
}

/// The lowest number of a file that is there, and one more than the highest.
#[tactic(auto, using(crate::proofs::Causing::told_refused))]
pub fn span_in<F: Folder>(folder: &mut F, alloc: Global) -> Result<(u32, u32), CallFault>
    ensures ok { F.tells → F.lost folder.old ≡ false → IfOk result (λ span. IsSpan (files_of (F.names folder.old)) span.0 span.1) }
    ensures names { F.tells → Still (F.names folder.old) (F.names folder.new) }
    ensures lost { F.tells → F.lost folder.new ≡ F.lost folder.old }
    ensures cause { F.tells → F.lost folder.old ≡ false → HasCause (is_failed result) (F.refusals folder.old) (F.refusals folder.new) }
{
    match folder.numbers(alloc) {
        Ok(found) => Ok(span_of(&found)),
        Err(fault) => Err(fault_of_look(fault)),
    }
}

/// Fills as much as there is from that place on, of a file that is there and has these bytes.
fn fill_from<F: Folder>(
    folder: &mut F,
    file: u32,
    at: u64,
    into: &mut [u8],
) -> Result<usize, CallFault>
    requires small { at + length into.old < 2 ^ 64 }
    ensures ok { F.tells → F.lost folder.old ≡ false → IfOk result (λ n. Fills (F.names folder.old file).file.seen at into.old n into.new) }
    ensures within { IfOk result (λ n. n ≤ length into.old) }
    ensures names { F.tells → Still (F.names folder.old) (F.names folder.new) }
    ensures lost { F.tells → F.lost folder.new ≡ F.lost folder.old }
    ensures cause { F.tells → F.lost folder.old ≡ false → HasCause (is_failed result) (F.refusals folder.old) (F.refusals folder.new) }
{
    let mut filled = 0;
    while filled < into.len() {
        let taken = read_some(folder, file, at + filled as u64, &mut into[filled..])?;
        if taken == 0 {
            break;
        }
        filled += taken;
    }
    Ok(filled)
}

/// One read, tried again where a signal interrupts it.
#[tactic(auto, using(crate::proofs::Causing::told_refused, crate::proofs::Causing::none_refused, crate::proofs::Causing::turn_refused, crate::proofs::Causing::turns_end))]
fn read_some<F: Folder>(
    folder: &mut F,
    file: u32,
    at: u64,
    into: &mut [u8],
) -> Result<usize, CallFault>
    ensures ok { F.tells → F.lost folder.old ≡ false → IfOk result (λ n. IsRead (F.names folder.old file).file.seen at into.old n into.new) }
    ensures within { IfOk result (λ n. n ≤ length into.old) }
    ensures names { F.tells → Still (F.names folder.old) (F.names folder.new) }
    ensures lost { F.tells → F.lost folder.new ≡ F.lost folder.old }
    ensures cause { F.tells → F.lost folder.old ≡ false → HasCause (is_failed result) (F.refusals folder.old) (F.refusals folder.new) }
{
    for _turn in 0..TRIES {
        match folder.read(file, at, into) {
            Ok(n) => return Ok(n),
            Err(FolderFault::Interrupted) => {}
            Err(fault) => return Err(fault_of_look(fault)),
        }
    }
    Err(CallFault::Failed)
}

/// Fills as much as there is from that place on. A file that isn't there has no bytes.
#[tactic(auto, using(crate::proofs::Causing::cause_behind, crate::proofs::Causing::no_failure, crate::proofs::Causing::any_failure))]
pub fn read_from<F: Folder>(
    folder: &mut F,
    file: u32,
    at: u64,
    into: &mut [u8],
) -> Result<usize, CallFault>
    ensures ok { F.tells → F.lost folder.old ≡ false → IfOk result (λ n. Fills (F.names folder.old file).file.seen at into.old n into.new) }
    ensures within { IfOk result (λ n. n ≤ length into.old) }
    ensures names { F.tells → Still (F.names folder.old) (F.names folder.new) }
    ensures lost { F.tells → F.lost folder.new ≡ F.lost folder.old }
    ensures cause { F.tells → F.lost folder.old ≡ false → HasCause (is_failed result) (F.refusals folder.old) (F.refusals folder.new) }
{
    let len = len_of(folder, file)?.unwrap_or(0);
    if len <= at {
        return Ok(0);
    }
    let left = len - at;
    if left < into.len() as u64 {
        return fill_from(folder, file, at, &mut into[..left as usize]);
    }
    fill_from(folder, file, at, into)
}
