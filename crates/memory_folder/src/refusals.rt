//! Calls that a folder in memory refuses.
ghost use Rattle.std.specs.Prelude.{◌≡◌, ◌≢◌, ◌==◌, ℕ, true, false, Err};
ghost use Rattle.std.specs.List.{find};
ghost use Rattle.folder_disk.specs.declared.fault.FolderFault.{FolderFault};
ghost use Rattle.folder_disk.specs.declared.fault.FolderFault.TheVariants.{NotFound, Interrupted};
ghost use Rattle.folder_disk.specs.Names.{lost_by, is_want};
ghost use Rattle.memory_folder.specs.Fakes.{Planned};
ghost use Rattle.memory_folder.specs.Refusals.{planned_at, refusal_of};

use folder_disk::FolderFault;

/// The answer that refuses a call.
pub fn fault_at(refused: &[(u64, FolderFault)], call: u64) -> Option<FolderFault>
    ensures planned { result ≡ planned_at refused.now call }
    ensures fault { Planned result }
{
    match first_for(refused, call) {
        Some(planned) => Some(as_refusal(planned.1)),
        None => None,
    }
}

fn first_for(refused: &[(u64, FolderFault)], call: u64) -> Option<(u64, FolderFault)>
    ensures { result ≡ find (λ (p : ℕ × FolderFault). p.0 == call) refused.now }
{
    refused.iter().copied().find(|planned| planned.0 == call)
}

/// A refusal tells nothing of what is there, and is no want of memory.
fn as_refusal(fault: FolderFault) -> FolderFault
    ensures is { result ≡ refusal_of fault }
    ensures told { (result ≢ NotFound) × (is_want result ≡ false) }
{
    match fault {
        FolderFault::NotFound | FolderFault::Failed | FolderFault::NoMemory => FolderFault::Failed,
        FolderFault::Interrupted => FolderFault::Interrupted,
        FolderFault::Refused => FolderFault::Refused,
    }
}

/// Whether a sync was refused, with this answer of a sync more.
pub fn lost_after(fault: FolderFault, lost: bool) -> bool
    ensures { result ≡ lost_by {T = Unit} (Err fault) lost }
{
    match fault {
        FolderFault::Refused | FolderFault::Interrupted => true,
        FolderFault::NotFound | FolderFault::Failed | FolderFault::NoMemory => lost,
    }
}

/// Whether the call was interrupted, and may be tried again.
pub fn is_interruption(fault: FolderFault) -> bool
    ensures interrupted { result ≡ true → fault ≡ Interrupted }
    ensures other { result ≡ false → fault ≢ Interrupted }
{
    match fault {
        FolderFault::Interrupted => true,
        FolderFault::NotFound
        | FolderFault::Refused
        | FolderFault::Failed
        | FolderFault::NoMemory => false,
    }
}
