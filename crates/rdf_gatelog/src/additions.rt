//! Additions to one log of a disk each of whose files is a log. What they say of that log alone, they say of the whole disk too.
ghost use Rattle.std.specs.Prelude.{◌≡◌, ◌+◌, ◌∷◌, ◌++◌, [], ℕ, List, length, OnOk, OnErr, IfOk};
ghost use Rattle.rdf_disk.specs.Counts.{Causes};
ghost use Rattle.rdf_disk.specs.Files.{Disk as Files};
ghost use Rattle.rdf_disk.specs.Outcomes.{Durably};
ghost use Rattle.rdf_gatelog.specs.Adding.{IsUnderAddition, RestsAdding};
ghost use Rattle.rdf_gatelog.specs.Log.{IsPayload};
ghost use Rattle.rdf_gatelog.specs.LogCauses.{ending, NotDamaged};
ghost use Rattle.rdf_gatelog.specs.Logs.{Logs, Reads, ReadsEither, RestsOpen, pushed_all};

use crate::addition::Addition;
use crate::fault::LogFault;
use crate::log::LogFile;
use rdf_disk::Disk;

/// Begins to add blocks to a log of the disk. It touches no disk.
pub fn begin(log: LogFile) -> Addition
    ensures place { result ≡ record { file = log.file; gate = log.end; end = log.end } }
    ensures none { (logs : Logs) (disk : Files) → RestsOpen logs log.file log.end disk → RestsAdding logs result [] disk }
{
    log.begin()
}

/// Writes one block more of an addition, and answers the place of its gate. An `Err` leaves the logs as they were before the addition.
pub fn push<D: Disk>(addition: &mut Addition, disk: &mut D, payload: &[u8]) -> Result<u64, LogFault>
    requires payload { IsPayload payload.now }
    requires adding { D.tells → IsUnderAddition addition.old (D.files disk.old) }
    ensures ok { D.tells → OnOk result ((logs : Logs) (more : List (List ℕ)) → RestsAdding logs addition.old more (D.files disk.old)
        → RestsAdding logs addition.new (more ++ payload.now ∷ []) (D.files disk.new)) }
    ensures err { D.tells → OnErr result ((logs : Logs) (more : List (List ℕ)) → RestsAdding logs addition.old more (D.files disk.old)
        → Durably (D.files disk.new) (Reads logs)) }
    ensures cause { Causes (ending result) (D.counts disk.old) (D.counts disk.new) }
    ensures place { IfOk result (λ at. at ≡ addition.old.end) }
    ensures end { OnOk result (addition.new ≡ record addition.old { end = addition.old.end + 5 + length payload.now }) }
    ensures same { OnErr result (addition.new ≡ addition.old) }
    ensures sound { NotDamaged result }
{
    addition.push(disk, payload)
}

/// Writes the last block of an addition, and opens the gate. An `Err` leaves all of its blocks or none.
pub fn finish<D: Disk>(addition: Addition, disk: &mut D, last: &[u8]) -> Result<LogFile, LogFault>
    requires payload { IsPayload last.now }
    requires adding { D.tells → IsUnderAddition addition (D.files disk.old) }
    ensures ok { D.tells → IfOk result (λ log. (logs : Logs) (more : List (List ℕ)) → RestsAdding logs addition more (D.files disk.old)
        → RestsOpen (pushed_all logs addition.file (more ++ last.now ∷ [])) addition.file log.end (D.files disk.new)) }
    ensures err { D.tells → OnErr result ((logs : Logs) (more : List (List ℕ)) → RestsAdding logs addition more (D.files disk.old)
        → Durably (D.files disk.new) (ReadsEither logs (pushed_all logs addition.file (more ++ last.now ∷ [])))) }
    ensures cause { Causes (ending result) (D.counts disk.old) (D.counts disk.new) }
    ensures place { IfOk result (λ log. log ≡ record { file = addition.file; end = addition.end + 5 + length last.now }) }
    ensures sound { NotDamaged result }
{
    addition.finish(disk, last)
}
