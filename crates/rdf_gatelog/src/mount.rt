//! Opening the log of a file that a stop may have left.
ghost use Rattle.std.specs.Prelude.{◌≡◌, ◌<◌, ℕ, List, Some, Err, length, IfOk};
ghost use Rattle.std.specs.Option.{option_map};
ghost use Rattle.rdf_disk.specs.Calls.{Looks};
ghost use Rattle.rdf_disk.specs.Counts.{Causes, ending as disk_ending};
ghost use Rattle.rdf_gatelog.specs.Log.{IsLogFile, IsDamaged, open_blocks, payloads_of};
ghost use Rattle.rdf_gatelog.specs.LogCalls.{Mounts, KeepsLogs};
ghost use Rattle.rdf_gatelog.specs.LogCauses.{ending, NotDamaged};

use crate::blocks::blocks_of;
use crate::fault::LogFault;
use crate::log::{LogFile, close_first_gate};
use crate::reading::read_part;
use rdf_disk::{Disk, DiskFault};
use std::alloc::Global;

/// All bytes of a file, of which there are so many.
fn read_whole<D: Disk>(
    alloc: Global,
    disk: &mut D,
    file: u32,
    len: u64,
) -> Result<Vec<u8>, DiskFault>
    requires { D.tells → option_map length (D.files disk.old file).seen ≡ Some len }
    ensures ok { D.tells → IfOk result (λ bytes. (D.files disk.old file).seen ≡ Some bytes.items) }
    ensures files { D.tells → Looks result (D.files disk.old) (D.files disk.new) }
    ensures cause { Causes (disk_ending result) (D.counts disk.old) (D.counts disk.new) }
{
    read_part(alloc, disk, file, 0, len as usize)
}

impl LogFile {
    /// Reads the blocks of a file that a stop may have left, and answers their payloads with the log.
    /// Whatever this answers, the file is a log of the same payloads afterwards, if it was one.
    pub fn mount<D: Disk>(
        alloc: Global,
        disk: &mut D,
        file: u32,
    ) -> Result<(LogFile, Vec<Vec<u8>>), LogFault>
        ensures files { D.tells → Mounts file result (D.files disk.old) (D.files disk.new) }
        ensures keeps { D.tells → KeepsLogs (D.files disk.old) (D.files disk.new) }
        ensures damaged { D.tells → (f at : ℕ) → result ≡ Err (LogFault.Damaged f at) → (f ≡ file) × IsDamaged (D.files disk.old file).seen at }
        ensures whole { D.tells → (payloads : List (List ℕ)) → IsLogFile payloads (D.files disk.old file).seen → NotDamaged result }
        ensures cause { Causes (ending result) (D.counts disk.old) (D.counts disk.new) }
        ensures file { IfOk result (λ found. found.0.file ≡ file) }
        ensures end { IfOk result (λ found. found.0.end ≡ length (open_blocks (payloads_of found.1))) }
    {
        disk.sync()?;
        let Some(len) = disk.len(file)? else {
            return Err(LogFault::Damaged { file, at: 0 });
        };
        if file == u32::MAX {
            return Err(LogFault::Damaged { file, at: 0 });
        }
        if len <= 1 {
            close_first_gate(disk, file)?;
            return Ok((LogFile::at(alloc, file, 0), Vec::new(alloc)));
        }
        let bytes = read_whole(alloc, disk, file, len)?;
        let (payloads, end) = blocks_of(alloc, &bytes, file)?;
        Ok((LogFile::at(alloc, file, end), payloads))
    }
}
