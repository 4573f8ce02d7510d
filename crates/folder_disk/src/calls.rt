//! Calls of a folder that make changes durable, or take an entry away.
ghost use Rattle.std.specs.Prelude.{◌≡◌, true, OnOk, OnErr};
ghost use Rattle.folder_disk.specs.Causes.{HasCause, is_undone};
ghost use Rattle.folder_disk.specs.Names.{Flushes, is_steady, lost_by, refused_by, IsAskedAway};
ghost use Rattle.folder_disk.specs.Tracked.{IsUnlinked, MayBeGone};

use crate::fault::FolderFault;
use crate::folder::Folder;

/// Makes the bytes of an open file durable: by its data alone, where that is enough.
#[tactic(auto, using(crate::proofs::Steady::data_flushes))]
pub fn sync_by<F: Folder>(folder: &mut F, file: u32, by_data: bool) -> Result<(), FolderFault>
    requires steady { F.tells → by_data ≡ true → is_steady (F.names folder.old file) ≡ true }
    ensures names { F.tells → Flushes (F.lost folder.old) result file (F.names folder.old) (F.names folder.new) }
    ensures lost { F.tells → F.lost folder.new ≡ lost_by result (F.lost folder.old) }
    ensures refused { F.tells → F.refusals folder.new ≡ refused_by result (F.refusals folder.old) }
{
    if by_data {
        return folder.sync_data(file);
    }
    folder.sync_file(file)
}

/// Removes an entry, which is Ok where there is none.
#[tactic(auto, using(crate::proofs::Causing::late_missed, crate::proofs::Removing::unlinked_done, crate::proofs::Removing::unlinked_none))]
pub fn unlink<F: Folder>(folder: &mut F, file: u32) -> Result<(), FolderFault>
    requires asked { F.tells → IsAskedAway (F.names folder.old file).file }
    ensures ok { F.tells → OnOk result (IsUnlinked file (F.names folder.old) (F.names folder.new)) }
    ensures err { F.tells → OnErr result (MayBeGone file (F.names folder.old) (F.names folder.new)) }
    ensures lost { F.tells → F.lost folder.new ≡ F.lost folder.old }
    ensures cause { F.tells → HasCause (is_undone result) (F.refusals folder.old) (F.refusals folder.new) }
{
    match folder.remove(file) {
        Ok(()) => Ok(()),
        Err(fault) => match fault {
            FolderFault::NotFound => Ok(()),
            _ => Err(fault),
        },
    }
}
