//! The changes of an undo, set on a volume.
ghost use Rattle.std.specs.Prelude.{◌≡◌, ◌≤◌, ◌<◌, ◌+◌, ◌-◌, ◌^◌, ℕ, Err, length, OnOk, OnErr};
ghost use Rattle.rdf_disk.specs.Counts.{Causes};
ghost use Rattle.rdf_disk.specs.Outcomes.{Durably};
ghost use Rattle.rdf_gatelog.specs.LogCauses.{ending, NotDamaged};
ghost use Rattle.rdf_gatelog.specs.declared.fault.LogFault.TheVariants.{Damaged};
ghost use Rattle.rdf_volume.specs.Changes.{changed};
ghost use Rattle.rdf_volume.specs.Views.{rows_of, restart_of, batches_of, file_of, disk_of, InUse};
ghost use Rattle.takeover_undo.specs.Undone.{StandsUndone};

use rdf_disk::Disk;
use rdf_types::records::{Change, Pos};
use rdf_volume::{VolFault, Volume};

/// How many changes a volume takes at once.
const MOST: usize = 64;

/// Sets the changes, in batches each of which lowers the restart point in the same durable step, and then writes the
/// volume anew where the number of its file allows it. Without changes an empty batch lowers the restart point. After an
/// `Err` the disk durably stands for what was before, or for some first ones of the changes with the low position.
pub fn undo_volume<D: Disk>(
    volume: &mut Volume<D>,
    undo: &[Change],
    low: Pos,
) -> Result<(), VolFault>
    requires in_use { D.tells → InUse D.files volume.old }
    ensures ok { D.tells → OnOk result (InUse D.files volume.new) }
    ensures rows { OnOk result (rows_of volume.new ≡ changed (rows_of volume.old) undo.now) }
    ensures restart { OnOk result (restart_of volume.new ≡ low) }
    ensures anew { OnOk result (file_of volume.old < 2 ^ 32 - 2 → (batches_of volume.new ≡ 0) × (file_of volume.new ≡ file_of volume.old + 1)) }
    ensures err { D.tells → OnErr result (Durably (D.files (disk_of volume.new)) (StandsUndone (rows_of volume.old) (restart_of volume.old) undo.now low)) }
    ensures cause { Causes (ending result) (D.counts (disk_of volume.old)) (D.counts (disk_of volume.new)) }
    ensures sound { D.tells → NotDamaged result }
    ensures names { (damaged at : ℕ) → result ≡ Err (Damaged damaged at) → damaged ≡ file_of volume.old }
{
    set_all(volume, undo, low)?;
    volume.checkpoint_from(0)
}

/// Sets the changes, in batches with the low position as restart point.
fn set_all<D: Disk>(volume: &mut Volume<D>, undo: &[Change], low: Pos) -> Result<(), VolFault>
    requires in_use { D.tells → InUse D.files volume.old }
    ensures ok { D.tells → OnOk result (InUse D.files volume.new) }
    ensures rows { OnOk result (rows_of volume.new ≡ changed (rows_of volume.old) undo.now) }
    ensures restart { OnOk result (restart_of volume.new ≡ low) }
    ensures file { OnOk result (file_of volume.new ≡ file_of volume.old) }
    ensures err { D.tells → OnErr result (Durably (D.files (disk_of volume.new)) (StandsUndone (rows_of volume.old) (restart_of volume.old) undo.now low)) }
    ensures cause { Causes (ending result) (D.counts (disk_of volume.old)) (D.counts (disk_of volume.new)) }
    ensures sound { NotDamaged result }
{
    let mut done = 0;
    loop {
        let end = batch_end(undo, done);
        volume.apply(&undo[done..end], low)?;
        done = end;
        if done == undo.len() {
            return Ok(());
        }
    }
}

/// Where the batch ends that begins at the index.
fn batch_end(undo: &[Change], begin: usize) -> usize
    requires { begin ≤ length undo.now }
    ensures within { result ≤ length undo.now }
    ensures behind { begin ≤ result }
    ensures few { result ≤ begin + 64 }
    ensures more { begin < length undo.now → begin < result }
{
    begin + (undo.len() - begin).min(MOST)
}
