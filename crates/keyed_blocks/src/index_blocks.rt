//! The blocks of a base's index.
ghost use Rattle.std.specs.Prelude.{◌≡◌, ◌≤◌, ◌∷◌, ◌++◌, [], ℕ, List, Ok, length, OnOk, OnErr};
ghost use Rattle.rdf_disk.specs.Counts.{Causes};
ghost use Rattle.rdf_disk.specs.Outcomes.{Durably};
ghost use Rattle.rdf_codec.specs.declared.volume_blocks.VolumeBlock.TheVariants as block;
ghost use Rattle.rdf_codec.specs.VolumeBlocks.{index_spelling, FillsIndex};
ghost use Rattle.rdf_codec.specs.VolumeReading.{volume_block_of};
ghost use Rattle.rdf_gatelog.specs.Adding.{RestsAdding};
ghost use Rattle.rdf_gatelog.specs.LogCauses.{ending, NotDamaged};
ghost use Rattle.rdf_gatelog.specs.Logs.{Logs, Reads};
ghost use Rattle.keyed_blocks.specs.Buffers.{IsSomeAdding, ListsAll};

use crate::payloads::index_payload;
use rdf_codec::index_entries::{IndexEntry, entries_in_block};
use rdf_disk::Disk;
use rdf_gatelog::{Addition, LogFault, additions};
use std::alloc::Global;

/// Adds a block of these entries.
fn add_entries<D: Disk>(
    alloc: Global,
    addition: &mut Addition,
    disk: &mut D,
    entries: &[IndexEntry],
) -> Result<(), LogFault>
    requires fills { FillsIndex entries.now }
    requires few { length (index_spelling entries.now) ≤ 4096 }
    requires adding { D.tells → IsSomeAdding addition.old (D.files disk.old) }
    ensures ok { D.tells → OnOk result ((logs : Logs) (more : List (List ℕ)) → RestsAdding logs addition.old more (D.files disk.old)
        → (payload : List ℕ) × (volume_block_of payload ≡ Ok (block.Index entries.now))
        × RestsAdding logs addition.new (more ++ payload ∷ []) (D.files disk.new)) }
    ensures err { D.tells → OnErr result ((logs : Logs) (more : List (List ℕ)) → RestsAdding logs addition.old more (D.files disk.old)
        → Durably (D.files disk.new) (Reads logs)) }
    ensures file { addition.new.file ≡ addition.old.file }
    ensures cause { Causes (ending result) (D.counts disk.old) (D.counts disk.new) }
    ensures sound { NotDamaged result }
{
    let payload = index_payload(alloc, entries)?;
    additions::push(addition, disk, &payload)?;
    Ok(())
}

/// Adds the index of a base behind its blocks of rows: as few blocks as hold all entries in their order.
pub fn add_index<D: Disk>(
    alloc: Global,
    addition: &mut Addition,
    disk: &mut D,
    entries: &[IndexEntry],
) -> Result<(), LogFault>
    requires adding { D.tells → IsSomeAdding addition.old (D.files disk.old) }
    ensures ok { D.tells → OnOk result ((logs : Logs) (more : List (List ℕ)) → RestsAdding logs addition.old more (D.files disk.old)
        → (index : List (List ℕ)) × ListsAll entries.now index × RestsAdding logs addition.new (more ++ index) (D.files disk.new)) }
    ensures err { D.tells → OnErr result ((logs : Logs) (more : List (List ℕ)) → RestsAdding logs addition.old more (D.files disk.old)
        → Durably (D.files disk.new) (Reads logs)) }
    ensures file { addition.new.file ≡ addition.old.file }
    ensures cause { Causes (ending result) (D.counts disk.old) (D.counts disk.new) }
    ensures sound { NotDamaged result }
{
    let mut rest = entries;
    while !rest.is_empty() {
        let (next, behind) = rest.split_at(entries_in_block(rest));
        add_entries(alloc, addition, disk, next)?;
        rest = behind;
    }
    Ok(())
}
