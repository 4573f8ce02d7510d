//! The audit that a backup keeps, as what applies it needs it.
ghost use Rattle.std.specs.Prelude.{◌≡◌, ◌-◌, ℕ, List, IfOk, IfErr};
ghost use Rattle.rdf_types.specs.declared.records.Record.{Record as AnyRecord};
ghost use Rattle.rdf_types.specs.Entries.{RiseFrom};
ghost use Rattle.rdf_volume.specs.declared.volume.Volume.{Volume as AnyVolume};
ghost use Rattle.open_txns.specs.Noted.{low_of};
ghost use Rattle.image_disks.specs.Values.{received};
ghost use Rattle.image_trails.specs.Trails.{trails_layout, trails_value, AreInUse};
ghost use Rattle.rdf_backup.specs.States.{state_by, AreOver};
ghost use Rattle.rdf_backup.specs.Taking.{entries_of, IsKeptBy};
ghost use Rattle.node_faults.specs.declared.NodeFault.TheVariants.{NoMemory};

use crate::backup::Backup;
use image_trails::ImageTrails;
use node_faults::NodeFault;
use open_txns::laws::{legal_is_proper, low_of_notes};
use rdf_disk::Disk;
use rdf_model::laws::{low_of_part, prefix_is_legal};
use rdf_types::records::{Pos, Stamped, TxnId};
use std::alloc::AllocError;
use std::collections::BTreeSet;
use takeover_undo::ended_in;

/// What is kept of the audit: its entries by position, which the image trails lend, the transactions that have an outcome
/// among them, where it ends, and the first position that an open transaction still needs, or the end.
#[derive(Drop)]
pub struct KeptAudit<'a> {
    pub part: Vec<&'a Stamped>,
    pub ended: BTreeSet<TxnId>,
    pub upto: Pos,
    pub low: Pos,
}

impl<D: Disk> Backup<D> {
    ghost use Rattle.image_disks.specs.Values.{received, merged, listed};
    ghost use Rattle.rdf_backup.specs.States.{value_of, MayUse};

    /// The entries that it has received from a position on.
    pub(crate) fn part_since(&self, from: Pos) -> Result<Vec<Stamped>, NodeFault>
        ensures part { D.tells → MayUse D.files self.now →
            IfOk result (λ part. part.items ≡ listed (merged (value_of self.now)) from (received (value_of self.now) - from)) }
        ensures memory { IfErr result (λ fault. fault ≡ NoMemory) }
    {
        let part = self.trails.merged(from, u32::MAX)?;
        // So many entries would not be all of them.
        if part.len() >= u32::MAX as usize {
            return Err(NodeFault::NoMemory);
        }
        Ok(part)
    }
}

/// What is kept of the audit, by the image trails of a backup and the low position of its open transactions.
pub(crate) fn kept_audit<D: Disk>(
    trails: &ImageTrails<D>,
    low: Pos,
) -> Result<KeptAudit<'_>, AllocError>
    ensures rising { IfOk result (λ audit. RiseFrom 0 (entries_of audit)) }
    ensures upto { IfOk result (λ audit. audit.upto ≡ received (trails_value trails.now)) }
    ensures audit { D.tells → AreInUse D.files trails.now → (trail : List AnyRecord) (volumes : List (AnyVolume D)) (opens : List (ℕ × ℕ)) →
        AreOver (trails_layout trails.now) trail (trails_value trails.now) volumes opens → low ≡ low_of opens (received (trails_value trails.now)) →
        IfOk result (IsKeptBy (trails_layout trails.now) trail (state_by 0 (trails_value trails.now) volumes)) }
{
    prefix_is_legal();
    legal_is_proper();
    low_of_notes();
    low_of_part();
    let part = trails.lent(trails.kept())?;
    let ended = ended_in(trails.alloc(), part.as_slice())?;
    Ok(KeptAudit {
        part,
        ended,
        upto: trails.received(),
        low,
    })
}
