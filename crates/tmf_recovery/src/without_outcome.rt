//! The transactions that have an image in the trail and no outcome.
ghost use Rattle.std.specs.Prelude.{◌≡◌, not, filter, filter_map, OnOk, IfOk};
ghost use Rattle.std.specs.List.Sorted.{IsStrictlySortedBy};
ghost use Rattle.std.specs.Ordering.{nat_cmp};
ghost use Rattle.rdf_model.specs.Trail.{image_txn};
ghost use Rattle.audit_trail.specs.InUse.{trail_of};
ghost use Rattle.rdf_model.specs.Losers.{losers, rising};
ghost use Rattle.rdf_model.specs.Settled.{has};
ghost use Rattle.tmf_recovery.specs.Noted.{with_image};

use audit_trail::AuditTrail;
use rdf_disk::Disk;
use rdf_model::settled::ended_in;
use rdf_types::records::{Record, TxnId};
use std::alloc::{AllocError, Global};
use std::collections::BTreeSet;

/// The transactions with an image and no outcome, by rising number. Volume recovery backs them out in this order.
pub fn losers<D: Disk>(alloc: Global, trail: &AuditTrail<D>) -> Result<Vec<TxnId>, AllocError>
    ensures value { IfOk result (λ found. found.items ≡ losers (trail_of trail.now)) }
    ensures rising { IfOk result (λ found. IsStrictlySortedBy nat_cmp found.items) }
{
    let records = trail.records();
    let ended = ended_in(alloc, records)?;
    let lost = lost_in(alloc, records, &ended)?;
    let mut found = Vec::with_capacity(alloc, lost.len())?;
    for txn in &lost {
        found.push(*txn)?;
    }
    Ok(found)
}

/// The transactions with an image that have not ended.
fn lost_in(
    alloc: Global,
    records: &[Record],
    ended: &BTreeSet<TxnId>,
) -> Result<BTreeSet<TxnId>, AllocError>
    ensures { IfOk result (λ lost. lost.keys ≡ rising (filter (λ t. not (has ended.now t)) (filter_map image_txn records.now))) }
{
    let mut lost = BTreeSet::new(alloc);
    for rec in records {
        note_image(&mut lost, ended, rec)?;
    }
    Ok(lost)
}

fn note_image(
    lost: &mut BTreeSet<TxnId>,
    ended: &BTreeSet<TxnId>,
    rec: &Record,
) -> Result<(), AllocError>
    ensures { OnOk result (lost.new.keys ≡ with_image (has ended.now) rec.now lost.old.keys) }
{
    match rec {
        Record::Image { txn, .. } => {
            if ended.contains(txn) {
                return Ok(());
            }
            lost.insert(*txn)?;
            return Ok(());
        }
        Record::Commit { .. } => return Ok(()),
        Record::Abort { .. } => return Ok(()),
    }
}
