//! The active transactions of a trail that was opened: those without outcome, which are the losers.
ghost use Rattle.std.specs.Prelude.{◌≡◌, ℕ, List, Option, false, IfOk, OnOk};
ghost use Rattle.std.specs.FinSet as set;
ghost use Rattle.std.specs.Ordering.{nat_cmp};
ghost use Rattle.rdf_types.specs.declared.records.Record.{Record};
ghost use Rattle.rdf_types.specs.declared.records.Record.TheVariants.{Image};
ghost use Rattle.rdf_model.specs.Contents.{nothing};
ghost use Rattle.rdf_model.specs.Trail.{open_in};
ghost use Rattle.rdf_model.specs.Legal.{Legal};
ghost use Rattle.rdf_model.specs.Running.{is_used};
ghost use Rattle.active_txns.specs.Tells.{Tells};
ghost use Rattle.tmf_core.specs.Joins.{NotesNext};

use active_txns::ActiveTxns;
use rdf_model::laws::{next_follows, prefix_is_legal};
use rdf_types::names::Value;
use rdf_types::records::{RecKey, Record, TxnId, copy_of};
use std::alloc::{AllocError, Global};

/// The table of the transactions that the records leave without outcome.
pub fn table_of(alloc: Global, records: &[Record]) -> Result<ActiveTxns, AllocError>
    ensures { IfOk result (λ txns. Legal nothing records.now → Tells txns records.now (open_in records.now)) }
{
    prefix_is_legal();
    let mut txns = ActiveTxns::new(alloc);
    for rec in records {
        note_record(&mut txns, rec)?;
    }
    Ok(txns)
}

/// Notes the next record.
fn note_record(txns: &mut ActiveTxns, rec: &Record) -> Result<(), AllocError>
    ensures { OnOk result (NotesNext rec.now txns.old txns.new) }
{
    next_follows();
    match rec {
        Record::Image {
            txn,
            vol,
            file,
            key,
            before,
            after: _,
        } => {
            let place = RecKey {
                vol: *vol,
                file: file.try_clone()?,
                key: key.try_clone()?,
            };
            let found = copy_of(before.as_ref())?;
            note_image(txns, *txn, place, found)
        }
        Record::Commit { txn } => {
            let _ = txns.end(*txn);
            Ok(())
        }
        Record::Abort { txn } => {
            let _ = txns.end(*txn);
            Ok(())
        }
    }
}

/// Notes an image, with which its transaction is active.
fn note_image(
    txns: &mut ActiveTxns,
    txn: TxnId,
    place: RecKey,
    before: Option<Value>,
) -> Result<(), AllocError>
    ensures { (after : Option (List ℕ)) → OnOk result (NotesNext (Image txn place.vol place.file place.key before after) txns.old txns.new) }
{
    next_follows();
    activate(txns, txn)?;
    txns.note(txn, place, before)
}

/// Makes a transaction active, unless it is.
fn activate(txns: &mut ActiveTxns, txn: TxnId) -> Result<(), AllocError>
    ensures { OnOk result ((trail : List Record) (active : set.FinSet nat_cmp) → Tells txns.old trail active
        → (set.contains active txn ≡ false → is_used txn trail ≡ false) → Tells txns.new trail (set.insert active txn)) }
{
    if txns.is_active(txn) {
        return Ok(());
    }
    txns.begin(txn)
}
