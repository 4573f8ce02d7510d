//! The files that committed transactions leave, in one pass on and one back.
ghost use Rattle.std.specs.Prelude.{◌≡◌, not, ℕ, unwrap_or, IfOk, OnOk};
ghost use Rattle.rdf_types.specs.declared.records.RecKey.{RecKey as Place};
ghost use Rattle.rdf_model.specs.Contents.{held};
ghost use Rattle.rdf_model.specs.Legal.{Legal};
ghost use Rattle.rdf_model.specs.Settled.{has, set_back, NotesOutcome};
ghost use Rattle.rdf_model.specs.Trail.{committed, first_before, is_ended};

use crate::files::Files;
use crate::laws::settling;
use crate::plain::{raw_of, set};
use rdf_types::records::{Record, TxnId};
use std::alloc::{AllocError, Global};
use std::collections::BTreeSet;

/// The files after the images of each transaction that commits. Each image of the trail is set, and those of transactions
/// without outcome are then set back, the last one first, so that the time is linear in the records but for their maps.
pub fn settled_of(alloc: Global, base: &Files, trail: &[Record]) -> Result<Files, AllocError>
    requires { Legal (held base.now) trail.now }
    ensures { IfOk result (λ files. held files ≡ committed (held base.now) trail.now) }
{
    settling();
    let mut files = raw_of(base, trail)?;
    let ended = ended_in(alloc, trail)?;
    set_all_back(&mut files, trail, &ended)?;
    Ok(files)
}

/// The transactions with an outcome.
pub fn ended_in(alloc: Global, trail: &[Record]) -> Result<BTreeSet<TxnId>, AllocError>
    ensures { IfOk result (λ ended. (t : ℕ) → has ended t ≡ is_ended t trail.now) }
{
    let mut ended = BTreeSet::new(alloc);
    for entry in trail {
        note_outcome(&mut ended, entry)?;
    }
    Ok(ended)
}

/// Notes the transaction of an outcome. An error leaves what was noted.
pub fn note_outcome(ended: &mut BTreeSet<TxnId>, rec: &Record) -> Result<(), AllocError>
    ensures { OnOk result (NotesOutcome rec.now ended.old ended.new) }
{
    match rec {
        Record::Image { .. } => return Ok(()),
        Record::Commit { txn } => {
            ended.insert(*txn)?;
            return Ok(());
        }
        Record::Abort { txn } => {
            ended.insert(*txn)?;
            return Ok(());
        }
    }
}

/// Sets back the images of transactions that have not ended, from the last one to the first.
fn set_all_back(
    files: &mut Files,
    trail: &[Record],
    ended: &BTreeSet<TxnId>,
) -> Result<(), AllocError>
    ensures { OnOk result ((q : Place) → held files.new q ≡ unwrap_or (first_before (λ t. not (has ended.now t)) q trail.now) (held files.old q)) }
{
    let mut left = trail.len();
    while left > 0 {
        left -= 1;
        set_one_back(files, &trail[left], ended)?;
    }
    Ok(())
}

fn set_one_back(files: &mut Files, rec: &Record, ended: &BTreeSet<TxnId>) -> Result<(), AllocError>
    ensures { OnOk result (held files.new ≡ set_back (λ t. not (has ended.now t)) rec.now (held files.old)) }
{
    let Record::Image {
        txn,
        vol,
        file,
        key,
        before,
        ..
    } = rec
    else {
        return Ok(());
    };
    if ended.contains(txn) {
        return Ok(());
    }
    set(files, *vol, file, key, before)
}
