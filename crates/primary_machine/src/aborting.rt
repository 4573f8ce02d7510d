//! Transactions that are backed out, one after another.
ghost use Rattle.std.specs.Prelude.{◌≡◌, ◌≤◌, drop, fold, length, OnOk, OnErr};
ghost use Rattle.rdf_model.specs.Lines.{after_abort};
ghost use Rattle.primary_machine.specs.Kept.{AreLast, AreFound};
ghost use Rattle.primary_machine.specs.Backouts.{Fits, cut_at, backed_out, without_aborted, AreOpen, StaysOnWay, BacksOut};

use crate::backouts::{Log, push_abort, put_back_and_abort};
use crate::places::Places;
use active_txns::Active;
use rdf_types::records::{Record, TxnId};
use std::alloc::{AllocError, Global};

/// Backs transactions out, one after another: each place that shows something else than what they found there is set
/// back, and their abort follows. Where the trail is cut off at a length, no more than that. An `Err` leaves all as it was.
pub fn back_out(
    alloc: Global,
    founds: &mut Active,
    trail: &mut Vec<Record>,
    places: &mut Places,
    txns: &[TxnId],
    most: Option<usize>,
) -> Result<(), AllocError>
    requires last { AreLast trail.old.items places.old }
    requires found { AreFound trail.old.items founds.old }
    requires opened { AreOpen trail.old.items txns.now }
    requires room { Fits most trail.old.items }
    ensures ok { OnOk result (trail.new.items ≡ cut_at most (fold after_abort trail.old.items txns.now)) }
    ensures err { OnErr result (trail.new.items ≡ trail.old.items) }
    ensures last { AreLast trail.new.items places.new }
    ensures found { AreFound trail.new.items founds.new }
{
    let len = trail.len();
    let mut log = Log::new(alloc);
    let done = put_all_back(founds, trail, places, &mut log, txns, most);
    if done.is_err() {
        log.undo(places);
        trail.truncate(len);
        return done;
    }
    forget_aborted(founds, trail, len);
    Ok(())
}

fn put_all_back(
    founds: &Active,
    trail: &mut Vec<Record>,
    places: &mut Places,
    log: &mut Log,
    txns: &[TxnId],
    most: Option<usize>,
) -> Result<(), AllocError>
    ensures ok { BacksOut most (fold (backed_out founds.now) trail.old.items txns.now) trail.old.items places.old log.old result trail.new.items }
    ensures way { StaysOnWay trail.old.items places.old log.old trail.new.items places.new log.new }
{
    for txn in txns {
        put_back_one(founds, trail, places, log, *txn, most)?;
    }
    Ok(())
}

fn put_back_one(
    founds: &Active,
    trail: &mut Vec<Record>,
    places: &mut Places,
    log: &mut Log,
    txn: TxnId,
    most: Option<usize>,
) -> Result<(), AllocError>
    ensures ok { BacksOut most (backed_out founds.now trail.old.items txn) trail.old.items places.old log.old result trail.new.items }
    ensures way { StaysOnWay trail.old.items places.old log.old trail.new.items places.new log.new }
{
    match founds.get(txn) {
        None => push_abort(trail, txn, most),
        Some(found) => put_back_and_abort(trail, places, log, txn, found, most),
    }
}

// Forgets what the transactions found whose aborts are in the trail from this position on.
fn forget_aborted(founds: &mut Active, trail: &[Record], from: usize)
    requires { from ≤ length trail.now }
    ensures { founds.new ≡ fold without_aborted founds.old (drop from trail.now) }
{
    for entry in &trail[from..] {
        forget_if_aborted(founds, entry);
    }
}

fn forget_if_aborted(founds: &mut Active, entry: &Record)
    ensures { founds.new ≡ without_aborted founds.old entry.now }
{
    if let Record::Abort { txn } = entry {
        let _ = founds.take(*txn);
        return;
    }
}
