//! Backout: what a transaction changed is set back, or all of that is taken back.
ghost use Rattle.std.specs.Prelude.{◌≡◌, [], ◌∷◌, ◌++◌, OnOk, OnErr, option_copied};
ghost use Rattle.std.specs.FinMap as map;
ghost use Rattle.rdf_types.specs.declared.records.Record.{Record};
ghost use Rattle.rdf_model.specs.Lines.{put_back, same_value};
ghost use Rattle.primary_machine.specs.Backouts.{all_again, StaysOnWay, KeepsWay, BacksOut, Fits, is_full, cut_at};

use crate::images::append_known;
use crate::places::{Last, Places};
use active_txns::Found;
use rdf_types::names::Value;
use rdf_types::records::{RecKey, Record, TxnId, copy_of};
use std::alloc::{AllocError, Global};
use std::marker::Model;

/// The last images that a backout replaced, in order.
#[derive(Drop)]
pub struct Log {
    entries: Vec<(RecKey, Option<Last>)>,
}

impl Model for Log {
    ghost use Rattle.std.specs.Prelude.{List, Option};
    ghost use Rattle.rdf_types.specs.declared.records.RecKey.{RecKey};
    ghost use Rattle.primary_machine.specs.declared.places.Last.{Last};

    ghost Value = { List (RecKey × Option Last) };

    ghost view = { λ a. a.entries.items };
}

impl Log {
    /// Nothing was replaced.
    pub fn new(alloc: Global) -> Log
        ensures { result ≡ [] }
    {
        Log {
            entries: Vec::new(alloc),
        }
    }

    /// Notes the last image of a place.
    pub fn note(&mut self, places: &Places, key: &RecKey) -> Result<(), AllocError>
        ensures ok { OnOk result (self.new ≡ self.old ++ (key.now, map.get places.now key.now) ∷ []) }
        ensures err { OnErr result (self.new ≡ self.old) }
    {
        let place = key.try_clone()?;
        let last = places.last_copy(key)?;
        self.entries.push((place, last))?;
        Ok(())
    }

    /// Sets each place back to what was noted.
    pub fn undo(self, places: &mut Places)
        ensures { places.new ≡ all_again places.old self }
    {
        let mut entries = self.entries;
        while let Some((key, last)) = entries.pop() {
            places.set_again(&key, last);
        }
    }
}

/// Whether a trail that is cut off at this length takes no record more.
fn is_full(most: Option<usize>, trail: &Vec<Record>) -> bool
    ensures { result ≡ is_full most trail.now.items }
{
    match most {
        None => false,
        Some(most) => trail.len() >= most,
    }
}

/// Sets one place back to what the transaction found there, where it shows something else.
pub fn put_one_back(
    trail: &mut Vec<Record>,
    places: &mut Places,
    log: &mut Log,
    txn: TxnId,
    key: &RecKey,
    found: &Option<Value>,
    most: Option<usize>,
) -> Result<(), AllocError>
    ensures ok { BacksOut most (put_back txn trail.old.items ((key.now, found.now) ∷ [])) trail.old.items places.old log.old result trail.new.items }
    ensures way { StaysOnWay trail.old.items places.old log.old trail.new.items places.new log.new }
{
    if is_full(most, trail) {
        return Ok(());
    }
    if same(places.value(key), found) {
        return Ok(());
    }
    let after = copy_of(found.as_ref())?;
    log.note(places, key)?;
    append_known(trail, places, txn, key, after)
}

/// Whether these are the same value, or both none.
fn same(present: Option<&Value>, found: &Option<Value>) -> bool
    ensures { result ≡ same_value (option_copied present.entry) found.now }
{
    match (present, found) {
        (None, None) => true,
        (Some(present), Some(found)) => present == found,
        _ => false,
    }
}

/// Sets each place back to what was found there, in the order of the places.
fn put_back(
    trail: &mut Vec<Record>,
    places: &mut Places,
    log: &mut Log,
    txn: TxnId,
    found: &Found,
    most: Option<usize>,
) -> Result<(), AllocError>
    ensures ok { BacksOut most (put_back txn trail.old.items (map.entries found.now)) trail.old.items places.old log.old result trail.new.items }
    ensures way { StaysOnWay trail.old.items places.old log.old trail.new.items places.new log.new }
{
    for (key, value) in found.places().iter() {
        put_one_back(trail, places, log, txn, key, value, most)?;
    }
    Ok(())
}

/// The backout of a transaction that found this, and its abort.
pub fn put_back_and_abort(
    trail: &mut Vec<Record>,
    places: &mut Places,
    log: &mut Log,
    txn: TxnId,
    found: &Found,
    most: Option<usize>,
) -> Result<(), AllocError>
    ensures ok { BacksOut most (put_back txn trail.old.items (map.entries found.now) ++ Record.Abort txn ∷ [])
        trail.old.items places.old log.old result trail.new.items }
    ensures way { StaysOnWay trail.old.items places.old log.old trail.new.items places.new log.new }
{
    put_back(trail, places, log, txn, found, most)?;
    push_abort(trail, txn, most)
}

/// The abort of a transaction.
pub fn push_abort(
    trail: &mut Vec<Record>,
    txn: TxnId,
    most: Option<usize>,
) -> Result<(), AllocError>
    ensures ok { OnOk result (Fits most trail.old.items → trail.new.items ≡ cut_at most (trail.old.items ++ Record.Abort txn ∷ [])) }
    ensures way { KeepsWay trail.old.items trail.new.items }
{
    if is_full(most, trail) {
        return Ok(());
    }
    trail.push(Record::Abort { txn })?;
    Ok(())
}
