//! One more record of the trail, with what is kept beside it.
ghost use Rattle.std.specs.Prelude.{◌≡◌, false, OnOk, OnErr, IfOk, option_copied};
ghost use Rattle.std.specs.FinMap as map;
ghost use Rattle.std.specs.FinSet as set;
ghost use Rattle.rdf_model.specs.Lines.{after_change, after_commit, after_abort};
ghost use Rattle.rdf_model.specs.Contents.{nothing};
ghost use Rattle.rdf_model.specs.Trail.{raw, is_open, is_ended};
ghost use Rattle.active_txns.specs.Founds.{noted, found_at};
ghost use Rattle.primary_machine.specs.Kept.{value_in, AreLast, AreKept, AreFound};
ghost use Rattle.primary_machine.specs.Backouts.{set_again, Fits, cut_at};

use crate::aborting::back_out;
use crate::places::{Last, Places};
use crate::txns::TxnSet;
use active_txns::Active;
use rdf_types::names::Value;
use rdf_types::records::{RecKey, Record, TxnId, copy_of};
use std::alloc::{AllocError, Global};

/// Appends an image, which sets the place to the value.
pub fn append_image(
    trail: &mut Vec<Record>,
    places: &mut Places,
    used: &mut TxnSet,
    txn: TxnId,
    key: &RecKey,
    after: Option<Value>,
) -> Result<(), AllocError>
    requires { AreKept trail.old.items places.old used.old }
    ensures ok { OnOk result (trail.new.items ≡ after_change trail.old.items txn key.now after) }
    ensures err { OnErr result (trail.new.items ≡ trail.old.items) }
    ensures kept { AreKept trail.new.items places.new used.new }
{
    let record = image(txn, key, places.value(key), &after)?;
    let place = key.try_clone()?;
    trail.reserve(1)?;
    note(places, used, place, Last { value: after, txn })?;
    trail.push_reserved(record);
    Ok(())
}

/// Appends an image of a transaction that has a record.
pub fn append_known(
    trail: &mut Vec<Record>,
    places: &mut Places,
    txn: TxnId,
    key: &RecKey,
    after: Option<Value>,
) -> Result<(), AllocError>
    ensures ok { OnOk result (value_in places.old key.now ≡ raw nothing trail.old.items key.now
        → trail.new.items ≡ after_change trail.old.items txn key.now after) }
    ensures err { OnErr result (trail.new.items ≡ trail.old.items) }
    ensures last { AreLast trail.old.items places.old → AreLast trail.new.items places.new }
    ensures again { set_again places.new key.now (map.get places.old key.now) ≡ places.old }
{
    let record = image(txn, key, places.value(key), &after)?;
    let place = key.try_clone()?;
    trail.reserve(1)?;
    places.set(place, Last { value: after, txn })?;
    trail.push_reserved(record);
    Ok(())
}

/// Appends an image, and notes what the transaction found at the place.
pub fn append_noted(
    trail: &mut Vec<Record>,
    places: &mut Places,
    used: &mut TxnSet,
    founds: &mut Active,
    txn: TxnId,
    key: &RecKey,
    after: Option<Value>,
) -> Result<(), AllocError>
    requires kept { AreKept trail.old.items places.old used.old }
    requires found { AreFound trail.old.items founds.old }
    requires running { is_ended txn trail.old.items ≡ false }
    ensures ok { OnOk result (trail.new.items ≡ after_change trail.old.items txn key.now after) }
    ensures err { OnErr result (trail.new.items ≡ trail.old.items) }
    ensures kept { AreKept trail.new.items places.new used.new }
    ensures found { AreFound trail.new.items founds.new }
{
    if founds.has_at(txn, key) {
        return append_image(trail, places, used, txn, key, after);
    }
    note_found(founds, places, txn, key)?;
    let done = append_image(trail, places, used, txn, key, after);
    if done.is_err() {
        founds.forget(txn, key);
    }
    done
}

fn note_found(
    founds: &mut Active,
    places: &Places,
    txn: TxnId,
    key: &RecKey,
) -> Result<(), AllocError>
    ensures ok { OnOk result (founds.new ≡ map.insert founds.old txn (noted (found_at founds.old txn) key.now (value_in places.now key.now))) }
    ensures err { OnErr result (founds.new ≡ founds.old) }
{
    let place = key.try_clone()?;
    let before = copy_of(places.value(key))?;
    founds.note(txn, place, before)
}

fn image(
    txn: TxnId,
    key: &RecKey,
    before: Option<&Value>,
    after: &Option<Value>,
) -> Result<Record, AllocError>
    ensures { IfOk result (λ r. r ≡ Record.Image txn key.now.vol key.now.file key.now.key (option_copied before.entry) after.now) }
{
    let file = key.file.try_clone()?;
    let name = key.key.try_clone()?;
    let before = copy_of(before)?;
    let after = copy_of(after.as_ref())?;
    Ok(Record::Image {
        txn,
        vol: key.vol,
        file,
        key: name,
        before,
        after,
    })
}

// Notes the last image of a place, and that its transaction has a record.
fn note(places: &mut Places, used: &mut TxnSet, place: RecKey, last: Last) -> Result<(), AllocError>
    ensures places { OnOk result (places.new ≡ map.insert places.old place last) }
    ensures used { OnOk result (used.new ≡ set.insert used.old last.txn) }
    ensures same_places { OnErr result (places.new ≡ places.old) }
    ensures same_used { OnErr result (used.new ≡ used.old) }
{
    let txn = last.txn;
    if used.contains(txn) {
        return places.set(place, last);
    }
    used.insert(txn)?;
    let set = places.set(place, last);
    if set.is_err() {
        used.remove(txn);
    }
    set
}

/// Appends a commit, where the transaction has a record.
pub fn append_commit(
    trail: &mut Vec<Record>,
    used: &TxnSet,
    founds: &mut Active,
    txn: TxnId,
) -> Result<(), AllocError>
    requires opened { is_open txn trail.old.items ≡ set.contains used.now txn }
    requires found { AreFound trail.old.items founds.old }
    ensures ok { OnOk result (trail.new.items ≡ after_commit trail.old.items txn) }
    ensures err { OnErr result (trail.new.items ≡ trail.old.items) }
    ensures found { AreFound trail.new.items founds.new }
{
    if !used.contains(txn) {
        return Ok(());
    }
    trail.push(Record::Commit { txn })?;
    let _ = founds.take(txn);
    Ok(())
}

/// Appends the backout of a transaction, where it has a record, and its abort. Where the trail is cut off at a length, no
/// more than that. An `Err` leaves all as it was.
pub fn append_abort(
    alloc: Global,
    trail: &mut Vec<Record>,
    places: &mut Places,
    used: &TxnSet,
    founds: &mut Active,
    txn: TxnId,
    most: Option<usize>,
) -> Result<(), AllocError>
    requires opened { is_open txn trail.old.items ≡ set.contains used.now txn }
    requires kept { AreKept trail.old.items places.old used.now }
    requires found { AreFound trail.old.items founds.old }
    requires room { Fits most trail.old.items }
    ensures ok { OnOk result (trail.new.items ≡ cut_at most (after_abort trail.old.items txn)) }
    ensures err { OnErr result (trail.new.items ≡ trail.old.items) }
    ensures kept { AreKept trail.new.items places.new used.now }
    ensures found { AreFound trail.new.items founds.new }
{
    if !used.contains(txn) {
        return Ok(());
    }
    back_out(alloc, founds, trail, places, &[txn], most)
}
