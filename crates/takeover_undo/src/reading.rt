//! What transactions without outcome in a part changed on a volume.
ghost use Rattle.std.specs.Prelude.{◌≡◌, not, ℕ, map, None, IfOk, OnOk};
ghost use Rattle.std.specs.FinMap.{get, entries};
ghost use Rattle.rdf_types.specs.declared.records.RecKey.{RecKey as Place};
ghost use Rattle.rdf_model.specs.Trail.{first_before};
ghost use Rattle.rdf_model.specs.Window.{records};
ghost use Rattle.rdf_model.specs.Settled.{has};
ghost use Rattle.takeover_undo.specs.Firsts.{NotesImage, as_change};
ghost use Rattle.takeover_undo.specs.Undo.{IsUndo, Ended, lent};

use active_txns::Found;
use rdf_model::settled::note_outcome;
use rdf_types::records::{Change, RecKey, Record, Stamped, TxnId, VolNo, copy_of};
use std::alloc::{AllocError, Global};
use std::collections::BTreeSet;

/// For each record of the volume that a transaction without outcome in the part changed, its first before image, in the
/// order of file and key. A record that such a transaction inserted is removed.
///
/// The transactions with an outcome are found once for all volumes, by `ended_in`.
pub fn undo_of(
    alloc: Global,
    part: &[&Stamped],
    vol: VolNo,
    ended: &BTreeSet<TxnId>,
) -> Result<Vec<Change>, AllocError>
    ensures { Ended ended.now (lent part.now) → IfOk result (λ changes. IsUndo vol (lent part.now) changes.items) }
{
    let befores = befores_in(alloc, part, vol, ended)?;
    listed(alloc, befores)
}

/// The transactions with an outcome in the part.
pub fn ended_in(alloc: Global, part: &[&Stamped]) -> Result<BTreeSet<TxnId>, AllocError>
    ensures { IfOk result (λ ended. Ended ended (lent part.now)) }
{
    let mut ended = BTreeSet::new(alloc);
    for entry in part {
        note_outcome(&mut ended, &entry.rec)?;
    }
    Ok(ended)
}

/// The first before image of each place of the volume by a transaction that has not ended.
fn befores_in(
    alloc: Global,
    part: &[&Stamped],
    vol: VolNo,
    ended: &BTreeSet<TxnId>,
) -> Result<Found, AllocError>
    ensures here { IfOk result (λ befores. (q : Place) → q.vol ≡ vol →
        get befores q ≡ first_before (λ t. not (has ended.now t)) q (records (lent part.now))) }
    ensures elsewhere { IfOk result (λ befores. (q : Place) → (q.vol ≡ vol → ⊥) → get befores q ≡ None) }
{
    let mut befores = Found::new(alloc);
    for entry in part {
        note_image(&mut befores, &entry.rec, vol, ended)?;
    }
    Ok(befores)
}

fn note_image(
    befores: &mut Found,
    rec: &Record,
    vol: VolNo,
    ended: &BTreeSet<TxnId>,
) -> Result<(), AllocError>
    ensures { OnOk result (NotesImage vol (λ t. not (has ended.now t)) rec.now befores.old befores.new) }
{
    let Record::Image {
        txn,
        vol: on,
        file,
        key,
        before,
        ..
    } = rec
    else {
        return Ok(());
    };
    if *on != vol {
        return Ok(());
    }
    if ended.contains(txn) {
        return Ok(());
    }
    let file = file.try_clone()?;
    let key = key.try_clone()?;
    let place = RecKey { vol, file, key };
    let before = copy_of(before.as_ref())?;
    befores.note(place, before)
}

/// The changes that set each place to its value, in the order of places.
fn listed(alloc: Global, mut befores: Found) -> Result<Vec<Change>, AllocError>
    ensures { IfOk result (λ changes. changes.items ≡ map as_change (entries befores)) }
{
    let mut changes = Vec::new(alloc);
    while let Some((place, before)) = befores.pop() {
        let RecKey { vol: _, file, key } = place;
        changes.push(Change {
            file,
            key,
            after: before,
        })?;
    }
    Ok(changes)
}
