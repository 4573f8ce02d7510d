//! The backout of a transaction over the store of a node.
ghost use Rattle.std.specs.Prelude.{◌≡◌, ◌<◌, ◌∷◌, [], length, OnOk, OnErr};
ghost use Rattle.std.specs.FinMap.{entries};
ghost use Rattle.rdf_model.specs.Lines.{same_value, put_back, after_abort};
ghost use Rattle.active_txns.specs.Tells.{IsWhatWasFound};
ghost use Rattle.node_faults.specs.Faults.{IsSound};
ghost use Rattle.tmf_core.specs.Stores.{trail_in, Stored, LeftOf, CausedBy};
ghost use Rattle.tmf_core.specs.Places.{AreIn};

use crate::store::Store;
use active_txns::Found;
use node_faults::NodeFault;
use rdf_disk::Disk;
use rdf_types::names::Value;
use rdf_types::records::{RecKey, TxnId};

/// Backs a transaction out. Each record that it changed, and that shows something else than what it first found there,
/// is set back by an image of its own, in the order of volume, file and key; then the abort follows. A transaction
/// that changed nothing leaves nothing.
///
/// After an `Err` the store is not used again: its disks are opened anew, and volume recovery backs out what is left.
pub fn back_out<D: Disk>(store: &mut Store<D>, txn: TxnId, found: Found) -> Result<(), NodeFault>
    requires stored { D.tells → Stored D.files store.old }
    requires found { D.tells → IsWhatWasFound (trail_in store.old) txn found }
    ensures ok { D.tells → OnOk result (Stored D.files store.new × (trail_in store.new ≡ after_abort (trail_in store.old) txn)) }
    ensures err { D.tells → OnErr result (LeftOf D.files (trail_in store.old) (after_abort (trail_in store.old) txn) store.new) }
    ensures many { length store.new.volumes.items ≡ length store.old.volumes.items }
    ensures cause { CausedBy D.counts result store.old store.new }
    ensures sound { D.tells → IsSound result }
{
    if found.is_empty() {
        return Ok(());
    }
    put_all_back(store, txn, found)?;
    store.abort(txn)
}

/// Sets each place back to what was found there.
fn put_all_back<D: Disk>(
    store: &mut Store<D>,
    txn: TxnId,
    mut found: Found,
) -> Result<(), NodeFault>
    requires stored { D.tells → Stored D.files store.old }
    requires there { D.tells → AreIn (length store.old.volumes.items) (entries found) }
    ensures ok { D.tells → OnOk result (Stored D.files store.new × (trail_in store.new ≡ put_back txn (trail_in store.old) (entries found))) }
    ensures err { D.tells → OnErr result (LeftOf D.files (trail_in store.old) (put_back txn (trail_in store.old) (entries found)) store.new) }
    ensures many { length store.new.volumes.items ≡ length store.old.volumes.items }
    ensures cause { CausedBy D.counts result store.old store.new }
    ensures sound { D.tells → IsSound result }
{
    while let Some((key, first)) = found.pop() {
        put_one_back(store, txn, &key, first)?;
    }
    Ok(())
}

/// Sets one place back to what was found there, where it shows something else.
fn put_one_back<D: Disk>(
    store: &mut Store<D>,
    txn: TxnId,
    key: &RecKey,
    first: Option<Value>,
) -> Result<(), NodeFault>
    requires stored { D.tells → Stored D.files store.old }
    requires there { D.tells → key.now.vol < length store.old.volumes.items }
    ensures ok { D.tells → OnOk result (Stored D.files store.new × (trail_in store.new ≡ put_back txn (trail_in store.old) ((key.now, first) ∷ []))) }
    ensures err { D.tells → OnErr result (LeftOf D.files (trail_in store.old) (put_back txn (trail_in store.old) ((key.now, first) ∷ [])) store.new) }
    ensures many { length store.new.volumes.items ≡ length store.old.volumes.items }
    ensures cause { CausedBy D.counts result store.old store.new }
    ensures sound { D.tells → IsSound result }
{
    // Only a trail on a disk that does not tell its files may have an image of a volume that there is not.
    if key.vol.number() as usize >= store.volumes.len() {
        return Ok(());
    }
    let present = store.value_at(key)?;
    if same(&present, &first) {
        return Ok(());
    }
    store.change(txn, key, present, first)
}

/// Whether these are the same value, or both none.
fn same(present: &Option<Value>, first: &Option<Value>) -> bool
    ensures { result ≡ same_value present.now first.now }
{
    match (present, first) {
        (None, None) => true,
        (Some(present), Some(first)) => present == first,
        _ => false,
    }
}
