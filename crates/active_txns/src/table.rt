//! The table of active transactions.
ghost use Rattle.std.specs.Prelude.{◌≡◌, [], ℕ, List, Option, Some, true, false, min, OnOk, OnErr};
ghost use Rattle.std.specs.FinMap as map;
ghost use Rattle.std.specs.FinSet as set;
ghost use Rattle.std.specs.Ordering.{nat_cmp};
ghost use Rattle.rdf_types.specs.declared.records.Record.{Record};
ghost use Rattle.rdf_model.specs.Contents.{nothing};
ghost use Rattle.rdf_model.specs.Trail.{raw, owner};
ghost use Rattle.rdf_model.specs.Lines.{after_change, after_commit, after_abort};
ghost use Rattle.rdf_model.specs.Running.{is_used, IsRunning};

use crate::active::Active;
use crate::found::Found;
use rdf_model::laws::one_holder;
use rdf_types::names::Value;
use rdf_types::records::{RecKey, TxnId};
use record_locks::LockTable;
use std::alloc::{AllocError, Global};
use std::collections::BTreeSet;

/// The active transactions, the records that they have locked, and the numbers of all transactions that the trail has a
/// record of.
#[derive(Drop)]
pub struct ActiveTxns {
    active: Active,
    used: BTreeSet<TxnId>,
    locks: LockTable,
}

impl ActiveTxns {
    ghost use Rattle.active_txns.specs.Founds.{FirstBefore};
    ghost use Rattle.active_txns.specs.Tells.{Tells, IsWhatWasFound};
    ghost use Rattle.active_txns.specs.Steps.{Begins, Notes, Leaves};

    /// No transaction is active, and no number is used.
    pub fn new(alloc: Global) -> ActiveTxns
        ensures { Tells result [] set.empty }
    {
        ActiveTxns {
            active: Active::new(alloc),
            used: BTreeSet::new(alloc),
            locks: LockTable::new(alloc),
        }
    }

    /// Whether the transaction is active.
    pub fn is_active(&self, txn: TxnId) -> bool
        ensures { (trail : List Record) (active : set.FinSet nat_cmp) → Tells self.now trail active → result ≡ set.contains active txn }
    {
        self.active.has(txn)
    }

    /// Whether the trail has a record of the transaction.
    pub fn is_used(&self, txn: TxnId) -> bool
        ensures { (trail : List Record) (active : set.FinSet nat_cmp) → Tells self.now trail active → result ≡ is_used txn trail }
    {
        self.used.contains(&txn)
    }

    /// The transaction that has the record locked, if one has.
    pub fn owner(&self, key: &RecKey) -> Option<TxnId>
        ensures { (trail : List Record) (active : set.FinSet nat_cmp) → Tells self.now trail active → result ≡ owner trail key.now }
    {
        self.locks.owner(key)
    }

    /// Makes a transaction active. Want of memory leaves all as it was.
    pub fn begin(&mut self, txn: TxnId) -> Result<(), AllocError>
        ensures step { OnOk result (Begins txn self.old self.new) }
        ensures tells { OnOk result ((trail : List Record) (active : set.FinSet nat_cmp) → Tells self.old trail active → is_used txn trail ≡ false
            → Tells self.new trail (set.insert active txn)) }
        ensures err { OnErr result (self.new ≡ self.old) }
    {
        self.active.begin(txn)
    }

    /// Locks a record for a transaction that changes it, and notes what it finds there. An `Err` is want of memory, or
    /// another owner; the table is not used again then.
    pub fn note(&mut self, txn: TxnId, key: RecKey, before: Option<Value>) -> Result<(), AllocError>
        ensures step { OnOk result (Notes txn key before self.old self.new) }
        ensures tells { OnOk result ((trail : List Record) (active : set.FinSet nat_cmp) (after : Option (List ℕ)) → Tells self.old trail active
            → IsRunning trail active → set.contains active txn ≡ true → before ≡ raw nothing trail key
            → Tells self.new (after_change trail txn key after) active) }
    {
        let _ = self.used.insert(txn)?;
        if self.locks.try_lock(txn, &key).is_err() {
            return Err(AllocError);
        }
        self.active.note(txn, key, before)
    }

    /// Ends an active transaction: it owns nothing any more. The answer is what it found.
    pub fn end(&mut self, txn: TxnId) -> Option<Found>
        ensures step { Leaves txn self.old self.new }
        ensures value { result ≡ map.get self.old.active txn }
        ensures found { (trail : List Record) (active : set.FinSet nat_cmp) → Tells self.old trail active → IsRunning trail active
            → set.contains active txn ≡ true → (found : FirstBefore) × (result ≡ Some found) × IsWhatWasFound trail txn found }
        ensures commit { (trail : List Record) (active : set.FinSet nat_cmp) → Tells self.old trail active → IsRunning trail active
            → set.contains active txn ≡ true → Tells self.new (after_commit trail txn) (set.remove active txn) }
        ensures abort { (trail : List Record) (active : set.FinSet nat_cmp) → Tells self.old trail active → IsRunning trail active
            → set.contains active txn ≡ true → Tells self.new (after_abort trail txn) (set.remove active txn) }
    {
        one_holder();
        let found = self.active.take(txn);
        self.locks.release_all(txn);
        found
    }

    /// How many transactions are active. The count stands still at 4,294,967,295.
    pub fn count(&self) -> u32
        ensures { (trail : List Record) (active : set.FinSet nat_cmp) → Tells self.now trail active → result ≡ min (set.len active) u32.MAX }
    {
        self.active.count()
    }
}
