//! The table of record locks: one owner for each locked record.
ghost use Rattle.std.specs.Prelude.{◌≡◌, ◌-◌, None, OnOk, OnErr, IfErr, true, min};
ghost use Rattle.std.specs.FinMap as map;
ghost use Rattle.rdf_types.specs.declared.records.RecKey.{RecKey};
ghost use Rattle.record_locks.specs.Locks.{owner_of, is_open_to, freed};
ghost use Rattle.record_locks.specs.Faults.{IsCause};

use crate::held::Held;
use crate::owners::Owners;
use rdf_types::records::{RecKey, TxnId};
use std::alloc::{AllocError, Global};
use std::fmt;
use std::marker::Model;

/// Why a record was not locked.
#[derive(Clone, Copy, Debug, PartialEq, Eq)]
pub enum LockFault {
    /// Another transaction, `by`, owns the record.
    Held { by: TxnId },
    /// The record is free, and there was no memory to note its lock.
    NoMemory,
}

impl fmt::Display for LockFault {
    ghost use Rattle.std.specs.Prelude.{Some};
    ghost use Rattle.record_locks.specs.Saying.{lock_fault_text};

    ghost output = { λ fault. Some (lock_fault_text fault) };

    fn fmt<W: fmt::Write>(&self, f: &mut fmt::Formatter<W>) -> fmt::Result {
        match *self {
            LockFault::Held { by } => {
                let by = by.0;
                write!(f, "locked {by}")
            }
            LockFault::NoMemory => f.write_str("no memory"),
        }
    }
}

/// Which transaction owns each locked record. By the TMF Reference Manual a record that a
/// transaction has changed stays locked until the transaction ends.
#[derive(Drop)]
pub struct LockTable {
    owners: Owners,
    held: Held,
}

impl Model for LockTable {
    ghost use Rattle.std.specs.Coded.{coded_ℕ};
    ghost use Rattle.std.specs.FinMap as map;
    ghost use Rattle.rdf_types.specs.Places.{coded_place};
    ghost use Rattle.record_locks.specs.Locks.{Locks, Agree};

    ghost Value = { Locks };

    ghost coded = { map.code coded_place coded_ℕ };

    ghost view = { λ a. a.owners };

    ghost invariant = { λ a. Agree a.owners a.held };
}

impl LockTable {
    /// No record is locked.
    pub fn new(alloc: Global) -> LockTable
        ensures { result ≡ map.empty }
    {
        LockTable {
            owners: Owners::new(alloc),
            held: Held::new(alloc),
        }
    }

    /// The transaction that owns the record, if one does.
    pub fn owner(&self, key: &RecKey) -> Option<TxnId>
        ensures { result ≡ owner_of self.now key.now }
    {
        self.owners.get(key)
    }

    /// Locks the record for the transaction until it releases its locks. A record that it owns
    /// already stays its own.
    pub fn try_lock(&mut self, txn: TxnId, key: &RecKey) -> Result<(), LockFault>
        ensures open { OnOk result (is_open_to txn (owner_of self.old key.now) ≡ true) }
        ensures ok { OnOk result (self.new ≡ map.insert self.old key.now txn) }
        ensures cause { IfErr result (IsCause txn (owner_of self.old key.now)) }
        ensures err { OnErr result (self.new ≡ self.old) }
    {
        match self.owners.get(key) {
            Some(by) if by == txn => Ok(()),
            Some(by) => Err(LockFault::Held { by }),
            None => match self.lock_free(txn, key) {
                Ok(()) => Ok(()),
                Err(_) => Err(LockFault::NoMemory),
            },
        }
    }

    // Locks a record that nobody owns.
    fn lock_free(&mut self, txn: TxnId, key: &RecKey) -> Result<(), AllocError>
        requires free { owner_of self.old key.now ≡ None }
        ensures ok { OnOk result (self.new ≡ map.insert self.old key.now txn) }
        ensures err { OnErr result (self.new ≡ self.old) }
    {
        let owned = key.try_clone()?;
        let listed = key.try_clone()?;
        self.owners.put(owned, txn)?;
        let added = self.held.add(txn, listed);
        if added.is_err() {
            self.owners.remove(key);
        }
        added
    }

    /// Frees the records of the transaction and answers how many they were. The answer stands still
    /// at 4,294,967,295.
    pub fn release_all(&mut self, txn: TxnId) -> u32
        ensures freed { (key : RecKey) → owner_of self.new key ≡ freed txn (owner_of self.old key) }
        ensures count { result ≡ min (map.len self.old - map.len self.new) u32.MAX }
    {
        let Some(places) = self.held.take(txn) else {
            return 0;
        };
        let before = self.owners.len();
        self.owners.remove_all(places.keys());
        let released = before.saturating_sub(self.owners.len());
        released.min(u32::MAX as usize) as u32
    }
}
