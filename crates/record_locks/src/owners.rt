//! The owner of each locked record.
ghost use Rattle.std.specs.Prelude.{◌≡◌, ◌<◌, OnOk, OnErr};
ghost use Rattle.std.specs.FinMap as map;
ghost use Rattle.record_locks.specs.Locks.{without};

use rdf_types::records::{RecKey, TxnId};
use std::alloc::{AllocError, Global};
use std::collections::BTreeMap;
use std::marker::Model;

/// The transaction that owns each locked record.
#[derive(Drop)]
pub struct Owners {
    by_place: BTreeMap<RecKey, TxnId>,
}

impl Model for Owners {
    ghost use Rattle.std.specs.Coded.{coded_ℕ};
    ghost use Rattle.std.specs.FinMap as map;
    ghost use Rattle.rdf_types.specs.Places.{coded_place};
    ghost use Rattle.record_locks.specs.Locks.{Locks};

    ghost Value = { Locks };

    ghost coded = { map.code coded_place coded_ℕ };

    ghost view = { λ a. map.from_entries a.by_place.entries };
}

impl Owners {
    /// No record is locked.
    pub fn new(alloc: Global) -> Owners
        ensures { result ≡ map.empty }
    {
        Owners {
            by_place: BTreeMap::new(alloc),
        }
    }

    /// The owner of a record, if it is locked.
    pub fn get(&self, key: &RecKey) -> Option<TxnId>
        ensures { result ≡ map.get self.now key.now }
    {
        self.by_place.get(key).copied()
    }

    /// How many records are locked.
    pub fn len(&self) -> usize
        ensures { result ≡ map.len self.now }
    {
        self.by_place.len()
    }

    /// Makes a transaction the owner of a record. Want of memory leaves all as it was.
    pub fn put(&mut self, key: RecKey, txn: TxnId) -> Result<(), AllocError>
        ensures ok { OnOk result (self.new ≡ map.insert self.old key txn) }
        ensures err { OnErr result (self.new ≡ self.old) }
    {
        let _ = self.by_place.insert(key, txn)?;
        Ok(())
    }

    /// Frees a record.
    pub fn remove(&mut self, key: &RecKey)
        ensures { self.new ≡ map.remove self.old key.now }
    {
        let _ = self.by_place.remove(key);
    }

    /// Frees each of these records.
    pub fn remove_all(&mut self, keys: &[RecKey])
        ensures { self.new ≡ without self.old keys.now }
    {
        for key in keys {
            self.remove(key);
        }
    }
}
