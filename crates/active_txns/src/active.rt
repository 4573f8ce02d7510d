//! What each transaction without outcome found.
ghost use Rattle.std.specs.Prelude.{◌≡◌, ℕ, IfOk, OnOk, OnErr, min, option_copied};
ghost use Rattle.std.specs.Option.{is_some};
ghost use Rattle.std.specs.FinMap as map;
ghost use Rattle.rdf_types.specs.declared.records.RecKey.{RecKey as Place};
ghost use Rattle.active_txns.specs.Founds.{noted, found_at, found_without, finders};

use crate::found::Found;
use rdf_types::names::Value;
use rdf_types::records::{RecKey, TxnId};
use std::alloc::{AllocError, Global};
use std::collections::BTreeMap;
use std::marker::Model;

/// For each transaction without outcome the first before image of each place that it changed.
#[derive(Drop)]
pub struct Active {
    alloc: Global,
    by_txn: BTreeMap<TxnId, Found>,
}

impl Model for Active {
    ghost use Rattle.std.specs.Coded.{coded_ℕ, coded_list, coded_option};
    ghost use Rattle.std.specs.FinMap as map;
    ghost use Rattle.rdf_types.specs.Places.{coded_place};
    ghost use Rattle.active_txns.specs.Founds.{Founds};

    ghost Value = { Founds };

    ghost coded = { map.code coded_ℕ (map.code coded_place (coded_option (coded_list coded_ℕ))) };

    ghost view = { λ a. map.from_entries a.by_txn.entries };
}

impl Active {
    /// No transaction is noted.
    pub fn new(alloc: Global) -> Active
        ensures { result ≡ map.empty }
    {
        Active {
            alloc,
            by_txn: BTreeMap::new(alloc),
        }
    }

    /// Whether the transaction is noted.
    pub fn has(&self, txn: TxnId) -> bool
        ensures { result ≡ is_some (map.get self.now txn) }
    {
        self.by_txn.contains_key(&txn)
    }

    /// What the transaction found, where it is noted.
    pub fn get(&self, txn: TxnId) -> Option<&Found>
        ensures { option_copied result ≡ map.get self.now txn }
    {
        self.by_txn.get(&txn)
    }

    /// Whether the transaction changed the place.
    pub fn has_at(&self, txn: TxnId, key: &RecKey) -> bool
        ensures { result ≡ is_some (map.get (found_at self.now txn) key.now) }
    {
        match self.get(txn) {
            None => false,
            Some(found) => found.has(key),
        }
    }

    /// Notes a transaction that has changed nothing yet. Want of memory leaves all as it was.
    pub fn begin(&mut self, txn: TxnId) -> Result<(), AllocError>
        ensures ok { OnOk result (self.new ≡ map.insert self.old txn map.empty) }
        ensures err { OnErr result (self.new ≡ self.old) }
    {
        let found = Found::new(self.alloc);
        self.put(txn, found)
    }

    fn put(&mut self, txn: TxnId, found: Found) -> Result<(), AllocError>
        ensures ok { OnOk result (self.new ≡ map.insert self.old txn found) }
        ensures err { OnErr result (self.new ≡ self.old) }
    {
        let _ = self.by_txn.insert(txn, found)?;
        Ok(())
    }

    /// Notes what the transaction found at a place, unless it changed it before. Want of memory leaves all as it was.
    pub fn note(&mut self, txn: TxnId, key: RecKey, before: Option<Value>) -> Result<(), AllocError>
        ensures ok { OnOk result (self.new ≡ map.insert self.old txn (noted (found_at self.old txn) key before)) }
        ensures err { OnErr result (self.new ≡ self.old) }
    {
        if let Some(found) = self.by_txn.get_mut(&txn) {
            return found.note(key, before);
        }
        let mut found = Found::new(self.alloc);
        found.note(key, before)?;
        self.put(txn, found)
    }

    /// Forgets what the transaction found at the place.
    pub fn forget(&mut self, txn: TxnId, key: &RecKey)
        ensures { (t : ℕ) (q : Place) → map.get (found_at self.new t) q ≡ map.get (found_without self.old txn key.now t) q }
    {
        if let Some(found) = self.by_txn.get_mut(&txn) {
            found.forget(key);
            return;
        }
    }

    /// Takes out what the transaction found, where it is noted.
    pub fn take(&mut self, txn: TxnId) -> Option<Found>
        ensures value { result ≡ map.get self.old txn }
        ensures after { self.new ≡ map.remove self.old txn }
    {
        self.by_txn.remove(&txn)
    }

    /// The transactions that changed a place, by rising number.
    pub fn open(&self) -> Result<Vec<TxnId>, AllocError>
        ensures { IfOk result (λ txns. txns.items ≡ finders (map.entries self.now)) }
    {
        let mut txns = Vec::new(self.alloc);
        for (txn, found) in self.by_txn.iter() {
            if !found.is_empty() {
                txns.push(*txn)?;
            }
        }
        Ok(txns)
    }

    /// How many transactions are noted. The count stands still at 4,294,967,295.
    pub fn count(&self) -> u32
        ensures { result ≡ min (map.len self.now) u32.MAX }
    {
        self.by_txn.len().min(u32::MAX as usize) as u32
    }
}
