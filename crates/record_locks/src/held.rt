//! The places that each transaction has locked.
ghost use Rattle.std.specs.Prelude.{◌≡◌, ◌++◌, [], ◌∷◌, OnOk, OnErr};
ghost use Rattle.std.specs.FinMap as map;
ghost use Rattle.record_locks.specs.Locks.{places_of};

use crate::places::Places;
use rdf_types::records::{RecKey, TxnId};
use std::alloc::{AllocError, Global};
use std::collections::BTreeMap;
use std::marker::Model;

/// For each transaction the places that it has locked, in the order in which it locked them.
#[derive(Drop)]
pub struct Held {
    alloc: Global,
    by_txn: BTreeMap<TxnId, Places>,
}

impl Model for Held {
    ghost use Rattle.std.specs.Coded.{coded_ℕ, coded_list};
    ghost use Rattle.std.specs.FinMap as map;
    ghost use Rattle.rdf_types.specs.Places.{coded_place};
    ghost use Rattle.record_locks.specs.Locks.{Lists};

    ghost Value = { Lists };

    ghost coded = { map.code coded_ℕ (coded_list coded_place) };

    ghost view = { λ a. map.from_entries a.by_txn.entries };
}

impl Held {
    /// No transaction has a lock.
    pub fn new(alloc: Global) -> Held
        ensures { result ≡ map.empty }
    {
        Held {
            alloc,
            by_txn: BTreeMap::new(alloc),
        }
    }

    /// Notes a place for a transaction. Want of memory leaves all as it was.
    pub fn add(&mut self, txn: TxnId, key: RecKey) -> Result<(), AllocError>
        ensures ok { OnOk result (self.new ≡ map.insert self.old txn (places_of self.old txn ++ key ∷ [])) }
        ensures err { OnErr result (self.new ≡ self.old) }
    {
        if let Some(places) = self.by_txn.get_mut(&txn) {
            return places.add(key);
        }
        let places = Places::one(self.alloc, key)?;
        let _ = self.by_txn.insert(txn, places)?;
        Ok(())
    }

    /// Takes out the places of a transaction, if it has any.
    pub fn take(&mut self, txn: TxnId) -> Option<Places>
        ensures value { result ≡ map.get self.old txn }
        ensures after { self.new ≡ map.remove self.old txn }
    {
        self.by_txn.remove(&txn)
    }
}
