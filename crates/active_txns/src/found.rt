//! What transactions found at the places that they changed.
ghost use Rattle.std.specs.Prelude.{◌≡◌, ◌==◌, ◌∷◌, [], OnOk, OnErr, IfSome, IfNone, is_some};
ghost use Rattle.std.specs.FinMap as map;
ghost use Rattle.active_txns.specs.Founds.{noted};

use rdf_types::names::Value;
use rdf_types::records::RecKey;
use std::alloc::{AllocError, Global};
use std::collections::BTreeMap;
use std::marker::Model;

/// The first before image of each place that transactions changed: what backout and undo set it back to.
#[derive(Drop)]
pub struct Found {
    by_place: BTreeMap<RecKey, Option<Value>>,
}

impl Model for Found {
    ghost use Rattle.std.specs.Coded.{coded_ℕ, coded_list, coded_option};
    ghost use Rattle.std.specs.FinMap as map;
    ghost use Rattle.rdf_types.specs.Places.{coded_place};
    ghost use Rattle.active_txns.specs.Founds.{FirstBefore};

    ghost Value = { FirstBefore };

    ghost coded = { map.code coded_place (coded_option (coded_list coded_ℕ)) };

    ghost view = { λ a. map.from_entries a.by_place.entries };
}

impl Found {
    /// Nothing was found yet.
    pub fn new(alloc: Global) -> Found
        ensures { result ≡ map.empty }
    {
        Found {
            by_place: BTreeMap::new(alloc),
        }
    }

    /// Whether no place was changed.
    pub fn is_empty(&self) -> bool
        ensures { result ≡ (map.len self.now == 0) }
    {
        self.by_place.len() == 0
    }

    /// Whether the place was changed.
    pub fn has(&self, key: &RecKey) -> bool
        ensures { result ≡ is_some (map.get self.now key.now) }
    {
        self.by_place.contains_key(key)
    }

    /// The places in their order, each with what was found there.
    pub fn places(&self) -> &BTreeMap<RecKey, Option<Value>>
        ensures { map.from_entries result.now.entries ≡ self.now }
    {
        &self.by_place
    }

    /// Notes what was found at a place, unless it was changed before. Want of memory leaves all as it was.
    pub fn note(&mut self, key: RecKey, before: Option<Value>) -> Result<(), AllocError>
        ensures ok { OnOk result (self.new ≡ noted self.old key before) }
        ensures err { OnErr result (self.new ≡ self.old) }
    {
        if self.by_place.contains_key(&key) {
            return Ok(());
        }
        self.put(key, before)
    }

    fn put(&mut self, key: RecKey, before: Option<Value>) -> Result<(), AllocError>
        ensures ok { OnOk result (self.new ≡ map.insert self.old key before) }
        ensures err { OnErr result (self.new ≡ self.old) }
    {
        let _ = self.by_place.insert(key, before)?;
        Ok(())
    }

    /// Forgets the place.
    pub fn forget(&mut self, key: &RecKey)
        ensures { self.new ≡ map.remove self.old key.now }
    {
        let _ = self.by_place.remove(key);
    }

    /// Takes out the first place, in their order, with what was found there.
    pub fn pop(&mut self) -> Option<(RecKey, Option<Value>)>
        ensures some { IfSome result (λ e. map.entries self.old ≡ e ∷ map.entries self.new) }
        ensures none { IfNone result (map.entries self.old ≡ []) }
    {
        if self.by_place.len() == 0 {
            return None;
        }
        self.by_place.pop_first()
    }
}
