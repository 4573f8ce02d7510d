//! The last image of each place.
ghost use Rattle.std.specs.Prelude.{◌≡◌, Some, IfOk, OnOk, OnErr, option_copied};
ghost use Rattle.std.specs.FinMap as map;
ghost use Rattle.primary_machine.specs.Kept.{value_in, txn_in, row_at, rows_in};
ghost use Rattle.primary_machine.specs.Backouts.{set_again};

use rdf_types::names::Value;
use rdf_types::records::{RecKey, Row, TxnId, VolNo, copy_of};
use std::alloc::{AllocError, Global};
use std::collections::BTreeMap;
use std::marker::Model;

/// The last image of a place: the value that it left, or none, and whose image it is.
#[derive(Debug, Drop)]
pub struct Last {
    pub value: Option<Value>,
    pub txn: TxnId,
}

/// The last image of each place that has one.
#[derive(Drop)]
pub struct Places {
    lasts: BTreeMap<RecKey, Last>,
}

impl Model for Places {
    ghost use Rattle.std.specs.FinMap as map;
    ghost use Rattle.rdf_types.specs.Places.{coded_place};
    ghost use Rattle.primary_machine.specs.Kept.{Lasts, last_code};

    ghost Value = { Lasts };

    ghost coded = { map.code coded_place last_code };

    ghost view = { λ a. map.from_entries a.lasts.entries };
}

impl Places {
    /// No image of any place.
    pub fn new(alloc: Global) -> Places
        ensures { result ≡ map.empty }
    {
        Places {
            lasts: BTreeMap::new(alloc),
        }
    }

    fn last(&self, key: &RecKey) -> Option<&Last>
        ensures { option_copied result ≡ map.get self.now key.now }
    {
        self.lasts.get(key)
    }

    /// The value that stands at the place.
    pub fn value(&self, key: &RecKey) -> Option<&Value>
        ensures { option_copied result ≡ value_in self.now key.now }
    {
        match self.last(key) {
            Some(last) => last.value.as_ref(),
            None => None,
        }
    }

    /// The transaction of the last image of the place.
    pub fn last_txn(&self, key: &RecKey) -> Option<TxnId>
        ensures { result ≡ txn_in self.now key.now }
    {
        match self.last(key) {
            Some(last) => Some(last.txn),
            None => None,
        }
    }

    /// Notes an image of the place.
    pub fn set(&mut self, key: RecKey, last: Last) -> Result<(), AllocError>
        ensures ok { OnOk result (self.new ≡ map.insert self.old key last) }
        ensures err { OnErr result (self.new ≡ self.old) }
    {
        let _ = self.lasts.insert(key, last)?;
        Ok(())
    }

    /// A copy of the last image of the place.
    pub fn last_copy(&self, key: &RecKey) -> Result<Option<Last>, AllocError>
        ensures { IfOk result (λ last. last ≡ map.get self.now key.now) }
    {
        match self.last(key) {
            None => Ok(None),
            Some(last) => Ok(Some(copied(last)?)),
        }
    }

    /// The place has this last image again, or none.
    pub fn set_again(&mut self, key: &RecKey, last: Option<Last>)
        ensures { self.new ≡ set_again self.old key.now last }
    {
        match last {
            None => self.remove(key),
            Some(last) => self.replace(key, last),
        }
    }

    /// The rows of a volume, in the order of file and key.
    pub fn rows(&self, alloc: Global, vol: VolNo) -> Result<Vec<Row>, AllocError>
        ensures { IfOk result (λ rows. rows.items ≡ rows_in vol (map.entries self.now)) }
    {
        let mut rows = Vec::new(alloc);
        for (key, last) in self.lasts.iter() {
            if key.vol == vol {
                if let Some(row) = row_of(key, last)? {
                    rows.push(row)?;
                }
            }
        }
        Ok(rows)
    }

    fn remove(&mut self, key: &RecKey)
        ensures { self.new ≡ map.remove self.old key.now }
    {
        let _ = self.lasts.remove(key);
    }

    fn replace(&mut self, key: &RecKey, last: Last)
        ensures { self.new ≡ set_again self.old key.now (Some last) }
    {
        if let Some(held) = self.lasts.get_mut(key) {
            *held = last;
            return;
        }
    }
}

fn copied(last: &Last) -> Result<Last, AllocError>
    ensures { IfOk result (λ copy. copy ≡ last.now) }
{
    let value = copy_of(last.value.as_ref())?;
    Ok(Last {
        value,
        txn: last.txn,
    })
}

fn row_of(key: &RecKey, last: &Last) -> Result<Option<Row>, AllocError>
    ensures { IfOk result (λ row. row ≡ row_at key.now last.now.value) }
{
    match &last.value {
        None => Ok(None),
        Some(value) => {
            let file = key.file.try_clone()?;
            let value = value.try_clone()?;
            Ok(Some(Row {
                file,
                key: key.key.try_clone()?,
                value,
            }))
        }
    }
}
