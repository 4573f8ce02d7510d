//! The rows of one file: the value at each key, in the order of keys.
ghost use Rattle.std.specs.Prelude.{◌≡◌, ℕ, List, Option, ◌++◌, IfOk, OnOk, OnErr, option_copied, option_map, is_none, slice_get};
ghost use Rattle.std.specs.FinMap as map;
ghost use Rattle.keyed_files.specs.Joined.{above};
ghost use Rattle.keyed_files.specs.Listed.{as_row, rows_at};

use rdf_types::names::{FileName, Key, Value};
use rdf_types::records::Row;
use std::alloc::{AllocError, Global};
use std::collections::BTreeMap;
use std::marker::Model;
use std::ops::Bound;

/// The values of one file by key.
#[derive(Drop)]
pub struct FileRows {
    values: BTreeMap<Key, Value>,
}

impl Model for FileRows {
    ghost use Rattle.std.specs.Prelude.{List, ℕ};
    ghost use Rattle.std.specs.Coded.{coded_ℕ, coded_list};
    ghost use Rattle.std.specs.Cmp.Lexicographic.{slice_cmp};
    ghost use Rattle.std.specs.Ordering.{nat_cmp};
    ghost use Rattle.std.specs.FinMap as map;

    ghost Value = { map.FinMap (slice_cmp nat_cmp) (List ℕ) };

    ghost coded = { map.code (coded_list coded_ℕ) (coded_list coded_ℕ) };

    ghost view = { λ a. map.from_entries a.values.entries };
}

impl FileRows {
    /// A file without rows.
    pub fn new(alloc: Global) -> FileRows
        ensures { result ≡ map.empty }
    {
        FileRows {
            values: BTreeMap::new(alloc),
        }
    }

    /// The value at a key, where there is one.
    pub fn get(&self, key: &Key) -> Option<&Value>
        ensures { option_copied result ≡ map.get self.now key.now }
    {
        self.values.get(key)
    }

    /// Sets the value at a key. Want of memory leaves all as it was.
    pub fn put(&mut self, key: Key, value: Value) -> Result<(), AllocError>
        ensures ok { OnOk result (self.new ≡ map.insert self.old key value) }
        ensures err { OnErr result (self.new ≡ self.old) }
    {
        let _ = self.values.insert(key, value)?;
        Ok(())
    }

    /// Takes out the value at a key, where there is one.
    pub fn remove(&mut self, key: &Key) -> Option<Value>
        ensures value { result ≡ map.get self.old key.now }
        ensures after { self.new ≡ map.remove self.old key.now }
    {
        self.values.remove(key)
    }

    /// Whether the file has no row.
    pub fn is_empty(&self) -> bool
        ensures { result ≡ is_none (slice_get (map.entries self.now) 0) }
    {
        self.first().is_none()
    }

    /// The row with the first key.
    pub fn first(&self) -> Option<(&Key, &Value)>
        ensures { option_map (λ e. (e.0.now, e.1.now)) result ≡ slice_get (map.entries self.now) 0 }
    {
        self.values.iter().next()
    }

    /// The first row whose key is greater than this one.
    pub fn next_after(&self, key: &Key) -> Option<(&Key, &Value)>
        ensures { option_map (λ e. (e.0.now, e.1.now)) result ≡ slice_get (above self.now key.now) 0 }
    {
        self.values
            .range((Bound::Excluded(key), Bound::Unbounded))
            .next()
    }

    /// Adds the rows of the file at the end of a list, in the order of keys. After an `Err` some first ones are added.
    pub fn push_rows(&self, file: &FileName, rows: &mut Vec<Row>) -> Result<(), AllocError>
        ensures { OnOk result (rows.new.items ≡ rows.old.items ++ rows_at file.now (map.entries self.now)) }
    {
        for (key, value) in self.values.iter() {
            rows.push(row_at(file, key, value)?)?;
        }
        Ok(())
    }
}

fn row_at(file: &FileName, key: &Key, value: &Value) -> Result<Row, AllocError>
    ensures { IfOk result (λ row. row ≡ as_row ((file.now, key.now), value.now)) }
{
    let file = file.try_clone()?;
    let key = key.try_clone()?;
    let value = value.try_clone()?;
    Ok(Row { file, key, value })
}
