//! The rows of a volume: the value at each file and key.
//!
//! The rows of one file stand in a map of their own, so that a place is found by a borrowed file name and a borrowed key.
ghost use Rattle.std.specs.Prelude.{◌≡◌, ℕ, List, Option, IfOk, OnOk, OnErr, option_copied, option_map, slice_get};
ghost use Rattle.std.specs.FinMap as map;
ghost use Rattle.std.specs.Option.{option_and_then};
ghost use Rattle.std.specs.Ordering.{nat_cmp};
ghost use Rattle.std.specs.Cmp.Lexicographic.{slice_cmp};
ghost use Rattle.keyed_files.specs.RowsAbove.{rows_above};
ghost use Rattle.keyed_files.specs.Listed.{listed};
ghost use Rattle.keyed_files.specs.Joined.{above, first_of, own_above, row_of};

use crate::file_rows::FileRows;
use rdf_types::names::{FileName, Key, Value};
use rdf_types::records::Row;
use std::alloc::{AllocError, Global};
use std::collections::BTreeMap;
use std::marker::Model;
use std::ops::Bound;

/// The value at each file and key, where there is one.
#[derive(Drop)]
pub struct KeyedFiles {
    alloc: Global,
    files: BTreeMap<FileName, FileRows>,
}

impl Model for KeyedFiles {
    ghost use Rattle.std.specs.Prelude.{List, ℕ};
    ghost use Rattle.std.specs.Coded.{coded×, coded_ℕ, coded_list};
    ghost use Rattle.std.specs.FinMap as map;
    ghost use Rattle.rdf_types.specs.Places.{row_cmp};
    ghost use Rattle.keyed_files.specs.Joined.{joined, AllFilled};

    ghost Value = { map.FinMap row_cmp (List ℕ) };

    ghost coded = { map.code (coded× (coded_list coded_ℕ) (coded_list coded_ℕ)) (coded_list coded_ℕ) };

    ghost view = { λ a. joined (map.from_entries a.files.entries) };

    ghost invariant = { λ a. AllFilled (map.from_entries a.files.entries) };
}

impl KeyedFiles {
    /// No rows.
    pub fn new(alloc: Global) -> KeyedFiles
        ensures { result ≡ map.empty }
    {
        KeyedFiles {
            alloc,
            files: BTreeMap::new(alloc),
        }
    }

    /// The value at the file and key.
    pub fn get(&self, file: &FileName, key: &Key) -> Option<&Value>
        ensures { option_copied result ≡ map.get self.now (file.now, key.now) }
    {
        match self.files.get(file) {
            Some(rows) => rows.get(key),
            None => None,
        }
    }

    /// Sets the value at the row's file and key.
    pub fn put(&mut self, row: Row) -> Result<(), AllocError>
        ensures ok { OnOk result (self.new ≡ map.insert self.old (row.file, row.key) row.value) }
        ensures err { OnErr result (self.new ≡ self.old) }
    {
        let Row { file, key, value } = row;
        if let Some(rows) = self.files.get_mut(&file) {
            return rows.put(key, value);
        }
        let mut rows = FileRows::new(self.alloc);
        rows.put(key, value)?;
        let _ = self.files.insert(file, rows)?;
        Ok(())
    }

    /// Takes away the row at the file and key, and gives its value.
    pub fn remove(&mut self, file: &FileName, key: &Key) -> Option<Value>
        ensures value { result ≡ map.get self.old (file.now, key.now) }
        ensures after { self.new ≡ map.remove self.old (file.now, key.now) }
    {
        let Some(rows) = self.files.get_mut(file) else {
            return None;
        };
        let removed = rows.remove(key);
        if rows.is_empty() {
            drop_file(&mut self.files, file);
        }
        removed
    }

    /// All rows, in the order of file and key.
    pub fn rows(&self, alloc: Global) -> Result<Vec<Row>, AllocError>
        ensures { IfOk result (λ rows. rows.items ≡ listed self.now) }
    {
        let mut rows = Vec::new(alloc);
        for (file, of_file) in self.files.iter() {
            of_file.push_rows(file, &mut rows)?;
        }
        Ok(rows)
    }

    /// The first row.
    pub fn first(&self) -> Option<(&FileName, &Key, &Value)>
        ensures { option_map (λ r. ((r.0.now, r.1.now), r.2.now)) result ≡ slice_get (map.entries self.now) 0 }
    {
        first_row(&self.files)
    }

    /// The first row above the file and key.
    pub fn next_after(&self, file: &FileName, key: &Key) -> Option<(&FileName, &Key, &Value)>
        ensures { option_map (λ r. ((r.0.now, r.1.now), r.2.now)) result ≡ slice_get (rows_above self.now (file.now, key.now)) 0 }
    {
        if let Some(found) = next_in_file(&self.files, file, key) {
            return Some(found);
        }
        next_file(&self.files, file)
    }
}

// The first row of the first file.
fn first_row(files: &BTreeMap<FileName, FileRows>) -> Option<(&FileName, &Key, &Value)>
    ensures { option_map (λ r. ((r.0.now, r.1.now), r.2.now)) result
        ≡ option_and_then first_of (slice_get (map.entries (map.from_entries {R = slice_cmp nat_cmp} files.now.entries)) 0) }
{
    let Some((file, rows)) = files.iter().next() else {
        return None;
    };
    with_file(file, rows.first())
}

// The next row of the same file.
fn next_in_file<'a>(
    files: &'a BTreeMap<FileName, FileRows>,
    file: &FileName,
    key: &Key,
) -> Option<(&'a FileName, &'a Key, &'a Value)>
    ensures { option_map (λ r. ((r.0.now, r.1.now), r.2.now)) result
        ≡ slice_get (own_above (file.now, key.now) (map.get (map.from_entries {R = slice_cmp nat_cmp} files.now.entries) file.now)) 0 }
{
    let Some((same_file, rows)) = files.get_key_value(file) else {
        return None;
    };
    with_file(same_file, rows.next_after(key))
}

// The first row of the next file.
fn next_file<'a>(
    files: &'a BTreeMap<FileName, FileRows>,
    file: &FileName,
) -> Option<(&'a FileName, &'a Key, &'a Value)>
    ensures { option_map (λ r. ((r.0.now, r.1.now), r.2.now)) result
        ≡ option_and_then first_of (slice_get (above (map.from_entries files.now.entries) file.now) 0) }
{
    let after = (Bound::Excluded(file), Bound::Unbounded);
    let Some((other_file, rows)) = files.range(after).next() else {
        return None;
    };
    with_file(other_file, rows.first())
}

// A key and its value, with their file.
fn with_file<'a>(
    file: &'a FileName,
    found: Option<(&'a Key, &'a Value)>,
) -> Option<(&'a FileName, &'a Key, &'a Value)>
    ensures { option_map (λ r. ((r.0.now, r.1.now), r.2.now)) result ≡ option_map (λ e. row_of file.now (e.0.now, e.1.now)) found.entry }
{
    match found {
        Some((key, value)) => Some((file, key, value)),
        None => None,
    }
}

// Takes away a file with its rows.
fn drop_file(files: &mut BTreeMap<FileName, FileRows>, file: &FileName)
    ensures { map.from_entries {R = slice_cmp nat_cmp} files.new.entries ≡ map.remove (map.from_entries files.old.entries) file.now }
{
    let _ = files.remove(file);
}
