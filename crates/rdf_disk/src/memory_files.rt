//! The files of a disk in memory, and which of them were changed since the last sync.
ghost use Rattle.std.specs.Prelude.{◌≡◌, ◌≢◌, ◌<◌, ◌≤◌, ◌+◌, ◌-◌, ◌^◌, ◌==◌, ℕ, [], length, None, false, IfOk, IfSome, IfNone, OnOk, OnErr};
ghost use Rattle.std.specs.Ordering.{nat_cmp};
ghost use Rattle.std.specs.Option.{is_some, option_map};
ghost use Rattle.std.specs.BTreeMap.{get};
ghost use Rattle.rdf_disk.specs.Files.{bytes_of, IsSpan};
ghost use Rattle.rdf_disk.specs.MemoryChanges.{quiet, left_by, state_of};
ghost use Rattle.rdf_disk.specs.Calls.{Fills};
ghost use Rattle.rdf_disk.specs.MemoryEntries.{IsPossible, next_odd};
ghost use Rattle.rdf_disk.specs.MemoryFiles.{told_at, AreListed, Makes, TellsOf, IsLowest, IsHighest};

use crate::fault::Tear;
use crate::memory_entry::{Edit, Entry};
use std::alloc::{AllocError, Global};
use std::collections::BTreeMap;

/// The files by number. `changed` has the number of each file that was changed since the last
/// sync, and `odd` says whether the next change has an odd number.
#[derive(Drop)]
pub struct Files {
    pub entries: BTreeMap<u32, Entry>,
    pub changed: Vec<u32>,
    pub odd: bool,
    ghost listed: { AreListed entries changed.items },
    ghost none: { is_some (get nat_cmp entries (2 ^ 32 - 1)) ≡ false },
}

/// The file becomes what a stop leaves of it. The entry of a file that is gone is dropped.
fn settle_one(files: &mut BTreeMap<u32, Entry>, file: u32, tear: Tear)
    ensures tells { TellsOf file (told_at files.old) (told_at files.new) (quiet (left_by tear (told_at files.old file))) }
    ensures none { is_some (get nat_cmp files.old (2 ^ 32 - 1)) ≡ false → is_some (get nat_cmp files.new (2 ^ 32 - 1)) ≡ false }
{
    let Some(entry) = files.get_mut(&file) else {
        return;
    };
    entry.settle(tear);
    if entry.len().is_none() {
        let _ = files.remove(&file);
    }
}

/// Each file that was changed becomes what a stop leaves of it.
pub fn settle_all(files: &mut BTreeMap<u32, Entry>, changed: &mut Vec<u32>, tear: Tear)
    requires { AreListed files.old changed.old.items }
    ensures settled { (n : ℕ) → told_at files.new n ≡ quiet (left_by tear (told_at files.old n)) }
    ensures done { changed.new.items ≡ [] }
    ensures none { is_some (get nat_cmp files.old (2 ^ 32 - 1)) ≡ false → is_some (get nat_cmp files.new (2 ^ 32 - 1)) ≡ false }
{
    while let Some(file) = changed.pop() {
        settle_one(files, file, tear);
    }
}

/// The lowest number of a file that is there. Below it stand only files that were removed since the last sync.
fn lowest(files: &BTreeMap<u32, Entry>) -> Option<u32>
    ensures some { IfSome result (λ n. IsLowest (told_at files.now) n) }
    ensures none { IfNone result ((m : ℕ) → (told_at files.now m).seen ≡ None) }
{
    for (number, entry) in files.iter() {
        if entry.len().is_some() {
            return Some(*number);
        }
    }
    None
}

/// The highest number of a file that is there. Above it stand only files that were removed since the last sync.
fn highest(files: &BTreeMap<u32, Entry>) -> Option<u32>
    ensures some { IfSome result (λ n. IsHighest (told_at files.now) n) }
    ensures none { IfNone result ((m : ℕ) → (told_at files.now m).seen ≡ None) }
{
    for (number, entry) in files.iter().rev() {
        if entry.len().is_some() {
            return Some(*number);
        }
    }
    None
}

/// The lowest number of a file that is there, and one more than the highest.
pub fn span_of(files: &BTreeMap<u32, Entry>) -> (u32, u32)
    requires { is_some (get nat_cmp files.now (2 ^ 32 - 1)) ≡ false }
    ensures { IsSpan (λ n. state_of (told_at files.now n)) result.0 result.1 }
{
    let Some(low) = lowest(files) else {
        return (0, 0);
    };
    let Some(high) = highest(files) else {
        return (0, 0);
    };
    (low, high + 1)
}

/// Makes a change of a file. After an `Err` each file is as before.
fn change_in(
    files: &mut BTreeMap<u32, Entry>,
    alloc: Global,
    file: u32,
    odd: bool,
    edit: Edit<'_>,
) -> Result<(), AllocError>
    requires numbered { file < 2 ^ 32 - 1 }
    requires possible { IsPossible edit (told_at files.old file) }
    ensures ok { OnOk result (Makes odd edit.entry file (told_at files.old) (told_at files.new)) }
    ensures err { OnErr result ((n : ℕ) → told_at files.new n ≡ told_at files.old n) }
    ensures none { is_some (get nat_cmp files.old (2 ^ 32 - 1)) ≡ false → is_some (get nat_cmp files.new (2 ^ 32 - 1)) ≡ false }
{
    match files.get_mut(&file) {
        Some(entry) => return entry.change(alloc, odd, edit),
        None => {}
    }
    let mut entry = Entry::new(alloc);
    entry.change(alloc, odd, edit)?;
    files.insert(file, entry)?;
    Ok(())
}

/// Whether the change after this one has an odd number.
fn next_is_odd(odd: bool, edit: Edit<'_>) -> bool
    ensures { result ≡ next_odd odd edit.entry }
{
    match edit {
        Edit::Put { at: _, bytes: _ } | Edit::Delete => !odd,
        Edit::FailedPut { at: _, n: _ } | Edit::FailedDelete => odd,
    }
}

impl Files {
    /// No file.
    pub fn new(alloc: Global) -> Files
        ensures told { (n : ℕ) → told_at result.entries n ≡ quiet None }
        ensures odd { result.odd ≡ false }
    {
        Files {
            entries: BTreeMap::new(alloc),
            changed: Vec::new(alloc),
            odd: false,
        }
    }

    /// Makes a change of a file. After an `Err` each file is as before.
    pub fn change(&mut self, alloc: Global, file: u32, edit: Edit<'_>) -> Result<(), AllocError>
        requires numbered { file < 2 ^ 32 - 1 }
        requires possible { IsPossible edit (told_at self.old.entries file) }
        ensures ok { OnOk result (Makes self.old.odd edit.entry file (told_at self.old.entries) (told_at self.new.entries)) }
        ensures odd { OnOk result (self.new.odd ≡ next_odd self.old.odd edit.entry) }
        ensures err { OnErr result ((n : ℕ) → told_at self.new.entries n ≡ told_at self.old.entries n) }
        ensures same { OnErr result (self.new.odd ≡ self.old.odd) }
    {
        self.changed.reserve(1)?;
        change_in(&mut self.entries, alloc, file, self.odd, edit)?;
        let _ = self.changed.push(file);
        self.odd = next_is_odd(self.odd, edit);
        Ok(())
    }

    /// Each file becomes what a stop leaves of it.
    pub fn settle(&mut self, tear: Tear)
        ensures told { (n : ℕ) → told_at self.new.entries n ≡ quiet (left_by tear (told_at self.old.entries n)) }
        ensures odd { self.new.odd ≡ false }
    {
        settle_all(&mut self.entries, &mut self.changed, tear);
        self.odd = false;
    }

    /// What a read gives of each file is safe.
    pub fn sync(&mut self)
        ensures told { (n : ℕ) → told_at self.new.entries n ≡ quiet (told_at self.old.entries n).seen }
        ensures odd { self.new.odd ≡ false }
    {
        self.settle(Tear::Keep);
    }

    /// How long a file is, or None where it isn't there.
    pub fn len(&self, file: u32) -> Option<u64>
        ensures { result ≡ option_map length (told_at self.now.entries file).seen }
    {
        match self.entries.get(&file)?.len() {
            None => None,
            Some(len) => Some(len as u64),
        }
    }

    /// Fills in as much as a file has from a place on.
    pub fn read(&self, file: u32, at: u64, into: &mut [u8]) -> usize
        ensures { Fills (told_at self.now.entries file).seen at into.old result into.new }
    {
        match self.entries.get(&file) {
            None => 0,
            Some(entry) => entry.read(at, into),
        }
    }

    /// The lowest number of a file that is there, and one more than the highest.
    pub fn span(&self) -> (u32, u32)
        ensures { IsSpan (λ n. state_of (told_at self.now.entries n)) result.0 result.1 }
    {
        span_of(&self.entries)
    }
}
