//! A folder in memory that keeps the rules, can refuse chosen calls and move bytes in short pieces, and can lose power.
ghost use Rattle.std.specs.Prelude.{All, ◌≡◌, ◌≢◌, ◌≤◌, ◌<◌, ◌+◌, ◌-◌, ◌^◌, ℕ, List, min, max, length, vec_len, nat_eq, Some, None, IfOk, OnOk, OnErr, true, false};
ghost use Rattle.std.specs.Option.{option_map};
ghost use Rattle.rdf_types.specs.Counts.{most};
ghost use Rattle.rdf_disk.specs.Files.{bytes_of};
ghost use Rattle.folder_disk.specs.Names.{IsRead, AreAll};
ghost use Rattle.memory_folder.specs.Fakes.{name_at, clean_name, Leaves, Planned, IsNoted};
ghost use Rattle.memory_folder.specs.Losses.{Lost};
ghost use Rattle.memory_folder.specs.Refusals.{planned_at};

use crate::losses::Loss;
use crate::refusals::fault_at;
use crate::row::Row;
use crate::supply::Supply;
use crate::sweep::Sweep;
use folder_disk::{Folder, FolderFault};
use std::alloc::{AllocError, Global};

/// File n is row n. Calls of the system are counted from 0.
#[derive(Drop)]
pub struct MemFolder {
    pub(crate) alloc: Global,
    pub(crate) rows: Vec<Row>,
    pub(crate) is_lost: bool,
    calls: u64,
    pub(crate) refusals: u64,
    /// The calls that are refused, each with its answer. `NotFound` and `NoMemory` are `Failed` here. A
    /// making that is `Refused` makes its file all the same.
    refused: Vec<(u64, FolderFault)>,
    /// How many bytes a call moves at most, and at least one.
    pub(crate) piece: usize,
    supply: Option<Supply>,
    ghost few: { vec_len rows ≤ 2 ^ 32 - 1 },
    ghost some: { 0 < piece },
}

impl MemFolder {
    ghost use Rattle.folder_disk.specs.Names.{Still, IsLeft, one_more};
    ghost use Rattle.memory_folder.specs.Rows.{content};
    ghost use Rattle.memory_folder.specs.Sweeps.{AreSwept, Swept};
    ghost use Rattle.memory_folder.specs.Changes.{SameCalls};

    /// A folder without files that refuses these calls, and moves at most so many bytes in one.
    pub fn blank(alloc: Global, refused: Vec<(u64, FolderFault)>, piece: usize) -> MemFolder
        ensures names { (m : ℕ) → name_at result.rows.items m ≡ clean_name None }
        ensures lost { result.is_lost ≡ false }
        ensures calls { (result.calls ≡ 0) × (result.refusals ≡ 0) × (result.refused ≡ refused) }
        ensures piece { result.piece ≡ max piece 1 }
        ensures power { result.supply ≡ None }
    {
        MemFolder {
            alloc,
            rows: Vec::new(alloc),
            is_lost: false,
            calls: 0,
            refusals: 0,
            refused,
            piece: piece.max(1),
            supply: None,
        }
    }

    /// How many calls of the system were made.
    pub fn calls(&self) -> u64
        ensures { result ≡ self.now.calls }
    {
        self.calls
    }

    /// Counts a call, and tells how it is refused.
    pub(crate) fn planned(&mut self) -> Option<FolderFault>
        ensures names { self.new.rows ≡ self.old.rows }
        ensures lost { self.new.is_lost ≡ self.old.is_lost }
        ensures refused { self.new.refusals ≡ self.old.refusals }
        ensures calls { self.new.calls ≡ min (self.old.calls + 1) most }
        ensures others { (self.new.refused ≡ self.old.refused) × (self.new.piece ≡ self.old.piece) × (self.new.supply ≡ self.old.supply) }
        ensures planned { self.old.supply ≡ None → result ≡ planned_at self.old.refused.items self.old.calls }
        ensures fault { Planned result }
    {
        let call = self.calls;
        self.calls = self.calls.saturating_add(1);
        if !self.has_power() {
            return Some(FolderFault::Failed);
        }
        fault_at(&self.refused, call)
    }

    /// Counts a call where the folder has a power that may go. Whether there is power for it.
    fn has_power(&self) -> bool
        ensures { self.now.supply ≡ None → result ≡ true }
    {
        match &self.supply {
            Some(supply) => supply.takes_call(),
            None => true,
        }
    }

    /// From here on the folder has this power.
    pub fn feed(&mut self, supply: Supply)
        ensures names { self.new.rows ≡ self.old.rows }
        ensures lost { self.new.is_lost ≡ self.old.is_lost }
        ensures power { self.new.supply ≡ Some supply }
        ensures others { (self.new.calls ≡ self.old.calls) × (self.new.refused ≡ self.old.refused) × (self.new.refusals ≡ self.old.refusals)
            × (self.new.piece ≡ self.old.piece) }
    {
        self.supply = Some(supply);
    }

    /// Counts a call that is not done.
    #[tactic(auto, using(crate::proofs::Calling::counted))]
    pub(crate) fn refuse(&mut self)
        ensures names { self.new.rows ≡ self.old.rows }
        ensures lost { self.new.is_lost ≡ self.old.is_lost }
        ensures refused { self.new.refusals ≡ one_more self.old.refusals }
    {
        self.refusals = self.refusals.saturating_add(1);
    }

    /// Makes rows up to that of a file.
    pub(crate) fn grow(&mut self, file: u32) -> Result<(), AllocError>
        requires { file < 2 ^ 32 - 1 }
        ensures names { Still (name_at self.old.rows.items) (name_at self.new.rows.items) }
        ensures lost { self.new.is_lost ≡ self.old.is_lost }
        ensures refused { self.new.refusals ≡ self.old.refusals }
        ensures ok { OnOk result (file < vec_len self.new.rows) }
    {
        while self.rows.len() <= file as usize {
            let row = Row::new(self.alloc);
            self.rows.push(row)?;
        }
        Ok(())
    }

    fn sweep_one(&mut self, place: usize, sweep: Sweep)
        requires { place < vec_len self.old.rows }
        ensures names { AreSwept sweep place (name_at self.old.rows.items) (name_at self.new.rows.items) }
        ensures lost { self.new.is_lost ≡ self.old.is_lost }
        ensures refused { self.new.refusals ≡ self.old.refusals }
        ensures calls { SameCalls self.old self.new }
        ensures many { vec_len self.new.rows ≡ vec_len self.old.rows }
    {
        match sweep {
            Sweep::Enter => self.rows[place].enter(),
            Sweep::Rest => self.rows[place].rest(),
            Sweep::Lose(loss) => self.rows[place].lose(loss),
        }
    }

    /// Does the same to each file.
    pub(crate) fn sweep(&mut self, sweep: Sweep)
        ensures names { (m : ℕ) → Swept sweep (name_at self.old.rows.items m) (name_at self.new.rows.items m) }
        ensures lost { self.new.is_lost ≡ self.old.is_lost }
        ensures refused { self.new.refusals ≡ self.old.refusals }
        ensures calls { SameCalls self.old self.new }
    {
        for place in 0..self.rows.len() {
            self.sweep_one(place, sweep);
        }
    }

    /// The power goes, and comes again: of each file is left what the loss leaves, which the rules allow, and nothing waits for a sync.
    pub fn lose_power(&mut self, loss: Loss)
        ensures names { (m : ℕ) → Lost loss (name_at self.old.rows.items m) (name_at self.new.rows.items m) }
        ensures lost { self.new.is_lost ≡ false }
        ensures refused { self.new.refusals ≡ self.old.refusals }
        ensures calls { SameCalls self.old self.new }
    {
        self.sweep(Sweep::Lose(loss));
        self.is_lost = false;
    }

    /// Chooses what a loss of power leaves of one file. It is false, and nothing is done, exactly where the rules do not allow it.
    #[tactic(auto, using(crate::proofs::Leaving::no_row_leaves, crate::proofs::Leaving::no_row_left, crate::proofs::Leaving::no_row_only))]
    pub fn leave(&mut self, file: u32, there: bool, bytes: Vec<u8>) -> bool
        ensures left { result ≡ true → IsLeft (name_at self.old.rows.items file) (content there bytes.items) }
        ensures only { result ≡ false → IsLeft (name_at self.old.rows.items file) (content there bytes.items) → ⊥ }
        ensures names { Leaves result file (content there bytes.items) (name_at self.old.rows.items) (name_at self.new.rows.items) }
        ensures lost { self.new.is_lost ≡ self.old.is_lost }
        ensures refused { self.new.refusals ≡ self.old.refusals }
        ensures calls { SameCalls self.old self.new }
    {
        if file as usize >= self.rows.len() {
            return !there;
        }
        self.rows[file as usize].leave(there, bytes)
    }

    /// Takes refusals back, and sets new ones. Calls are counted from 0 again.
    pub fn plan(&mut self, refused: Vec<(u64, FolderFault)>)
        ensures names { Still (name_at self.old.rows.items) (name_at self.new.rows.items) }
        ensures lost { self.new.is_lost ≡ self.old.is_lost }
        ensures calls { (self.new.calls ≡ 0) × (self.new.refused ≡ refused) }
        ensures others { (self.new.refusals ≡ self.old.refusals) × (self.new.piece ≡ self.old.piece) × (self.new.supply ≡ self.old.supply) }
    {
        self.refused = refused;
        self.calls = 0;
    }
}

/// The length of a file that is there.
pub(crate) fn len_at(rows: &[Row], file: u32) -> Option<u64>
    ensures { result ≡ option_map length (name_at rows.now file).file.seen }
{
    if (file as usize) < rows.len() {
        return rows[file as usize].len();
    }
    None
}

/// Reads some of a file.
pub(crate) fn read_at(rows: &[Row], file: u32, at: u64, into: &mut [u8], most: usize) -> usize
    requires { 0 < most }
    ensures read { IsRead (name_at rows.now file).file.seen at into.old result into.new }
    ensures piece { result ≡ min most (min (length into.old) (length (bytes_of (name_at rows.now file).file.seen) - at)) }
{
    if (file as usize) < rows.len() {
        return rows[file as usize].read(at, into, most);
    }
    0
}

/// Notes a file's number where it is there.
fn note(numbers: &mut Vec<u32>, rows: &[Row], place: usize) -> Result<(), AllocError>
    requires within { place < length rows.now }
    requires few { length rows.now ≤ 2 ^ 32 - 1 }
    ensures { OnOk result (IsNoted (name_at rows.now) place numbers.old.items numbers.new.items) }
{
    if rows[place].len().is_some() {
        numbers.push(place as u32)?;
    }
    Ok(())
}

/// The numbers of the files that are there.
pub(crate) fn numbers_in(alloc: Global, rows: &[Row]) -> Result<Vec<u32>, AllocError>
    requires few { length rows.now ≤ 2 ^ 32 - 1 }
    ensures ok { IfOk result (λ all. AreAll all.items (name_at rows.now)) }
    ensures numbered { IfOk result (λ all. All (λ n. n < 2 ^ 32 - 1) all.items) }
{
    let mut numbers = Vec::new(alloc);
    for place in 0..rows.len() {
        note(&mut numbers, rows, place)?;
    }
    Ok(numbers)
}
