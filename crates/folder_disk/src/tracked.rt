//! A folder, and what of it is not durable yet.
ghost use Rattle.std.specs.Prelude.{◌≡◌, ◌≢◌, ◌≤◌, ◌<◌, ◌+◌, ◌^◌, ℕ, Option, [], None, true, false, length, take, nat_eq, vec_len, vec_capacity, OnOk, OnErr, IfOk};
ghost use Rattle.std.specs.List.{list_any};
ghost use Rattle.std.specs.Option.{option_map};
ghost use Rattle.rdf_disk.specs.Files.{bytes_of, IsSpan};
ghost use Rattle.rdf_disk.specs.Calls.{Same, Syncs, Synced, Writes, Removes, Fills};
ghost use Rattle.folder_disk.specs.Causes.{HasCause, is_undone, is_failed};
ghost use Rattle.folder_disk.specs.Meters.{answer_of};
ghost use Rattle.folder_disk.specs.Names.{Still, ChangesName, is_unfilled, IsAskedAway, flushed, entered, is_lost_by};
ghost use Rattle.folder_disk.specs.Tracked.{AreListed, AreSteady, AreFlushed, AreIn, NoneMoved, IsGone, IsHeld, IsFilled, IsHalfFilled, IsNoted, IsDue, HasPlace};

use crate::call_fault::CallFault;
use crate::calls::{sync_by, unlink};
use crate::fault::FolderFault;
use crate::folder::{Folder, TRIES};
use crate::looking::{fault_of_look, is_opened, is_within, len_of, reach, read_from, span_in};
use crate::numbers::{add_number, drop_number, is_among};
use std::alloc::Global;

/// A folder. `written` has the number of each file that was written since the last sync, which
/// stays open until then, and `grown` of each that was made, removed or made longer.
#[derive(Drop)]
pub struct Tracked<F: Folder> {
    pub alloc: Global,
    pub folder: F,
    pub written: Vec<u32>,
    pub grown: Vec<u32>,
    pub has_moved: bool,
    pub has_lost: bool,
    pub is_settled: bool,
    /// Whether all of the folder was made durable once.
    pub has_synced: bool,
    ghost lost: { F.tells → F.lost folder ≡ has_lost },
    ghost listed: { F.tells → is_settled ≡ true → AreListed (F.names folder) written.items },
    ghost unmoved: { F.tells → is_settled ≡ true → has_moved ≡ false → NoneMoved (F.names folder) },
    ghost steady: { F.tells → has_synced ≡ true → AreSteady (F.names folder) grown.items },
}

/// Whether the system refused a sync.
fn is_loss(fault: FolderFault) -> bool
    ensures { result ≡ is_lost_by fault }
{
    match fault {
        FolderFault::Refused | FolderFault::Interrupted => true,
        FolderFault::NotFound | FolderFault::Failed | FolderFault::NoMemory => false,
    }
}

impl<F: Folder + Drop> Tracked<F> {
    ghost use Rattle.folder_disk.specs.Kept.{kept_in, Caused};

    /// Makes the bytes of one file durable: by its data alone where neither its entry nor its length waits for a sync.
    #[tactic(auto, using(crate::proofs::Steady::steady_flushed, crate::proofs::Steady::steady_still, crate::proofs::Causing::told_refused, crate::proofs::Causing::none_refused, crate::proofs::Causing::lost_same))]
    fn flush(&mut self, file: u32) -> Result<(), CallFault>
        requires good { self.old.has_lost ≡ false }
        ensures ok { F.tells → OnOk result (ChangesName file (F.names self.old.folder) (F.names self.new.folder) (flushed (F.names self.old.folder file))) }
        ensures err { F.tells → OnErr result (Still (F.names self.old.folder) (F.names self.new.folder)) }
        ensures lost { OnOk result (self.new.has_lost ≡ false) }
        ensures fields { (self.new.written ≡ self.old.written) × (self.new.has_moved ≡ self.old.has_moved) × (self.new.is_settled ≡ self.old.is_settled) }
        ensures cause { F.tells → Caused (is_failed result) self.old self.new }
    {
        let by_data = self.has_synced && !is_among(&self.grown, file);
        match sync_by(&mut self.folder, file, by_data) {
            Ok(()) => Ok(()),
            Err(fault) => {
                self.has_lost = is_loss(fault);
                Err(fault_of_look(fault))
            }
        }
    }

    /// Makes the entries durable, where one came or went.
    #[tactic(auto, using(crate::proofs::Steady::steady_still, crate::proofs::Steady::steady_entered, crate::proofs::Causing::told_refused, crate::proofs::Causing::none_refused, crate::proofs::Causing::lost_same))]
    fn enter(&mut self) -> Result<(), CallFault>
        requires good { self.old.has_lost ≡ false }
        requires settled { self.old.is_settled ≡ true }
        ensures ok { F.tells → OnOk result ((m : ℕ) → F.names self.new.folder m ≡ entered (F.names self.old.folder m)) }
        ensures err { F.tells → OnErr result (Still (F.names self.old.folder) (F.names self.new.folder)) }
        ensures lost { OnOk result (self.new.has_lost ≡ false) }
        ensures fields { (self.new.written ≡ self.old.written) × (self.new.is_settled ≡ self.old.is_settled) }
        ensures cause { F.tells → Caused (is_failed result) self.old self.new }
    {
        if !self.has_moved {
            return Ok(());
        }
        match self.folder.sync_entries() {
            Ok(()) => Ok(()),
            Err(fault) => {
                self.has_lost = is_loss(fault);
                Err(fault_of_look(fault))
            }
        }
    }

    /// Makes the bytes of each file that was written durable.
    #[tactic(auto, using(crate::proofs::Causing::any_failure, crate::proofs::Causing::cause_behind, crate::proofs::Causing::none_refused))]
    fn flush_all(&mut self) -> Result<(), CallFault>
        requires good { self.old.has_lost ≡ false }
        ensures ok { F.tells → OnOk result (AreFlushed (F.names self.new.folder) self.old.written.items) }
        ensures files { F.tells → Same (kept_in self.old) (kept_in self.new) }
        ensures lost { OnOk result (self.new.has_lost ≡ false) }
        ensures fields { (self.new.written ≡ self.old.written) × (self.new.has_moved ≡ self.old.has_moved) × (self.new.is_settled ≡ self.old.is_settled) }
        ensures cause { F.tells → Caused (is_failed result) self.old self.new }
    {
        for i in 0..self.written.len() {
            let file = self.written[i];
            self.flush(file)?;
        }
        Ok(())
    }

    /// The sync of a folder of which each file was synced once.
    #[tactic(auto, using(crate::proofs::Steady::steady_rested, crate::proofs::Causing::any_failure, crate::proofs::Causing::cause_behind, crate::proofs::Causing::no_failure))]
    fn sync_settled(&mut self) -> Result<(), CallFault>
        requires good { self.old.has_lost ≡ false }
        requires settled { self.old.is_settled ≡ true }
        ensures ok { F.tells → OnOk result (Synced (kept_in self.old) (kept_in self.new)) }
        ensures err { F.tells → OnErr result (Same (kept_in self.old) (kept_in self.new)) }
        ensures settled { self.new.is_settled ≡ true }
        ensures cause { F.tells → Caused (is_failed result) self.old self.new }
    {
        self.flush_all()?;
        self.enter()?;
        self.folder.rest();
        self.written.clear();
        self.grown.clear();
        self.has_moved = false;
        self.has_synced = true;
        Ok(())
    }

    /// Opens a file that is there, to sync it.
    #[tactic(auto, using(crate::proofs::Steady::steady_still, crate::proofs::Causing::told_opened, crate::proofs::Causing::none_refused))]
    fn hold_there(&mut self, file: u32) -> Result<(), CallFault>
        requires unsettled { self.old.is_settled ≡ false }
        requires there { F.tells → (kept_in self.old file).seen ≢ None }
        ensures names { F.tells → Still (F.names self.old.folder) (F.names self.new.folder) }
        ensures listed { OnOk result (list_any (nat_eq file) self.new.written.items ≡ true) }
        ensures kept { AreIn self.old.written.items self.new.written.items }
        ensures fields { (self.new.has_lost ≡ self.old.has_lost) × (self.new.is_settled ≡ self.old.is_settled) }
        ensures cause { F.tells → Caused (is_failed result) self.old self.new }
    {
        if is_among(&self.written, file) {
            return Ok(());
        }
        self.written.reserve(1)?;
        match self.folder.open(file) {
            Ok(()) => {
                self.written.push_reserved(file);
                Ok(())
            }
            Err(fault) => Err(fault_of_look(fault)),
        }
    }

    /// Opens each file that is there, once: a program that was cut off may have written it.
    #[tactic(auto, using(crate::proofs::Steady::steady_still, crate::proofs::Causing::any_failure, crate::proofs::Causing::cause_behind, crate::proofs::Causing::no_failure, crate::proofs::Causing::told_refused, crate::proofs::Causing::found_there))]
    fn hold_found(&mut self) -> Result<(), CallFault>
        requires good { self.old.has_lost ≡ false }
        ensures names { F.tells → Still (F.names self.old.folder) (F.names self.new.folder) }
        ensures lost { self.new.has_lost ≡ false }
        ensures settled { OnOk result (self.new.is_settled ≡ true) }
        ensures cause { F.tells → Caused (is_failed result) self.old self.new }
    {
        if self.is_settled {
            return Ok(());
        }
        let found = match self.folder.numbers(self.alloc) {
            Ok(found) => found,
            Err(fault) => return Err(fault_of_look(fault)),
        };
        for i in 0..found.len() {
            self.hold_there(found[i])?;
        }
        self.has_moved = true;
        self.is_settled = true;
        Ok(())
    }

    /// From Ok on a loss of power leaves what a read gives. Once a sync was refused each one is `Failed`.
    #[tactic(auto, using(crate::proofs::Causing::any_failure, crate::proofs::Causing::cause_behind, crate::proofs::Causing::no_failure))]
    pub fn sync(&mut self) -> Result<(), CallFault>
        ensures files { F.tells → Syncs (answer_of result) (kept_in self.old) (kept_in self.new) }
        ensures settled { OnOk result (self.new.is_settled ≡ true) }
        ensures cause { F.tells → Caused (is_failed result) self.old self.new }
    {
        if self.has_lost {
            return Err(CallFault::Failed);
        }
        self.hold_found()?;
        self.sync_settled()
    }

    /// Opens a file that is there, to which a write is to come. Whether it is there.
    #[tactic(auto, using(crate::proofs::Steady::steady_still, crate::proofs::Causing::cause_behind, crate::proofs::Causing::no_failure, crate::proofs::Causing::none_refused))]
    fn hold(&mut self, file: u32) -> Result<bool, CallFault>
        requires good { self.old.has_lost ≡ false }
        requires room { vec_len self.old.written < vec_capacity self.old.written }
        ensures names { F.tells → Still (F.names self.old.folder) (F.names self.new.folder) }
        ensures place { IfOk result (λ there. HasPlace there file self.new.written.items (vec_len self.new.written) (vec_capacity self.new.written)) }
        ensures missing { F.tells → IfOk result (λ there. there ≡ false → (kept_in self.old file).seen ≡ None) }
        ensures fields { (self.new.has_lost ≡ false) × (self.new.grown ≡ self.old.grown) }
        ensures cause { F.tells → Caused (is_failed result) self.old self.new }
    {
        if is_among(&self.written, file) {
            return Ok(true);
        }
        if !is_opened(&mut self.folder, file)? {
            return Ok(false);
        }
        self.written.push_reserved(file);
        Ok(true)
    }

    /// Makes a file to which a write is to come.
    #[tactic(auto, using(crate::proofs::Steady::steady_made, crate::proofs::Causing::late_refused, crate::proofs::Causing::none_refused, crate::proofs::Filling::held_still, crate::proofs::Filling::held_made))]
    fn make(&mut self, file: u32) -> Result<(), FolderFault>
        requires numbered { file < u32.MAX }
        requires good { self.old.has_lost ≡ false }
        requires asked { F.tells → (kept_in self.old file).writes ≢ [] }
        requires noted { F.tells → list_any (nat_eq file) self.old.grown.items ≡ true }
        requires room { vec_len self.old.written < vec_capacity self.old.written }
        ensures names { F.tells → IsHeld file (kept_in self.old) (kept_in self.new) }
        ensures listed { OnOk result (list_any (nat_eq file) self.new.written.items ≡ true) }
        ensures fields { (self.new.has_lost ≡ false) × (self.new.grown ≡ self.old.grown) }
        ensures cause { F.tells → Caused (is_undone result) self.old self.new }
    {
        self.has_moved = true;
        if let Err(fault) = self.folder.make(file) {
            // the file may be there all the same: the next sync looks for it
            self.is_settled = false;
            return Err(fault);
        }
        self.written.push_reserved(file);
        Ok(())
    }

    /// Writes some first bytes, by one call.
    #[tactic(auto, using(crate::proofs::Steady::steady_filled, crate::proofs::Causing::none_refused, crate::proofs::Causing::one_refused, crate::proofs::Causing::turn_refused, crate::proofs::Causing::turns_end, crate::proofs::Causing::unfilled_refused))]
    fn fill_some(&mut self, file: u32, at: u64, bytes: &[u8]) -> Result<usize, FolderFault>
        requires numbered { file < u32.MAX }
        requires listed { list_any (nat_eq file) self.old.written.items ≡ true }
        requires due { F.tells → IsDue self.old.grown.items file at (length bytes.now) (kept_in self.old) }
        ensures ok { F.tells → IfOk result (λ k. IsFilled file at (take k bytes.now) (kept_in self.old) (kept_in self.new)) }
        ensures err { F.tells → OnErr result (IsHalfFilled file at (length bytes.now) (kept_in self.old) (kept_in self.new)) }
        ensures within { IfOk result (λ k. k ≤ length bytes.now) }
        ensures fields { (self.new.has_lost ≡ self.old.has_lost) × (self.new.written ≡ self.old.written) × (self.new.grown ≡ self.old.grown) }
        ensures cause { F.tells → Caused (is_unfilled result (length bytes.now)) self.old self.new }
    {
        for _turn in 0..TRIES {
            match self.folder.write(file, at, bytes) {
                Err(FolderFault::Interrupted) => {}
                answer => return answer,
            }
        }
        Err(FolderFault::Interrupted)
    }

    /// Writes all bytes of a write that was asked for.
    #[tactic(auto, using(crate::proofs::Causing::any_failure, crate::proofs::Causing::cause_behind, crate::proofs::Causing::no_failure, crate::proofs::Causing::short_refused, crate::proofs::Filling::filling_more, crate::proofs::Filling::filling_stops, crate::proofs::Filling::filling_fails, crate::proofs::Filling::filling_start))]
    fn fill(&mut self, file: u32, at: u64, bytes: &[u8]) -> Result<(), FolderFault>
        requires numbered { file < u32.MAX }
        requires listed { list_any (nat_eq file) self.old.written.items ≡ true }
        requires due { F.tells → IsDue self.old.grown.items file at (length bytes.now) (kept_in self.old) }
        requires small { at + length bytes.now < 2 ^ 64 }
        ensures ok { F.tells → OnOk result (IsFilled file at bytes.now (kept_in self.old) (kept_in self.new)) }
        ensures err { F.tells → OnErr result (IsHalfFilled file at (length bytes.now) (kept_in self.old) (kept_in self.new)) }
        ensures fields { (self.new.has_lost ≡ self.old.has_lost) × (self.new.written ≡ self.old.written) × (self.new.grown ≡ self.old.grown) }
        ensures cause { F.tells → Caused (is_undone result) self.old self.new }
    {
        if bytes.is_empty() {
            let _ = self.fill_some(file, at, bytes)?;
            return Ok(());
        }
        let mut done = 0;
        while done < bytes.len() {
            let more = self.fill_some(file, at + done as u64, &bytes[done..])?;
            if more == 0 {
                return Err(FolderFault::Failed);
            }
            done += more;
        }
        Ok(())
    }

    /// Makes a write that was asked for, of a file that is open or is not there.
    #[tactic(auto, using(crate::proofs::Causing::any_failure, crate::proofs::Causing::cause_behind, crate::proofs::Causing::no_failure, crate::proofs::Writing::half_still, crate::proofs::Writing::half_held, crate::proofs::Writing::held_filled, crate::proofs::Writing::held_half))]
    fn write_asked(
        &mut self,
        file: u32,
        at: u64,
        bytes: &[u8],
        there: bool,
    ) -> Result<(), FolderFault>
        requires numbered { file < u32.MAX }
        requires good { self.old.has_lost ≡ false }
        requires due { F.tells → IsDue self.old.grown.items file at (length bytes.now) (kept_in self.old) }
        requires missing { F.tells → there ≡ false → (kept_in self.old file).seen ≡ None }
        requires place { HasPlace there file self.old.written.items (vec_len self.old.written) (vec_capacity self.old.written) }
        ensures ok { F.tells → OnOk result (IsFilled file at bytes.now (kept_in self.old) (kept_in self.new)) }
        ensures err { F.tells → OnErr result (IsHalfFilled file at (length bytes.now) (kept_in self.old) (kept_in self.new)) }
        ensures cause { F.tells → at + length bytes.now < 2 ^ 64 → Caused (is_undone result) self.old self.new }
    {
        if at.checked_add(bytes.len() as u64).is_none() {
            return Err(FolderFault::Failed);
        }
        if there {
            return self.fill(file, at, bytes);
        }
        self.make(file)?;
        self.fill(file, at, bytes)
    }

    /// Notes the file where a write makes it, or makes it longer.
    #[tactic(auto, using(crate::proofs::Steady::steady_more))]
    fn note(&mut self, file: u32, at: u64, len: usize, now: Option<u64>)
        requires now { F.tells → now ≡ option_map length (kept_in self.old file).seen }
        requires room { vec_len self.old.grown < vec_capacity self.old.grown }
        ensures noted { F.tells → IsNoted self.new.grown.items file (kept_in self.old file).seen (at + len) }
        ensures fields { (self.new.folder ≡ self.old.folder) × (self.new.written ≡ self.old.written) × (self.new.has_lost ≡ self.old.has_lost) }
    {
        if is_within(now, at, len) {
            return;
        }
        add_number(&mut self.grown, file);
    }

    /// Looks for a file to which a write is to come, and opens it where it is there. Whether it is there.
    #[tactic(auto, using(crate::proofs::Steady::steady_still, crate::proofs::Causing::cause_behind, crate::proofs::Causing::no_failure))]
    fn look(&mut self, file: u32, at: u64, len: usize) -> Result<bool, CallFault>
        requires good { self.old.has_lost ≡ false }
        requires no_gap { F.tells → at ≤ length (bytes_of (kept_in self.old file).seen) }
        requires room { (vec_len self.old.written < vec_capacity self.old.written) × (vec_len self.old.grown < vec_capacity self.old.grown) }
        ensures names { F.tells → Still (F.names self.old.folder) (F.names self.new.folder) }
        ensures place { IfOk result (λ there. HasPlace there file self.new.written.items (vec_len self.new.written) (vec_capacity self.new.written)) }
        ensures missing { F.tells → IfOk result (λ there. there ≡ false → (kept_in self.old file).seen ≡ None) }
        ensures noted { F.tells → OnOk result (IsNoted self.new.grown.items file (kept_in self.old file).seen (at + len)) }
        ensures lost { self.new.has_lost ≡ false }
        ensures cause { F.tells → Caused (is_failed result) self.old self.new }
    {
        let now = reach(&mut self.folder, file, at)?;
        self.note(file, at, len, now);
        self.hold(file)
    }

    /// Makes a write to a file that was looked for.
    #[tactic(auto, using(crate::proofs::Steady::steady_asked, crate::proofs::Steady::steady_still, crate::proofs::Causing::any_failure, crate::proofs::Causing::none_refused, crate::proofs::Writing::asked_filled, crate::proofs::Writing::asked_half))]
    fn write_found(
        &mut self,
        file: u32,
        at: u64,
        bytes: &[u8],
        there: bool,
    ) -> Result<(), CallFault>
        requires numbered { file < u32.MAX }
        requires good { self.old.has_lost ≡ false }
        requires no_gap { F.tells → at ≤ length (bytes_of (kept_in self.old file).seen) }
        requires noted { F.tells → IsNoted self.old.grown.items file (kept_in self.old file).seen (at + length bytes.now) }
        requires missing { F.tells → there ≡ false → (kept_in self.old file).seen ≡ None }
        requires place { HasPlace there file self.old.written.items (vec_len self.old.written) (vec_capacity self.old.written) }
        ensures files { F.tells → Writes file at bytes.now (answer_of result) (kept_in self.old) (kept_in self.new) }
        ensures cause { F.tells → at + length bytes.now < 2 ^ 64 → Caused (is_failed result) self.old self.new }
    {
        self.folder.ask(file, at, bytes.len())?;
        match self.write_asked(file, at, bytes, there) {
            Ok(()) => Ok(()),
            Err(_) => Err(CallFault::Failed),
        }
    }

    /// Notes a write that is not made, since the folder refused to look for the file, or a sync.
    #[tactic(auto, using(crate::proofs::Steady::steady_asked, crate::proofs::Steady::steady_still, crate::proofs::Causing::none_refused, crate::proofs::Writing::half_still, crate::proofs::Writing::asked_half))]
    fn refuse_write(&mut self, file: u32, at: u64, bytes: &[u8]) -> Result<(), CallFault>
        requires numbered { file < u32.MAX }
        ensures files { F.tells → Writes file at bytes.now (answer_of result) (kept_in self.old) (kept_in self.new) }
        ensures cause { F.tells → HasCause false (F.refusals self.old.folder) (F.refusals self.new.folder) }
    {
        self.folder.ask(file, at, bytes.len())?;
        Err(CallFault::Failed)
    }

    /// A place past the end is `Failed`, and nothing is written. Any other error of the system may leave a part of
    /// the bytes. Memory is wanted before the write is noted.
    #[tactic(auto, using(crate::proofs::Causing::any_failure, crate::proofs::Causing::cause_behind, crate::proofs::Causing::no_failure, crate::proofs::Causing::failed_before, crate::proofs::Writing::writes_behind))]
    pub fn write(&mut self, file: u32, at: u64, bytes: &[u8]) -> Result<(), CallFault>
        requires numbered { file < u32.MAX }
        requires no_gap { F.tells → at ≤ length (bytes_of (kept_in self.old file).seen) }
        ensures files { F.tells → Writes file at bytes.now (answer_of result) (kept_in self.old) (kept_in self.new) }
        ensures cause { F.tells → at + length bytes.now < 2 ^ 64 → Caused (is_failed result) self.old self.new }
    {
        self.written.reserve(1)?;
        self.grown.reserve(1)?;
        if self.has_lost {
            return self.refuse_write(file, at, bytes);
        }
        match self.look(file, at, bytes.len()) {
            Ok(there) => self.write_found(file, at, bytes, there),
            Err(CallFault::Failed) => self.refuse_write(file, at, bytes),
            Err(CallFault::NoMemory) => Err(CallFault::NoMemory),
        }
    }

    /// Removes a file for which a removal was asked.
    #[tactic(auto, using(crate::proofs::Steady::steady_unlinked, crate::proofs::Steady::steady_gone, crate::proofs::Causing::any_failure, crate::proofs::Causing::none_refused, crate::proofs::Removing::gone_still, crate::proofs::Removing::gone_unlinked, crate::proofs::Removing::listed_unlinked))]
    fn remove_asked(&mut self, file: u32) -> Result<(), FolderFault>
        requires asked { F.tells → IsAskedAway (kept_in self.old file) }
        requires noted { list_any (nat_eq file) self.old.grown.items ≡ true }
        ensures names { F.tells → IsGone result file (kept_in self.old) (kept_in self.new) }
        ensures listed { OnOk result (list_any (nat_eq file) self.new.written.items ≡ false) }
        ensures settled { self.new.is_settled ≡ self.old.is_settled }
        ensures cause { F.tells → Caused (is_undone result) self.old self.new }
    {
        if self.has_lost {
            return Err(FolderFault::Failed);
        }
        self.has_moved = true;
        unlink(&mut self.folder, file)?;
        drop_number(&mut self.written, file);
        Ok(())
    }

    /// The file is gone. That is Ok where there was none.
    #[tactic(auto, using(crate::proofs::Steady::steady_asked_away, crate::proofs::Steady::steady_more, crate::proofs::Steady::steady_still, crate::proofs::Causing::any_failure, crate::proofs::Causing::none_refused, crate::proofs::Removing::removes_ok, crate::proofs::Removing::removes_failed, crate::proofs::Removing::removes_none))]
    pub fn remove(&mut self, file: u32) -> Result<(), CallFault>
        ensures files { F.tells → Removes file (answer_of result) (kept_in self.old) (kept_in self.new) }
        ensures listed { file < u32.MAX → OnOk result (list_any (nat_eq file) self.new.written.items ≡ false) }
        ensures settled { self.new.is_settled ≡ self.old.is_settled }
        ensures cause { F.tells → Caused (is_failed result) self.old self.new }
    {
        if file == u32::MAX {
            return Ok(());
        }
        self.grown.reserve(1)?;
        add_number(&mut self.grown, file);
        self.folder.ask_away(file)?;
        match self.remove_asked(file) {
            Ok(()) => Ok(()),
            Err(_) => Err(CallFault::Failed),
        }
    }

    /// A folder of which nothing is known.
    pub fn new(alloc: Global, folder: F) -> Tracked<F>
        requires { F.tells → F.lost folder ≡ false }
        ensures { result.folder ≡ folder }
    {
        Tracked {
            alloc,
            folder,
            written: Vec::new(alloc),
            grown: Vec::new(alloc),
            has_moved: true,
            has_lost: false,
            is_settled: false,
            has_synced: false,
        }
    }

    /// The folder, as it is.
    pub fn into_folder(self) -> F
        ensures { result ≡ self.folder }
    {
        let Tracked {
            alloc: _,
            folder,
            written: _,
            grown: _,
            has_moved: _,
            has_lost: _,
            is_settled: _,
            has_synced: _,
        } = self;
        folder
    }

    /// The lowest number of a file that is there, and one more than the highest.
    #[tactic(auto, using(crate::proofs::Steady::steady_still, crate::proofs::Causing::any_failure, crate::proofs::Causing::none_refused))]
    pub fn span(&mut self) -> Result<(u32, u32), CallFault>
        ensures ok { F.tells → IfOk result (λ span. IsSpan (kept_in self.old) span.0 span.1) }
        ensures fields { (self.new.written ≡ self.old.written) × (self.new.has_moved ≡ self.old.has_moved) × (self.new.is_settled ≡ self.old.is_settled) }
        ensures names { F.tells → Still (F.names self.old.folder) (F.names self.new.folder) }
        ensures cause { F.tells → Caused (is_failed result) self.old self.new }
    {
        if self.has_lost {
            return Err(CallFault::Failed);
        }
        span_in(&mut self.folder, self.alloc)
    }

    /// How long a file is, or None where it isn't there.
    #[tactic(auto, using(crate::proofs::Steady::steady_still, crate::proofs::Causing::any_failure, crate::proofs::Causing::none_refused))]
    pub fn len(&mut self, file: u32) -> Result<Option<u64>, CallFault>
        ensures ok { F.tells → IfOk result (λ len. len ≡ option_map length (kept_in self.old file).seen) }
        ensures fields { (self.new.written ≡ self.old.written) × (self.new.has_moved ≡ self.old.has_moved) × (self.new.is_settled ≡ self.old.is_settled) }
        ensures names { F.tells → Still (F.names self.old.folder) (F.names self.new.folder) }
        ensures cause { F.tells → Caused (is_failed result) self.old self.new }
    {
        if self.has_lost {
            return Err(CallFault::Failed);
        }
        len_of(&mut self.folder, file)
    }

    /// Fills as much as there is from that place on. A file that isn't there has no bytes.
    #[tactic(auto, using(crate::proofs::Steady::steady_still, crate::proofs::Causing::any_failure, crate::proofs::Causing::none_refused))]
    pub fn read(&mut self, file: u32, at: u64, into: &mut [u8]) -> Result<usize, CallFault>
        ensures ok { F.tells → IfOk result (λ n. Fills (kept_in self.old file).seen at into.old n into.new) }
        ensures within { IfOk result (λ n. n ≤ length into.old) }
        ensures fields { (self.new.written ≡ self.old.written) × (self.new.has_moved ≡ self.old.has_moved) × (self.new.is_settled ≡ self.old.is_settled) }
        ensures names { F.tells → Still (F.names self.old.folder) (F.names self.new.folder) }
        ensures cause { F.tells → Caused (is_failed result) self.old self.new }
    {
        if self.has_lost {
            return Err(CallFault::Failed);
        }
        read_from(&mut self.folder, file, at, into)
    }
}
