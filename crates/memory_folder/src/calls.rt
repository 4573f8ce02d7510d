//! The calls of a folder in memory.
ghost use Rattle.std.specs.Prelude.{◌≡◌, ◌≢◌, ◌≤◌, ◌<◌, ◌-◌, ℕ, List, [], min, length, vec_len, Some, None, Ok, Err, IfOk, OnOk, OnErr, false};
ghost use Rattle.rdf_disk.specs.Files.{bytes_of};
ghost use Rattle.folder_disk.specs.declared.fault.FolderFault.TheVariants.{NotFound, Interrupted};
ghost use Rattle.folder_disk.specs.Names.{ChangesName, asked, asked_away, unmade, IsAsked, IsAskedAway, Makes, Fills};
ghost use Rattle.memory_folder.specs.Fakes.{name_at, sound_at, none_last_at};

use crate::folder::{MemFolder, len_at, numbers_in, read_at};
use crate::refusals::{is_interruption, lost_after};
use crate::sweep::Sweep;
use folder_disk::{Folder, FolderFault};
use std::alloc::{AllocError, Global};

impl Folder for MemFolder {
    ghost use Rattle.folder_disk.specs.Names.{Still, IsRead, refused_by, unfilled_by, is_wanting};
    ghost use Rattle.memory_folder.specs.Changes.{names_of};

    ghost tells = { Unit {0} };

    ghost names = { λ f. name_at f.rows.items };

    ghost lost = { λ f. f.is_lost };

    ghost refusals = { λ f. f.refusals };

    ghost sound = { λ _ f m. sound_at f.rows.items m };

    ghost none_last = { λ _ f. none_last_at f.rows.items f.rows.len f.rows.ok.0 f.few };

    #[tactic(auto, using(crate::proofs::Calling::refused_so))]
    fn numbers(&mut self, alloc: Global) -> Result<Vec<u32>, FolderFault> {
        if let Some(fault) = self.planned() {
            self.refuse();
            return Err(fault);
        }
        match numbers_in(alloc, &self.rows) {
            Ok(all) => Ok(all),
            Err(_) => Err(FolderFault::NoMemory),
        }
    }

    #[tactic(auto, using(crate::proofs::Calling::missed_so, crate::proofs::Calling::none_of))]
    fn len(&mut self, file: u32) -> Result<u64, FolderFault> {
        if let Some(fault) = self.planned() {
            self.refuse();
            return Err(fault);
        }
        match len_at(&self.rows, file) {
            Some(len) => Ok(len),
            None => Err(FolderFault::NotFound),
        }
    }

    #[tactic(auto, using(crate::proofs::Calling::refused_so, crate::proofs::Calling::none_of))]
    fn read(&mut self, file: u32, at: u64, into: &mut [u8]) -> Result<usize, FolderFault>
        ensures ok { IfOk result (λ n. IsRead (names_of self.old file).file.seen at into.old n into.new) }
        ensures piece { IfOk result (λ n. n ≡ min self.old.piece (min (length into.old) (length (bytes_of (names_of self.old file).file.seen) - at))) }
        ensures none { result ≡ Err NotFound → (names_of self.old file).file.seen ≡ None }
        ensures within { IfOk result (λ n. n ≤ length into.old) }
        ensures kept { result ≡ Err Interrupted → into.new ≡ into.old }
        ensures names { Still (names_of self.old) (names_of self.new) }
        ensures lost { self.new.is_lost ≡ self.old.is_lost }
        ensures refused { self.new.refusals ≡ refused_by result self.old.refusals }
    {
        if let Some(fault) = self.planned() {
            self.refuse();
            return Err(fault);
        }
        if len_at(&self.rows, file).is_none() {
            self.refuse();
            return Err(FolderFault::NotFound);
        }
        Ok(read_at(&self.rows, file, at, into, self.piece))
    }

    #[tactic(auto, using(crate::proofs::Calling::missed_so, crate::proofs::Calling::none_of, crate::proofs::Calling::some_of, crate::proofs::Calling::opens_refused))]
    fn open(&mut self, file: u32) -> Result<(), FolderFault> {
        if let Some(fault) = self.planned() {
            self.refuse();
            return Err(fault);
        }
        if len_at(&self.rows, file).is_none() {
            return Err(FolderFault::NotFound);
        }
        Ok(())
    }

    #[tactic(auto, using(crate::proofs::Calling::asked_after, crate::proofs::Calling::still_after, crate::proofs::Calling::unchanged))]
    fn ask(&mut self, file: u32, at: u64, len: usize) -> Result<(), AllocError> {
        self.grow(file)?;
        self.ask_row(file, at, len)
    }

    #[tactic(auto, using(crate::proofs::Calling::not_made, crate::proofs::Calling::made_though))]
    fn make(&mut self, file: u32) -> Result<(), FolderFault> {
        let planned = self.planned();
        if file as usize >= self.rows.len() {
            self.refuse();
            return Err(FolderFault::Failed);
        }
        match planned {
            Some(fault) => self.refuse_make(file, fault),
            None => {
                self.make_row(file);
                Ok(())
            }
        }
    }

    /// One that fails in any other way than by an interruption wrote nothing, but may have.
    fn write(&mut self, file: u32, at: u64, bytes: &[u8]) -> Result<usize, FolderFault>
        requires asked { IsAsked (names_of self.old file).file.writes at (length bytes.now) }
        requires no_gap { at ≤ length (bytes_of (names_of self.old file).file.seen) }
        ensures names { Fills result file at bytes.now (names_of self.old) (names_of self.new) }
        ensures piece { IfOk result (λ n. n ≡ min (length bytes.now) self.old.piece) }
        ensures memory { is_wanting result ≡ false }
        ensures within { IfOk result (λ n. n ≤ length bytes.now) }
        ensures lost { self.new.is_lost ≡ self.old.is_lost }
        ensures refused { self.new.refusals ≡ unfilled_by result (length bytes.now) self.old.refusals }
    {
        let planned = self.planned();
        // no write was asked for there
        if file as usize >= self.rows.len() {
            self.refuse();
            return Err(FolderFault::Interrupted);
        }
        match planned {
            Some(fault) => self.refuse_write(file, fault),
            None => self.write_row(file, at, bytes),
        }
    }

    #[tactic(auto, using(crate::proofs::Calling::unchanged))]
    fn ask_away(&mut self, file: u32) -> Result<(), AllocError> {
        if file as usize >= self.rows.len() {
            return Ok(());
        }
        self.ask_away_row(file)
    }

    #[tactic(auto, using(crate::proofs::Calling::missed_so, crate::proofs::Calling::none_of, crate::proofs::Calling::unmakes_refused))]
    fn remove(&mut self, file: u32) -> Result<(), FolderFault> {
        let planned = self.planned();
        if file as usize >= self.rows.len() || len_at(&self.rows, file).is_none() {
            return Err(FolderFault::NotFound);
        }
        if let Some(fault) = planned {
            self.disturb_row(file);
            self.refuse();
            return Err(fault);
        }
        self.remove_row(file);
        Ok(())
    }

    #[tactic(auto, using(crate::proofs::Calling::refused_so, crate::proofs::Calling::flushes_refused, crate::proofs::Calling::flushes_lost))]
    fn sync_file(&mut self, file: u32) -> Result<(), FolderFault> {
        if let Some(fault) = self.planned() {
            self.is_lost = lost_after(fault, self.is_lost);
            self.refuse();
            return Err(fault);
        }
        if self.is_lost {
            return Ok(());
        }
        if file as usize >= self.rows.len() {
            self.refuse();
            return Err(FolderFault::NotFound);
        }
        self.rows[file as usize].flush();
        Ok(())
    }

    #[tactic(auto, using(crate::proofs::Calling::refused_so, crate::proofs::Calling::flushes_refused, crate::proofs::Calling::flushes_lost))]
    fn sync_data(&mut self, file: u32) -> Result<(), FolderFault> {
        if let Some(fault) = self.planned() {
            self.is_lost = lost_after(fault, self.is_lost);
            self.refuse();
            return Err(fault);
        }
        if self.is_lost {
            return Ok(());
        }
        if file as usize >= self.rows.len() {
            self.refuse();
            return Err(FolderFault::NotFound);
        }
        self.rows[file as usize].flush_data();
        Ok(())
    }

    #[tactic(auto, using(crate::proofs::Calling::refused_so, crate::proofs::Calling::enters_refused, crate::proofs::Calling::enters_lost, crate::proofs::Calling::enters_done))]
    fn sync_entries(&mut self) -> Result<(), FolderFault> {
        if let Some(fault) = self.planned() {
            self.is_lost = lost_after(fault, self.is_lost);
            self.refuse();
            return Err(fault);
        }
        if !self.is_lost {
            self.sweep(Sweep::Enter);
        }
        Ok(())
    }

    fn rest(&mut self) {
        self.sweep(Sweep::Rest);
    }
}

impl MemFolder {
    ghost use Rattle.folder_disk.specs.Names.{made, one_more, unfilled_by, refused_by, is_want, is_wanting};
    ghost use Rattle.memory_folder.specs.Changes.{names_of, filled_at, soiled, disturbed};

    fn make_row(&mut self, file: u32)
        requires inside { file < vec_len self.old.rows }
        requires asked { (names_of self.old file).file.writes ≢ [] }
        ensures names { ChangesName file (names_of self.old) (names_of self.new) (made (names_of self.old file)) }
        ensures lost { self.new.is_lost ≡ self.old.is_lost }
        ensures refused { self.new.refusals ≡ self.old.refusals }
    {
        self.rows[file as usize].make();
    }

    /// A making that is not done, but that one that is `Refused` made the file all the same.
    #[tactic(auto, using(crate::proofs::Calling::refused_so, crate::proofs::Calling::not_made, crate::proofs::Calling::made_though))]
    fn refuse_make(&mut self, file: u32, fault: FolderFault) -> Result<(), FolderFault>
        requires inside { file < vec_len self.old.rows }
        requires memory { is_want fault ≡ false }
        requires asked { (names_of self.old file).file.writes ≢ [] }
        ensures names { Makes result file (names_of self.old) (names_of self.new) }
        ensures memory { is_wanting result ≡ false }
        ensures lost { self.new.is_lost ≡ self.old.is_lost }
        ensures refused { self.new.refusals ≡ refused_by result self.old.refusals }
        ensures err { IfOk result (λ done. ⊥) }
    {
        self.refuse();
        if fault == FolderFault::Refused {
            self.make_row(file);
        }
        Err(fault)
    }

    pub(crate) fn ask_row(&mut self, file: u32, at: u64, len: usize) -> Result<(), AllocError>
        requires { file < vec_len self.old.rows }
        ensures ok { OnOk result (ChangesName file (names_of self.old) (names_of self.new) (asked (names_of self.old file) at len)) }
        ensures err { OnErr result (ChangesName file (names_of self.old) (names_of self.new) (names_of self.old file)) }
        ensures lost { self.new.is_lost ≡ self.old.is_lost }
        ensures refused { self.new.refusals ≡ self.old.refusals }
    {
        self.rows[file as usize].ask(self.alloc, at, len as u64)
    }

    fn ask_away_row(&mut self, file: u32) -> Result<(), AllocError>
        requires { file < vec_len self.old.rows }
        ensures ok { OnOk result (ChangesName file (names_of self.old) (names_of self.new) (asked_away (names_of self.old file))) }
        ensures err { OnErr result (ChangesName file (names_of self.old) (names_of self.new) (names_of self.old file)) }
        ensures lost { self.new.is_lost ≡ self.old.is_lost }
        ensures refused { self.new.refusals ≡ self.old.refusals }
    {
        self.rows[file as usize].ask_away(self.alloc)
    }

    fn disturb_row(&mut self, file: u32)
        requires { file < vec_len self.old.rows }
        ensures names { ChangesName file (names_of self.old) (names_of self.new) (disturbed (names_of self.old file)) }
        ensures lost { self.new.is_lost ≡ self.old.is_lost }
        ensures refused { self.new.refusals ≡ self.old.refusals }
    {
        self.rows[file as usize].disturb();
    }

    fn remove_row(&mut self, file: u32)
        requires inside { file < vec_len self.old.rows }
        requires asked { IsAskedAway (names_of self.old file).file }
        ensures names { ChangesName file (names_of self.old) (names_of self.new) (unmade (names_of self.old file) None) }
        ensures lost { self.new.is_lost ≡ self.old.is_lost }
        ensures refused { self.new.refusals ≡ self.old.refusals }
    {
        self.rows[file as usize].remove();
    }

    fn soil_row(&mut self, file: u32)
        requires { file < vec_len self.old.rows }
        ensures names { ChangesName file (names_of self.old) (names_of self.new) (soiled (names_of self.old file)) }
        ensures lost { self.new.is_lost ≡ self.old.is_lost }
        ensures refused { self.new.refusals ≡ self.old.refusals }
    {
        self.rows[file as usize].soil();
    }

    /// A write that is not done.
    #[tactic(auto, using(crate::proofs::Calling::fills_refused, crate::proofs::Calling::fills_interrupted))]
    fn refuse_write(&mut self, file: u32, fault: FolderFault) -> Result<usize, FolderFault>
        requires inside { file < vec_len self.old.rows }
        requires memory { is_want fault ≡ false }
        ensures memory { is_wanting result ≡ false }
        ensures names { (at : ℕ) (bytes : List ℕ) → Fills result file at bytes (names_of self.old) (names_of self.new) }
        ensures lost { self.new.is_lost ≡ self.old.is_lost }
        ensures refused { self.new.refusals ≡ one_more self.old.refusals }
        ensures err { IfOk result (λ n. ⊥) }
    {
        self.refuse();
        if is_interruption(fault) {
            return Err(fault);
        }
        self.soil_row(file);
        Err(fault)
    }

    /// One that finds no memory for its bytes is refused.
    #[tactic(auto, using(crate::proofs::Calling::filled_so, crate::proofs::Calling::asked_less, crate::proofs::Calling::fills_refused))]
    fn write_row(&mut self, file: u32, at: u64, bytes: &[u8]) -> Result<usize, FolderFault>
        requires inside { file < vec_len self.old.rows }
        requires asked { IsAsked (names_of self.old file).file.writes at (length bytes.now) }
        requires no_gap { at ≤ length (bytes_of (names_of self.old file).file.seen) }
        ensures names { Fills result file at bytes.now (names_of self.old) (names_of self.new) }
        ensures memory { is_wanting result ≡ false }
        ensures lost { self.new.is_lost ≡ self.old.is_lost }
        ensures refused { self.new.refusals ≡ unfilled_by result (length bytes.now) self.old.refusals }
        ensures piece { IfOk result (λ n. n ≡ min (length bytes.now) self.old.piece) }
        ensures within { IfOk result (λ n. n ≤ length bytes.now) }
    {
        let n = bytes.len().min(self.piece);
        match self.fill_row(file, at, &bytes[..n]) {
            Ok(()) => Ok(n),
            Err(_) => {
                self.refuse();
                Err(FolderFault::Failed)
            }
        }
    }

    /// Writes within a write that was asked for. After an `Err` the bytes are as before, and wait for a sync.
    fn fill_row(&mut self, file: u32, at: u64, bytes: &[u8]) -> Result<(), AllocError>
        requires inside { file < vec_len self.old.rows }
        requires asked { IsAsked (names_of self.old file).file.writes at (length bytes.now) }
        requires no_gap { at ≤ length (bytes_of (names_of self.old file).file.seen) }
        ensures ok { OnOk result (ChangesName file (names_of self.old) (names_of self.new) (filled_at (names_of self.old file) at bytes.now)) }
        ensures err { OnErr result (ChangesName file (names_of self.old) (names_of self.new) (soiled (names_of self.old file))) }
        ensures lost { self.new.is_lost ≡ self.old.is_lost }
        ensures refused { self.new.refusals ≡ self.old.refusals }
    {
        self.rows[file as usize].fill_or_soil(self.alloc, at as usize, bytes)
    }
}
