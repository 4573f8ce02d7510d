//! A disk over a folder.
ghost use Rattle.std.specs.Prelude.{Option, List, ◌≡◌, ◌≤◌, ◌<◌, ◌+◌, ◌-◌, ◌^◌, ℕ, length, IfOk, true, false};
ghost use Rattle.std.specs.Option.{option_map};
ghost use Rattle.rdf_disk.specs.Counts.{Causes, Restarts, ending, fused, turned_off};
ghost use Rattle.rdf_disk.specs.Files.{bytes_of, IsSpan};
ghost use Rattle.rdf_disk.specs.Calls.{Same, AllSettle, Looks, Syncs, Writes, Removes, Fills};
ghost use Rattle.rdf_disk.specs.Outcomes.{IsOutcome};
ghost use Rattle.folder_disk.specs.Names.{IsLeft};
ghost use Rattle.folder_disk.specs.Meters.{meter_counts, no_counts, with_fuse, restarted, IsCounted};
ghost use Rattle.folder_disk.specs.Kept.{files_in, FailsByFolder};
ghost use Rattle.folder_disk.specs.Tracked.{files_if, none_if};

use crate::call_fault::CallFault;
use crate::folder::Folder;
use crate::meter::Meter;
use crate::tracked::Tracked;
use rdf_disk::{Disk, DiskFault, Tear};
use std::alloc::Global;

/// A disk that keeps file n as the file of that number in its folder. It tells what the folder
/// tells. A stop in the process tears nothing: what a read gives stays, and the restart makes it
/// durable. Once the system refused a sync each call of the disk is `Failed`.
#[derive(Drop)]
pub struct FolderDisk<F: Folder> {
    kept: Tracked<F>,
    meter: Meter,
}

impl<F: Folder + Drop> FolderDisk<F> {
    /// The disk over a folder, of which nothing was refused.
    pub fn at(alloc: Global, folder: F) -> FolderDisk<F>
        requires { F.tells → F.lost folder ≡ false }
        ensures counts { result.meter ≡ no_counts }
        ensures folder { result.kept.folder ≡ folder }
    {
        FolderDisk {
            kept: Tracked::new(alloc, folder),
            meter: Meter::new(),
        }
    }

    /// The folder, as the end of the process leaves it. Whatever a loss of power then leaves of it
    /// is what a stop may leave of the disk.
    #[tactic(auto, using(crate::proofs::Stops::left_is_outcome))]
    pub fn into_folder(self) -> F
        ensures folder { result ≡ self.kept.folder }
        ensures left { F.tells → self.meter.off ≡ false → (m : ℕ) (x : Option (List ℕ)) → IsLeft (F.names result m) x → IsOutcome (files_in self m) x }
    {
        let FolderDisk { kept, meter: _ } = self;
        kept.into_folder()
    }
}

impl<F: Folder + Drop> Disk for FolderDisk<F> {
    ghost tells = { F.tells };

    ghost files = { λ d. files_if d.meter.off (F.names d.kept.folder) };

    ghost counts = { λ d. meter_counts d.meter };

    ghost none_last = { λ tells d. none_if d.meter.off (F.names d.kept.folder) (F.none_last tells d.kept.folder) };

    fn faults(&self) -> u64 {
        self.meter.faults
    }

    fn stops(&self) -> u64 {
        self.meter.stops
    }

    fn fuses(&self) -> u64 {
        self.meter.fuses
    }

    fn is_off(&self) -> bool {
        self.meter.off
    }

    #[tactic(auto, using(crate::proofs::Stops::looks_stopped, crate::proofs::Answering::answer_caused, crate::proofs::Answering::stop_caused))]
    fn span(&mut self) -> Result<(u32, u32), DiskFault>
        ensures ok { F.tells → IfOk result (λ span. IsSpan (files_in self.old) span.0 span.1) }
        ensures files { F.tells → Looks result (files_in self.old) (files_in self.new) }
        ensures cause { Causes (ending result) (meter_counts self.old.meter) (meter_counts self.new.meter) }
        ensures counted { IsCounted result self.old.meter self.new.meter }
        ensures refused { F.tells → FailsByFolder result self.old self.new }
    {
        self.meter.begin()?;
        let answer = self.kept.span();
        self.meter.end(answer)
    }

    #[tactic(auto, using(crate::proofs::Stops::looks_stopped, crate::proofs::Answering::answer_caused, crate::proofs::Answering::stop_caused))]
    fn len(&mut self, file: u32) -> Result<Option<u64>, DiskFault>
        ensures ok { F.tells → IfOk result (λ len. len ≡ option_map length (files_in self.old file).seen) }
        ensures files { F.tells → Looks result (files_in self.old) (files_in self.new) }
        ensures cause { Causes (ending result) (meter_counts self.old.meter) (meter_counts self.new.meter) }
        ensures counted { IsCounted result self.old.meter self.new.meter }
        ensures refused { F.tells → FailsByFolder result self.old self.new }
    {
        self.meter.begin()?;
        let answer = self.kept.len(file);
        self.meter.end(answer)
    }

    #[tactic(auto, using(crate::proofs::Stops::looks_stopped, crate::proofs::Answering::answer_caused, crate::proofs::Answering::stop_caused))]
    fn read(&mut self, file: u32, at: u64, into: &mut [u8]) -> Result<usize, DiskFault>
        ensures ok { F.tells → IfOk result (λ n. Fills (files_in self.old file).seen at into.old n into.new) }
        ensures within { IfOk result (λ n. n ≤ length into.old) }
        ensures files { F.tells → Looks result (files_in self.old) (files_in self.new) }
        ensures cause { Causes (ending result) (meter_counts self.old.meter) (meter_counts self.new.meter) }
        ensures counted { IsCounted result self.old.meter self.new.meter }
        ensures refused { F.tells → FailsByFolder result self.old self.new }
    {
        self.meter.begin()?;
        let answer = self.kept.read(file, at, into);
        self.meter.end(answer)
    }

    #[tactic(auto, using(crate::proofs::Stops::writes_stopped, crate::proofs::Answering::answer_caused, crate::proofs::Answering::stop_caused))]
    fn write(&mut self, file: u32, at: u64, bytes: &[u8]) -> Result<(), DiskFault>
        requires numbered { file < u32.MAX }
        requires no_gap { F.tells → at ≤ length (bytes_of (files_in self.old file).seen) }
        ensures files { F.tells → Writes file at bytes.now result (files_in self.old) (files_in self.new) }
        ensures cause { Causes (ending result) (meter_counts self.old.meter) (meter_counts self.new.meter) }
        ensures counted { IsCounted result self.old.meter self.new.meter }
        ensures refused { F.tells → at + length bytes.now < 2 ^ 64 → FailsByFolder result self.old self.new }
    {
        self.meter.begin()?;
        let answer = self.kept.write(file, at, bytes);
        self.meter.end(answer)
    }

    #[tactic(auto, using(crate::proofs::Stops::removes_stopped, crate::proofs::Answering::answer_caused, crate::proofs::Answering::stop_caused))]
    fn remove(&mut self, file: u32) -> Result<(), DiskFault>
        ensures files { F.tells → Removes file result (files_in self.old) (files_in self.new) }
        ensures cause { Causes (ending result) (meter_counts self.old.meter) (meter_counts self.new.meter) }
        ensures counted { IsCounted result self.old.meter self.new.meter }
        ensures refused { F.tells → FailsByFolder result self.old self.new }
    {
        self.meter.begin()?;
        let answer = self.kept.remove(file);
        self.meter.end(answer)
    }

    #[tactic(auto, using(crate::proofs::Stops::syncs_stopped, crate::proofs::Answering::answer_caused, crate::proofs::Answering::stop_caused))]
    fn sync(&mut self) -> Result<(), DiskFault>
        ensures files { F.tells → Syncs result (files_in self.old) (files_in self.new) }
        ensures cause { Causes (ending result) (meter_counts self.old.meter) (meter_counts self.new.meter) }
        ensures counted { IsCounted result self.old.meter self.new.meter }
        ensures refused { F.tells → FailsByFolder result self.old self.new }
    {
        self.meter.begin()?;
        let answer = self.kept.sync();
        self.meter.end(answer)
    }

    fn cut(&mut self)
        ensures files { F.tells → AllSettle (files_in self.old) (files_in self.new) }
        ensures counts { meter_counts self.new.meter ≡ turned_off (meter_counts self.old.meter) }
        ensures meter { self.new.meter ≡ record self.old.meter { off = true } }
    {
        self.meter.off = true;
    }

    /// Makes what a read gives durable, since the disk goes on with that.
    fn restart(&mut self) -> Result<(), DiskFault>
        ensures files { F.tells → Same (files_in self.old) (files_in self.new) }
        ensures cause { Restarts result (meter_counts self.old.meter) (meter_counts self.new.meter) }
        ensures meter { self.new.meter ≡ restarted result self.old.meter }
    {
        if !self.meter.off {
            return Ok(());
        }
        if self.kept.sync().is_err() {
            self.meter.faults = self.meter.faults.saturating_add(1);
            return Err(DiskFault::Failed);
        }
        self.meter.off = false;
        Ok(())
    }

    fn fuse(&mut self, calls: u32, _tear: Tear)
        ensures files { F.tells → Same (files_in self.old) (files_in self.new) }
        ensures counts { meter_counts self.new.meter ≡ fused (meter_counts self.old.meter) }
        ensures meter { self.new.meter ≡ with_fuse calls self.old.meter }
    {
        self.meter.set_fuse(calls);
    }
}
