//! A disk over a folder in memory whose power may go at each call of the system.
ghost use Rattle.std.specs.Prelude.{◌≡◌, ℕ, max, None, Err, IfOk, true, false};
ghost use Rattle.rdf_disk.specs.declared.fault.DiskFault.TheVariants.{Stopped, Failed};
ghost use Rattle.rdf_disk.specs.Counts.{Causes, ending, fused};
ghost use Rattle.rdf_disk.specs.Calls.{Same, AllSettle};
ghost use Rattle.rdf_disk.specs.Files.{settled};
ghost use Rattle.folder_disk.specs.Kept.{files_in};
ghost use Rattle.powered_disk.specs.Losing.{loss_by, failures};

use folder_disk::{FolderDisk, FolderFault};
use memory_folder::{Loss, MemFolder, Supply};
use rdf_disk::{Disk, DiskFault, Tear};
use std::alloc::{AllocError, Global};
use std::mem;

/// A disk over a folder in memory. Each of its stops is a loss of power: at the call of the system that
/// its fuse names, in the middle of a call of the disk, or, where another disk of the node stopped
/// first, at its next one or where it is cut. What the loss leaves is all that the next disk finds.
#[derive(Drop)]
pub struct PoweredDisk {
    alloc: Global,
    disk: FolderDisk<MemFolder>,
    supply: Supply,
    loss: Loss,
    faults: u64,
    stops: u64,
    fuses: u64,
    ghost bare: { disk.meter.fuse ≡ None },
}

/// What a loss of power leaves, by the tear of a fuse.
fn loss_of(tear: Tear) -> Loss
    ensures { result ≡ loss_by tear }
{
    match tear {
        Tear::Lose => Loss::Lose,
        Tear::Keep => Loss::Keep,
        Tear::Mix => Loss::Mix { newest: true },
    }
}

/// The calls of these numbers, each of which fails.
fn failing(alloc: Global, calls: &[u64]) -> Result<Vec<(u64, FolderFault)>, AllocError>
    ensures { IfOk result (λ refused. refused.items ≡ failures calls.now) }
{
    let mut refused = Vec::new(alloc);
    for call in calls {
        refused.push((*call, FolderFault::Failed))?;
    }
    Ok(refused)
}

impl PoweredDisk {
    ghost use Rattle.powered_disk.specs.Powered.{counts_told, Turned};

    /// A disk without files, whose folder refuses these calls of the system, moves at most so many bytes
    /// in one, and loses power in this way.
    pub fn blank(
        alloc: Global,
        supply: Supply,
        refused: Vec<u64>,
        piece: usize,
        loss: Loss,
    ) -> Result<PoweredDisk, AllocError>
        ensures files { IfOk result (λ made. (m : ℕ) → files_in made.disk m ≡ settled None) }
        ensures counts { IfOk result (λ made. counts_told made ≡ record { faults = 0; stops = 0; fuses = 0; off = false }) }
        ensures refused { IfOk result (λ made. (made.disk.kept.folder.calls ≡ 0) × (made.disk.kept.folder.refused.items ≡ failures refused.items)) }
        ensures piece { IfOk result (λ made. made.disk.kept.folder.piece ≡ max piece 1) }
        ensures loss { IfOk result (λ made. made.loss ≡ loss) }
    {
        let mut folder = MemFolder::blank(alloc, failing(alloc, &refused)?, piece);
        folder.feed(supply.shared()?);
        Ok(PoweredDisk {
            alloc,
            disk: FolderDisk::at(alloc, folder),
            supply,
            loss,
            faults: 0,
            stops: 0,
            fuses: 0,
        })
    }

    /// The power goes. A disk over what is left is there, and off.
    fn lose(&mut self)
        requires on { self.old.disk.meter.off ≡ false }
        ensures files { AllSettle (files_in self.old.disk) (files_in self.new.disk) }
        ensures counts { counts_told self.new ≡ record (counts_told self.old) { off = true } }
    {
        let blank = FolderDisk::at(
            self.alloc,
            MemFolder::blank(self.alloc, Vec::new(self.alloc), 1),
        );
        let mut folder = mem::replace(&mut self.disk, blank).into_folder();
        folder.lose_power(self.loss);
        self.disk = FolderDisk::at(self.alloc, folder);
        self.disk.cut();
    }

    /// Passes an answer on. A failure without power is a stop.
    fn end<T>(&mut self, answer: Result<T, DiskFault>) -> Result<T, DiskFault>
        requires on { answer ≡ Err Failed → self.old.disk.meter.off ≡ false }
        requires off { answer ≡ Err Stopped → self.old.disk.meter.off ≡ true }
        ensures files { Turned answer result (files_in self.old.disk) (files_in self.new.disk) }
        ensures cause { Causes (ending result) (counts_told self.old) (counts_told self.new) }
    {
        match answer {
            Err(DiskFault::Failed) => {
                if self.supply.is_gone() {
                    self.lose();
                    self.stops = self.stops.saturating_add(1);
                    return Err(DiskFault::Stopped);
                }
                self.faults = self.faults.saturating_add(1);
                Err(DiskFault::Failed)
            }
            answer => answer,
        }
    }
}

impl Disk for PoweredDisk {
    ghost use Rattle.folder_disk.specs.Tracked.{none_if};
    ghost use Rattle.memory_folder.specs.Fakes.{none_last_at};
    ghost use Rattle.memory_folder.specs.Changes.{names_of};
    ghost use Rattle.powered_disk.specs.Powered.{counts_told};

    ghost tells = { Unit {0} };

    ghost files = { λ d. files_in d.disk };

    ghost counts = { counts_told };

    ghost none_last = { λ _ d. none_if d.disk.meter.off (names_of d.disk.kept.folder) (none_last_at d.disk.kept.folder.rows.items d.disk.kept.folder.rows.len d.disk.kept.folder.rows.ok.0 d.disk.kept.folder.few) };

    fn faults(&self) -> u64 {
        self.faults
    }

    fn stops(&self) -> u64 {
        self.stops
    }

    fn fuses(&self) -> u64 {
        self.fuses
    }

    fn is_off(&self) -> bool {
        self.disk.is_off()
    }

    #[tactic(auto, using(crate::proofs::Powering::looked, crate::proofs::Powering::if_told, crate::proofs::Powering::off_same, crate::proofs::Powering::bare_still, crate::proofs::Powering::on_failed, crate::proofs::Powering::off_stopped))]
    fn span(&mut self) -> Result<(u32, u32), DiskFault> {
        let answer = self.disk.span();
        self.end(answer)
    }

    #[tactic(auto, using(crate::proofs::Powering::looked, crate::proofs::Powering::if_told, crate::proofs::Powering::off_same, crate::proofs::Powering::bare_still, crate::proofs::Powering::on_failed, crate::proofs::Powering::off_stopped))]
    fn len(&mut self, file: u32) -> Result<Option<u64>, DiskFault> {
        let answer = self.disk.len(file);
        self.end(answer)
    }

    #[tactic(auto, using(crate::proofs::Powering::looked, crate::proofs::Powering::if_told, crate::proofs::Powering::off_same, crate::proofs::Powering::bare_still, crate::proofs::Powering::on_failed, crate::proofs::Powering::off_stopped))]
    fn read(&mut self, file: u32, at: u64, into: &mut [u8]) -> Result<usize, DiskFault> {
        let answer = self.disk.read(file, at, into);
        self.end(answer)
    }

    #[tactic(auto, using(crate::proofs::Powering::wrote, crate::proofs::Powering::off_same, crate::proofs::Powering::bare_still, crate::proofs::Powering::on_failed, crate::proofs::Powering::off_stopped))]
    fn write(&mut self, file: u32, at: u64, bytes: &[u8]) -> Result<(), DiskFault> {
        let answer = self.disk.write(file, at, bytes);
        self.end(answer)
    }

    #[tactic(auto, using(crate::proofs::Powering::removed, crate::proofs::Powering::off_same, crate::proofs::Powering::bare_still, crate::proofs::Powering::on_failed, crate::proofs::Powering::off_stopped))]
    fn remove(&mut self, file: u32) -> Result<(), DiskFault> {
        let answer = self.disk.remove(file);
        self.end(answer)
    }

    #[tactic(auto, using(crate::proofs::Powering::synced, crate::proofs::Powering::off_same, crate::proofs::Powering::bare_still, crate::proofs::Powering::on_failed, crate::proofs::Powering::off_stopped))]
    fn sync(&mut self) -> Result<(), DiskFault> {
        let answer = self.disk.sync();
        self.end(answer)
    }

    #[tactic(auto, using(crate::proofs::Powering::off_settles))]
    fn cut(&mut self) {
        if !self.disk.is_off() {
            self.lose();
        }
    }

    fn restart(&mut self) -> Result<(), DiskFault> {
        let left = self.supply.turn_on();
        let answer = self.disk.restart();
        self.supply.end_after(left);
        if answer.is_err() {
            self.faults = self.faults.saturating_add(1);
            return Err(DiskFault::Failed);
        }
        Ok(())
    }

    fn fuse(&mut self, calls: u32, tear: Tear)
        ensures files { Same (files_in self.old.disk) (files_in self.new.disk) }
        ensures counts { counts_told self.new ≡ fused (counts_told self.old) }
        ensures loss { self.new.loss ≡ loss_by tear }
    {
        self.fuses = self.fuses.saturating_add(1);
        self.supply.end_after(u64::from(calls));
        self.loss = loss_of(tear);
    }
}
