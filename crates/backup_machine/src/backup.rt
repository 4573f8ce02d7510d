//! A backup in the machine.
ghost use Rattle.std.specs.Prelude.{◌≡◌, [], ℕ, true, false, IfOk};
ghost use Rattle.rdf_types.specs.declared.records.Node.{Node};
ghost use Rattle.rdf_disk.specs.declared.fault.Tear.{Tear};
ghost use Rattle.plan_lang.specs.declared.lines.Line.TheVariants as line;
ghost use Rattle.rdf_core.specs.Backup.{Around, backup_fallen, needs_up, needs_running, needs_volumes, with_up};
ghost use Rattle.rdf_core.specs.State.{blank_backup};
ghost use Rattle.backup_machine.specs.Kept.{backup_of, IsKept, Keeps};
ghost use Rattle.backup_machine.specs.Lines.{Performs};

use crate::positions::Positions;
use crate::volumes::VolumesState;
use open_txns::OpenTxns;
use rdf_core::replies::{NoWhy, Reply};
use rdf_types::layout::Layout;
use rdf_types::records::Pos;
use std::alloc::{AllocError, Global};

/// A backup: its state, and the transactions that are open in a prefix of what it received.
#[derive(Drop)]
pub struct BackupState {
    pub(crate) alloc: Global,
    pub(crate) up: bool,
    pub(crate) received: Pos,
    /// The start of each generation.
    pub(crate) starts: Positions,
    /// The number of the last generation.
    pub(crate) number: u32,
    pub(crate) volumes: VolumesState,
    pub(crate) stops: u64,
    /// Up to where the records were noted in `opens`.
    pub(crate) noted: Pos,
    pub(crate) opens: OpenTxns,
    /// In Taken the low position of what was taken.
    pub(crate) low: Pos,
}

impl BackupState {
    /// A backup that received nothing.
    pub fn new(alloc: Global, layout: &Layout) -> Result<BackupState, AllocError>
        ensures blank { IfOk result (λ b. backup_of b ≡ blank_backup layout.now) }
        ensures kept { IfOk result (λ b. IsKept layout.now [] b) }
    {
        let points = Positions::all_at(alloc, layout, 0)?;
        let mut starts = Positions::new(alloc);
        starts.push(0)?;
        Ok(BackupState {
            alloc,
            up: true,
            received: 0,
            starts,
            number: 0,
            volumes: VolumesState::Running { points },
            stops: 0,
            noted: 0,
            opens: OpenTxns::new(alloc),
            low: 0,
        })
    }

    /// The received prefix.
    pub fn received(&self) -> Pos
        ensures { result ≡ (backup_of self.now).received }
    {
        self.received
    }

    /// Why a line that needs a backup that is up is refused.
    pub fn off(&self) -> Option<NoWhy>
        ensures { result ≡ needs_up (backup_of self.now) }
    {
        if self.up { None } else { Some(NoWhy::Down) }
    }

    /// Why a line that needs a backup in Running is refused.
    pub fn not_running(&self) -> Option<NoWhy>
        ensures { result ≡ needs_running (backup_of self.now) }
    {
        if !self.up {
            return Some(NoWhy::Down);
        }
        match &self.volumes {
            VolumesState::Running { .. } => None,
            VolumesState::Taking => Some(NoWhy::Taking),
            VolumesState::Taken { .. } => Some(NoWhy::Taken),
        }
    }

    /// Why a line that needs volumes that are not under a takeover is refused.
    pub fn taking_over(&self) -> Option<NoWhy>
        ensures { result ≡ needs_volumes (backup_of self.now) }
    {
        if !self.up {
            return Some(NoWhy::Down);
        }
        match &self.volumes {
            VolumesState::Taking => Some(NoWhy::Taking),
            _ => None,
        }
    }

    /// The line `cut`.
    pub fn cut(&mut self, layout: &Layout) -> Reply
        ensures done { (w : Around) (node : Node) → Performs layout.now w (line.Cut node) (backup_of self.old) result (backup_of self.new) }
        ensures kept { Keeps self.old self.new }
    {
        if let Some(why) = self.off() {
            return Reply::No { why };
        }
        self.up = false;
        Reply::Done
    }

    /// The line `restart`.
    pub fn restart(&mut self, layout: &Layout) -> Reply
        ensures done { (w : Around) (node : Node) → Performs layout.now w (line.Restart node) (backup_of self.old) result (backup_of self.new) }
        ensures kept { Keeps self.old self.new }
    {
        if self.up {
            return Reply::No { why: NoWhy::Up };
        }
        self.up = true;
        Reply::Number { n: self.received }
    }

    /// The line `fuse`. Here no disk stops by itself: an event says where one does.
    pub fn fuse(&self, layout: &Layout, disk: u8) -> Reply
        ensures { (w : Around) (node : Node) (calls : ℕ) (tear : Tear)
            → Performs layout.now w (line.Fuse node disk calls tear) (backup_of self.now) result (backup_of self.now) }
    {
        if disk > layout.volumes {
            return Reply::No { why: NoWhy::Volume };
        }
        Reply::Done
    }

    /// A disk stops, and the backup is down.
    pub fn fall(&mut self)
        ensures fallen { backup_of self.new ≡ backup_fallen 1 (backup_of self.old) }
        ensures kept { Keeps self.old self.new }
    {
        self.up = false;
        self.stops = self.stops.saturating_add(1);
    }

    /// The backup is down, where a disk of it stopped before.
    pub fn go_down(&mut self)
        ensures down { backup_of self.new ≡ with_up (backup_of self.old) false }
        ensures kept { Keeps self.old self.new }
    {
        self.up = false;
    }
}
