//! What a session does to its backup.
ghost use Rattle.std.specs.Prelude.{◌≡◌, OnOk, OnErr};
ghost use Rattle.rdf_core.specs.Backup.{points_in};
ghost use Rattle.rdf_core.specs.Layouts.{point_of, points_at};
ghost use Rattle.rdf_core.specs.Lines.{with_points};
ghost use Rattle.rdf_core.specs.Step.{halted_backup, moved_backup};
ghost use Rattle.backup_machine.specs.Kept.{backup_of, IsKept, Keeps};

use crate::backup::BackupState;
use crate::positions::Positions;
use crate::rows::is_protected;
use crate::volumes::VolumesState;
use rdf_types::layout::Layout;
use rdf_types::records::{Pos, Record, VolNo};
use std::alloc::AllocError;

impl BackupState {
    /// A volume comes up to a position.
    pub fn rise(&mut self, vol: VolNo, upto: Pos)
        ensures moved { backup_of self.new ≡ moved_backup (backup_of self.old) vol upto }
        ensures kept { Keeps self.old self.new }
    {
        if let VolumesState::Running { points } = &mut self.volumes {
            points.set(vol.number() as usize, upto);
        }
    }

    /// Each volume that runs comes up to the received prefix. An `Err` leaves all as it was.
    pub fn rise_all(&mut self, layout: &Layout) -> Result<(), AllocError>
        ensures ok { OnOk result (backup_of self.new ≡ with_points (backup_of self.old) (points_at layout.now (backup_of self.old).received)) }
        ensures kept { Keeps self.old self.new }
        ensures err { OnErr result (backup_of self.new ≡ backup_of self.old) }
    {
        let all = Positions::all_at(self.alloc, layout, self.received)?;
        if let VolumesState::Running { points } = &mut self.volumes {
            *points = all;
        }
        Ok(())
    }

    /// A disk of a volume stops.
    pub fn halt(&mut self)
        ensures halted { backup_of self.new ≡ halted_backup 1 (backup_of self.old) }
        ensures kept { Keeps self.old self.new }
    {
        self.stops = self.stops.saturating_add(1);
    }

    /// The restart point of a volume.
    pub fn point(&self, layout: &Layout, trail: &[Record], vol: VolNo) -> Pos
        requires { IsKept layout.now trail.now self.now }
        ensures { result ≡ point_of (points_in layout.now trail.now (backup_of self.now).volumes) vol }
    {
        match &self.volumes {
            VolumesState::Running { points } => points.get(vol.number() as usize),
            VolumesState::Taking => 0,
            VolumesState::Taken { .. } => {
                if is_protected(layout, vol) {
                    self.low
                } else {
                    0
                }
            }
        }
    }
}
