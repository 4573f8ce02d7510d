//! What a backup tells of itself.
ghost use Rattle.std.specs.Prelude.{◌≡◌, length, IfOk};
ghost use Rattle.rdf_core.specs.Effects.{IsDone, count_u32};
ghost use Rattle.rdf_core.specs.Backup.{backup_status, info, needs_volumes, phase_of, volume_infos};
ghost use Rattle.backup_machine.specs.Kept.{backup_of, Follows, IsKept};

use crate::backup::BackupState;
use crate::positions::{Positions, point_in};
use crate::volumes::VolumesState;
use rdf_core::replies::{Reply, VolInfo, VolInfos};
use rdf_types::layout::Layout;
use rdf_types::records::{Phase, Pos, Record};
use std::alloc::{AllocError, Global};

/// Each volume with its trail, whether it is protected, and its restart point.
fn infos_of(
    alloc: Global,
    trails: &[u8],
    protect: &[bool],
    points: &[Pos],
) -> Result<Vec<VolInfo>, AllocError>
    requires { length protect.now ≡ length trails.now }
    ensures { IfOk result (λ infos. infos.items ≡ volume_infos trails.now protect.now points.now) }
{
    let mut infos = Vec::new(alloc);
    for (number, trail) in trails.iter().enumerate() {
        infos.push(VolInfo {
            trail: *trail,
            protect: protect[number],
            at: point_in(points, number),
        })?;
    }
    Ok(infos)
}

/// The same for the volumes of a layout.
fn infos(alloc: Global, layout: &Layout, points: &Positions) -> Result<VolInfos, AllocError>
    ensures { IfOk result (λ infos. infos ≡ volume_infos layout.now.trail_of layout.now.protect points.now) }
{
    let volumes = infos_of(
        alloc,
        layout.trail_of.numbers(),
        layout.protect.flags(),
        points.all(),
    )?;
    Ok(VolInfos::new(volumes))
}

/// A count of 32 bits, which stands still at its end.
fn count_of(n: usize) -> u32
    ensures { result ≡ count_u32 n }
{
    if n < u32::MAX as usize {
        n as u32
    } else {
        u32::MAX
    }
}

impl BackupState {
    /// How far the volumes are.
    fn phase(&self) -> Phase
        ensures { result ≡ phase_of (backup_of self.now).volumes }
    {
        match &self.volumes {
            VolumesState::Running { .. } => Phase::Running,
            VolumesState::Taking => Phase::Taking,
            VolumesState::Taken { upto } => Phase::Taken { upto: *upto },
        }
    }

    /// The line `info`.
    pub fn info(&self, layout: &Layout, trail: &[Record]) -> Result<Reply, AllocError>
        requires { IsKept layout.now trail.now self.now }
        ensures { IfOk result (λ reply. IsDone (needs_volumes (backup_of self.now)) (λ _. backup_of self.now) (backup_of self.now)
            (λ r. r ≡ info layout.now trail.now (backup_of self.now)) reply (backup_of self.now)) }
    {
        if let Some(why) = self.taking_over() {
            return Ok(Reply::No { why });
        }
        let points = self.points(layout, trail)?;
        Ok(Reply::Info {
            volumes: infos(self.alloc, layout, &points)?,
        })
    }

    /// The line `status`.
    pub fn status(&mut self, layout: &Layout, trail: &[Record]) -> Result<Reply, AllocError>
        requires { Follows layout.now trail.now self.old }
        ensures reply { IfOk result (λ reply. reply ≡ backup_status layout.now trail.now (backup_of self.old)) }
        ensures same { backup_of self.new ≡ backup_of self.old }
        ensures kept { IsKept layout.now trail.now self.new }
    {
        if !self.up {
            return Ok(Reply::NodeDown);
        }
        self.catch_up(layout, trail)?;
        Ok(Reply::BackupUp {
            phase: self.phase(),
            received: self.received,
            kept: self.starts.get(0),
            generations: count_of(self.starts.len()),
            unended: self.count_now(layout, trail),
        })
    }
}
