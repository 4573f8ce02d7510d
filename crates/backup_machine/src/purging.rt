//! Generations that a purge drops.
ghost use Rattle.std.specs.Prelude.{◌≡◌, ◌≤◌, ◌<◌, ◌^◌, None, length, drop, IfOk, OnOk, OnErr};
ghost use Rattle.rdf_core.specs.declared.replies.Reply.TheVariants.{Number};
ghost use Rattle.rdf_core.specs.Effects.{IsDone, after_all};
ghost use Rattle.rdf_core.specs.Backup.{drops, needs_volumes, points_in};
ghost use Rattle.backup_machine.specs.Budgets.{after_some};
ghost use Rattle.backup_machine.specs.Kept.{backup_of, Follows, IsKept};
ghost use Rattle.backup_machine.specs.Lines.{dropped_parts, first_unless, present_floor};
ghost use Rattle.backup_machine.specs.Purged.{may_go};

use crate::backup::BackupState;
use crate::budget::{Budget, is_spent, one_less};
use crate::positions::{Positions, least_of};
use crate::volumes::VolumesState;
use rdf_core::replies::Reply;
use rdf_types::layout::Layout;
use rdf_types::records::{Pos, Record};
use std::alloc::AllocError;

/// Whether the first generation behind so many may go.
fn may_drop(starts: &Positions, gone: usize, retain: u32, floor: Pos) -> bool
    requires { gone ≤ length starts.now }
    ensures may { result ≡ may_go retain floor (drop gone starts.now) }
    ensures counted { length starts.now < 2 ^ 64 }
{
    let stand = starts.len() - gone;
    if stand < 2 {
        return false;
    }
    stand > retain as usize && starts.get(gone + 1) <= floor
}

/// How many generations may go: while more than the retained ones stand and the second starts at or below the floor.
fn count_old(starts: &Positions, retain: u32, floor: Pos, most: Budget) -> usize
    ensures within { result ≤ length starts.now }
    ensures starts { drop result starts.now ≡ after_some starts.now (drops retain floor starts.now) most }
{
    let mut gone = 0;
    let mut left = most;
    while !is_spent(left) && may_drop(starts, gone, retain, floor) {
        gone += 1;
        left = one_less(left);
    }
    gone
}

/// Drops them, and answers how many went.
fn purge_starts(starts: &mut Positions, retain: u32, floor: Pos, most: Budget) -> u64
    ensures starts { starts.new ≡ after_some starts.old (drops retain floor starts.old) most }
    ensures count { most ≡ None → result ≡ length (drops retain floor starts.old) }
{
    let gone = count_old(starts, retain, floor, most);
    starts.drop_first(gone);
    gone as u64
}

impl BackupState {
    /// The restart point of each volume.
    pub fn points(&self, layout: &Layout, trail: &[Record]) -> Result<Positions, AllocError>
        requires { IsKept layout.now trail.now self.now }
        ensures { IfOk result (λ points. points ≡ points_in layout.now trail.now (backup_of self.now).volumes) }
    {
        match &self.volumes {
            VolumesState::Running { points } => points.try_clone(),
            VolumesState::Taking => Ok(Positions::new(self.alloc)),
            VolumesState::Taken { .. } => Positions::all_at(self.alloc, layout, self.low),
        }
    }

    /// The position that no purge may pass.
    fn floor(&self, layout: &Layout, trail: &[Record]) -> Result<Pos, AllocError>
        requires follows { Follows layout.now trail.now self.now }
        requires noted { self.now.noted ≡ self.now.received }
        ensures { IfOk result (λ floor. floor ≡ present_floor layout.now trail.now (backup_of self.now)) }
    {
        let points = self.points(layout, trail)?;
        let low = self.low_now(layout, trail);
        Ok(least_of(layout.protect.flags(), points.all(), low))
    }

    /// Drops the generations that a purge may drop, or some first ones, and answers how many went.
    fn drop_old(
        &mut self,
        layout: &Layout,
        trail: &[Record],
        most: Budget,
    ) -> Result<u64, AllocError>
        requires { Follows layout.now trail.now self.old }
        ensures ok { OnOk result (backup_of self.new ≡ after_some (backup_of self.old) (dropped_parts layout.now trail.now (backup_of self.old)) most) }
        ensures count { IfOk result (λ n. most ≡ None → n ≡ length (dropped_parts layout.now trail.now (backup_of self.old))) }
        ensures kept { IsKept layout.now trail.now self.new }
        ensures err { OnErr result (backup_of self.new ≡ backup_of self.old) }
    {
        self.catch_up(layout, trail)?;
        let floor = self.floor(layout, trail)?;
        Ok(purge_starts(&mut self.starts, layout.retain, floor, most))
    }

    /// The line `purge`, by the present restart points.
    pub fn purge(&mut self, layout: &Layout, trail: &[Record]) -> Result<Reply, AllocError>
        requires { Follows layout.now trail.now self.old }
        ensures ok { IfOk result (λ reply. IsDone (needs_volumes (backup_of self.old)) (λ _. backup_of self.old)
            (after_all (backup_of self.old) (dropped_parts layout.now trail.now (backup_of self.old)))
            (λ r. r ≡ Number (length (dropped_parts layout.now trail.now (backup_of self.old)))) reply (backup_of self.new)) }
        ensures kept { IsKept layout.now trail.now self.new }
        ensures err { OnErr result (backup_of self.new ≡ backup_of self.old) }
    {
        if let Some(why) = self.taking_over() {
            return Ok(Reply::No { why });
        }
        Ok(Reply::Number {
            n: self.drop_old(layout, trail, None)?,
        })
    }

    /// The first durable parts of the line `purge`, which a stop of a disk cuts off.
    pub fn purge_first(
        &mut self,
        layout: &Layout,
        trail: &[Record],
        done: u32,
    ) -> Result<(), AllocError>
        requires { Follows layout.now trail.now self.old }
        ensures ok { OnOk result (backup_of self.new ≡ first_unless (needs_volumes (backup_of self.old)) (backup_of self.old)
            (dropped_parts layout.now trail.now (backup_of self.old)) done) }
        ensures kept { IsKept layout.now trail.now self.new }
        ensures err { OnErr result (backup_of self.new ≡ backup_of self.old) }
    {
        if self.taking_over().is_some() {
            return Ok(());
        }
        let _ = self.drop_old(layout, trail, Some(done))?;
        Ok(())
    }
}
