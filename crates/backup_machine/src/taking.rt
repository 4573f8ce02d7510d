//! Takeover.
ghost use Rattle.std.specs.Prelude.{◌≡◌, if◌then◌else◌, IfOk, OnOk, OnErr};
ghost use Rattle.rdf_core.specs.declared.replies.Reply.TheVariants.{Number};
ghost use Rattle.rdf_core.specs.Effects.{IsDone, after_all};
ghost use Rattle.rdf_core.specs.Backup.{takeover_parts, takeover_refusal};
ghost use Rattle.backup_machine.specs.Budgets.{after_some, without};
ghost use Rattle.backup_machine.specs.Kept.{backup_of, Follows, IsKept};
ghost use Rattle.backup_machine.specs.Lines.{first_unless};
ghost use Rattle.backup_machine.specs.Marking.{IsMarked, begun, has_taken, is_begun};

use crate::backup::BackupState;
use crate::budget::{Budget, is_spent, one_less};
use crate::volumes::VolumesState;
use rdf_core::replies::{NoWhy, Reply};
use rdf_types::layout::Layout;
use rdf_types::records::{Pos, Record};
use std::alloc::AllocError;

impl BackupState {
    /// Whether all that was received is taken.
    fn is_taken(&self) -> bool
        ensures { result ≡ has_taken (backup_of self.now).received (backup_of self.now).volumes }
    {
        match &self.volumes {
            VolumesState::Taken { upto } => *upto == self.received,
            _ => false,
        }
    }

    /// The mark that a takeover has begun, where it is not there yet.
    fn begin_taking(&mut self, most: Budget) -> Budget
        ensures backup { self.new ≡ record self.old { volumes = begun self.old.volumes } }
        ensures left { result ≡ (if is_begun self.old.volumes then most else without most 1) }
    {
        match &self.volumes {
            VolumesState::Taking => most,
            _ => {
                self.volumes = VolumesState::Taking;
                one_less(most)
            }
        }
    }

    /// The marks of a takeover, or the first of them.
    fn mark(&mut self, low: Pos, most: Budget)
        ensures backup { backup_of self.new ≡ after_some (backup_of self.old) (takeover_parts (backup_of self.old)) most }
        ensures marked { IsMarked low self.old self.new }
    {
        if self.is_taken() || is_spent(most) {
            return;
        }
        let left = self.begin_taking(most);
        if is_spent(left) {
            return;
        }
        self.low = low;
        self.volumes = VolumesState::Taken {
            upto: self.received,
        };
    }

    /// The marks of a takeover of what was received.
    fn mark_received(
        &mut self,
        layout: &Layout,
        trail: &[Record],
        most: Budget,
    ) -> Result<(), AllocError>
        requires { Follows layout.now trail.now self.old }
        ensures ok { OnOk result (backup_of self.new ≡ after_some (backup_of self.old) (takeover_parts (backup_of self.old)) most) }
        ensures kept { IsKept layout.now trail.now self.new }
        ensures err { OnErr result (backup_of self.new ≡ backup_of self.old) }
    {
        self.catch_up(layout, trail)?;
        let low = self.low_now(layout, trail);
        self.mark(low, most);
        Ok(())
    }

    /// Why no takeover is done.
    fn bar_takeover(&self, lost: bool) -> Option<NoWhy>
        ensures { result ≡ takeover_refusal lost (backup_of self.now) }
    {
        if !self.up {
            return Some(NoWhy::Down);
        }
        if lost { None } else { Some(NoWhy::PrimaryUp) }
    }

    /// The line `takeover`, where the primary is lost or not.
    pub fn takeover(
        &mut self,
        layout: &Layout,
        trail: &[Record],
        lost: bool,
    ) -> Result<Reply, AllocError>
        requires { Follows layout.now trail.now self.old }
        ensures ok { IfOk result (λ reply. IsDone (takeover_refusal lost (backup_of self.old)) (λ _. backup_of self.old)
            (after_all (backup_of self.old) (takeover_parts (backup_of self.old)))
            (λ r. r ≡ Number self.old.received) reply (backup_of self.new)) }
        ensures kept { IsKept layout.now trail.now self.new }
        ensures err { OnErr result (backup_of self.new ≡ backup_of self.old) }
    {
        if let Some(why) = self.bar_takeover(lost) {
            return Ok(Reply::No { why });
        }
        let n = self.received;
        self.mark_received(layout, trail, None)?;
        Ok(Reply::Number { n })
    }

    /// The first durable parts of the line `takeover`, which a stop of a disk cuts off.
    pub fn takeover_first(
        &mut self,
        layout: &Layout,
        trail: &[Record],
        lost: bool,
        done: u32,
    ) -> Result<(), AllocError>
        requires { Follows layout.now trail.now self.old }
        ensures ok { OnOk result (backup_of self.new ≡ first_unless (takeover_refusal lost (backup_of self.old)) (backup_of self.old)
            (takeover_parts (backup_of self.old)) done) }
        ensures kept { IsKept layout.now trail.now self.new }
        ensures err { OnErr result (backup_of self.new ≡ backup_of self.old) }
    {
        if self.bar_takeover(lost).is_some() {
            return Ok(());
        }
        self.mark_received(layout, trail, Some(done))
    }
}
