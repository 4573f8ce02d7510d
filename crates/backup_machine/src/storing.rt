//! Messages that a backup stores.
ghost use Rattle.std.specs.Prelude.{◌≡◌, ◌<◌, false, length, if◌then◌else◌, IfOk, OnOk, OnErr};
ghost use Rattle.rdf_core.specs.declared.replies.Reply.TheVariants.{Number};
ghost use Rattle.rdf_core.specs.Effects.{IsDone, after_all};
ghost use Rattle.rdf_core.specs.Backup.{deliver_refusal, deliver_parts, store_parts, is_due, rolled};
ghost use Rattle.backup_machine.specs.Budgets.{after_some, is_spent, without};
ghost use Rattle.backup_machine.specs.Kept.{backup_of, Keeps};
ghost use Rattle.backup_machine.specs.Lines.{first_unless};
ghost use Rattle.backup_machine.specs.Longer.{IsLonger};

use crate::backup::BackupState;
use crate::budget::{Budget, is_spent, one_less};
use rdf_core::replies::{NoWhy, Reply};
use rdf_types::layout::Layout;
use rdf_types::records::Pos;
use std::alloc::AllocError;

impl BackupState {
    /// Whether a message begins a new generation.
    fn is_due(&self, layout: &Layout) -> bool
        ensures { result ≡ is_due layout.now (backup_of self.now) }
    {
        let covered = self.received.saturating_sub(self.starts.last());
        u64::from(layout.extent) <= covered && self.number < 1_000_000_000
    }

    /// Begins a new generation where one is due.
    fn roll_if_due(&mut self, layout: &Layout, most: Budget) -> Result<Budget, AllocError>
        ensures ok { OnOk result (backup_of self.new ≡ (if is_due layout.now (backup_of self.old) then rolled (backup_of self.old) else backup_of self.old)) }
        ensures left { IfOk result (λ left. left ≡ (if is_due layout.now (backup_of self.old) then without most 1 else most)) }
        ensures longer { IsLonger self.old self.new }
        ensures err { OnErr result (backup_of self.new ≡ backup_of self.old) }
    {
        if !self.is_due(layout) {
            return Ok(most);
        }
        self.starts.push(self.received)?;
        self.number += 1;
        Ok(one_less(most))
    }

    /// Stores a message up to a position, or the first durable parts of that, and answers how many more are to be done.
    pub(crate) fn store(
        &mut self,
        layout: &Layout,
        to: Pos,
        most: Budget,
    ) -> Result<Budget, AllocError>
        ensures ok { OnOk result (backup_of self.new ≡ after_some (backup_of self.old) (store_parts layout.now to (backup_of self.old)) most) }
        ensures left { IfOk result (λ left. left ≡ without most (length (store_parts layout.now to (backup_of self.old)))) }
        ensures reached { IfOk result (λ left. is_spent left ≡ false → self.old.received < to → self.new.received ≡ to) }
        ensures longer { IsLonger self.old self.new }
        ensures err { OnErr result (backup_of self.new ≡ backup_of self.old) }
    {
        if to <= self.received || is_spent(most) {
            return Ok(most);
        }
        let left = self.roll_if_due(layout, most)?;
        if is_spent(left) {
            return Ok(left);
        }
        self.received = to;
        Ok(one_less(left))
    }

    /// Why a message is not taken.
    fn bar_message(&self, message: Option<(Pos, Pos)>) -> Option<NoWhy>
        ensures { result ≡ deliver_refusal (backup_of self.now) message }
    {
        if let Some(why) = self.not_running() {
            return Some(why);
        }
        match message {
            None => Some(NoWhy::Message),
            Some((from, _)) => {
                if self.received < from {
                    Some(NoWhy::Gap {
                        received: self.received,
                    })
                } else {
                    None
                }
            }
        }
    }

    /// Stores a message, where there is one.
    fn take(
        &mut self,
        layout: &Layout,
        message: Option<(Pos, Pos)>,
        most: Budget,
    ) -> Result<(), AllocError>
        ensures ok { OnOk result (backup_of self.new ≡ after_some (backup_of self.old) (deliver_parts layout.now message (backup_of self.old)) most) }
        ensures kept { Keeps self.old self.new }
        ensures err { OnErr result (backup_of self.new ≡ backup_of self.old) }
    {
        match message {
            None => Ok(()),
            Some((_, to)) => {
                let _ = self.store(layout, to, most)?;
                Ok(())
            }
        }
    }

    /// The line `deliver`, with the range of its message.
    pub fn deliver(
        &mut self,
        layout: &Layout,
        message: Option<(Pos, Pos)>,
    ) -> Result<Reply, AllocError>
        ensures ok { IfOk result (λ reply. IsDone (deliver_refusal (backup_of self.old) message) (λ _. backup_of self.old)
            (after_all (backup_of self.old) (deliver_parts layout.now message (backup_of self.old)))
            (λ r. r ≡ Number (after_all (backup_of self.old) (deliver_parts layout.now message (backup_of self.old))).received) reply (backup_of self.new)) }
        ensures kept { Keeps self.old self.new }
        ensures err { OnErr result (backup_of self.new ≡ backup_of self.old) }
    {
        if let Some(why) = self.bar_message(message) {
            return Ok(Reply::No { why });
        }
        self.take(layout, message, None)?;
        Ok(Reply::Number { n: self.received })
    }

    /// The first durable parts of the line `deliver`, which a stop of a disk cuts off.
    pub fn deliver_first(
        &mut self,
        layout: &Layout,
        message: Option<(Pos, Pos)>,
        done: u32,
    ) -> Result<(), AllocError>
        ensures ok { OnOk result (backup_of self.new ≡ first_unless (deliver_refusal (backup_of self.old) message) (backup_of self.old)
            (deliver_parts layout.now message (backup_of self.old)) done) }
        ensures kept { Keeps self.old self.new }
        ensures err { OnErr result (backup_of self.new ≡ backup_of self.old) }
    {
        if self.bar_message(message).is_some() {
            return Ok(());
        }
        self.take(layout, message, Some(done))
    }
}
