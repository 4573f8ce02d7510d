//! Audit that a backup takes from another one.
ghost use Rattle.std.specs.Prelude.{◌≡◌, take, OnOk, OnErr};
ghost use Rattle.rdf_core.specs.Backup.{needs_taken, copy_refusal};
ghost use Rattle.backup_machine.specs.Budgets.{after_some};
ghost use Rattle.backup_machine.specs.Kept.{backup_of, Keeps};
ghost use Rattle.backup_machine.specs.Longer.{IsLonger};
ghost use Rattle.backup_machine.specs.Lines.{copied_parts};

use crate::backup::BackupState;
use crate::budget::{Budget, is_spent};
use crate::volumes::VolumesState;
use rdf_core::replies::NoWhy;
use rdf_types::layout::Layout;
use rdf_types::records::Pos;
use std::alloc::AllocError;

impl BackupState {
    /// Why the backup has not taken over.
    fn not_taken(&self) -> Option<NoWhy>
        ensures { result ≡ needs_taken (backup_of self.now).volumes }
    {
        match &self.volumes {
            VolumesState::Running { .. } => Some(NoWhy::Running),
            VolumesState::Taking => Some(NoWhy::Taking),
            VolumesState::Taken { .. } => None,
        }
    }

    /// Why no audit is copied from another backup.
    pub fn bar_copy(&self, lead: &BackupState) -> Option<NoWhy>
        ensures { result ≡ copy_refusal (backup_of self.now) (backup_of lead.now) }
    {
        if !self.up || !lead.up {
            return Some(NoWhy::Down);
        }
        if let Some(why) = self.not_taken() {
            return Some(why);
        }
        if let Some(why) = lead.not_taken() {
            return Some(why);
        }
        if self.received < lead.starts.get(0) {
            return Some(NoWhy::Purged {
                first: self.received,
            });
        }
        None
    }

    /// Stores messages up to a position, or their first durable parts. After an `Err` some first ones are stored.
    fn copy_messages(&mut self, layout: &Layout, upto: Pos, most: Budget) -> Result<(), AllocError>
        ensures ok { OnOk result (backup_of self.new ≡ after_some (backup_of self.old) (copied_parts layout.now upto (backup_of self.old)) most) }
        ensures longer { IsLonger self.old self.new }
    {
        let mut left = most;
        for _message in self.received..upto {
            if upto <= self.received || is_spent(left) {
                return Ok(());
            }
            let to = self.received.saturating_add(64).min(upto);
            left = self.store(layout, to, left)?;
        }
        Ok(())
    }

    /// Takes back what was stored.
    fn go_back(&mut self, received: Pos, starts: usize, number: u32)
        ensures { self.new ≡ record self.old { received = received; starts = take starts self.old.starts; number = number } }
    {
        self.received = received;
        self.starts.keep_first(starts);
        self.number = number;
    }

    /// Stores messages up to a position, or their first durable parts. An `Err` is want of memory, and leaves all as it was.
    pub fn copy(&mut self, layout: &Layout, upto: Pos, most: Budget) -> Result<(), AllocError>
        ensures ok { OnOk result (backup_of self.new ≡ after_some (backup_of self.old) (copied_parts layout.now upto (backup_of self.old)) most) }
        ensures kept { Keeps self.old self.new }
        ensures err { OnErr result (backup_of self.new ≡ backup_of self.old) }
    {
        let received = self.received;
        let starts = self.starts.len();
        let number = self.number;
        match self.copy_messages(layout, upto, most) {
            Ok(()) => Ok(()),
            Err(error) => {
                self.go_back(received, starts, number);
                Err(error)
            }
        }
    }
}
