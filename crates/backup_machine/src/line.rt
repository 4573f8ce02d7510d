//! The lines on one backup.
ghost use Rattle.std.specs.Prelude.{◌≡◌, true, false, IfOk, OnOk, OnErr};
ghost use Rattle.rdf_core.specs.Backup.{Backup};
ghost use Rattle.backup_machine.specs.Kept.{around_by, backup_of, Follows, IsKept};
ghost use Rattle.backup_machine.specs.Lines.{Performs, first_of};
ghost use Rattle.backup_machine.specs.Owned.{is_own, is_copy};

use crate::backup::BackupState;
use plan_lang::lines::Line;
use rdf_core::replies::Reply;
use rdf_types::layout::Layout;
use rdf_types::records::{Pos, Record};
use std::alloc::AllocError;

/// What a line on a backup needs of the rest: the primary's trail, whether the primary is lost, and the range of the
/// message that the line names.
#[derive(Clone, Copy)]
pub struct Outside {
    /// Whether the primary is lost.
    pub lost: bool,
    /// The range of the message.
    pub message: Option<(Pos, Pos)>,
}

impl BackupState {
    /// A line that needs no other backup, whole. An `Err` is want of memory, and leaves all as it was.
    pub fn line(
        &mut self,
        layout: &Layout,
        trail: &[Record],
        outside: Outside,
        line: &Line,
    ) -> Result<Reply, AllocError>
        requires follows { Follows layout.now trail.now self.old }
        requires own { is_own line.now ≡ true }
        ensures ok { IfOk result (λ reply. (lead : Backup) → let w = around_by layout.now trail.now outside lead self.old in
            Performs layout.now w line.now (backup_of self.old) reply (backup_of self.new)) }
        ensures kept { IsKept layout.now trail.now self.new }
        ensures err { OnErr result (backup_of self.new ≡ backup_of self.old) }
    {
        match line {
            Line::Deliver { .. } => self.deliver(layout, outside.message),
            Line::Purge { .. } => self.purge(layout, trail),
            Line::Takeover { .. } => self.takeover(layout, trail, outside.lost),
            Line::List { vol, .. } => self.list(layout, trail, *vol),
            Line::Info { .. } => self.info(layout, trail),
            Line::Fuse { disk, .. } => Ok(self.fuse(layout, *disk)),
            Line::Cut { .. } => Ok(self.cut(layout)),
            Line::Restart { .. } => Ok(self.restart(layout)),
            _ => self.status(layout, trail),
        }
    }

    /// The first durable parts of a line that needs no other backup. An `Err` leaves all as it was.
    pub fn first_parts(
        &mut self,
        layout: &Layout,
        trail: &[Record],
        outside: Outside,
        line: &Line,
        done: u32,
    ) -> Result<(), AllocError>
        requires follows { Follows layout.now trail.now self.old }
        requires alone { is_copy line.now ≡ false }
        ensures ok { OnOk result ((lead : Backup) → let w = around_by layout.now trail.now outside lead self.old in
            backup_of self.new ≡ first_of layout.now w line.now (backup_of self.old) done) }
        ensures kept { IsKept layout.now trail.now self.new }
        ensures err { OnErr result (backup_of self.new ≡ backup_of self.old) }
    {
        match line {
            Line::Deliver { .. } => self.deliver_first(layout, outside.message, done),
            Line::Purge { .. } => self.purge_first(layout, trail, done),
            Line::Takeover { .. } => self.takeover_first(layout, trail, outside.lost, done),
            _ => Ok(()),
        }
    }
}
