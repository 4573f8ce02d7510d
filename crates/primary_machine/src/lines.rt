//! The lines on the primary alone.
ghost use Rattle.std.specs.Prelude.{◌≡◌, true, IfOk, OnErr};
ghost use Rattle.rdf_core.specs.Step.{is_for_primary};
ghost use Rattle.primary_machine.specs.Lines.{Performs};

use crate::primary::PrimaryState;
use plan_lang::lines::Line;
use rdf_core::replies::Reply;
use rdf_types::layout::Layout;
use rdf_types::records::Record;
use std::alloc::AllocError;

impl PrimaryState {
    /// The trail.
    pub fn trail(&self) -> &[Record]
        ensures { result.now ≡ self.now.trail }
    {
        &self.trail
    }

    /// A line that changes the primary alone, whole. An `Err` is want of memory, and leaves all as it was.
    pub fn line(&mut self, layout: &Layout, line: &Line) -> Result<Reply, AllocError>
        requires { is_for_primary line.now ≡ true }
        ensures ok { IfOk result (λ reply. Performs layout.now line.now self.old reply self.new) }
        ensures err { OnErr result (self.new ≡ self.old) }
    {
        match line {
            Line::Begin { txn } => self.begin(layout, *txn),
            Line::Insert { txn, key, value } => self.insert(layout, *txn, key, value),
            Line::Update { txn, key, value } => self.update(layout, *txn, key, value),
            Line::Delete { txn, key } => self.delete(layout, *txn, key),
            Line::Get { txn, key } => self.get(layout, *txn, key),
            Line::Commit { txn } => self.commit(layout, *txn),
            Line::Abort { txn } => self.abort(layout, *txn),
            Line::Lose => Ok(self.lose(layout)),
            Line::List { vol, .. } => self.list(layout, *vol),
            Line::Fuse { disk, .. } => Ok(self.fuse(layout, *disk)),
            Line::Cut { .. } => Ok(self.cut(layout)),
            _ => Ok(self.status()),
        }
    }
}
