//! Lines that a stop of a disk of the primary cuts off.
ghost use Rattle.std.specs.Prelude.{◌≡◌, true, false, None, IfOk, OnOk, OnErr};
ghost use Rattle.plan_lang.specs.declared.lines.Line.TheVariants as line;
ghost use Rattle.rdf_types.specs.declared.records.Node.TheVariants.{A};
ghost use Rattle.rdf_core.specs.declared.replies.Reply.TheVariants.{Stopped};
ghost use Rattle.rdf_core.specs.Primary.{primary_refusal, primary_after};
ghost use Rattle.primary_machine.specs.Stops.{CanCut, first_parts, adds_record, is_backout};

use crate::primary::PrimaryState;
use plan_lang::lines::Line;
use rdf_core::replies::Reply;
use rdf_types::layout::Layout;
use rdf_types::records::{Node, TxnId};
use std::alloc::AllocError;

impl PrimaryState {
    /// The line, where a stop of one disk cuts it off after the first `done` of its durable parts. An `Err` leaves all as it was.
    pub fn stop(&mut self, layout: &Layout, line: &Line, done: u32) -> Result<Reply, AllocError>
        ensures ok { IfOk result (λ reply. CanCut layout.now self.old line.now done →
            (reply ≡ Stopped A) × (self.new ≡ first_parts layout.now self.old line.now done)) }
        ensures err { OnErr result (self.new ≡ self.old) }
    {
        match line {
            Line::Abort { txn } => self.stop_abort(layout, *txn, done)?,
            Line::Restart { .. } => self.stop_restart(layout, done)?,
            _ => self.stop_record(layout, line, done)?,
        }
        Ok(Reply::Stopped { node: Node::A })
    }

    fn stop_abort(&mut self, layout: &Layout, txn: TxnId, done: u32) -> Result<(), AllocError>
        ensures ok { OnOk result (CanCut layout.now self.old (line.Abort txn) done → self.new ≡ first_parts layout.now self.old (line.Abort txn) done) }
        ensures err { OnErr result (self.new ≡ self.old) }
    {
        if self.idle(txn).is_some() || !self.is_open(txn) {
            self.fall();
            return Ok(());
        }
        self.back_out_first(&[txn], done)
    }

    fn stop_restart(&mut self, layout: &Layout, done: u32) -> Result<(), AllocError>
        ensures ok { OnOk result (CanCut layout.now self.old (line.Restart A) done → self.new ≡ first_parts layout.now self.old (line.Restart A) done) }
        ensures err { OnErr result (self.new ≡ self.old) }
    {
        let open = self.open()?;
        self.back_out_first(&open, done)
    }

    // A line that adds a record at most.
    fn stop_record(&mut self, layout: &Layout, line: &Line, done: u32) -> Result<(), AllocError>
        ensures ok { OnOk result (is_backout line.now ≡ false → CanCut layout.now self.old line.now done
            → self.new ≡ first_parts layout.now self.old line.now done) }
        ensures err { OnErr result (self.new ≡ self.old) }
    {
        if done > 0 {
            self.add_record(layout, line)?;
        }
        self.fall();
        Ok(())
    }

    fn add_record(&mut self, layout: &Layout, line: &Line) -> Result<(), AllocError>
        ensures ok { OnOk result (primary_refusal layout.now self.old line.now ≡ None → adds_record line.now ≡ true
            → self.new ≡ primary_after self.old line.now) }
        ensures err { OnErr result (self.new ≡ self.old) }
    {
        match line {
            Line::Insert { txn, key, value } => {
                let _ = self.insert(layout, *txn, key, value)?;
            }
            Line::Update { txn, key, value } => {
                let _ = self.update(layout, *txn, key, value)?;
            }
            Line::Delete { txn, key } => {
                let _ = self.delete(layout, *txn, key)?;
            }
            Line::Commit { txn } => {
                let _ = self.commit(layout, *txn)?;
            }
            _ => {}
        }
        Ok(())
    }
}
