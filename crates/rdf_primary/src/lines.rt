//! The lines that a primary answers.

use crate::primary::Primary;
use crate::refusals::{numbered, refused};
use node_faults::NodeFault;
use plan_lang::lines::Line;
use rdf_core::laws::line_keeps_proper;
use rdf_core::replies::{Reply, RowList};
use rdf_disk::Disk;

impl<D: Disk> Primary<D> {
    ghost use Rattle.rdf_primary.specs.States.{IsUp, IsRunning};
    ghost use Rattle.rdf_primary.specs.Replies.{IsAnswered};
    ghost use Rattle.rdf_primary.specs.Lines.{Does};

    /// A line of a transaction, or the list or the status of the primary. A beginning and a status use no disk: want of memory
    /// is their only fault, and the disks are as they were.
    pub fn line(&mut self, line: &Line) -> Result<Reply, NodeFault>
        requires answered { IsAnswered line.now }
        requires up { IsUp self.old }
        requires runs { D.tells → IsRunning D.files self.old }
        ensures { Does D.tells D.files D.counts line.now result self.old self.new }
    {
        line_keeps_proper();
        match line {
            Line::Begin { txn } => match self.tmf.begin(*txn) {
                Ok(()) => Ok(Reply::Done),
                Err(fault) => refused(fault),
            },
            Line::Insert { txn, key, value } => numbered(self.tmf.insert(*txn, key, value)),
            Line::Update { txn, key, value } => numbered(self.tmf.update(*txn, key, value)),
            Line::Delete { txn, key } => numbered(self.tmf.delete(*txn, key)),
            Line::Get { txn, key } => match self.tmf.read(*txn, key) {
                Ok(value) => Ok(Reply::Got { value }),
                Err(fault) => refused(fault),
            },
            Line::Commit { txn } => numbered(self.tmf.commit(*txn)),
            Line::Abort { txn } => numbered(self.tmf.abort(*txn)),
            Line::List { node: _, vol } => match self.tmf.scan(*vol) {
                Ok(rows) => Ok(Reply::Rows {
                    at: self.tmf.trail().len(),
                    rows: RowList::new(rows),
                }),
                Err(fault) => refused(fault),
            },
            _ => Ok(Reply::PrimaryUp {
                len: self.tmf.trail().len(),
                active: self.tmf.active(),
            }),
        }
    }
}
