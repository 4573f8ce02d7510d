//! The line `takeover`.
ghost use Rattle.plan_lang.specs.declared.lines.Line.TheVariants as lines;

use crate::node::BackupNode;
use node_faults::NodeFault;
use rdf_core::replies::{NoWhy, Reply};
use rdf_disk::Disk;
use rdf_ports::Gate;
use std::sync::Wait;
use std::thread::Threads;

impl<D: Disk + Drop + Send> BackupNode<D> {
    ghost use Rattle.backup_node.specs.Nodes.{MayServe};
    ghost use Rattle.backup_node.specs.Lines.{Performs, WhereLost, DoesAt};
    ghost use Rattle.backup_node.specs.Kinds.{IsTakenOver};

    /// The line `takeover`, where the primary is lost or not. The volumes are worked beside each other.
    pub fn takeover<R: Threads + Wait + Sync, G: Gate + Sync>(
        &mut self,
        rt: &R,
        lost: bool,
        gate: &G,
    ) -> Result<Reply, NodeFault>
        requires serves { MayServe D.tells D.files D.counts self.old }
        ensures does { DoesAt D.tells D.files D.counts (Performs D.files (WhereLost lost)) (lines.Takeover self.old.name) result self.old self.new }
        ensures judged { IsTakenOver lost result self.old }
    {
        match self.backup.take() {
            None => Ok(Reply::No { why: NoWhy::Down }),
            Some(mut backup) => {
                if !lost {
                    self.backup = Some(backup);
                    return Ok(Reply::No {
                        why: NoWhy::PrimaryUp,
                    });
                }
                let outcome = backup.takeover(rt, gate);
                self.settled(backup, outcome)
            }
        }
    }
}
