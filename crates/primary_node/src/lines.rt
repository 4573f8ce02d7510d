//! The lines on the primary alone.
ghost use Rattle.std.specs.Prelude.{◌≡◌, true};
ghost use Rattle.rdf_core.specs.Step.{is_for_primary};

use crate::node::PrimaryNode;
use node_faults::NodeFault;
use plan_lang::lines::Line;
use rdf_core::replies::Reply;
use rdf_disk::Disk;

impl<D: Disk + Drop> PrimaryNode<D> {
    ghost use Rattle.primary_node.specs.Nodes.{MayServe};
    ghost use Rattle.primary_node.specs.Calls.{Does};

    /// A line on the primary alone. Where a disk stops, all disks are cut, and the reply is that the node stopped.
    /// After an `Err` too the disks are cut and the node is down.
    pub fn line(&mut self, line: &Line) -> Result<Reply, NodeFault>
        requires own { is_for_primary line.now ≡ true }
        requires serves { MayServe D.tells D.files D.counts self.old }
        ensures { Does D.tells D.files D.counts line.now result self.old self.new }
    {
        match line {
            Line::Lose => self.lose(),
            Line::Cut { node: _ } => self.cut(),
            Line::Status { node: _ } => self.status(line),
            Line::Fuse {
                node: _,
                disk,
                calls,
                tear,
            } => self.fuse(*disk, *calls, *tear),
            _ => self.answered(line),
        }
    }
}
