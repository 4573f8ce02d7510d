//! Fuses of the disks of the primary's node.
ghost use Rattle.std.specs.Prelude.{◌≡◌, ◌≤◌, false, None, Some};
ghost use Rattle.plan_lang.specs.declared.lines.Line.TheVariants as lines;
ghost use Rattle.rdf_types.specs.declared.records.Node.TheVariants.{A};

use crate::node::PrimaryNode;
use node_faults::NodeFault;
use rdf_core::replies::{NoWhy, Reply};
use rdf_disk::{Disk, Tear};
use rdf_primary::Primary;

impl<D: Disk + Drop> PrimaryNode<D> {
    ghost use Rattle.primary_node.specs.Nodes.{MayRest, MayServe};
    ghost use Rattle.primary_node.specs.Calls.{Does};

    /// The line `fuse a`.
    pub(crate) fn fuse(&mut self, disk: u8, calls: u32, tear: Tear) -> Result<Reply, NodeFault>
        requires serves { MayServe D.tells D.files D.counts self.old }
        ensures { Does D.tells D.files D.counts (lines.Fuse A disk calls tear) result self.old self.new }
    {
        if self.lost {
            return Ok(Reply::No { why: NoWhy::Lost });
        }
        if self.volumes < disk {
            return Ok(Reply::No { why: NoWhy::Volume });
        }
        match self.primary.take() {
            Some(primary) => self.fuse_up(primary, disk, calls, tear),
            None => self.fuse_off(disk, calls, tear),
        }
    }

    /// The fuse of a disk of a primary that is up.
    fn fuse_up(
        &mut self,
        mut primary: Primary<D>,
        disk: u8,
        calls: u32,
        tear: Tear,
    ) -> Result<Reply, NodeFault>
        requires there { disk ≤ self.old.volumes }
        requires serves { MayServe D.tells D.files D.counts (record self.old { primary = Some primary }) }
        ensures { Does D.tells D.files D.counts (lines.Fuse A disk calls tear) result (record self.old { primary = Some primary }) self.new }
    {
        primary.fuse(disk, calls, tear);
        self.primary = Some(primary);
        Ok(Reply::Done)
    }

    /// The fuse of a disk of a node that is down.
    fn fuse_off(&mut self, disk: u8, calls: u32, tear: Tear) -> Result<Reply, NodeFault>
        requires there { disk ≤ self.old.volumes }
        requires not_up { self.old.primary ≡ None }
        requires not_lost { self.old.lost ≡ false }
        requires rests { MayRest D.tells D.files D.counts self.old.volumes self.old.disks.items }
        ensures { Does D.tells D.files D.counts (lines.Fuse A disk calls tear) result self.old self.new }
    {
        let fused = &mut self.disks[disk as usize];
        fused.fuse(calls, tear);
        Ok(Reply::Done)
    }
}
