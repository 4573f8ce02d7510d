//! The restart of the primary's node.
ghost use Rattle.std.specs.Prelude.{◌≡◌, false, None};
ghost use Rattle.plan_lang.specs.declared.lines.Line.TheVariants as lines;
ghost use Rattle.rdf_types.specs.declared.records.Node.TheVariants.{A};

use crate::kinds::stop_told;
use crate::node::PrimaryNode;
use node_disks::cut_all;
use node_faults::{NodeFault, Shut};
use rdf_core::replies::{NoWhy, Reply};
use rdf_disk::Disk;
use rdf_primary::Primary;
use rdf_types::layout::Layout;
use std::alloc::Global;
use std::mem;

impl<D: Disk + Drop> PrimaryNode<D> {
    ghost use Rattle.primary_node.specs.Nodes.{MayRest, MayServe};
    ghost use Rattle.primary_node.specs.Calls.{Does};

    /// The line `restart a`, on a node of that layout. Where a disk stops, all disks are cut again, and the reply is that the
    /// node stopped. After an `Err` too the disks are cut and the node is down.
    pub fn restart(&mut self, alloc: Global, layout: &Layout) -> Result<Reply, NodeFault>
        requires laid { layout.now.volumes ≡ self.old.volumes }
        requires serves { MayServe D.tells D.files D.counts self.old }
        ensures { Does D.tells D.files D.counts (lines.Restart A) result self.old self.new }
    {
        if self.lost {
            return Ok(Reply::No { why: NoWhy::Lost });
        }
        if self.primary.is_some() {
            return Ok(Reply::No { why: NoWhy::Up });
        }
        self.reopen(alloc, layout)
    }

    /// The same of a node that is down.
    fn reopen(&mut self, alloc: Global, layout: &Layout) -> Result<Reply, NodeFault>
        requires laid { layout.now.volumes ≡ self.old.volumes }
        requires not_up { self.old.primary ≡ None }
        requires not_lost { self.old.lost ≡ false }
        requires rests { MayRest D.tells D.files D.counts self.old.volumes self.old.disks.items }
        ensures { Does D.tells D.files D.counts (lines.Restart A) result self.old self.new }
    {
        let disks = mem::replace(&mut self.disks, Vec::new(alloc));
        match Primary::restart(alloc, disks, layout) {
            Ok((primary, backed_out)) => {
                self.primary = Some(primary);
                Ok(Reply::Number { n: backed_out })
            }
            Err(shut) => {
                let Shut { mut disks, fault } = shut;
                cut_all(&mut disks);
                self.disks = disks;
                stop_told(fault)
            }
        }
    }
}
