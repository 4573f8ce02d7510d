//! The restart of a backup's node.
ghost use Rattle.std.specs.Prelude.{◌≡◌};
ghost use Rattle.plan_lang.specs.declared.lines.Line.TheVariants as lines;

use crate::node::BackupNode;
use crate::settling::stop_told;
use node_disks::cut_all;
use node_faults::{NodeFault, Shut};
use rdf_backup::Backup;
use rdf_core::replies::{NoWhy, Reply};
use rdf_disk::Disk;
use rdf_types::layout::Layout;
use std::alloc::Global;
use std::mem;

impl<D: Disk + Drop> BackupNode<D> {
    ghost use Rattle.node_faults.specs.Faults.{IsSound};
    ghost use Rattle.backup_node.specs.Nodes.{IsAtSome, IsLaid, MayServe};
    ghost use Rattle.backup_node.specs.Lines.{Performs, Of, Keeps};

    /// The line `restart`, on a node of that layout. Where a disk stops, all disks are cut again, and the reply is that the
    /// node stopped. After an `Err` too the disks are cut and the node is down.
    pub fn restart(&mut self, alloc: Global, layout: &Layout) -> Result<Reply, NodeFault>
        requires laid { layout.now.volumes ≡ self.old.volumes }
        requires serves { MayServe D.tells D.files D.counts self.old }
        requires stood { D.tells → IsAtSome D.files layout.now self.old }
        ensures performs { D.tells → Performs D.files (Of layout.now) (lines.Restart self.old.name) result self.old self.new }
        ensures keeps { Keeps D.tells D.files D.counts (lines.Restart self.old.name) result self.old self.new }
        ensures laid { IsLaid layout.now self.old → IsLaid layout.now self.new }
        ensures sound { D.tells → IsSound result }
    {
        if self.backup.is_some() {
            return Ok(Reply::No { why: NoWhy::Up });
        }
        let disks = mem::replace(&mut self.disks, Vec::new(alloc));
        match Backup::restart(alloc, disks, layout) {
            Ok(backup) => {
                let n = backup.received();
                self.backup = Some(backup);
                Ok(Reply::Number { n })
            }
            Err(shut) => {
                let Shut { mut disks, fault } = shut;
                cut_all(&mut disks);
                self.disks = disks;
                stop_told(self.name, fault)
            }
        }
    }
}
