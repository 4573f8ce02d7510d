//! The line `session`.
ghost use Rattle.std.specs.Prelude.{◌≡◌};
ghost use Rattle.plan_lang.specs.declared.lines.Line.TheVariants as lines;
ghost use Rattle.backup_node.specs.Lines.{begun};

use crate::node::BackupNode;
use node_faults::NodeFault;
use rdf_core::replies::{NoWhy, Reply};
use rdf_disk::Disk;
use rdf_types::records::{Phase, Pos};

/// What a backup of that phase answers to `session`, once it has received so far.
fn begun(phase: Phase, received: Pos) -> Reply
    ensures { result ≡ begun phase received }
{
    match phase {
        Phase::Running => Reply::Number { n: received },
        Phase::Taking => Reply::No { why: NoWhy::Taking },
        Phase::Taken { upto: _ } => Reply::No { why: NoWhy::Taken },
    }
}

impl<D: Disk + Drop> BackupNode<D> {
    ghost use Rattle.backup_node.specs.Nodes.{MayServe};
    ghost use Rattle.backup_node.specs.Lines.{Performs, Any, Does};

    /// The line `session`: whether one may begin. It changes nothing.
    pub fn session(&mut self) -> Result<Reply, NodeFault>
        requires serves { MayServe D.tells D.files D.counts self.old }
        ensures { Does D.tells D.files D.counts (Performs D.files Any) (lines.Session self.old.name) result self.old self.new }
    {
        match &self.backup {
            None => Ok(Reply::No { why: NoWhy::Down }),
            Some(backup) => Ok(begun(backup.phase(), backup.received())),
        }
    }
}
