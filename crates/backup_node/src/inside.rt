//! A session on a node, from its line to its end.
ghost use Rattle.std.specs.Prelude.{◌≡◌, true, false, IfOk, IfErr};

use crate::node::BackupNode;
use node_faults::NodeFault;
use rdf_backup::laws::{ends_broken, ends_risen};
use rdf_backup::{Here, NotBegun, SessionEnd};
use rdf_core::replies::Reply;
use rdf_disk::Disk;
use rdf_ports::Gate;
use rdf_types::records::Phase;
use std::sync::Wait;
use std::thread::Threads;

/// How a session on a node ended: what came of what was driven in it, and the reply that is told at its end, or the fault.
/// That a disk stopped is a reply.
#[derive(Drop)]
pub struct NodeEnd<O> {
    pub out: O,
    pub told: Result<Reply, NodeFault>,
}

impl<D: Disk> BackupNode<D> {
    ghost use Rattle.backup_node.specs.Open.{Runs};

    /// Whether it is up, and its backup runs: then a session may be begun on it.
    pub fn runs(&self) -> bool
        ensures runs { result ≡ true → Runs self.now }
        ensures idle { result ≡ false → Runs self.now → ⊥ }
    {
        match &self.backup {
            None => false,
            Some(backup) => matches!(backup.phase(), Phase::Running),
        }
    }
}

impl<D: Disk + Drop + Send> BackupNode<D> {
    ghost use Rattle.backup_node.specs.Nodes.{MayServe};
    ghost use Rattle.backup_node.specs.Open.{Runs};
    ghost use Rattle.backup_node.specs.Closing.{HasRunAt, IsAsBefore};

    /// A session on the node: the lines from `session` to `end`. Its backup is lent to `here`, which drives the lines, and
    /// each protected volume has an updater in a thread of its own meanwhile. What is told at the end is the reply to `end`,
    /// or to the line that met something, or the fault; then the disks are cut and the node is down.
    ///
    /// Where there is no memory for it no session is begun, and what was to be driven comes back; so too where the disks do not
    /// tell what they hold and what is kept of the audit, or a restart point, is out of its place.
    pub fn in_session<R: Threads + Wait + Sync, G: Gate + Sync, H: Here<D> + Drop>(
        &mut self,
        rt: &R,
        gate: &G,
        here: H,
    ) -> Result<NodeEnd<H::Out>, NotBegun<H>>
    where
        H::Out: Drop,
        requires runs { Runs self.old }
        requires ready { H.Ready here }
        requires serves { MayServe D.tells D.files D.counts self.old }
        ensures unbegun { IfErr result (λ u. (u.here ≡ here) × IsAsBefore D.tells D.files D.counts self.old self.new) }
        ensures runs { IfOk result (λ e. HasRunAt D.tells D.files D.counts (H.Drives here D.Disk) e.out e.told self.old self.new) }
    {
        ends_risen::<D>();
        ends_broken::<D>();
        match self.backup.take() {
            None => unreachable!(),
            Some(mut backup) => match backup.session(rt, gate, here) {
                Ok(ran) => {
                    let SessionEnd { out, end } = ran;
                    let told = self.settled(backup, end);
                    Ok(NodeEnd { out, told })
                }
                Err(unbegun) => {
                    self.backup = Some(backup);
                    Err(unbegun)
                }
            },
        }
    }
}
