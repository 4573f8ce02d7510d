//! A system of which one node lent its backup to an open session.
use crate::fault::StepFault;
use crate::system::System;
use backup_node::BackupNode;
use node_faults::NodeFault;
use rdf_disk::Disk;
use std::snapshot::Snapshot;

/// Why a line of an open session was not answered: a fault of the primary's node or of the sender's side, which is the answer
/// unless the end of the session tells an earlier one; or a fault that the session met, whose answer its end tells.
#[derive(Clone, Copy, Debug, PartialEq, Eq)]
pub enum Broken {
    Line { fault: StepFault },
    Own { fault: NodeFault },
}

/// The system while one of its nodes has lent its backup to an open session, and is out of its site.
#[derive(Drop)]
pub struct OpenSystem<D: Disk> {
    pub(crate) system: System<D>,
    /// The node as it was then.
    pub(crate) lent: Snapshot<BackupNode<D>>,
}
