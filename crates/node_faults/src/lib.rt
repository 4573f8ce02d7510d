//! Why a call of a node did nothing, or only a part: which of its disks stopped or failed, or what is damaged there.
#![tactic(auto)]

ghost use Rattle.std.specs.Prelude.{◌≡◌};
ghost use Rattle.node_faults.specs.Faults.{fault_at};
ghost use Rattle.node_faults.specs.declared.NodeFault.TheVariants.{NoMemory};

use rdf_disk::Disk;
use rdf_gatelog::LogFault;
use std::alloc::{AllocError, AllocFailed};
use std::fmt;

/// A fault of a node. A node's disks are numbered: 0 has the audit trail or the image trails, and 1 + v the volume v.
#[derive(Clone, Copy, Debug, PartialEq, Eq)]
pub enum NodeFault {
    /// The disk stopped.
    Stopped { disk: u8 },
    /// The disk failed.
    Failed { disk: u8 },
    /// There was no memory.
    NoMemory,
    /// What stands there on the disk has no meaning.
    Damaged { disk: u8, file: u32, at: u64 },
}

impl fmt::Display for NodeFault {
    ghost use Rattle.std.specs.Prelude.{Some};
    ghost use Rattle.node_faults.specs.Saying.{node_fault_text};

    ghost output = { λ fault. Some (node_fault_text fault) };

    fn fmt<W: fmt::Write>(&self, f: &mut fmt::Formatter<W>) -> fmt::Result {
        match *self {
            NodeFault::Stopped { disk } => write!(f, "stopped disk {disk}"),
            NodeFault::Failed { disk } => write!(f, "device fault at disk {disk}"),
            NodeFault::NoMemory => f.write_str("no memory"),
            NodeFault::Damaged { disk, file, at } => write!(
                f,
                "damaged disk {disk} file {file} at {at}"
            ),
        }
    }
}

impl From<AllocError> for NodeFault {
    ghost from_gives = { λ _ e. e ≡ NoMemory };

    fn from(_: AllocError) -> Self {
        NodeFault::NoMemory
    }
}

impl<T: Drop> From<AllocFailed<T>> for NodeFault {
    ghost from_gives = { λ _ e. e ≡ NoMemory };

    fn from(_: AllocFailed<T>) -> Self {
        NodeFault::NoMemory
    }
}

/// The fault of one of a node's disks, as the node's.
pub fn at_disk(disk: u8, fault: LogFault) -> NodeFault
    ensures { result ≡ fault_at disk fault }
{
    match fault {
        LogFault::Stopped => NodeFault::Stopped { disk },
        LogFault::Failed => NodeFault::Failed { disk },
        LogFault::NoMemory => NodeFault::NoMemory,
        LogFault::Damaged { file, at } => NodeFault::Damaged { disk, file, at },
    }
}

/// The disks of a node that was not opened, in their order, and why.
#[derive(Drop)]
pub struct Shut<D: Disk> {
    pub disks: Vec<D>,
    pub fault: NodeFault,
}
