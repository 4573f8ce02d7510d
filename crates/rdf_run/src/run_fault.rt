//! Why a run over a plan's lines ended before its last reply was written.
ghost use Rattle.std.specs.Prelude.{◌≡◌, ◌≢◌, ℕ};
ghost use Rattle.node_faults.specs.declared.NodeFault.TheVariants as node;
ghost use Rattle.rdf_run.specs.RunFaults.{fault_of_node, status_of_run};

use crate::status::Status;
use node_faults::NodeFault;
use rdf_system::StepFault;
use rdf_types::records::Node;

/// Why a run over lines ended: the sink failed, there was no memory, or a disk failed or is damaged.
#[derive(Clone, Copy, Debug, PartialEq, Eq)]
pub enum RunFault {
    Write {
        /// Whether something was met in the session that was open then.
        met: bool,
    },
    NoMemory,
    Failed {
        node: Node,
        disk: u8,
    },
    Damaged {
        node: Node,
        disk: u8,
        file: u32,
        at: u64,
    },
}

/// A fault that broke a line off. A disk that stopped is none: that is told by a reply.
pub fn of_node(fault: StepFault) -> RunFault
    requires { (disk : ℕ) → fault.fault ≢ node.Stopped disk }
    ensures { result ≡ fault_of_node fault }
{
    let node = fault.node;
    match fault.fault {
        NodeFault::Stopped { .. } => unreachable!(),
        NodeFault::Failed { disk } => RunFault::Failed { node, disk },
        NodeFault::NoMemory => RunFault::NoMemory,
        NodeFault::Damaged { disk, file, at } => RunFault::Damaged {
            node,
            disk,
            file,
            at,
        },
    }
}

/// The status of a run that ended so.
pub fn ended_by(fault: RunFault) -> Status
    ensures { result ≡ status_of_run fault }
{
    match fault {
        RunFault::Write { met: _ } => Status::WriteFault,
        RunFault::NoMemory => Status::NoMemory,
        RunFault::Failed { node, disk } => Status::DeviceFault { node, disk },
        RunFault::Damaged {
            node,
            disk,
            file,
            at,
        } => Status::Damaged {
            node,
            disk,
            file,
            at,
        },
    }
}
