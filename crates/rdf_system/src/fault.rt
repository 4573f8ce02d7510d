//! Why the system was not started, or a line not answered.
ghost use Rattle.std.specs.Prelude.{◌≡◌};
ghost use Rattle.rdf_backup.specs.FirstFaults.{rank};
ghost use Rattle.rdf_system.specs.Closing.{first_of_both};

use crate::racks::Racks;
use node_faults::NodeFault;
use rdf_core::replies::Reply;
use rdf_types::records::Node;
use std::fmt;

/// Why the racks can't be used, or why a first call on a disk was not done.
#[derive(Clone, Copy, Debug, PartialEq, Eq)]
pub enum StartFault {
    /// The disk has a file.
    NotBlank { node: Node, disk: u8 },
    /// The disk was off, or it stopped.
    Stopped { node: Node, disk: u8 },
    /// The disk failed.
    Failed { node: Node, disk: u8 },
    /// There was no memory.
    NoMemory,
}

impl fmt::Display for StartFault {
    ghost use Rattle.std.specs.Prelude.{Some};
    ghost use Rattle.rdf_system.specs.Saying.{start_fault_text};

    ghost output = { λ fault. Some (start_fault_text fault) };

    fn fmt<W: fmt::Write>(&self, f: &mut fmt::Formatter<W>) -> fmt::Result {
        match *self {
            StartFault::NotBlank { node, disk } => write!(f, "not blank {node} disk {disk}"),
            StartFault::Stopped { node, disk } => write!(f, "stopped {node} disk {disk}"),
            StartFault::Failed { node, disk } => write!(f, "device fault at {node} disk {disk}"),
            StartFault::NoMemory => f.write_str("no memory"),
        }
    }
}

/// The racks of a system that was not started, and why.
#[derive(Drop)]
pub struct NotStarted<D> {
    pub racks: Racks<D>,
    pub fault: StartFault,
}

/// Why a line was not answered: a fault of the node, which is down from then on.
#[derive(Clone, Copy, Debug, PartialEq, Eq)]
pub struct StepFault {
    pub node: Node,
    pub fault: NodeFault,
}

impl fmt::Display for StepFault {
    ghost use Rattle.std.specs.Prelude.{Some};
    ghost use Rattle.rdf_system.specs.Saying.{step_fault_text};

    ghost output = { λ fault. Some (step_fault_text fault) };

    fn fmt<W: fmt::Write>(&self, f: &mut fmt::Formatter<W>) -> fmt::Result {
        let node = self.node;
        let fault = self.fault;
        write!(f, "{node}: {fault}")
    }
}

/// The order in which faults are told: a disk that failed, then damage, then want of memory, then a disk that stopped.
fn rank(fault: NodeFault) -> u8
    ensures { result ≡ rank fault }
{
    match fault {
        NodeFault::Failed { disk: _ } => 0,
        NodeFault::Damaged { .. } => 1,
        NodeFault::NoMemory => 2,
        NodeFault::Stopped { disk: _ } => 3,
    }
}

/// The first of the fault of a line on the primary or on the sender's side, and of what is told at the end of the session on
/// that node. Among equals it is the line's.
pub fn first_of_both(line: StepFault, node: Node, told: &Result<Reply, NodeFault>) -> StepFault
    ensures { result ≡ first_of_both line node told.now }
{
    match told {
        Ok(_) => line,
        Err(fault) => {
            if rank(*fault) < rank(line.fault) {
                return StepFault {
                    node,
                    fault: *fault,
                };
            }
            line
        }
    }
}
