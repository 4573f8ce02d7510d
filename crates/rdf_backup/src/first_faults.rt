//! Which of several faults is answered.
ghost use Rattle.std.specs.Prelude.{◌≡◌};
ghost use Rattle.rdf_backup.specs.FirstFaults.{rank, earlier, answer_at};

use node_faults::{NodeFault, at_disk};
use rdf_volume::VolFault;

/// The order of faults: a disk that failed, damage, want of memory, a disk that stopped.
fn rank(fault: NodeFault) -> u8
    ensures { result ≡ rank fault }
{
    match fault {
        NodeFault::Failed { disk: _ } => 0,
        NodeFault::Damaged {
            disk: _,
            file: _,
            at: _,
        } => 1,
        NodeFault::NoMemory => 2,
        NodeFault::Stopped { disk: _ } => 3,
    }
}

/// The earlier of two answers in that order; among equals the first one.
pub(crate) fn earlier(
    first: Result<(), NodeFault>,
    next: Result<(), NodeFault>,
) -> Result<(), NodeFault>
    ensures { result ≡ earlier first next }
{
    match (first, next) {
        (Ok(()), next) => next,
        (first, Ok(())) => first,
        (Err(fault), Err(other)) => {
            if rank(other) < rank(fault) {
                Err(other)
            } else {
                Err(fault)
            }
        }
    }
}

/// The answer of a volume, as its node's.
pub(crate) fn answer_at(disk: u8, answer: Result<(), VolFault>) -> Result<(), NodeFault>
    ensures { result ≡ answer_at disk answer }
{
    match answer {
        Ok(()) => Ok(()),
        Err(fault) => Err(at_disk(disk, fault)),
    }
}
