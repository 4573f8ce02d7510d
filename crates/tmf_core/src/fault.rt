//! Why a call of the node's transactions did nothing, or only a part.
use node_faults::NodeFault;
use rdf_types::records::TxnId;
use std::fmt;

/// What a call is refused by, in the order in which it is judged. A refusal changes nothing.
#[derive(Clone, Copy, Debug, PartialEq, Eq)]
pub enum TmfFault {
    /// An earlier call ended by a fault of the node.
    Down,
    /// The transaction is active, or the trail has a record of it.
    TxnUsed,
    /// The transaction is not active.
    NoTxn,
    /// There is no such volume.
    NoVolume,
    /// Another active transaction, `by`, has changed the record.
    Locked { by: TxnId },
    /// The record is there.
    Exists,
    /// The record is not there.
    Missing,
    /// A disk stopped or failed, or there was no memory. The node is down from now on.
    Node { fault: NodeFault },
}

impl fmt::Display for TmfFault {
    ghost use Rattle.std.specs.Prelude.{Some};
    ghost use Rattle.tmf_core.specs.Saying.{tmf_fault_text};

    ghost output = { λ fault. Some (tmf_fault_text fault) };

    fn fmt<W: fmt::Write>(&self, f: &mut fmt::Formatter<W>) -> fmt::Result {
        match *self {
            TmfFault::Down => f.write_str("down"),
            TmfFault::TxnUsed => f.write_str("used"),
            TmfFault::NoTxn => f.write_str("txn"),
            TmfFault::NoVolume => f.write_str("volume"),
            TmfFault::Locked { by } => {
                let by = by.0;
                write!(f, "locked {by}")
            }
            TmfFault::Exists => f.write_str("exists"),
            TmfFault::Missing => f.write_str("missing"),
            TmfFault::Node { fault } => write!(f, "{fault}"),
        }
    }
}
