//! The words in which a line is refused, and the number that one is answered by.
ghost use Rattle.std.specs.Prelude.{◌≡◌};
ghost use Rattle.rdf_core.specs.declared.replies.Reply.TheVariants.{Number};
ghost use Rattle.rdf_primary.specs.Replies.{refused, told};

use node_faults::NodeFault;
use rdf_core::replies::{NoWhy, Reply};
use rdf_types::records::Pos;
use tmf_core::TmfFault;

/// The reply to a line whose call was not done. A fault of the node has none.
pub fn refused(fault: TmfFault) -> Result<Reply, NodeFault>
    ensures { result ≡ refused fault }
{
    let why = match fault {
        TmfFault::Down => NoWhy::Down,
        TmfFault::TxnUsed => NoWhy::Used,
        TmfFault::NoTxn => NoWhy::Txn,
        TmfFault::NoVolume => NoWhy::Volume,
        TmfFault::Locked { by } => NoWhy::Locked { by },
        TmfFault::Exists => NoWhy::Exists,
        TmfFault::Missing => NoWhy::Missing,
        TmfFault::Node { fault } => return Err(fault),
    };
    Ok(Reply::No { why })
}

/// The reply to a line whose call answers the trail's length.
pub fn numbered(found: Result<Pos, TmfFault>) -> Result<Reply, NodeFault>
    ensures { result ≡ told (λ n. Number n) found }
{
    match found {
        Ok(n) => Ok(Reply::Number { n }),
        Err(fault) => refused(fault),
    }
}
