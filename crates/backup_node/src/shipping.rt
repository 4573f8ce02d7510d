//! The line `deliver`.
ghost use Rattle.std.specs.Prelude.{◌≡◌, ℕ, Option, IfSome, unwrap_or};
ghost use Rattle.std.specs.Option.{option_copied};
ghost use Rattle.plan_lang.specs.declared.lines.Line.TheVariants as lines;
ghost use Rattle.rdf_codec.specs.declared.ships.Ship.{Ship};
ghost use Rattle.rdf_core.specs.declared.replies.NoWhy.TheVariants.{Message};
ghost use Rattle.rdf_backup.specs.Replies.{not_running};
ghost use Rattle.rdf_wire.specs.Shipping.{IsSent};

use crate::node::BackupNode;
use node_faults::NodeFault;
use rdf_core::replies::{NoWhy, Reply};
use rdf_disk::Disk;
use rdf_types::records::Phase;

/// Why a backup of that phase does not take what is delivered, where no message has the number.
fn no_message(phase: Phase) -> NoWhy
    ensures { result ≡ unwrap_or (not_running phase) Message }
{
    match phase {
        Phase::Running => NoWhy::Message,
        Phase::Taking => NoWhy::Taking,
        Phase::Taken { upto: _ } => NoWhy::Taken,
    }
}

impl<D: Disk + Drop> BackupNode<D> {
    ghost use Rattle.backup_node.specs.Nodes.{MayServe};
    ghost use Rattle.backup_node.specs.Lines.{Performs, Names, Does};
    ghost use Rattle.backup_node.specs.Kinds.{IsOfRange, IsDelivered};

    /// The line `deliver`, for the bytes of the message that it names, or for none where no message has that number.
    pub fn deliver(&mut self, message: Option<&[u8]>) -> Result<Reply, NodeFault>
        requires serves { MayServe D.tells D.files D.counts self.old }
        requires sent { IfSome message (λ bytes. (ship : Ship) × IsSent bytes.now ship) }
        ensures does { (k : ℕ) →
            Does D.tells D.files D.counts (Performs D.files (Names (option_copied message.entry))) (lines.Deliver self.old.name k) result self.old self.new }
        ensures judged { (k : ℕ) (range : Option (ℕ × ℕ)) → IsOfRange (option_copied message.entry) range → IsDelivered k range result self.old }
    {
        match self.backup.take() {
            None => Ok(Reply::No { why: NoWhy::Down }),
            Some(mut backup) => match message {
                Some(bytes) => {
                    let outcome = backup.deliver(bytes);
                    self.settled(backup, outcome)
                }
                None => {
                    let why = no_message(backup.phase());
                    self.backup = Some(backup);
                    Ok(Reply::No { why })
                }
            },
        }
    }
}
