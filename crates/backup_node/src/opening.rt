//! The lines of an open session on the node that lent its backup to it.
//!
//! Their contracts speak of each node whose backup the session has, as it was before.
ghost use Rattle.std.specs.Prelude.{◌≡◌, ℕ, None, IfSome};
ghost use Rattle.std.specs.Option.{option_copied};
ghost use Rattle.plan_lang.specs.declared.lines.Line.TheVariants as lines;
ghost use Rattle.rdf_codec.specs.declared.ships.Ship.{Ship as AnyShip};
ghost use Rattle.rdf_backup.specs.Sessions.{MayGoOn, open_of, trails_name, txns_name, places_of};
ghost use Rattle.rdf_wire.specs.Shipping.{IsSent};
ghost use Rattle.backup_node.specs.declared.node.BackupNode.{BackupNode as AnyNode};
ghost use Rattle.backup_node.specs.Nodes.{MayServe};
ghost use Rattle.backup_node.specs.Open.{in_open, ByMessage, Runs, StaysOpen, MeetsTrails, MeetsPurge, MeetsVolume};

use node_faults::NodeFault;
use rdf_backup::Session;
use rdf_core::replies::{NoWhy, Reply};
use rdf_disk::Disk;
use rdf_types::records::RecKey;
use std::sync::Wait;

/// The line `deliver`, for the bytes of the message that it names, or for none where no message has that number.
///
/// After an `Err` the session is over: each later line answers that the node is down, and the end tells the fault.
pub fn deliver_in<R: Wait, D: Disk>(
    rt: &R,
    session: &mut Session<'_, '_, D>,
    message: Option<&[u8]>,
) -> Result<Reply, NodeFault>
    requires goes { MayGoOn D.tells D.files session.old }
    requires sent { IfSome message (λ bytes. (ship : AnyShip) × IsSent bytes.now ship) }
    ensures goes { MayGoOn D.tells D.files session.new }
    ensures same_trails { trails_name session.new ≡ trails_name session.old }
    ensures same_txns { txns_name session.new ≡ txns_name session.old }
    ensures same_places { places_of session.new ≡ places_of session.old }
    ensures stays { StaysOpen D.counts result (open_of session.old) (open_of session.new) }
    ensures meets { (open_of session.old).met ≡ None → (n : AnyNode D D.Disk) (k : ℕ) → MayServe D.tells D.files D.counts (in_open (open_of session.old) n) →
        Runs (in_open (open_of session.old) n) → MeetsTrails D.tells D.files D.counts (ByMessage (option_copied message.entry)) (lines.Deliver n.name k) result n
        (open_of session.old) (open_of session.new) }
{
    match message {
        Some(bytes) => session.deliver(rt, bytes),
        None => {
            if session.is_met() {
                return Ok(Reply::No { why: NoWhy::Down });
            }
            Ok(Reply::No {
                why: NoWhy::Message,
            })
        }
    }
}

/// The line `read`: a row as its volume shows it now, and the position that it stands at.
///
/// After an `Err` the session is over: each later line answers that the node is down, and the end tells the fault.
pub fn read_in<R: Wait, D: Disk>(
    rt: &R,
    session: &mut Session<'_, '_, D>,
    key: &RecKey,
) -> Result<Reply, NodeFault>
    requires goes { MayGoOn D.tells D.files session.old }
    ensures goes { MayGoOn D.tells D.files session.new }
    ensures same_trails { trails_name session.new ≡ trails_name session.old }
    ensures same_txns { txns_name session.new ≡ txns_name session.old }
    ensures same_places { places_of session.new ≡ places_of session.old }
    ensures stays { StaysOpen D.counts result (open_of session.old) (open_of session.new) }
    ensures meets { (open_of session.old).met ≡ None → (n : AnyNode D D.Disk) → MayServe D.tells D.files D.counts (in_open (open_of session.old) n) →
        MeetsVolume D.tells D.files D.counts key.now result n (open_of session.old) (open_of session.new) }
{
    session.read(rt, key)
}

/// The line `purge`, by the restart points that the updaters have noted. These are shown from then on.
///
/// After an `Err` the session is over: each later line answers that the node is down, and the end tells the fault.
pub fn purge_in<R: Wait, D: Disk>(
    rt: &R,
    session: &mut Session<'_, '_, D>,
) -> Result<Reply, NodeFault>
    requires goes { MayGoOn D.tells D.files session.old }
    ensures goes { MayGoOn D.tells D.files session.new }
    ensures same_trails { trails_name session.new ≡ trails_name session.old }
    ensures same_txns { txns_name session.new ≡ txns_name session.old }
    ensures same_places { places_of session.new ≡ places_of session.old }
    ensures stays { StaysOpen D.counts result (open_of session.old) (open_of session.new) }
    ensures meets { (open_of session.old).met ≡ None → (n : AnyNode D D.Disk) → MayServe D.tells D.files D.counts (in_open (open_of session.old) n) →
        MeetsPurge D.tells D.files D.counts result n (open_of session.old) (open_of session.new) }
{
    session.purge(rt)
}
