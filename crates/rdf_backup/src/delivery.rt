//! The line `deliver`.
ghost use Rattle.std.specs.Prelude.{◌≡◌, ◌≤◌, ◌<◌, ℕ, length, max, Some, None, IfOk, IfErr, OnOk};
ghost use Rattle.plan_lang.specs.declared.lines.Line.TheVariants as line;
ghost use Rattle.rdf_types.specs.declared.records.Node.{Node as AnyNode};
ghost use Rattle.rdf_codec.specs.declared.ships.Ship.{Ship as AnyShip};
ghost use Rattle.rdf_codec.specs.Ships.{HasShipSpelling};
ghost use Rattle.node_faults.specs.declared.NodeFault.TheVariants.{NoMemory};
ghost use Rattle.rdf_types.specs.declared.records.Phase.TheVariants as phase;
ghost use Rattle.rdf_disk.specs.Counts.{Causes};
ghost use Rattle.node_faults.specs.Faults.{ending_for, IsSound, IsNamed};
ghost use Rattle.image_disks.specs.Values.{received};
ghost use Rattle.image_trails.specs.Trails.{trails_layout, trails_value, trails_disk, AreInUse, KeepsPhase};
ghost use Rattle.rdf_core.specs.Backup.{Around, deliver_refusal};
ghost use Rattle.rdf_backup.specs.declared.backup.Backup.{Backup as AnyBackup};
ghost use Rattle.rdf_backup.specs.States.{layout_of, value_of, state_of, Serves};
ghost use Rattle.rdf_backup.specs.Replies.{eight_behind, Brings, HasMoved, EndsTrails, not_running};
ghost use Rattle.rdf_wire.specs.Shipping.{IsSent};

use crate::backup::Backup;
use crate::noting::note_since;
use image_disks::one_value;
use image_trails::ImageTrails;
use node_faults::{NodeFault, at_disk};
use open_txns::OpenTxns;
use rdf_codec::messages::{Message, read_message};
use rdf_codec::ships::Ship;
use rdf_core::replies::{NoWhy, Reply};
use rdf_disk::Disk;
use rdf_types::records::{Phase, Pos};
use receiver::{ReceiveFault, on_ship};
use std::alloc::Global;

/// The shipment of a message.
pub(crate) fn ship_in(alloc: Global, bytes: &[u8]) -> Result<Ship, NodeFault>
    requires sent { (ship : AnyShip) × IsSent bytes.now ship }
    ensures spelled { IfOk result HasShipSpelling }
    ensures only { (ship : AnyShip) → IsSent bytes.now ship → IfOk result (λ s. s ≡ ship) }
    ensures memory { IfErr result (λ fault. fault ≡ NoMemory) }
{
    match read_message(alloc, bytes) {
        Ok(Message::Ship { ship }) => Ok(ship),
        // A message of a shipment has a reading, unless there is no memory for it.
        _ => Err(NodeFault::NoMemory),
    }
}

/// Stores what is new in a shipment that joins what was received, and notes it. It answers how far was received then.
pub(crate) fn store<D: Disk>(
    trails: &mut ImageTrails<D>,
    txns: &mut OpenTxns,
    ship: &Ship,
) -> Result<Pos, NodeFault>
    requires spelled { HasShipSpelling ship.now }
    requires joins { ship.now.from ≤ received (trails_value trails.old) }
    requires more { received (trails_value trails.old) < ship.now.to }
    requires in_use { D.tells → AreInUse D.files trails.old }
    ensures ok { D.tells → OnOk result (AreInUse D.files trails.new) }
    ensures upto { IfOk result (λ n. n ≡ ship.now.to) }
    ensures moved { D.tells → OnOk result (HasMoved ship.now.to (trails_value trails.old) (trails_value trails.new)) }
    ensures ends { D.tells → (old : AnyBackup D D.Disk) → old.trails ≡ trails.old → old.txns ≡ txns.old → (w : Around) (node : AnyNode) (k : ℕ) →
        (value_of old).phase ≡ phase.Running → Serves D.files w.trail old → Brings (layout_of old) w ship.now →
        EndsTrails D.files w (line.Deliver node k) result old trails.new txns.new }
    ensures laid { trails_layout trails.new ≡ trails_layout trails.old }
    ensures phase { KeepsPhase result trails.old trails.new }
    ensures cause { Causes (ending_for 0 result) (D.counts (trails_disk trails.old)) (D.counts (trails_disk trails.new)) }
    ensures own { IfErr result (λ why. IsNamed 1 why) }
    ensures sound { IsSound result }
{
    one_value();
    let at = trails.received();
    match on_ship(trails, ship) {
        Ok(n) => {
            note_since(txns, at, ship.part.as_slice())?;
            Ok(n)
        }
        Err(ReceiveFault::Log { fault }) => Err(at_disk(0, fault)),
        Err(ReceiveFault::Gap { received: _ }) => unreachable!(),
    }
}

/// Where the shipment of a message begins, which is told before the message is read.
pub(crate) fn start_of(bytes: &[u8]) -> Pos
    requires sent { (ship : AnyShip) × IsSent bytes.now ship }
    ensures { (ship : AnyShip) → IsSent bytes.now ship → result ≡ ship.from }
{
    eight_from(bytes)
}

/// The number in the eight bytes behind the first one.
fn eight_from(bytes: &[u8]) -> u64
    requires long { 9 ≤ length bytes.now }
    ensures { result ≡ eight_behind bytes.now }
{
    let number = [
        bytes[1], bytes[2], bytes[3], bytes[4], bytes[5], bytes[6], bytes[7], bytes[8],
    ];
    u64::from_be_bytes(number)
}

/// Why a backup of that phase does not take what is delivered: a takeover of it has begun.
pub(crate) fn bar(phase: Phase) -> Option<NoWhy>
    ensures { result ≡ not_running phase }
{
    match phase {
        Phase::Running => None,
        Phase::Taking => Some(NoWhy::Taking),
        Phase::Taken { upto: _ } => Some(NoWhy::Taken),
    }
}

/// Why a message is not taken by a backup with these image trails: a takeover has begun, or it begins behind what was received.
pub(crate) fn delivery_refusal<D: Disk>(trails: &ImageTrails<D>, bytes: &[u8]) -> Option<NoWhy>
    requires sent { (ship : AnyShip) × IsSent bytes.now ship }
    ensures judged { (old : AnyBackup D D.Disk) → old.trails ≡ trails.now → (ship : AnyShip) → IsSent bytes.now ship → (stops : ℕ) →
        deliver_refusal (state_of stops old) (Some (ship.from, ship.to)) ≡ result }
    ensures joins { result ≡ None → (ship : AnyShip) → IsSent bytes.now ship → ship.from ≤ received (trails_value trails.now) }
    ensures runs { result ≡ None → (trails_value trails.now).phase ≡ phase.Running }
{
    if let Some(why) = bar(trails.phase()) {
        return Some(why);
    }
    let received = trails.received();
    if received < start_of(bytes) {
        return Some(NoWhy::Gap { received });
    }
    None
}

impl<D: Disk> Backup<D> {
    ghost use Rattle.rdf_backup.specs.States.{MayUse};
    ghost use Rattle.rdf_backup.specs.Keeping.{KeepsLine};
    ghost use Rattle.rdf_backup.specs.Replies.{Ends};
    ghost use Rattle.rdf_backup.specs.Refusals.{IsRefusal, IsJudged, IsNumber};

    /// Why the backup does not take what is delivered: a takeover of it has begun.
    pub(crate) fn bar(&self) -> Option<NoWhy>
        ensures { result ≡ not_running (value_of self.now).phase }
    {
        bar(self.trails.phase())
    }

    /// Stores what is new in a shipment that joins what was received, and notes it.
    fn receive(&mut self, ship: &Ship) -> Result<Reply, NodeFault>
        requires spelled { HasShipSpelling ship.now }
        requires joins { ship.now.from ≤ received (value_of self.old) }
        requires running { (value_of self.old).phase ≡ phase.Running }
        requires usable { D.tells → MayUse D.files self.old }
        ensures keeps { KeepsLine D.tells D.files D.counts result self.old self.new }
        ensures ends { D.tells → (w : Around) (node : AnyNode) (k : ℕ) → Serves D.files w.trail self.old → Brings (layout_of self.old) w ship.now →
            Ends D.files w (line.Deliver node k) result self.old self.new }
        ensures taken { IfOk result (IsNumber (max (received (value_of self.old)) ship.now.to)) }
        ensures sound { IsSound result }
    {
        let at = self.trails.received();
        if ship.to <= at {
            return Ok(Reply::Number { n: at });
        }
        match store(&mut self.trails, &mut self.txns, ship) {
            Ok(n) => Ok(Reply::Number { n }),
            Err(fault) => Err(fault),
        }
    }

    /// Stores what is new in a message, durably. A message that begins behind the received position is refused, and once
    /// a takeover has begun each message is.
    pub fn deliver(&mut self, bytes: &[u8]) -> Result<Reply, NodeFault>
        requires sent { (ship : AnyShip) × IsSent bytes.now ship }
        requires usable { D.tells → MayUse D.files self.old }
        ensures keeps { KeepsLine D.tells D.files D.counts result self.old self.new }
        ensures ends { D.tells → (w : Around) (ship : AnyShip) (node : AnyNode) (k : ℕ) → IsSent bytes.now ship →
            Serves D.files w.trail self.old → Brings (layout_of self.old) w ship → Ends D.files w (line.Deliver node k) result self.old self.new }
        ensures refused { IsRefusal result → self.new ≡ self.old }
        ensures judged { (ship : AnyShip) → IsSent bytes.now ship →
            IsJudged (deliver_refusal (state_of 0 self.old) (Some (ship.from, ship.to)))
            (IsNumber (max (received (value_of self.old)) ship.to)) result self.old self.new }
        ensures sound { IsSound result }
    {
        if let Some(why) = delivery_refusal(&self.trails, bytes) {
            return Ok(Reply::No { why });
        }
        let ship = ship_in(self.trails.alloc(), bytes)?;
        self.receive(&ship)
    }
}
