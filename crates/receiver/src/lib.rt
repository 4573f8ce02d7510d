//! Storing what arrives at a backup.
#![tactic(auto)]

ghost use Rattle.rdf_codec.specs.Ships.{HasShipSpelling};
ghost use Rattle.image_trails.specs.Memory.{shipment};
ghost use Rattle.image_trails.specs.Trails.{AreInUse};
ghost use Rattle.receiver.specs.Receiving.{Takes};

use image_trails::ImageTrails;
use rdf_codec::ships::Ship;
use rdf_disk::Disk;
use rdf_gatelog::LogFault;
use rdf_types::records::Pos;
use std::fmt;

/// Why a shipment wasn't stored.
#[derive(Clone, Copy, Debug, PartialEq, Eq)]
pub enum ReceiveFault {
    /// It begins behind the received position, which is this one. Nothing has changed.
    Gap { received: Pos },
    /// A fault of the trails' disk, or want of memory.
    Log { fault: LogFault },
}

impl fmt::Display for ReceiveFault {
    ghost use Rattle.std.specs.Prelude.{Some};
    ghost use Rattle.receiver.specs.Saying.{receive_fault_text};

    ghost output = { λ fault. Some (receive_fault_text fault) };

    fn fmt<W: fmt::Write>(&self, f: &mut fmt::Formatter<W>) -> fmt::Result {
        match *self {
            ReceiveFault::Gap { received } => write!(f, "gap {received}"),
            ReceiveFault::Log { fault } => write!(f, "{fault}"),
        }
    }
}

/// Stores what is new in a shipment, durably, and answers the received position. After a `Log` some first ones of the store's
/// parts are durable, and the trails may only be closed.
pub fn on_ship<D: Disk>(trails: &mut ImageTrails<D>, ship: &Ship) -> Result<Pos, ReceiveFault>
    requires spelled { HasShipSpelling ship.now }
    requires in_use { D.tells → AreInUse D.files trails.old }
    ensures { Takes D.tells D.files D.counts (shipment ship.now) trails.old result trails.new }
{
    let at = trails.received();
    if at < ship.from {
        return Err(ReceiveFault::Gap { received: at });
    }
    if ship.to <= at {
        return Ok(at);
    }
    match trails.store(ship) {
        Ok(()) => Ok(ship.to),
        Err(fault) => Err(ReceiveFault::Log { fault }),
    }
}
