//! Shipments: parts of an audit trail on their way to a backup.
ghost use Rattle.std.specs.Prelude.{◌≡◌, ◌<◌, ◌++◌, ◌^◌, length, take, vec_len, OnOk, OnErr, IfOk, IfErr, MatchResult};
ghost use Rattle.std.specs.Int.{w16, w64, to_be_bytes};
ghost use Rattle.std.specs.List.{All, flat_map};
ghost use Rattle.rdf_codec.specs.declared.fault.CodecFault.TheVariants.{NoMemory};
ghost use Rattle.rdf_codec.specs.declared.ships.Ship.{Ship};
ghost use Rattle.rdf_codec.specs.Ships.{stamped_spelling, ship_spelling, HasShipSpelling, IsStamped, IsShip};
ghost use Rattle.rdf_codec.specs.Reading.{IsAnswer, IsPlacedWithin};
ghost use Rattle.rdf_codec.specs.ShipReading.{ship_of};

use crate::entries::Entries;
use crate::fault::CodecFault;
use crate::ship_reading::whole_ship;
use crate::text_writing::put_bytes;
use crate::writing::write_record;
use rdf_types::records::{Pos, Stamped};
use std::alloc::{AllocError, Global};

/// The part of an audit trail on the positions from `from` to below `to`: all outcomes there, and the images on protected
/// volumes, in the order of their positions.
#[derive(Debug, Drop, PartialEq)]
pub struct Ship {
    /// The first position that it covers.
    pub from: Pos,
    /// The position behind the last one that it covers, 1 to 64 behind `from`.
    pub to: Pos,
    /// Records that stand there.
    pub part: Entries<Stamped>,
}

/// Appends the spelling of the shipment. An `Err` leaves `out` as it was.
pub fn write_ship(ship: &Ship, out: &mut Vec<u8>) -> Result<(), AllocError>
    requires { HasShipSpelling ship.now }
    ensures ok { OnOk result (out.new.items ≡ out.old.items ++ ship_spelling ship.now) }
    ensures err { OnErr result (out.new.items ≡ out.old.items) }
    ensures limits { OnOk result (IsShip ship.now) }
{
    write_part(ship.from, ship.to, ship.part.as_slice(), out)
}

/// Appends the spelling of a shipment of these records. An `Err` leaves `out` as it was.
pub fn write_part(from: Pos, to: Pos, part: &[Stamped], out: &mut Vec<u8>) -> Result<(), AllocError>
    requires { HasShipSpelling (record { from = from; to = to; part = part.now }) }
    ensures ok { OnOk result (out.new.items ≡ out.old.items ++ ship_spelling (record { from = from; to = to; part = part.now })) }
    ensures err { OnErr result (out.new.items ≡ out.old.items) }
    ensures limits { OnOk result (IsShip (record { from = from; to = to; part = part.now })) }
{
    let start = out.len();
    let written = put_part(from, to, part, out);
    if written.is_err() {
        out.truncate(start);
    }
    written
}

fn put_part(from: Pos, to: Pos, part: &[Stamped], out: &mut Vec<u8>) -> Result<(), AllocError>
    requires { length part.now < 2 ^ 16 }
    ensures ok { OnOk result (out.new.items ≡ out.old.items ++ ship_spelling (record { from = from; to = to; part = part.now })) }
    ensures kept { take (vec_len out.old) out.new.items ≡ out.old.items }
    ensures limits { OnOk result (All IsStamped part.now) }
{
    put_range(from, to, part.len() as u16, out)?;
    put_each_stamped(part, out)
}

fn put_range(from: Pos, to: Pos, count: u16, out: &mut Vec<u8>) -> Result<(), AllocError>
    ensures ok { OnOk result (out.new.items ≡ out.old.items ++ (to_be_bytes w64 from ++ to_be_bytes w64 to ++ to_be_bytes w16 count)) }
    ensures kept { take (vec_len out.old) out.new.items ≡ out.old.items }
{
    put_bytes(&from.to_be_bytes(), out)?;
    put_bytes(&to.to_be_bytes(), out)?;
    put_bytes(&count.to_be_bytes(), out)
}

fn put_each_stamped(part: &[Stamped], out: &mut Vec<u8>) -> Result<(), AllocError>
    ensures ok { OnOk result (out.new.items ≡ out.old.items ++ flat_map stamped_spelling part.now) }
    ensures kept { take (vec_len out.old) out.new.items ≡ out.old.items }
    ensures limits { OnOk result (All IsStamped part.now) }
{
    for stamped in part {
        write_stamped(stamped, out)?;
    }
    Ok(())
}

fn write_stamped(stamped: &Stamped, out: &mut Vec<u8>) -> Result<(), AllocError>
    ensures ok { OnOk result (out.new.items ≡ out.old.items ++ stamped_spelling stamped.now) }
    ensures err { OnErr result (out.new.items ≡ out.old.items) }
    ensures limits { OnOk result (IsStamped stamped.now) }
{
    let start = out.len();
    let pos = stamped.pos;
    put_bytes(&pos.to_be_bytes(), out)?;
    let written = write_record(&stamped.rec, out);
    if written.is_err() {
        out.truncate(start);
    }
    written
}

/// The shipment whose spelling the bytes are. The bytes are read once; memory is asked for as they are read, and a want
/// of it is answered only where they are a shipment.
pub fn read_ship(alloc: Global, bytes: &[u8]) -> Result<Ship, CodecFault>
    // What is read is spelled so.
    ensures found { IfOk result (λ ship. bytes.now ≡ ship_spelling ship) }
    ensures limits { IfOk result IsShip }
    // What is spelled so is read, unless memory runs out.
    ensures only { (ship : Ship) → IsShip ship → bytes.now ≡ ship_spelling ship →
        MatchResult result (λ x. x ≡ ship) (λ e. e ≡ NoMemory) }
    // The first fault; want of memory comes only in place of a shipment.
    ensures exact { IsAnswer (ship_of bytes.now) result }
    ensures place { IfErr result (IsPlacedWithin bytes.now) }
{
    whole_ship(alloc, bytes)
}
