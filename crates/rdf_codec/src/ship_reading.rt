//! Reading shipments and phases.
ghost use Rattle.std.specs.Prelude.{◌≡◌, ◌≤◌, ◌<◌, ◌+◌, ◌^◌, ◌&&◌, nat_lt, nat_le, IfOk};
ghost use Rattle.rdf_codec.specs.Reading.{left_of, Gives, IsAnswer};
ghost use Rattle.rdf_codec.specs.Lists.{entries_at, alone};
ghost use Rattle.rdf_codec.specs.Found.{Finds};
ghost use Rattle.rdf_codec.specs.Shown.{HasVolume, stamped_of};
ghost use Rattle.rdf_codec.specs.ShipReading.{next_position, position_at, stamped_at, to_at, ship_at, ship_of, phase_at};

use crate::entries::Entries;
use crate::fault::CodecFault;
use crate::input::Input;
use crate::lists::with_entry;
use crate::reading::fields_at;
use crate::record_fields::RecordFields;
use crate::ships::Ship;
use rdf_types::records::{Phase, Pos, Stamped};
use std::alloc::{AllocError, Global};

/// How many positions a shipment covers at most.
const MOST_POSITIONS: u64 = 64;

/// A stamped record whose texts still stand in the input.
#[derive(Drop)]
pub struct StampedFields<'a> {
    pub pos: Pos,
    pub rec: RecordFields<'a>,
}

impl<'a> StampedFields<'a> {
    /// The stamped record at the front, if its position is from `low` on and below `high`.
    #[tactic(auto, unfolding(crate::specs::ShipReading::stamped_at, crate::specs::ShipReading::position_at))]
    pub fn read(
        low: Pos,
        high: Pos,
        input: Input<'a>,
    ) -> Result<(StampedFields<'a>, Input<'a>), CodecFault>
        requires { input.at < 2 ^ 29 }
        ensures value { Gives (λ x. (stamped_of x.0, left_of x.1)) result (stamped_at high low (left_of input.entry)) }
        ensures below { IfOk result (λ x. x.0.pos < high) }
        ensures volume { IfOk result (λ x. HasVolume x.0.rec) }
        ensures near { IfOk result (λ x. x.1.at ≤ input.entry.at + 468) }
    {
        let (pos, rest) = input.u64()?;
        if pos < low || pos >= high {
            return Err(CodecFault::BadNumber { at: input.at });
        }
        let (rec, rest) = fields_at(rest)?;
        Ok((StampedFields { pos, rec }, rest))
    }

    /// The record with texts of its own, at its position.
    pub fn stamped(self, alloc: Global) -> Result<Stamped, AllocError>
        requires { HasVolume self.rec }
        ensures { IfOk result (λ stamped. stamped ≡ stamped_of self.entry) }
    {
        let StampedFields { pos, rec } = self;
        let rec = rec.record(alloc)?;
        Ok(Stamped { pos, rec })
    }
}

/// The shipment whose spelling the bytes are, or the first fault.
pub fn whole_ship(alloc: Global, bytes: &[u8]) -> Result<Ship, CodecFault>
    ensures { IsAnswer (ship_of bytes.now) result }
{
    last_ship(alloc, Input { at: 0, bytes })
}

/// A shipment that takes the rest of the input.
#[tactic(auto, unfolding(crate::specs::ShipReading::ship_at))]
pub fn last_ship(alloc: Global, input: Input<'_>) -> Result<Ship, CodecFault>
    requires { input.at ≤ 1 }
    ensures { IsAnswer (alone (ship_at (left_of input.entry))) result }
{
    let (from, rest) = input.u64()?;
    let (to, rest) = range_end(from, rest)?;
    let (count, rest) = rest.count(0, 64)?;
    let (part, rest) = read_part(alloc, from, to, count, rest)?;
    rest.ended()?;
    Ok(Ship {
        from,
        to,
        part: Entries::new(part?),
    })
}

// The end of a range that starts there.
#[tactic(auto, unfolding(crate::specs::ShipReading::to_at))]
fn range_end(from: Pos, input: Input<'_>) -> Result<(Pos, Input<'_>), CodecFault>
    requires { input.at < 2 ^ 31 }
    ensures value { Gives (λ x. (x.0, left_of x.1)) result (to_at from (left_of input.entry)) }
    ensures near { IfOk result (λ x. x.1.at ≡ input.entry.at + 8) }
{
    let (to, rest) = input.u64()?;
    if !is_range(from, to) {
        return Err(CodecFault::BadNumber { at: input.at });
    }
    Ok((to, rest))
}

fn is_range(from: Pos, to: Pos) -> bool
    ensures { result ≡ (nat_lt from to && nat_le to (from + 64)) }
{
    from < to && to - from <= MOST_POSITIONS
}

// So many stamped records, with positions that rise from `from` on and stay below `to`.
fn read_part(
    alloc: Global,
    from: Pos,
    to: Pos,
    count: u16,
    input: Input<'_>,
) -> Result<(Result<Vec<Stamped>, AllocError>, Input<'_>), CodecFault>
    requires { input.at ≤ 19 }
    ensures { Finds result (entries_at (stamped_at to) next_position count from (left_of input.entry)) }
{
    let mut part = Ok(Vec::new(alloc));
    let mut low = from;
    let mut rest = input;
    for _done in 0..count {
        let (stamped, behind) = StampedFields::read(low, to, rest)?;
        low = stamped.pos + 1;
        part = with_entry(part, stamped.stamped(alloc));
        rest = behind;
    }
    Ok((part, rest))
}

/// A phase.
#[tactic(auto, unfolding(crate::specs::ShipReading::phase_at, crate::specs::ShipReading::taken_at))]
pub fn read_phase(input: Input<'_>) -> Result<(Phase, Input<'_>), CodecFault>
    requires { input.at < 2 ^ 30 }
    ensures { Gives (λ x. (x.0, left_of x.1)) result (phase_at (left_of input.entry)) }
{
    let (kind, rest) = input.byte()?;
    match kind {
        0 => Ok((Phase::Running, rest)),
        1 => Ok((Phase::Taking, rest)),
        2 => {
            let (upto, rest) = rest.u64()?;
            Ok((Phase::Taken { upto }, rest))
        }
        _ => Err(CodecFault::BadKind { at: input.at }),
    }
}
