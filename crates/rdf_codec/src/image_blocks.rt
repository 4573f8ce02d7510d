//! The blocks of an image trail's file.
ghost use Rattle.std.specs.Prelude.{◌≡◌, ◌≤◌, ◌++◌, take, vec_len, OnOk, OnErr, IfOk, IfErr, MatchResult};
ghost use Rattle.rdf_codec.specs.declared.fault.CodecFault.TheVariants.{NoMemory};
ghost use Rattle.rdf_codec.specs.declared.image_blocks.ImageBlock.{ImageBlock};
ghost use Rattle.rdf_codec.specs.declared.image_blocks.ImageBlock.TheVariants as block;
ghost use Rattle.rdf_codec.specs.Ships.{HasShipSpelling, phase_spelling, IsPhase};
ghost use Rattle.rdf_codec.specs.ImageBlocks.{image_spelling, HasImageSpelling, IsImageBlock};
ghost use Rattle.rdf_codec.specs.Reading.{left_of, IsAnswer, IsPlacedWithin};
ghost use Rattle.rdf_codec.specs.Lists.{alone};
ghost use Rattle.rdf_codec.specs.ImageReading.{start_at, mark_at, image_block_of};

use crate::fault::CodecFault;
use crate::input::Input;
use crate::ship_reading::{last_ship, read_phase};
use crate::ships::{Ship, write_part};
use crate::text_writing::{put_byte, put_position};
use rdf_types::records::{Phase, Pos, Stamped};
use std::alloc::{AllocError, Global};

/// A block of an image trail's file.
#[derive(Debug, Drop, PartialEq)]
pub enum ImageBlock {
    /// A generation starts at a position. A master image trail's file begins with it; the phase is the backup's as it then stands.
    Start { start: Pos, phase: Phase },
    /// What was received.
    Ship { ship: Ship },
    /// The backup's phase from here on.
    Mark { phase: Phase },
}

/// Appends the spelling of the block. An `Err` leaves `out` as it was.
pub fn write_image_block(block: &ImageBlock, out: &mut Vec<u8>) -> Result<(), AllocError>
    requires { HasImageSpelling block.now }
    ensures ok { OnOk result (out.new.items ≡ out.old.items ++ image_spelling block.now) }
    ensures err { OnErr result (out.new.items ≡ out.old.items) }
    ensures limits { OnOk result (IsImageBlock block.now) }
{
    match block {
        ImageBlock::Start { start, phase } => write_start(*start, *phase, out),
        ImageBlock::Ship { ship } => write_shipped(ship.from, ship.to, ship.part.as_slice(), out),
        ImageBlock::Mark { phase } => write_mark(*phase, out),
    }
}

/// Appends the spelling of the start of a generation. An `Err` leaves `out` as it was.
pub fn write_start(start: Pos, phase: Phase, out: &mut Vec<u8>) -> Result<(), AllocError>
    ensures ok { OnOk result (out.new.items ≡ out.old.items ++ image_spelling (block.Start start phase)) }
    ensures err { OnErr result (out.new.items ≡ out.old.items) }
    ensures limits { IsImageBlock (block.Start start phase) }
{
    known(phase);
    let before = out.len();
    let written = put_start(start, phase, out);
    if written.is_err() {
        out.truncate(before);
    }
    written
}

fn put_start(start: Pos, phase: Phase, out: &mut Vec<u8>) -> Result<(), AllocError>
    ensures ok { OnOk result (out.new.items ≡ out.old.items ++ image_spelling (block.Start start phase)) }
    ensures kept { take (vec_len out.old) out.new.items ≡ out.old.items }
{
    put_position(17, start, out)?;
    put_phase(phase, out)
}

/// Appends the spelling of a block of a shipment of these records. An `Err` leaves `out` as it was.
pub fn write_shipped(
    from: Pos,
    to: Pos,
    part: &[Stamped],
    out: &mut Vec<u8>,
) -> Result<(), AllocError>
    requires { HasShipSpelling (record { from = from; to = to; part = part.now }) }
    ensures ok { OnOk result (out.new.items ≡ out.old.items ++ image_spelling (block.Ship (record { from = from; to = to; part = part.now }))) }
    ensures err { OnErr result (out.new.items ≡ out.old.items) }
    ensures limits { OnOk result (IsImageBlock (block.Ship (record { from = from; to = to; part = part.now }))) }
{
    let start = out.len();
    put_byte(18, out)?;
    let written = write_part(from, to, part, out);
    if written.is_err() {
        out.truncate(start);
    }
    written
}

/// Appends the spelling of a mark. An `Err` leaves `out` as it was.
pub fn write_mark(phase: Phase, out: &mut Vec<u8>) -> Result<(), AllocError>
    ensures ok { OnOk result (out.new.items ≡ out.old.items ++ image_spelling (block.Mark phase)) }
    ensures err { OnErr result (out.new.items ≡ out.old.items) }
    ensures limits { IsImageBlock (block.Mark phase) }
{
    known(phase);
    let before = out.len();
    let written = put_mark(phase, out);
    if written.is_err() {
        out.truncate(before);
    }
    written
}

fn put_mark(phase: Phase, out: &mut Vec<u8>) -> Result<(), AllocError>
    ensures ok { OnOk result (out.new.items ≡ out.old.items ++ image_spelling (block.Mark phase)) }
    ensures kept { take (vec_len out.old) out.new.items ≡ out.old.items }
{
    put_byte(19, out)?;
    put_phase(phase, out)
}

fn put_phase(phase: Phase, out: &mut Vec<u8>) -> Result<(), AllocError>
    ensures ok { OnOk result (out.new.items ≡ out.old.items ++ phase_spelling phase) }
    ensures kept { take (vec_len out.old) out.new.items ≡ out.old.items }
{
    match phase {
        Phase::Running => put_byte(0, out),
        Phase::Taking => put_byte(1, out),
        Phase::Taken { upto } => put_position(2, upto, out),
    }
}

// Does nothing: a phase is within the limits of its type.
fn known(phase: Phase)
    ensures { IsPhase phase }
{
    if let Phase::Taken { upto } = phase {
        let _upto = upto;
    }
}

/// The block whose spelling the bytes are. The bytes are read once; memory is asked for as they are read, and a want of
/// it is answered only where they are a block.
pub fn read_image_block(alloc: Global, bytes: &[u8]) -> Result<ImageBlock, CodecFault>
    // What is read is spelled so.
    ensures found { IfOk result (λ b. bytes.now ≡ image_spelling b) }
    ensures limits { IfOk result IsImageBlock }
    // What is spelled so is read, unless memory runs out.
    ensures only { (b : ImageBlock) → IsImageBlock b → bytes.now ≡ image_spelling b →
        MatchResult result (λ x. x ≡ b) (λ e. e ≡ NoMemory) }
    // The first fault; want of memory comes only in place of a block.
    ensures exact { IsAnswer (image_block_of bytes.now) result }
    ensures place { IfErr result (IsPlacedWithin bytes.now) }
{
    block_in(alloc, bytes)
}

#[tactic(auto, unfolding(crate::specs::ImageReading::image_block_at, crate::specs::ImageReading::shipped_at))]
fn block_in(alloc: Global, bytes: &[u8]) -> Result<ImageBlock, CodecFault>
    ensures { IsAnswer (image_block_of bytes.now) result }
{
    let (kind, rest) = Input { at: 0, bytes }.byte()?;
    match kind {
        17 => start_block(rest),
        18 => {
            let ship = last_ship(alloc, rest)?;
            Ok(ImageBlock::Ship { ship })
        }
        19 => mark_block(rest),
        _ => Err(CodecFault::BadKind { at: 0 }),
    }
}

#[tactic(auto, unfolding(crate::specs::ImageReading::start_at))]
fn start_block(input: Input<'_>) -> Result<ImageBlock, CodecFault>
    requires { input.at ≤ 1 }
    ensures { IsAnswer (alone (start_at (left_of input.entry))) result }
{
    let (start, rest) = input.u64()?;
    let (phase, rest) = read_phase(rest)?;
    rest.ended()?;
    Ok(ImageBlock::Start { start, phase })
}

#[tactic(auto, unfolding(crate::specs::ImageReading::mark_at))]
fn mark_block(input: Input<'_>) -> Result<ImageBlock, CodecFault>
    requires { input.at ≤ 1 }
    ensures { IsAnswer (alone (mark_at (left_of input.entry))) result }
{
    let (phase, rest) = read_phase(input)?;
    rest.ended()?;
    Ok(ImageBlock::Mark { phase })
}
