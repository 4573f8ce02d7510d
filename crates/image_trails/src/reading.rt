//! What the blocks of a trail's file say.
ghost use Rattle.std.specs.Prelude.{◌≡◌, ◌<◌, ◌+◌, ◌^◌, ℕ, [], ◌∷◌, true, false, Err, length, map, IfOk, IfSome, IfNone};
ghost use Rattle.std.specs.List.{list_all};
ghost use Rattle.rdf_types.specs.declared.records.Phase.{Phase as AnyPhase};
ghost use Rattle.rdf_disk.specs.Counts.Ending.{Fine};
ghost use Rattle.rdf_gatelog.specs.Log.{open_blocks};
ghost use Rattle.rdf_gatelog.specs.LogCauses.{ending};
ghost use Rattle.rdf_codec.specs.ImageBlocks.{IsImageBlock};
ghost use Rattle.rdf_codec.specs.Ships.{IsShip};
ghost use Rattle.image_disks.specs.Blocks.{Start, Ship as ShipBlock, keeps, IsPhaseAt, AreInPlace};
ghost use Rattle.image_disks.specs.Flaws.{IsFirstMisplaced};
ghost use Rattle.image_disks.specs.Spelled.{block_of};
ghost use Rattle.image_trails.specs.Reading.{block_found, IsReadOf, Follows};
ghost use Rattle.image_trails.specs.Memory.{plan_of};

use crate::parts::is_kept_on;
use crate::said::Said;
use rdf_codec::fault::CodecFault;
use rdf_codec::image_blocks::{ImageBlock, read_image_block};
use rdf_codec::ships::Ship;
use rdf_gatelog::LogFault;
use rdf_types::layout::Layout;
use rdf_types::records::{Phase, Pos, Stamped};
use std::alloc::{AllocError, Global};

/// The block that a payload spells, where it spells one.
fn block_in(alloc: Global, payload: &[u8]) -> Result<Option<ImageBlock>, AllocError>
    ensures block { IfOk result (λ found. block_of payload.now ≡ block_found found) }
    ensures limits { IfOk result (λ found. IfSome found IsImageBlock) }
{
    match read_image_block(alloc, payload) {
        Ok(block) => Ok(Some(block)),
        Err(fault) => match fault {
            CodecFault::NoMemory => Err(AllocError),
            _ => Ok(None),
        },
    }
}

/// The start and the phase of a Start, where the payload spells one.
pub(crate) fn start_in(alloc: Global, payload: &[u8]) -> Result<Option<(Pos, Phase)>, AllocError>
    ensures some { IfOk result (λ found. IfSome found (λ start. block_of payload.now ≡ Start start.0 start.1)) }
    ensures none { IfOk result (λ found. IfNone found ((start : ℕ) (phase : AnyPhase) → block_of payload.now ≡ Start start phase → ⊥)) }
{
    match block_in(alloc, payload)? {
        Some(ImageBlock::Start { start, phase }) => Ok(Some((start, phase))),
        _ => Ok(None),
    }
}

/// Whether a phase ends no later than that.
pub(crate) fn is_phase_at(at: Pos, phase: Phase) -> bool
    ensures yes { result ≡ true → IsPhaseAt at phase }
    ensures no { result ≡ false → IsPhaseAt at phase → ⊥ }
{
    match phase {
        Phase::Running => true,
        Phase::Taking => true,
        Phase::Taken { upto } => upto <= at,
    }
}

/// Whether a trail keeps each of these entries.
fn are_kept(layout: &Layout, trail: u8, part: &[Stamped]) -> bool
    ensures { result ≡ list_all (λ s. keeps (plan_of layout.now) trail s.rec) part.now }
{
    part.iter()
        .all(|entry| is_kept_on(layout, trail, &entry.rec))
}

/// What a trail's file says with one Ship more. None where that isn't in its place.
fn with_ship(
    layout: &Layout,
    trail: u8,
    mut said: Said,
    ship: Ship,
) -> Result<Option<Said>, AllocError>
    requires { IsShip ship }
    ensures some { IfOk result (λ found. IfSome found (Follows (plan_of layout.now) trail said (ShipBlock ship.from ship.to ship.part))) }
    ensures none { IfOk result (λ found. IfNone found (AreInPlace (plan_of layout.now) trail said.end (ShipBlock ship.from ship.to ship.part ∷ []) → ⊥)) }
{
    if ship.from != said.end {
        return Ok(None);
    }
    if !are_kept(layout, trail, ship.part.as_slice()) {
        return Ok(None);
    }
    let mut part = ship.part.into_vec();
    said.part.append(&mut part)?;
    Ok(Some(Said {
        end: ship.to,
        phase: said.phase,
        part: said.part,
    }))
}

/// What a trail's file says with one block more. None where that isn't in its place.
fn with_block(
    alloc: Global,
    layout: &Layout,
    trail: u8,
    said: Said,
    payload: &[u8],
) -> Result<Option<Said>, AllocError>
    ensures some { IfOk result (λ found. IfSome found (Follows (plan_of layout.now) trail said (block_of payload.now))) }
    ensures none { IfOk result (λ found. IfNone found (AreInPlace (plan_of layout.now) trail said.end (block_of payload.now ∷ []) → ⊥)) }
{
    match block_in(alloc, payload)? {
        Some(ImageBlock::Ship { ship }) => with_ship(layout, trail, said, ship),
        Some(ImageBlock::Mark { phase }) => {
            if trail != 0 || !is_phase_at(said.end, phase) {
                return Ok(None);
            }
            Ok(Some(Said {
                end: said.end,
                phase,
                part: said.part,
            }))
        }
        _ => Ok(None),
    }
}

/// What the blocks of a trail's file say, from its start on. The first one stands at that place of the file.
pub(crate) fn read_blocks(
    alloc: Global,
    layout: &Layout,
    trail: u8,
    file: u32,
    place: u64,
    said: Said,
    payloads: &[Vec<u8>],
) -> Result<Said, LogFault>
    requires empty { said.part.items ≡ [] }
    requires small { place + length (open_blocks (map (λ p. p.items) payloads.now)) < 2 ^ 64 }
    ensures ok { IfOk result (IsReadOf (plan_of layout.now) trail said.end said.phase (map block_of (map (λ p. p.items) payloads.now))) }
    ensures damaged { (f at : ℕ) → result ≡ Err (LogFault.Damaged f at) → (f ≡ file)
        × IsFirstMisplaced block_of (plan_of layout.now) trail said.end place (map (λ p. p.items) payloads.now) at }
    ensures fine { ending result ≡ Fine }
{
    let mut so_far = said;
    let mut at = place;
    for payload in payloads {
        let Some(further) = with_block(alloc, layout, trail, so_far, payload)? else {
            return Err(LogFault::Damaged { file, at });
        };
        so_far = further;
        at += 5 + payload.len() as u64;
    }
    Ok(so_far)
}
