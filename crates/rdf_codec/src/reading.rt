//! Reading records.
ghost use Rattle.std.specs.Prelude.{◌≡◌, ◌≤◌, ◌<◌, ◌+◌, ◌^◌, ◌++◌, ℕ, List, length, take, IfOk, IfErr, MatchResult};
ghost use Rattle.rdf_types.specs.declared.records.Record.{Record};
ghost use Rattle.rdf_codec.specs.declared.fault.CodecFault.TheVariants.{NoMemory};
ghost use Rattle.rdf_codec.specs.Spelling.{record_spelling, IsRecord};
ghost use Rattle.rdf_codec.specs.Reading.{left_of, Gives, IsAnswer, IsPlacedIn, front_record, image_at, of_kind, record_at};
ghost use Rattle.rdf_codec.specs.Shown.{record_of, HasVolume};

use crate::fault::CodecFault;
use crate::input::Input;
use crate::record_fields::RecordFields;
use rdf_types::records::Record;
use std::alloc::Global;

/// The record whose spelling the bytes begin with, and its length. Anything may follow it. A record takes at most 460
/// bytes, so the place of a fault is a `u32` however long the input is.
pub fn read_record(alloc: Global, bytes: &[u8]) -> Result<(Record, usize), CodecFault>
    // What is read is spelled so.
    ensures found { IfOk result (λ x. take x.1 bytes.now ≡ record_spelling x.0) }
    ensures size { IfOk result (λ x. x.1 ≡ length (record_spelling x.0)) }
    ensures within { IfOk result (λ x. x.1 ≤ length bytes.now) }
    ensures limits { IfOk result (λ x. IsRecord x.0) }
    // What is spelled so is read, whatever follows, unless memory runs out.
    ensures only { (rec : Record) (more : List ℕ) → IsRecord rec → bytes.now ≡ record_spelling rec ++ more →
        MatchResult result (λ x. x ≡ (rec, length (record_spelling rec))) (λ e. e ≡ NoMemory) }
    // The first fault; want of memory comes only in place of a record.
    ensures exact { IsAnswer (front_record bytes.now) result }
    ensures place { IfErr result (IsPlacedIn bytes.now) }
{
    front(alloc, bytes)
}

fn front(alloc: Global, bytes: &[u8]) -> Result<(Record, usize), CodecFault>
    ensures { IsAnswer (front_record bytes.now) result }
{
    let (fields, rest) = fields_at(Input { at: 0, bytes })?;
    let found = fields.record(alloc)?;
    Ok((found, rest.at as usize))
}

/// The fields of the record at the front.
#[tactic(auto, unfolding(crate::specs::Reading::record_at))]
pub fn fields_at(input: Input<'_>) -> Result<(RecordFields<'_>, Input<'_>), CodecFault>
    requires { input.at < 2 ^ 30 }
    ensures value { Gives (λ x. (record_of x.0, left_of x.1)) result (record_at (left_of input.entry)) }
    ensures volume { IfOk result (λ x. HasVolume x.0) }
    ensures near { IfOk result (λ x. x.1.at ≤ input.entry.at + 460) }
{
    let (kind, rest) = input.byte()?;
    fields_of_kind(input.at, kind, rest)
}

// What stands behind the kind of a record, whose byte is at a place.
#[tactic(auto, unfolding(crate::specs::Reading::of_kind))]
fn fields_of_kind(
    at: u32,
    kind: u8,
    input: Input<'_>,
) -> Result<(RecordFields<'_>, Input<'_>), CodecFault>
    requires { input.at ≤ 2 ^ 30 }
    ensures value { Gives (λ x. (record_of x.0, left_of x.1)) result (of_kind at kind (left_of input.entry)) }
    ensures volume { IfOk result (λ x. HasVolume x.0) }
    ensures near { IfOk result (λ x. x.1.at ≤ input.entry.at + 459) }
{
    match kind {
        1 => image_fields(input),
        2 => {
            let (txn, rest) = input.u32()?;
            Ok((RecordFields::Commit { txn }, rest))
        }
        3 => {
            let (txn, rest) = input.u32()?;
            Ok((RecordFields::Abort { txn }, rest))
        }
        _ => Err(CodecFault::BadKind { at }),
    }
}

#[tactic(auto, unfolding(crate::specs::Reading::image_at))]
fn image_fields(input: Input<'_>) -> Result<(RecordFields<'_>, Input<'_>), CodecFault>
    requires { input.at ≤ 2 ^ 30 }
    ensures value { Gives (λ x. (record_of x.0, left_of x.1)) result (image_at (left_of input.entry)) }
    ensures volume { IfOk result (λ x. HasVolume x.0) }
    ensures near { IfOk result (λ x. x.1.at ≤ input.entry.at + 459) }
{
    let (txn, rest) = input.u32()?;
    let (vol, rest) = rest.volume()?;
    let (file, rest) = rest.file_name()?;
    let (key, rest) = rest.key()?;
    let (before, rest) = rest.optional()?;
    let (after, rest) = rest.optional()?;
    let fields = RecordFields::Image {
        txn,
        vol,
        file,
        key,
        before,
        after,
    };
    Ok((fields, rest))
}
