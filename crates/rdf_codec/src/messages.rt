//! The messages between a primary and a backup.
ghost use Rattle.std.specs.Prelude.{◌≡◌, ◌≤◌, ◌++◌, take, vec_len, OnOk, OnErr, IfOk, IfErr, MatchResult};
ghost use Rattle.rdf_codec.specs.declared.fault.CodecFault.TheVariants.{NoMemory};
ghost use Rattle.rdf_codec.specs.declared.messages.Message.{Message};
ghost use Rattle.rdf_codec.specs.declared.messages.Message.TheVariants as message;
ghost use Rattle.rdf_codec.specs.Messages.{message_spelling, HasMessageSpelling, IsMessage, ack_at, message_of};
ghost use Rattle.rdf_codec.specs.Reading.{left_of, IsAnswer, IsPlacedWithin};
ghost use Rattle.rdf_codec.specs.Lists.{alone};

use crate::fault::CodecFault;
use crate::input::Input;
use crate::ship_reading::last_ship;
use crate::ships::{Ship, write_ship};
use crate::text_writing::{put_byte, put_position};
use rdf_types::records::Pos;
use std::alloc::{AllocError, Global};

/// A message between nodes.
#[derive(Debug, Drop, PartialEq)]
pub enum Message {
    /// From the primary to a backup: a part of the audit trail.
    Ship { ship: Ship },
    /// From a backup to the primary: the backup has received the positions below this one.
    Ack { received: Pos },
}

/// Appends the spelling of the message. An `Err` leaves `out` as it was.
pub fn write_message(message: &Message, out: &mut Vec<u8>) -> Result<(), AllocError>
    requires { HasMessageSpelling message.now }
    ensures ok { OnOk result (out.new.items ≡ out.old.items ++ message_spelling message.now) }
    ensures err { OnErr result (out.new.items ≡ out.old.items) }
    ensures limits { OnOk result (IsMessage message.now) }
{
    let start = out.len();
    let written = put_message(message, out);
    if written.is_err() {
        out.truncate(start);
    }
    written
}

fn put_message(message: &Message, out: &mut Vec<u8>) -> Result<(), AllocError>
    requires { HasMessageSpelling message.now }
    ensures ok { OnOk result (out.new.items ≡ out.old.items ++ message_spelling message.now) }
    ensures kept { take (vec_len out.old) out.new.items ≡ out.old.items }
    ensures limits { OnOk result (IsMessage message.now) }
{
    match message {
        Message::Ship { ship } => {
            put_byte(49, out)?;
            write_ship(ship, out)
        }
        Message::Ack { received } => put_position(50, *received, out),
    }
}

/// The message whose spelling the bytes are. The bytes are read once; memory is asked for as they are read, and a want of
/// it is answered only where they are a message.
pub fn read_message(alloc: Global, bytes: &[u8]) -> Result<Message, CodecFault>
    // What is read is spelled so.
    ensures found { IfOk result (λ m. bytes.now ≡ message_spelling m) }
    ensures limits { IfOk result IsMessage }
    // What is spelled so is read, unless memory runs out.
    ensures only { (m : Message) → IsMessage m → bytes.now ≡ message_spelling m →
        MatchResult result (λ x. x ≡ m) (λ e. e ≡ NoMemory) }
    // The first fault; want of memory comes only in place of a message.
    ensures exact { IsAnswer (message_of bytes.now) result }
    ensures place { IfErr result (IsPlacedWithin bytes.now) }
{
    message_in(alloc, bytes)
}

#[tactic(auto, unfolding(crate::specs::Messages::message_at, crate::specs::Messages::sent_at))]
fn message_in(alloc: Global, bytes: &[u8]) -> Result<Message, CodecFault>
    ensures { IsAnswer (message_of bytes.now) result }
{
    let (kind, rest) = Input { at: 0, bytes }.byte()?;
    match kind {
        49 => {
            let ship = last_ship(alloc, rest)?;
            Ok(Message::Ship { ship })
        }
        50 => ack(rest),
        _ => Err(CodecFault::BadKind { at: 0 }),
    }
}

#[tactic(auto, unfolding(crate::specs::Messages::ack_at))]
fn ack(input: Input<'_>) -> Result<Message, CodecFault>
    requires { input.at ≤ 1 }
    ensures { IsAnswer (alone (ack_at (left_of input.entry))) result }
{
    let (received, rest) = input.u64()?;
    rest.ended()?;
    Ok(Message::Ack { received })
}
