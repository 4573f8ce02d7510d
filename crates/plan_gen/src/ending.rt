//! The last part of generated plans: the loss of the primary, and the takeovers.
ghost use Rattle.std.specs.Prelude.{◌≡◌, ◌∷◌, ◌++◌, [], OnOk};
ghost use Rattle.rdf_types.specs.declared.records.Node.TheVariants.{B, C};
ghost use Rattle.plan_lang.specs.declared.lines.Line.TheVariants as line;
ghost use Rattle.plan_gen.specs.Generated.{lists, last_part};

use crate::transactions::put_own_row;
use plan_lang::lines::{Line, Lines};
use rdf_types::records::{Node, VolNo};
use std::alloc::{AllocError, Global};

/// Adds the last part: a transaction that stays open, the message of this number to `b`, the loss of the primary,
/// and what both backups make of it.
pub fn put_last_part(
    alloc: Global,
    txn: u32,
    message: u32,
    lines: &mut Lines,
) -> Result<(), AllocError>
    ensures { OnOk result (lines.new ≡ lines.old ++ last_part txn message) }
{
    put_own_row(alloc, txn, 0, lines)?;
    put_last_message(message, lines)?;
    put_takeovers(lines)?;
    put_copies(lines)?;
    put_lists(Node::B, lines)?;
    put_lists(Node::C, lines)
}

// What the primary sends to `b` alone.
fn put_last_message(message: u32, lines: &mut Lines) -> Result<(), AllocError>
    ensures { OnOk result (lines.new ≡ lines.old ++ line.Ack B ∷ line.Rewind B ∷ line.Send B 64 ∷ line.Deliver B message ∷ []) }
{
    let node = Node::B;
    lines.push(Line::Ack { node })?;
    lines.push(Line::Rewind { node })?;
    lines.push(Line::Send { node, most: 64 })?;
    lines.push(Line::Deliver { node, k: message })
}

// The primary is lost, and each backup takes over by what it received.
fn put_takeovers(lines: &mut Lines) -> Result<(), AllocError>
    ensures { OnOk result (lines.new ≡ lines.old ++ line.Lose ∷ line.Takeover B ∷ line.Takeover C ∷ []) }
{
    lines.push(Line::Lose)?;
    lines.push(Line::Takeover { node: Node::B })?;
    lines.push(Line::Takeover { node: Node::C })
}

// Each gets from the other what it lacks, and takes over again.
fn put_copies(lines: &mut Lines) -> Result<(), AllocError>
    ensures { OnOk result (lines.new ≡ lines.old ++ line.CopyAudit C B ∷ line.CopyAudit B C ∷ line.Takeover C ∷ line.Takeover B ∷ []) }
{
    let (b, c) = (Node::B, Node::C);
    lines.push(Line::CopyAudit { node: c, from: b })?;
    lines.push(Line::CopyAudit { node: b, from: c })?;
    lines.push(Line::Takeover { node: c })?;
    lines.push(Line::Takeover { node: b })
}

// The lists of a backup's eight volumes.
fn put_lists(node: Node, lines: &mut Lines) -> Result<(), AllocError>
    ensures { OnOk result (lines.new ≡ lines.old ++ lists node 8 0) }
{
    for vol in 0..8u8 {
        let vol = VolNo(vol);
        lines.push(Line::List { node, vol })?;
    }
    Ok(())
}
