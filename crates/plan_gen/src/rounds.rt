//! The rounds of generated plans: what is sent to both backups, and their sessions.
ghost use Rattle.std.specs.Prelude.{◌≡◌, ◌≤◌, ◌++◌, OnOk};
ghost use Rattle.plan_gen.specs.Drawing.{later};
ghost use Rattle.plan_gen.specs.Generated.{arrivals, message, session, sessions, round, round_behind, behind_round};

use crate::draws::Draws;
use crate::rows::own_row;
use plan_lang::lines::{Line, Lines};
use rdf_types::records::Node;
use std::alloc::{AllocError, Global};

/// Adds the round that follows a transaction, where it is the fourth one again.
pub fn put_round_behind(
    alloc: Global,
    txn: u32,
    draws: &mut Draws,
    lines: &mut Lines,
) -> Result<(), AllocError>
    requires { 1 ≤ txn }
    ensures lines { OnOk result (lines.new ≡ lines.old ++ round_behind txn draws.old) }
    ensures draws { OnOk result (draws.new ≡ behind_round txn draws.old) }
{
    if txn % 4 == 0 {
        put_round(alloc, txn / 4 - 1, draws, lines)
    } else {
        Ok(())
    }
}

fn put_round(
    alloc: Global,
    number: u32,
    draws: &mut Draws,
    lines: &mut Lines,
) -> Result<(), AllocError>
    ensures lines { OnOk result (lines.new ≡ lines.old ++ round number draws.old) }
    ensures draws { OnOk result (draws.new ≡ later 2 draws.old) }
{
    put_message(Node::B, number, draws, lines)?;
    put_message(Node::C, number, draws, lines)?;
    put_sessions(alloc, number, lines)
}

// The message of this number is sent to a backup, once the extractor is back at what the backup acknowledges.
fn put_message(
    node: Node,
    number: u32,
    draws: &mut Draws,
    lines: &mut Lines,
) -> Result<(), AllocError>
    ensures lines { OnOk result (lines.new ≡ lines.old ++ message node number draws.old) }
    ensures draws { OnOk result (draws.new ≡ later 1 draws.old) }
{
    lines.push(Line::Ack { node })?;
    lines.push(Line::Rewind { node })?;
    lines.push(Line::Send { node, most: 64 })?;
    let chance = draws.draw(4);
    put_arrivals(node, number, chance, lines)
}

// One message of four is lost, and one arrives twice.
fn put_arrivals(node: Node, number: u32, chance: u32, lines: &mut Lines) -> Result<(), AllocError>
    ensures { OnOk result (lines.new ≡ lines.old ++ arrivals node number chance) }
{
    if chance == 0 {
        Ok(())
    } else if chance == 1 {
        lines.push(Line::Deliver { node, k: number })?;
        lines.push(Line::Deliver { node, k: number })
    } else {
        lines.push(Line::Deliver { node, k: number })
    }
}

// Each eighth round has a session of each backup.
fn put_sessions(alloc: Global, number: u32, lines: &mut Lines) -> Result<(), AllocError>
    ensures { OnOk result (lines.new ≡ lines.old ++ sessions number) }
{
    if number % 8 == 7 {
        put_session(alloc, Node::B, number, lines)?;
        put_session(alloc, Node::C, number, lines)
    } else {
        Ok(())
    }
}

// A session in which the round's message arrives once more, and a purge behind it.
fn put_session(alloc: Global, node: Node, number: u32, lines: &mut Lines) -> Result<(), AllocError>
    ensures { OnOk result (lines.new ≡ lines.old ++ session node number) }
{
    let key = own_row(alloc, 0, 1)?;
    lines.push(Line::Session { node })?;
    lines.push(Line::Deliver { node, k: number })?;
    lines.push(Line::Read { node, key })?;
    lines.push(Line::End)?;
    lines.push(Line::Purge { node })
}
