//! The lines of an open session but its end.
//!
//! The session's node lent its backup and is out of the system. The contracts speak of the system as the session shows it:
//! with that node in its place, over what is shown of the backup.
ghost use Rattle.std.specs.Prelude.{◌≡◌, true, None, IfSome};
ghost use Rattle.std.specs.Option.{option_copied};
ghost use Rattle.rdf_core.specs.Allowed.{is_backup};
ghost use Rattle.senders.specs.Sending.{IsSomeSent};
ghost use Rattle.rdf_backup.specs.Sessions.{MayGoOn, open_of, trails_name, txns_name, places_of};
ghost use Rattle.backup_node.specs.Open.{StaysOpen};
ghost use Rattle.rdf_system.specs.NodeLines.{DoesBeside, HasReceived};
ghost use Rattle.rdf_system.specs.Opened.{MayLend, IsOpenAt, shown, view_of};
ghost use Rattle.rdf_system.specs.OpenLines.{IsOpenLine, IsOwnLine, IsSideLine, MeetsLine, KeepsLent, OpenDoes};
ghost use Rattle.rdf_system.specs.States.{layout_of};

use crate::fault::StepFault;
use crate::on_backup::message_for;
use crate::opened::{Broken, OpenSystem};
use crate::system::System;
use backup_node::laws::{nodes_stand, sessions_go_on};
use backup_node::{deliver_in, purge_in, read_in};
use node_faults::NodeFault;
use plan_lang::lines::Line;
use rdf_backup::Session;
use rdf_backup::laws::part_is_part;
use rdf_core::laws::{backup_cut_lifts, backup_lifts, present_points_go, volumes_move};
use rdf_core::replies::Reply;
use rdf_disk::Disk;
use rdf_types::records::{Node, Pos};
use std::alloc::Global;
use std::sync::Wait;

/// What the session's node does for a line on it, with the message that the line names.
fn met_by<R: Wait, D: Disk>(
    rt: &R,
    session: &mut Session<'_, '_, D>,
    line: &Line,
    message: Option<&[u8]>,
) -> Result<Reply, NodeFault>
    requires goes { MayGoOn D.tells D.files session.old }
    requires own { IsOwnLine line.now }
    requires sent { IfSome message (λ bytes. IsSomeSent bytes.now) }
    ensures goes { MayGoOn D.tells D.files session.new }
    ensures same_trails { trails_name session.new ≡ trails_name session.old }
    ensures same_txns { txns_name session.new ≡ txns_name session.old }
    ensures same_places { places_of session.new ≡ places_of session.old }
    ensures stays { StaysOpen D.counts result (open_of session.old) (open_of session.new) }
    ensures meets { MeetsLine D.tells D.files D.counts (option_copied message.entry) line.now result (open_of session.old) (open_of session.new) }
{
    match line {
        Line::Deliver { node: _, k: _ } => deliver_in(rt, session, message),
        Line::Read { node: _, key } => read_in(rt, session, key),
        Line::Purge { node: _ } => purge_in(rt, session),
        _ => unreachable!(),
    }
}

/// A line on the session's node.
fn own_line<R: Wait, D: Disk + Drop>(
    rt: &R,
    session: &mut Session<'_, '_, D>,
    beside: &OpenSystem<D>,
    line: &Line,
) -> Result<Reply, Broken>
    requires goes { MayGoOn D.tells D.files session.old }
    requires lends { MayLend D.tells D.files D.counts beside.now.lent.value beside.now.system }
    requires own { IsOwnLine line.now }
    requires fits { IsOpenLine beside.now.lent.value beside.now.system line.now }
    ensures goes { MayGoOn D.tells D.files session.new }
    ensures same_trails { trails_name session.new ≡ trails_name session.old }
    ensures same_txns { txns_name session.new ≡ txns_name session.old }
    ensures same_places { places_of session.new ≡ places_of session.old }
    ensures keeps { KeepsLent D.tells D.files D.counts (view_of (open_of session.old) beside.now) (view_of (open_of session.new) beside.now) }
    ensures does { (open_of session.old).met ≡ None → IsOpenAt D.tells D.files D.counts (view_of (open_of session.old) beside.now) →
        OpenDoes D.tells D.files D.counts line.now result (view_of (open_of session.old) beside.now) (view_of (open_of session.new) beside.now) }
{
    backup_lifts();
    backup_cut_lifts();
    present_points_go();
    volumes_move();
    part_is_part();
    nodes_stand::<D>();
    beside.system.primary.stands();
    let message = message_for(&beside.system.senders, line);
    match met_by(rt, session, line, message) {
        Ok(reply) => Ok(reply),
        Err(fault) => Err(Broken::Own { fault }),
    }
}

/// How far a backup has received, where it is up. The node that is out of its site is the session's.
fn received_beside<D: Disk + Drop>(
    session: &Session<'_, '_, D>,
    beside: &OpenSystem<D>,
    node: Node,
) -> Option<Pos>
    requires goes { MayGoOn D.tells D.files session.now }
    requires lends { MayLend D.tells D.files D.counts beside.now.lent.value beside.now.system }
    requires placed { is_backup (layout_of beside.now.system) node ≡ true }
    ensures { HasReceived D.tells D.files node result (shown (view_of (open_of session.now) beside.now)) }
{
    match &beside.system.place_of(node).node {
        Some(other) => other.received(),
        None => Some(session.received()),
    }
}

/// A line on the primary or on the sender's side of a backup.
fn side_line<D: Disk + Drop>(
    alloc: Global,
    session: &Session<'_, '_, D>,
    beside: &mut OpenSystem<D>,
    line: &Line,
) -> Result<Reply, StepFault>
    requires goes { MayGoOn D.tells D.files session.now }
    requires lends { MayLend D.tells D.files D.counts beside.old.lent.value beside.old.system }
    requires fits { IsOpenLine beside.old.lent.value beside.old.system line.now }
    requires side { IsSideLine line.now }
    ensures lent { beside.new.lent.value ≡ beside.old.lent.value }
    ensures does { DoesBeside D.tells D.files D.counts (λ sys. sys ≡ shown (view_of (open_of session.now) beside.old)) line.now result
        beside.old.system beside.new.system }
{
    match line {
        Line::Send { node, most } => beside.system.sent(alloc, *node, *most),
        Line::Rewind { node } => beside.system.rewound(*node),
        Line::Ack { node } => {
            let received = received_beside(session, beside, *node);
            beside.system.acked(*node, received)
        }
        _ => beside.system.at_primary(line),
    }
}

/// A line of an open session but its end: one on the primary, one on the sender's side of a backup, or a delivery, a read or a
/// purge on the session's node. Behind one that was not answered the session is to be ended.
pub fn open_line<R: Wait, D: Disk + Drop>(
    rt: &R,
    alloc: Global,
    session: &mut Session<'_, '_, D>,
    beside: &mut OpenSystem<D>,
    line: &Line,
) -> Result<Reply, Broken>
    requires goes { MayGoOn D.tells D.files session.old }
    requires lends { MayLend D.tells D.files D.counts beside.old.lent.value beside.old.system }
    requires fits { IsOpenLine beside.old.lent.value beside.old.system line.now }
    ensures goes { MayGoOn D.tells D.files session.new }
    ensures same_trails { trails_name session.new ≡ trails_name session.old }
    ensures same_txns { txns_name session.new ≡ txns_name session.old }
    ensures same_places { places_of session.new ≡ places_of session.old }
    ensures keeps { KeepsLent D.tells D.files D.counts (view_of (open_of session.old) beside.old) (view_of (open_of session.new) beside.new) }
    ensures does { (open_of session.old).met ≡ None → IsOpenAt D.tells D.files D.counts (view_of (open_of session.old) beside.old) →
        OpenDoes D.tells D.files D.counts line.now result (view_of (open_of session.old) beside.old) (view_of (open_of session.new) beside.new) }
{
    sessions_go_on::<D>();
    match line {
        Line::Deliver { .. } => own_line(rt, session, beside, line),
        Line::Read { .. } => own_line(rt, session, beside, line),
        Line::Purge { .. } => own_line(rt, session, beside, line),
        _ => match side_line(alloc, session, beside, line) {
            Ok(reply) => Ok(reply),
            Err(fault) => Err(Broken::Line { fault }),
        },
    }
}
