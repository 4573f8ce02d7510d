//! Which lines may stand where.
ghost use Rattle.std.specs.Prelude.{◌≡◌};
ghost use Rattle.rdf_core.specs.Allowed.{allowed, has_names, is_backup, is_node, open_node};
ghost use Rattle.plan_lang.specs.Sessions.{fits_session};
ghost use Rattle.plan_lang.specs.LineText.{same_node};
ghost use Rattle.backup_machine.specs.Sessions.{session_of};

use backup_machine::session::SessionState;
use plan_lang::lines::Line;
use plan_lang::{line_goes_in, line_goes_outside};
use rdf_types::layout::Layout;
use rdf_types::records::Node;

fn is_same(of: Node, node: Node) -> bool
    ensures { result ≡ same_node of node }
{
    of == node
}

fn is_backup(layout: &Layout, node: Node) -> bool
    ensures { result ≡ is_backup layout.now node }
{
    match node {
        Node::A => false,
        Node::B => true,
        Node::C => layout.backups >= 2,
    }
}

fn is_node(layout: &Layout, node: Node) -> bool
    ensures { result ≡ is_node layout.now node }
{
    match node {
        Node::A => true,
        Node::B => true,
        Node::C => layout.backups >= 2,
    }
}

/// Whether the nodes and numbers of the line are in their ranges.
fn has_names(layout: &Layout, line: &Line) -> bool
    ensures { result ≡ has_names layout.now line.now }
{
    match line {
        Line::Send { node, most } => is_backup(layout, *node) && *most >= 1 && *most <= 64,
        Line::Rewind { node } => is_backup(layout, *node),
        Line::Ack { node } => is_backup(layout, *node),
        Line::Deliver { node, .. } => is_backup(layout, *node),
        Line::Session { node } => is_backup(layout, *node),
        Line::Read { node, .. } => is_backup(layout, *node),
        Line::Purge { node } => is_backup(layout, *node),
        Line::Takeover { node } => is_backup(layout, *node),
        Line::CopyAudit { node, from } => {
            is_backup(layout, *node) && is_backup(layout, *from) && !is_same(*node, *from)
        }
        Line::List { node, .. } => is_node(layout, *node),
        Line::Info { node } => is_backup(layout, *node),
        Line::Status { node } => is_node(layout, *node),
        Line::Fuse {
            node,
            disk,
            calls,
            ..
        } => is_node(layout, *node) && *disk <= 16 && *calls <= 1_000_000,
        Line::Cut { node } => is_node(layout, *node),
        Line::Restart { node } => is_node(layout, *node),
        _ => true,
    }
}

/// Whether the session lets the line through.
fn fits_session(session: &SessionState, line: &Line) -> bool
    ensures { result ≡ fits_session (open_node (session_of session.now)) line.now }
{
    match session {
        SessionState::Closed => line_goes_outside(line),
        SessionState::Refused { node, .. } => line_goes_in(*node, line),
        SessionState::Open { so_far } => line_goes_in(so_far.node(), line),
    }
}

/// Whether a plan may have the line here.
pub fn is_allowed(layout: &Layout, session: &SessionState, line: &Line) -> bool
    ensures { result ≡ allowed layout.now (session_of session.now) line.now }
{
    has_names(layout, line) && fits_session(session, line)
}
