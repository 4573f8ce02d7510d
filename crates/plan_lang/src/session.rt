//! Which lines may stand inside a session, and which outside.
ghost use Rattle.std.specs.Prelude.{◌≡◌};
ghost use Rattle.plan_lang.specs.LineShown.{line_of};
ghost use Rattle.plan_lang.specs.Sessions.{goes_in, goes_outside, session_after};

use crate::line_at::LineAt;
use crate::line_words::is_same;
use crate::lines::Line;
use rdf_types::records::Node;

/// Whether the line may stand in a session of the node.
pub fn goes_in(of: Node, line: &LineAt<'_>) -> bool
    ensures { result ≡ goes_in of (line_of line.now) }
{
    match line {
        LineAt::Insert { .. } => true,
        LineAt::Update { .. } => true,
        LineAt::Delete { .. } => true,
        LineAt::Get { .. } => true,
        LineAt::Read { node, .. } => is_same(of, *node),
        LineAt::Plain { line } => line_goes_in(of, line),
    }
}

/// Whether a line that was read may stand in a session of the node.
pub fn line_goes_in(of: Node, line: &Line) -> bool
    ensures { result ≡ goes_in of line.now }
{
    match line {
        Line::Begin { .. } => true,
        Line::Insert { .. } => true,
        Line::Update { .. } => true,
        Line::Delete { .. } => true,
        Line::Get { .. } => true,
        Line::Commit { .. } => true,
        Line::Abort { .. } => true,
        Line::Send { .. } => true,
        Line::Rewind { .. } => true,
        Line::Ack { .. } => true,
        Line::Deliver { node, .. } => is_same(of, *node),
        Line::Read { node, .. } => is_same(of, *node),
        Line::Purge { node } => is_same(of, *node),
        Line::End => true,
        _ => false,
    }
}

/// Whether the line may stand outside sessions.
pub fn goes_outside(line: &LineAt<'_>) -> bool
    ensures { result ≡ goes_outside (line_of line.now) }
{
    match line {
        LineAt::Insert { .. } => true,
        LineAt::Update { .. } => true,
        LineAt::Delete { .. } => true,
        LineAt::Get { .. } => true,
        LineAt::Read { .. } => false,
        LineAt::Plain { line } => line_goes_outside(line),
    }
}

/// Whether a line that was read may stand outside sessions.
pub fn line_goes_outside(line: &Line) -> bool
    ensures { result ≡ goes_outside line.now }
{
    match line {
        Line::Read { .. } => false,
        Line::End => false,
        _ => true,
    }
}

/// Whose session is open behind the line.
pub fn session_after(of: Option<Node>, line: &LineAt<'_>) -> Option<Node>
    ensures { result ≡ session_after of (line_of line.now) }
{
    match line {
        LineAt::Insert { .. } => of,
        LineAt::Update { .. } => of,
        LineAt::Delete { .. } => of,
        LineAt::Get { .. } => of,
        LineAt::Read { .. } => of,
        LineAt::Plain { line } => session_after_plain(of, line),
    }
}

fn session_after_plain(of: Option<Node>, line: &Line) -> Option<Node>
    ensures { result ≡ session_after of line.now }
{
    match line {
        Line::Session { node } => Some(*node),
        Line::End => None,
        _ => of,
    }
}
