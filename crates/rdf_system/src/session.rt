//! The session that is open.
ghost use Rattle.std.specs.Prelude.{◌≡◌};
ghost use Rattle.plan_lang.specs.LineText.{same_node};
ghost use Rattle.rdf_system.specs.Noting.{is_stop_of, begun, noted, behind};
ghost use Rattle.rdf_system.specs.Sessions.{as_bar, why_of};

use plan_lang::lines::Line;
use rdf_core::replies::{NoWhy, Reply};
use rdf_types::records::Node;

/// Why a backup has no session: it is down, a takeover of it has begun, or has ended.
#[derive(Clone, Copy, Debug, PartialEq, Eq)]
pub(crate) enum Bar {
    Down,
    Taking,
    Taken,
}

impl Bar {
    /// The refusal that its line got.
    pub(crate) fn why(self) -> NoWhy
        ensures { result ≡ why_of self }
    {
        match self {
            Bar::Down => NoWhy::Down,
            Bar::Taking => NoWhy::Taking,
            Bar::Taken => NoWhy::Taken,
        }
    }
}

/// What a refused session keeps of the refusal of its line.
fn barred(why: NoWhy) -> Bar
    ensures { result ≡ as_bar why }
{
    match why {
        NoWhy::Taking => Bar::Taking,
        NoWhy::Taken => Bar::Taken,
        _ => Bar::Down,
    }
}

/// The session that is open, as the lines of a plan have it. One whose line was refused keeps why; in any other, whether a
/// disk of its node stopped.
#[derive(Clone, Copy, Debug, PartialEq, Eq)]
pub(crate) enum SessionState {
    Closed,
    Refused { node: Node, bar: Bar },
    Open { node: Node, stopped: bool },
}

/// Whether it is the same node.
pub(crate) fn is_same(a: Node, b: Node) -> bool
    ensures { result ≡ same_node a b }
{
    match a {
        Node::A => matches!(b, Node::A),
        Node::B => matches!(b, Node::B),
        Node::C => matches!(b, Node::C),
    }
}

/// Whether the reply is that the node stopped.
fn is_stop(node: Node, reply: &Reply) -> bool
    ensures { result ≡ is_stop_of node reply.now }
{
    match reply {
        Reply::Stopped { node: of } => is_same(node, *of),
        _ => false,
    }
}

/// The session that its line opens.
fn begin(node: Node, reply: &Reply) -> SessionState
    ensures { result ≡ begun node reply.now }
{
    match reply {
        Reply::No { why } => SessionState::Refused {
            node,
            bar: barred(*why),
        },
        _ => SessionState::Open {
            node,
            stopped: false,
        },
    }
}

/// The session, in which a stop of its node is noted.
fn note(session: SessionState, reply: &Reply) -> SessionState
    ensures { result ≡ noted session reply.now }
{
    match session {
        SessionState::Closed => SessionState::Closed,
        SessionState::Refused { node, bar } => SessionState::Refused { node, bar },
        SessionState::Open { node, stopped } => SessionState::Open {
            node,
            stopped: stopped || is_stop(node, reply),
        },
    }
}

/// The session behind a line of its node that was answered so.
pub(crate) fn session_behind(session: SessionState, line: &Line, reply: &Reply) -> SessionState
    ensures { result ≡ behind session line.now reply.now }
{
    match line {
        Line::Session { node } => begin(*node, reply),
        Line::End => SessionState::Closed,
        _ => note(session, reply),
    }
}
