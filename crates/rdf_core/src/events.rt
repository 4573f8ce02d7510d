//! What can happen to the system.
use plan_lang::lines::Line;
use rdf_types::records::{Node, Pos, VolNo};

/// Whether the primary runs, can be restarted, or never comes back.
#[derive(Clone, Copy, Debug, PartialEq, Eq)]
pub enum Standing {
    /// It runs.
    Up,
    /// It can be restarted.
    Down,
    /// It never comes back.
    Lost,
}

/// What happens at once.
#[derive(Debug, Drop)]
pub enum Event {
    /// A line is done.
    Do { line: Line },
    /// A volume of the open session has come up to a position.
    Apply { vol: VolNo, upto: Pos },
    /// The disk of a volume of the open session stops.
    Halt { vol: VolNo },
    /// A disk of the node stops, which cuts the line off after the first `done` of its durable parts.
    Stop { node: Node, line: Line, done: u32 },
}
