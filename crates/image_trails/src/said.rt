//! What was read of a trail's file.
use rdf_types::records::{Phase, Pos, Stamped};

/// What the blocks of a trail's file say so far: where they end, the last phase, and their entries.
#[derive(Drop)]
pub struct Said {
    pub end: Pos,
    pub phase: Phase,
    pub part: Vec<Stamped>,
}
