//! Volume recovery of the primary: redo of a volume from its restart point, and the transactions that a stop left
//! without outcome.
#![tactic(auto)]

pub mod laws;
mod volume_redo;
mod without_outcome;

pub use volume_redo::redo;
pub use without_outcome::losers;
