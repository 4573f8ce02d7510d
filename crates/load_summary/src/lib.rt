//! The summary of a run of the generated plan: what its lines were answered, and what both backups list in the end.
#![tactic(auto)]

mod answers;
mod lists;
mod summary;
mod tally;

pub use summary::{Counts, Summary, Taken};
pub use tally::Tally;
