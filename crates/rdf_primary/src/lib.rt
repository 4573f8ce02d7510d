//! The primary: the lines of its transactions, over its audit trail and its volumes.
#![tactic(auto)]

mod backouts;
mod format;
mod lines;
mod opening;
mod primary;
mod refusals;
mod restart;

pub use primary::Primary;
