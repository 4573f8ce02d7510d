//! The record locks of a node: which transaction owns which record.
#![tactic(auto)]

mod held;
mod owners;
mod places;
mod table;

pub use table::{LockFault, LockTable};
