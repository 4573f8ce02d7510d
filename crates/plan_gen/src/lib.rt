//! The plan that is generated from a seed: transactions, messages to both backups of which some are lost or come
//! twice, sessions, and in the end the loss of the primary and the takeovers of both.
#![tactic(auto)]

pub mod draws;
mod ending;
mod layout;
pub mod plan;
mod rounds;
mod rows;
mod transactions;

pub use plan::make_plan;
