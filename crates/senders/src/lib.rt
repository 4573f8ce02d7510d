//! The sender's side of both backups: an extractor for each, and the wire.
#![tactic(auto)]

mod building;
pub mod laws;
mod senders;

pub use senders::Senders;
