//! The sender's side of a backup: what of the audit trail is sent to it, and how far.
#![tactic(auto)]

mod extractor;
pub mod laws;

pub use extractor::Extractor;
