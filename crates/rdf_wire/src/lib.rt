//! The wire between the nodes: what each was sent keeps its number.
#![tactic(auto)]

pub mod laws;
mod sent;
pub mod wire;

pub use rdf_codec::messages::{Message, read_message, write_message};
