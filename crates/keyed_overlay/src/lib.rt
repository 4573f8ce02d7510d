//! What was changed of rows that are elsewhere: rows that were set, and places that were emptied.
#![tactic(auto)]

pub mod laws;
mod laying;
mod merge;
mod overlay;

pub use laying::Laying;
pub use merge::Merge;
pub use overlay::Overlay;
