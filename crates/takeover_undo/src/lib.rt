//! The undo of a takeover: what transactions without outcome changed on a volume is set back.
#![tactic(auto)]

pub mod laws;
mod reading;
mod setting;

pub use reading::{ended_in, undo_of};
pub use setting::undo_volume;
