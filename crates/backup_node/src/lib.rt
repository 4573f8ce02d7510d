//! The node of a backup: up or down, over its disks, and the lines on it.
#![tactic(auto)]

mod copying;
mod format;
mod fuses;
mod inside;
pub mod laws;
mod looks;
mod node;
mod opening;
mod purging;
mod restart;
mod sessions;
mod settling;
mod shipping;
mod takeover;
mod turning;

pub use inside::NodeEnd;
pub use node::BackupNode;
pub use opening::{deliver_in, purge_in, read_in};
