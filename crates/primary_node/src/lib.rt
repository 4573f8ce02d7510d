//! The node of the primary: up, down or lost, over its disks, and the lines on it.
#![tactic(auto)]

mod format;
mod fuses;
mod kinds;
mod lines;
mod node;
mod restart;

pub use node::PrimaryNode;
pub use node_disks::cut_all;
