//! The disks of a node: opened one after the other, cut, and beside each as it was, with what it counts.
#![tactic(auto)]

mod cutting;
mod new_volumes;
mod opening;

pub use cutting::cut_all;
pub use new_volumes::NewVolumes;
pub use opening::{
    Begun, NotOpened, Opener, Opening, Rooms, begin, handed_back, open_rest, with_first,
};
