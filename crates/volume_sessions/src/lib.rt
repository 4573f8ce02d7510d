//! The volumes of a backup while a session is open: each protected volume in a lock of its own, an updater in a thread of
//! its own for each of them, and the calling thread beside, which publishes audit entries and reads rows.
//!
//! `in_session` opens the locks, lends the calling thread a `Watch`, and hands the volumes back with what came of each.
//! It knows entries and volumes alone: nothing of trails, layouts or nodes.
#![tactic(auto)]

mod asking;
mod closing;
mod inside;
mod opening;
mod placed;
mod running;
mod watch;
mod workers;

pub use inside::Inside;
pub use placed::{Left, NotBegun, Placed};
pub use running::in_session;
pub use watch::{Room, Watch};
