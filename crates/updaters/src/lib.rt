//! Updaters: the images of a part of the audit trail, applied to a volume of a backup, in one call or beside the session
//! that publishes them.
#![tactic(auto)]

mod batch;
mod entries;
pub mod laws;
mod looks;
mod note;
mod reads;
mod redo;
mod seat;
mod turns;
mod updating;

pub use batch::step;
pub use entries::Held;
pub use note::{SeenVolume, VolumeNote};
pub use reads::{RowRead, read_row};
pub use redo::redo_part;
pub use seat::VolumeSeat;
pub use updating::{LoopEnd, UpdaterEnd, updater_loop};
