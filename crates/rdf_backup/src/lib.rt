//! A backup that is up: its image trails, its volumes, and the lines that it answers.
#![tactic(auto)]

mod audit;
mod backup;
mod beginning;
mod beside;
mod copying;
mod delivery;
mod driving;
mod feeding;
mod first_faults;
mod format;
mod info;
pub mod laws;
mod listing;
mod noting;
mod opening;
mod parting;
mod purging;
mod reopening;
mod restart;
mod returning;
mod seating;
mod session;
mod takeover;
mod taking;

pub use backup::Backup;
pub use session::{Here, NotBegun, Session, SessionEnd};
