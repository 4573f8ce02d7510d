//! A backup in the machine: what each line on it does, and what it is answered.
#![tactic(auto)]

pub mod backup;
pub mod budget;
mod copying;
pub mod line;
mod notes;
pub mod positions;
mod purging;
pub mod rows;
pub mod session;
mod sessions;
mod storing;
mod taking;
mod telling;
pub mod volumes;

pub use backup::BackupState;
pub use line::Outside;
