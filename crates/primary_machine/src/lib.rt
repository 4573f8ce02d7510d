//! The primary in the machine: what each line does to it, at the cost of a look-up.
#![tactic(auto)]

mod aborting;
mod backouts;
mod images;
mod lines;
mod places;
pub mod primary;
mod stops;
mod txns;

pub use primary::PrimaryState;
