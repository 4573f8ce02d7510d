//! A disk over a folder in memory whose stops are losses of power.
#![tactic(auto)]

mod powered;

pub use powered::PoweredDisk;
