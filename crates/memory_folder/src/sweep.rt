//! What is done to each file of a folder in memory.
use crate::losses::Loss;

/// A sync of the entries, the closing of all files, or a loss of power.
#[derive(Clone, Copy)]
pub enum Sweep {
    Enter,
    Rest,
    Lose(Loss),
}
