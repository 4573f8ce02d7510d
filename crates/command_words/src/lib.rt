//! The words that the program takes.
#![tactic(auto)]

mod reading;
mod words;

pub use reading::read_words;
pub use words::{Words, WordsFault};
