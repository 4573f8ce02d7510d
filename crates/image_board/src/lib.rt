//! The board of a session: audit entries that the session publishes, and the updaters of its volumes read, with a note of
//! each updater.
#![tactic(auto)]

mod board;
mod note;
mod pieces;
mod remembered;

pub use board::Board;
pub use note::Note;
pub use pieces::Piece;
pub use remembered::Remembered;
