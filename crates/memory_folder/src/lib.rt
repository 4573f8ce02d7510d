//! A folder in memory that keeps the rules of a file system.
#![tactic(auto)]

mod calls;
mod folder;
mod losses;
mod refusals;
mod row;
mod supply;
mod sweep;

pub use folder::MemFolder;
pub use losses::Loss;
pub use supply::Supply;
