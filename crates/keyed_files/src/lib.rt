//! The rows of a volume in memory, in the order of file and key.
#![tactic(auto)]

mod file_rows;
pub mod files;
pub mod laws;

pub use files::KeyedFiles;
