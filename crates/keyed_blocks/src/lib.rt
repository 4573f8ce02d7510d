//! Rows in order as blocks of a log, with an index of those blocks: a row is found by one read of a block.
#![tactic(auto)]

mod index;
mod index_blocks;
pub mod laws;
pub mod payloads;
mod row_blocks;
mod row_buffer;
mod searches;
mod writer;

pub use index::BaseIndex;
pub use searches::value_among;
pub use writer::BaseWriter;
