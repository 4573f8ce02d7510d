//! Records, shipments, messages and the blocks of files as bytes.
#![tactic(auto)]

pub mod entries;
pub mod fault;
pub mod image_blocks;
pub mod index_entries;
mod input;
pub mod laws;
mod lists;
pub mod messages;
pub mod reading;
mod record_fields;
mod row_fields;
mod ship_reading;
pub mod ships;
mod text_writing;
pub mod volume_blocks;
mod volume_reading;
pub mod writing;

pub use fault::CodecFault;
pub use ships::Ship;
