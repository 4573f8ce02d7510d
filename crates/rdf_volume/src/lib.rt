//! A volume whose rows stay on its disk: memory holds an index of its base, what was changed since, and the blocks that were read last.
//! Its file holds that base, and batches of changes behind it.
//!
//! A batch of changes and the restart point are one durable step:
//!
//! ```
//! let Ok(mut volume) = Volume::format(alloc, MemDisk::blank(alloc, Vec::new(alloc))) else {
//!     return Err(VolFault::NoMemory);
//! };
//! let mut batch = Vec::new(alloc);
//! batch.push(Change { file, key, after: Some(value) })?;
//! volume.apply(&batch, 2)?;
//! assert_eq!(rt; volume.restart_point(), 2);
//! assert_eq!(rt; volume.scan()?.len(), 1);
//! ```
#![tactic(auto)]

mod base;
mod block_cache;
mod checkpoint;
pub mod images;
pub mod laws;
mod mount;
mod next_base;
mod payloads;
mod reading;
mod scan;
mod shown;
mod table;
pub mod volume;

pub use volume::{VolFault, VolShut, Volume};
