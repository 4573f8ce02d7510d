//! Image trails of a backup: a master and up to three secondaries, in generations of files on one disk.
//!
//! A shipment is stored, and a takeover marked:
//!
//! ```
//! let Ok(mut trails) = ImageTrails::format(alloc, MemDisk::blank(alloc, Vec::new(alloc)), &layout) else {
//!     return Err(LogFault::NoMemory);
//! };
//! trails.store(&ship)?;
//! assert_eq!(rt; trails.received(), ship.to);
//! trails.mark(Phase::Taking)?;
//! assert_eq!(rt; trails.phase(), Phase::Taking);
//! ```
#![tactic(auto)]

mod file_log;
mod files;
mod generations;
mod lending;
mod lists;
mod memory;
mod mount;
mod open;
mod opening;
mod parts;
mod payloads;
mod pruning;
mod reading;
mod reads;
mod said;
mod trails;

pub use memory::{Generation, Memory};
pub use open::ImageShut;
pub use trails::ImageTrails;
