//! The audit trail: a list of records that is durable, record by record, on a disk of its own.
//!
//! What was appended is there after any stop, once the disk is mounted again:
//!
//! ```
//! let Ok(mut trail) = AuditTrail::format(alloc, MemDisk::blank(alloc, Vec::new(alloc))) else {
//!     return Err(LogFault::NoMemory);
//! };
//! trail.append(&Record::Commit { txn: TxnId(1) })?;
//! let mut disk = trail.close();
//! disk.cut();
//! disk.restart()?;
//! let found = AuditTrail::mount(alloc, disk);
//! assert!(rt; found.is_ok_and(|trail| trail.len() == 1));
//! ```
#![tactic(auto)]

pub mod laws;
mod opening;
mod trail;

pub use trail::{AuditTrail, TrailShut};
