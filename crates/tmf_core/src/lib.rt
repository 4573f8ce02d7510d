//! The transactions of a primary over its audit trail and its volumes: changes with before and after images, under record
//! locks that are held until the end, and backout.
//!
//! A transaction changes a row and ends; a fault of a disk takes the node down:
//!
//! ```
//! tmf.begin(TxnId(1))?;
//! let len = tmf.insert(TxnId(1), &key, &value)?;
//! assert_eq!(rt; tmf.commit(TxnId(1))?, len + 1);
//! assert_eq!(rt; tmf.begin(TxnId(1)), Err(TmfFault::TxnUsed));
//! ```
#![tactic(auto)]

mod backout;
mod changes;
mod disks;
mod ends;
mod fault;
mod images;
mod joining;
mod store;
mod tmf;
mod volumes;

pub use fault::TmfFault;
pub use tmf::Tmf;
