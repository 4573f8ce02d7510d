//! Where bytes come from, where they go, and what an updater waits at.
//!
//! A source is read whole, and written to a sink:
//!
//! ```
//! let mut source = MemSource::new(Vec::from_slice(alloc, b"begin 1")?, Vec::new(alloc));
//! let mut sink = MemSink::new(alloc, Vec::new(alloc));
//! let bytes = read_all(alloc, &mut source, 100)?;
//! write_all(&mut sink, &bytes)?;
//! assert_eq!(rt; sink.written(), b"begin 1".as_slice());
//! ```
#![tactic(auto)]

mod calls;
mod memory;
mod std_ports;
mod traits;
mod whole;

pub use memory::{MemSink, MemSource};
pub use std_ports::{StdSink, StdSource};
pub use traits::{Failed, Gate, NoGate, Sink, Source};
pub use whole::{ReadAllFault, read_all, write_all};
