//! The program: it reads a plan, performs it and answers each line; or predicts the answers by the pure machine; or performs a generated plan.
//!
//! docs/LIBRARY.md tells of a whole program over disks of its own; this is the call:
//!
//! ```
//! let words = [String::from_str(alloc, "run")?];
//! let mut plan = MemSource::new(Vec::from_slice(alloc, text)?, Vec::new(alloc));
//! let mut replies = MemSink::new(alloc, Vec::new(alloc));
//! let ended = run_rdf(rt, alloc, &words, &mut plan, &mut replies, blank_racks(alloc)?, &NoGate);
//! assert_eq!(rt; ended.status, Status::Done);
//! ```
#![tactic(auto)]

mod catching_up;
mod driving;
mod foretelling;
pub mod laws;
mod making;
mod performed;
mod performing;
mod plans;
mod predicting;
mod racks;
mod report;
mod run_fault;
mod running;
mod session_lines;
mod source;
mod status;
mod tallying;
mod top;

pub use plan_lang::PlanWhy;
pub use racks::Ended;
pub use rdf_disk::{Disk, DiskFault, MemDisk, Tear};
pub use rdf_ports::{Failed, Gate, MemSink, MemSource, NoGate, Sink, Source, StdSink, StdSource};
pub use rdf_system::{Racks, blank_racks, full_racks};
pub use rdf_types::Node;
pub use status::Status;
pub use top::run_rdf;
