//! The whole system as a machine: which part each line is for, and what happens to all of them.
//!
//! Each line of a plan is answered without any disk:
//!
//! ```
//! let mut machine = Machine::new(alloc, &plan.layout)?;
//! for line in plan.lines.all() {
//!     if machine.allows(line) {
//!         replies.push(machine.line(line)?)?;
//!     }
//! }
//! ```
#![tactic(auto)]

mod allowing;
mod cuts;
mod images;
pub mod index;
mod lines;
pub mod machine;
pub mod parts;
pub mod senders;
mod session_lines;

pub use machine::Machine;
