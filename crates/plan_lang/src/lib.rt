//! The text of a plan: its lines, their words, and the numbers among them.
//!
//! A plan is read, or the first bad line is told:
//!
//! ```
//! let plan = read_plan(alloc, b"rdfplan 1\nbackups 1\nvolumes 1\ntrail 0\nprotect 1\nextent 1\nretain 2\ngo\nlose\n")?;
//! assert_eq!(rt; plan.lines.all().len(), 1);
//!
//! let refused = read_plan(alloc, b"rdfplan 2\n");
//! assert!(rt; refused.is_err_and(|fault| fault == PlanFault::Bad { line: 1, why: PlanWhy::Header }));
//! ```
#![tactic(auto)]

mod header;
mod header_reading;
pub mod laws;
mod line_at;
mod line_reading;
mod line_words;
pub mod lines;
pub mod numbers;
pub mod plan_fault;
pub mod plan_reading;
pub mod printing;
mod session;
mod text;
mod text_lines;
mod verbs;
pub mod why;
pub mod words;

pub use lines::{Line, Lines, Plan};
pub use plan_fault::PlanFault;
pub use plan_reading::{read_plan, read_plan_for_predict};
pub use printing::print_plan;
pub use session::{line_goes_in, line_goes_outside};
pub use why::{BadLine, PlanWhy};
