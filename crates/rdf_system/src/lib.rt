//! The nodes of a plan over the racks, each line as a step of the machine.
//!
//! Each line of a plan is performed over disks, durably:
//!
//! ```
//! let Ok(mut sys) = System::start(alloc, blank_racks(alloc)?, &plan.layout) else {
//!     return Err(AllocError);
//! };
//! for line in plan.lines.all() {
//!     match sys.line(rt, alloc, line, &NoGate) {
//!         Ok(reply) => replies.push(reply)?,
//!         Err(_) => break,
//!     }
//! }
//! let racks = sys.close();
//! ```
#![tactic(auto)]

mod copying;
mod fault;
mod in_session;
pub mod laws;
mod lines;
mod looks;
mod on_backup;
mod on_primary;
mod open_lines;
mod opened;
mod racks;
mod ready;
mod sending;
mod session;
mod shelves;
mod site;
mod start;
mod stretch;
mod system;
mod takeover;

pub use fault::{NotStarted, StartFault, StepFault, first_of_both};
pub use open_lines::open_line;
pub use opened::{Broken, OpenSystem};
pub use racks::{Racks, blank_racks, full_racks};
pub use site::Site;
pub use stretch::{InSession, NotInSession, Stretch};
pub use system::System;
