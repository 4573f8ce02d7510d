//! The system as a pure machine: what its lines do, are answered and leave, and the laws of whole runs.
#![tactic(auto)]

pub mod events;
pub mod laws;
pub mod replies;

pub use events::Event;
pub use replies::{NoWhy, Reply, RowList, VolInfo, VolInfos};
