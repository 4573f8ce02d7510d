//! Logs of blocks over disks that may stop, one in a file, and disks each of whose files is such a log.
#![tactic(auto)]

mod addition;
pub mod additions;
mod blocks;
mod fault;
mod log;
pub mod logs;
mod mount;
mod reader;
mod reading;

pub use addition::Addition;
pub use fault::LogFault;
pub use log::LogFile;
pub use reader::LogReader;
