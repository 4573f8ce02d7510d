//! The active transactions of a node: what each of them found, the records that it has locked, and the numbers that are used.
#![tactic(auto)]

mod active;
mod found;
mod table;

pub use active::Active;
pub use found::Found;
pub use table::ActiveTxns;
