//! The names, records and layout that every layer speaks of.
#![tactic(auto)]

pub mod entries;
pub mod layout;
pub mod names;
pub mod records;
mod text;

pub use layout::{Layout, Protection, VolumeTrails};
pub use names::{FileName, Key, NameFault, Value};
pub use records::{Change, Node, Phase, Pos, RecKey, Record, Row, Stamped, TxnId, VolNo};
