//! Folders of the operating system, and the disks over them. What is trusted: that the system keeps the rules of a
//! folder, with `fsync` as a sync of a file and of the entries, and `fdatasync` as one of a file's data; and that
//! each call here is as its rule says: a file that is open is the one of its number, and as long as it was when it
//! was opened, or as the writes since have made it.
#![tactic(auto)]

mod folder;
mod opened;

pub use folder::{DirDisk, DirFolder, dir_disk};
