//! A disk over a folder of files, by the rules that an operating system keeps.
#![tactic(auto)]

mod call_fault;
mod calls;
mod disk;
mod fault;
mod folder;
mod looking;
mod meter;
mod numbers;
mod tracked;

pub use disk::FolderDisk;
pub use fault::FolderFault;
pub use folder::Folder;
