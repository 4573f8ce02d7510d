//! Files of a folder that are open.
ghost use Rattle.std.specs.Prelude.{◌≤◌, ◌<◌, length, IfOk, IfSome};

use folder_disk::FolderFault;
use std::fs::{File, OpenFile};
use std::io;
use std::os::unix::fs::FileExt;

/// A file that is open. How long it is is known as long as no call on it was refused.
#[derive(Drop)]
pub struct Opened<F> {
    pub number: u32,
    pub file: F,
    pub len: Option<u64>,
}

impl Opened<File> {
    /// Writes some first bytes. How long the file is is known behind a write that was done.
    pub fn write_at(&mut self, at: u64, bytes: &[u8]) -> io::Result<usize>
        ensures { IfOk result (λ n. n ≤ length bytes.now) }
    {
        let answer = self.file.write_at(bytes, at);
        self.len = match answer {
            Ok(n) => reached(self.len, at.saturating_add(n as u64)),
            Err(_) => None,
        };
        answer
    }
}

/// How long a file is once bytes were written up to there.
fn reached(len: Option<u64>, end: u64) -> Option<u64> {
    match len {
        Some(len) => Some(len.max(end)),
        None => None,
    }
}

/// How long a file that was just opened is, where the system tells.
pub fn length_of(file: &File) -> Option<u64> {
    match file.metadata() {
        Ok(found) => Some(found.len()),
        Err(_) => None,
    }
}

/// Makes all of a file or a folder durable.
pub fn sync_one<F: OpenFile>(file: &F) -> Result<(), FolderFault> {
    match file.sync_all() {
        Ok(()) => Ok(()),
        Err(_) => Err(FolderFault::Refused),
    }
}

/// Makes the bytes of a file durable.
pub fn sync_bytes<F: OpenFile>(file: &F) -> Result<(), FolderFault> {
    match file.sync_data() {
        Ok(()) => Ok(()),
        Err(_) => Err(FolderFault::Refused),
    }
}

/// Where a file stands that is open.
pub fn place_in<F>(opened: &[Opened<F>], number: u32) -> Option<usize>
    ensures { IfSome result (λ place. place < length opened.now) }
{
    for place in 0..opened.len() {
        if opened[place].number == number {
            return Some(place);
        }
    }
    None
}

/// How long a file is that is open.
pub fn known_len<F>(opened: &[Opened<F>], number: u32) -> Option<u64> {
    match place_in(opened, number) {
        Some(place) => opened[place].len,
        None => None,
    }
}

/// From here on it is not known how long the file is.
pub fn forget_len<F>(opened: &mut [Opened<F>], number: u32) {
    if let Some(place) = place_in(opened, number) {
        opened[place].len = None;
    }
}

/// Closes a file.
pub fn drop_file<F: Drop>(opened: &mut Vec<Opened<F>>, number: u32) {
    if let Some(place) = place_in(opened, number) {
        let _ = opened.remove(place);
    }
}

/// Closes those that were opened first, so that no more than so many are open.
pub fn keep_last<F: Drop>(opened: &mut Vec<Opened<F>>, most: usize) {
    let over = opened.len().saturating_sub(most);
    let _ = opened.drain(..over);
}
