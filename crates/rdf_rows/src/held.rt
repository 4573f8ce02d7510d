//! What disks hold once a run is over.
use crate::names::letter_of;
use crate::row::{HeldFile, Place};
use crate::trial::{AnyRacks, disk_at};
use rdf_disk::{Disk, DiskFault};
use rdf_run::Racks;
use rdf_types::records::Node;
use std::alloc::{AllocError, Global};

/// The first file that does not hold what it must, in words.
pub fn unheld(
    alloc: Global,
    racks: &mut AnyRacks,
    held: &[HeldFile],
) -> Result<Option<String>, AllocError> {
    match racks {
        AnyRacks::Memory(racks) => unheld_in(alloc, racks, held),
        AnyRacks::Folders(racks) => unheld_in(alloc, racks, held),
    }
}

fn unheld_in<D: Disk>(
    alloc: Global,
    racks: &mut Racks<D>,
    held: &[HeldFile],
) -> Result<Option<String>, AllocError> {
    for one in held {
        let Some(disk) = disk_at(racks, one.place) else {
            return no_disk(alloc);
        };
        let found = file_of(alloc, disk, one.file);
        if !is_held(&found, &one.bytes) {
            let letter = letter_of(one.place.node);
            let number = one.place.disk;
            let file = one.file;
            let text = format!(in alloc; "file {file} of disk {number} of {letter} is {found:?}")?;
            return Ok(Some(text));
        }
    }
    Ok(None)
}

fn is_held(found: &Result<Option<Vec<u8>>, DiskFault>, bytes: &Vec<u8>) -> bool {
    match found {
        Ok(found) => found.as_ref() == Some(bytes),
        Err(_) => false,
    }
}

fn no_disk(alloc: Global) -> Result<Option<String>, AllocError> {
    Ok(Some(String::from_str(alloc, "there is no such disk")?))
}

/// The first disk that holds other files than the one at its place in other racks, or that can't be read, in words. All disks are turned on.
pub fn unlike(
    alloc: Global,
    racks: &mut AnyRacks,
    others: &mut AnyRacks,
) -> Result<Option<String>, AllocError> {
    match (racks, others) {
        (AnyRacks::Memory(racks), AnyRacks::Memory(others)) => unlike_in(alloc, racks, others),
        (AnyRacks::Folders(racks), AnyRacks::Folders(others)) => unlike_in(alloc, racks, others),
        _ => no_disk(alloc),
    }
}

fn unlike_in<D: Disk>(
    alloc: Global,
    racks: &mut Racks<D>,
    others: &mut Racks<D>,
) -> Result<Option<String>, AllocError> {
    for node in [Node::A, Node::B, Node::C] {
        for disk in 0..17u8 {
            if !are_alike(alloc, racks, others, Place { node, disk }) {
                let letter = letter_of(node);
                let text = format!(in alloc; "disk {disk} of {letter} holds other files")?;
                return Ok(Some(text));
            }
        }
    }
    Ok(None)
}

fn are_alike<D: Disk>(
    alloc: Global,
    racks: &mut Racks<D>,
    others: &mut Racks<D>,
    place: Place,
) -> bool {
    match (disk_at(racks, place), disk_at(others, place)) {
        (Some(disk), Some(other)) => hold_alike(alloc, disk, other).unwrap_or(false),
        _ => false,
    }
}

fn hold_alike<D: Disk>(alloc: Global, disk: &mut D, other: &mut D) -> Result<bool, DiskFault> {
    disk.restart()?;
    other.restart()?;
    let (first, end) = disk.span()?;
    if other.span()? != (first, end) {
        return Ok(false);
    }
    for file in first..end {
        if file_of(alloc, disk, file)? != file_of(alloc, other, file)? {
            return Ok(false);
        }
    }
    Ok(true)
}

// The bytes of a file of a disk, which is turned on: those of a node that is down are off. None where there is no such file.
fn file_of<D: Disk>(alloc: Global, disk: &mut D, file: u32) -> Result<Option<Vec<u8>>, DiskFault> {
    disk.restart()?;
    let Some(many) = disk.len(file)? else {
        return Ok(None);
    };
    let many = usize::try_from(many).map_err(|_| DiskFault::NoMemory)?;
    let mut bytes = vec![in alloc; 0u8; many]?;
    let count = disk.read(file, 0, &mut bytes)?;
    bytes.truncate(count);
    Ok(Some(bytes))
}
