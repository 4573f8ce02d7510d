//! The blocks of a volume's file, spelled byte by byte: rows, and an index of blocks of rows.
use crate::tests::fixtures::Place;
use std::alloc::{AllocError, Global};

/// The place of a block, below 256, and the file and the key of its first row.
pub(crate) type Entry<'a> = (u8, &'a [u8], &'a [u8]);

/// A text of at most 255 bytes, behind its length.
fn put_text(out: &mut Vec<u8>, text: &[u8]) -> Result<(), AllocError> {
    out.push(text.len().min(255) as u8)?;
    out.extend_from_slice(text)
}

/// The kind of a block, and how many things are in it, at most 255.
fn put_head(out: &mut Vec<u8>, kind: u8, count: usize) -> Result<(), AllocError> {
    out.extend_from_slice(&[kind, 0, count.min(255) as u8])
}

fn put_row(out: &mut Vec<u8>, row: &Place) -> Result<(), AllocError> {
    put_text(out, row.0)?;
    put_text(out, row.1)?;
    put_text(out, row.2)
}

fn put_entry(out: &mut Vec<u8>, entry: &Entry<'_>) -> Result<(), AllocError> {
    out.extend_from_slice(&[0; 7])?;
    out.push(entry.0)?;
    put_text(out, entry.1)?;
    put_text(out, entry.2)
}

/// A block of rows.
pub(crate) fn rows_block(alloc: Global, rows: &[Place]) -> Result<Vec<u8>, AllocError> {
    let mut out = Vec::new(alloc);
    put_head(&mut out, 33, rows.len())?;
    for row in rows {
        put_row(&mut out, row)?;
    }
    Ok(out)
}

/// A block of an index.
pub(crate) fn index_block(alloc: Global, entries: &[Entry<'_>]) -> Result<Vec<u8>, AllocError> {
    let mut out = Vec::new(alloc);
    put_head(&mut out, 36, entries.len())?;
    for entry in entries {
        put_entry(&mut out, entry)?;
    }
    Ok(out)
}

/// The end of a base, with its restart point, how many rows it has, and how many blocks of rows.
pub(crate) fn end_block(
    alloc: Global,
    restart: u64,
    rows: u32,
    blocks: u32,
) -> Result<Vec<u8>, AllocError> {
    let mut out = Vec::new(alloc);
    out.push(34)?;
    out.extend_from_slice(&restart.to_be_bytes())?;
    out.extend_from_slice(&rows.to_be_bytes())?;
    out.extend_from_slice(&blocks.to_be_bytes())?;
    Ok(out)
}
