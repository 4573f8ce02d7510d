//! Rows by their numbers: 3,000 of them, whose files, keys and values have varied lengths.
use crate::tests::fixtures::change;
use rdf_types::records::{Change, Row};
use std::alloc::{AllocError, Global};
use std::test::Fail;

/// How many rows there are at first.
pub(crate) const ROWS: u32 = 3_000;

/// What a row has: its first value, its second one, or none.
#[derive(Clone, Copy)]
pub(crate) enum Fate {
    First,
    Second,
    Gone,
}

/// The name of the row's file, 1 to 16 bytes. Every fifth row is in one file.
fn name_of_file(row: u32) -> &'static [u8] {
    match row % 5 {
        0 => b"a",
        1 => b"accounts2024",
        2 => b"b7",
        3 => b"ledger",
        _ => b"z234567890123456",
    }
}

/// The last decimal digit.
fn digit(number: u32) -> u8 {
    b'0' + (number % 10) as u8
}

/// The row's key: its number in four digits, and up to 28 bytes more.
fn key_bytes(alloc: Global, row: u32) -> Result<Vec<u8>, AllocError> {
    let mut key = Vec::with_capacity(alloc, 32)?;
    key.push(digit(row / 1000))?;
    key.push(digit(row / 100))?;
    key.push(digit(row / 10))?;
    key.push(digit(row))?;
    key.resize(4 + (row % 29) as usize, b'k')?;
    Ok(key)
}

/// 1 to 200 times that byte, or none.
fn value_bytes(alloc: Global, row: u32, fate: Fate) -> Result<Vec<u8>, AllocError> {
    let (length, byte) = match fate {
        Fate::First => (1 + row.wrapping_mul(37) % 200, b'1'),
        Fate::Second => (200 - row.wrapping_mul(37) % 200, b'2'),
        Fate::Gone => (0, b'0'),
    };
    let mut value = Vec::new(alloc);
    value.resize(length as usize, byte)?;
    Ok(value)
}

/// The change that gives the row that fate.
pub(crate) fn change_of(alloc: Global, row: u32, fate: Fate) -> Result<Change, Fail> {
    let key = key_bytes(alloc, row)?;
    let value = value_bytes(alloc, row, fate)?;
    Ok(change(alloc, name_of_file(row), &key, &value)?)
}

/// The fate of a row once it is changed: every seventh one goes, and every third one of the others gets its second value. From the
/// number 3,000 on there are none.
pub(crate) fn fate_once_changed(row: u32) -> Fate {
    if row >= ROWS {
        return Fate::Gone;
    }
    if row % 7 == 3 {
        return Fate::Gone;
    }
    if row % 3 == 0 {
        return Fate::Second;
    }
    Fate::First
}

/// The fate of a row after the undo: that numbered 1 is as it was before its insert, and those numbered 3 and 6 before their changes.
pub(crate) fn fate_at_last(row: u32) -> Fate {
    match row {
        1 => Fate::Gone,
        3 | 6 => Fate::First,
        _ => fate_once_changed(row),
    }
}

/// Whether that is the row with that number, of that fate.
pub(crate) fn is_row(alloc: Global, found: &Row, row: u32, fate: Fate) -> Result<bool, Fail> {
    let wanted = change_of(alloc, row, fate)?;
    Ok(
        found.file == wanted.file
            && found.key == wanted.key
            && Some(&found.value) == wanted.after.as_ref(),
    )
}
