use super::fixtures::row;
use keyed_files::files::KeyedFiles;
use rdf_types::names::{FileName, Key, NameFault, Value};
use rdf_types::records::Row;
use std::alloc::{AllocError, Global};
use std::test::Fail;

fn add(text: &mut Vec<u8>, row: Option<(&FileName, &Key, &Value)>) -> Result<(), AllocError> {
    if let Some((file, key, value)) = row {
        for word in [file.bytes(), key.bytes(), value.bytes()] {
            text.extend_from_slice(word)?;
            text.push(b' ')?;
        }
    }
    Ok(())
}

// A row's file, key and value with a space after each, or nothing.
fn text_of(alloc: Global, row: Option<(&FileName, &Key, &Value)>) -> Result<Vec<u8>, AllocError> {
    let mut text = Vec::new(alloc);
    add(&mut text, row)?;
    Ok(text)
}

fn put_rows() -> &'static [(&'static [u8], &'static [u8], &'static [u8])] {
    &[
        (b"g", b"a", b"1"),
        (b"f", b"b", b"2"),
        (b"f", b"a", b"3"),
        (b"ff", b"c", b"5"),
        (b"g", b"a", b"4"),
    ]
}

fn followers() -> &'static [(&'static [u8], &'static [u8], &'static [u8])] {
    &[
        (b"f", b"a", b"f b 2 "),
        (b"f", b"b", b"ff c 5 "),
        (b"f", b"z", b"ff c 5 "),
        (b"fa", b"a", b"ff c 5 "),
        (b"ff", b"c", b"g a 4 "),
        (b"g", b"a", b""),
        (b"a", b"z", b"f a 3 "),
    ]
}

// The rows, put one after the other; the last one is put over the first.
fn filled(alloc: Global) -> Result<KeyedFiles, Fail> {
    let mut rows = KeyedFiles::new(alloc);
    for (file, key, value) in put_rows() {
        rows.put(row(alloc, file, key, value)?)?;
    }
    Ok(rows)
}

// The texts of the rows.
fn text_of_all(alloc: Global, rows: &[Row]) -> Result<Vec<u8>, AllocError> {
    let mut text = Vec::new(alloc);
    for row in rows {
        add(&mut text, Some((&row.file, &row.key, &row.value)))?;
    }
    Ok(text)
}

fn is_first(alloc: Global, rows: &KeyedFiles, want: &[u8]) -> Result<bool, AllocError> {
    let text = text_of(alloc, rows.first())?;
    Ok(text.as_slice() == want)
}

#[test]
fn rows_in_order(rt: HostRuntime) -> Result<(), Fail> {
    assert!(rt; is_first(rt.alloc(), &KeyedFiles::new(rt.alloc()), b"")?);
    let rows = filled(rt.alloc())?;
    assert!(rt; is_first(rt.alloc(), &rows, b"f a 3 ")?);
    let text = text_of_all(rt.alloc(), &rows.rows(rt.alloc())?)?;
    assert!(rt; text.as_slice() == b"f a 3 f b 2 ff c 5 g a 4 ".as_slice());
    Ok(())
}

// The text of the row behind a place.
fn after(alloc: Global, rows: &KeyedFiles, file: &[u8], key: &[u8]) -> Result<Vec<u8>, NameFault> {
    let at = row(alloc, file, key, b"0")?;
    text_of(alloc, rows.next_after(&at.file, &at.key)).map_err(|_| NameFault::NoMemory)
}

#[test]
fn rows_after_a_place(rt: HostRuntime) -> Result<(), Fail> {
    let rows = filled(rt.alloc())?;
    for (file, key, next) in followers() {
        let found = after(rt.alloc(), &rows, file, key)?;
        assert!(rt; found.as_slice() == *next, "after {file:?} {key:?}");
    }
    Ok(())
}

// Whether the row is found, goes when it is removed, and is there no longer.
fn is_removed(rows: &mut KeyedFiles, at: &Row) -> bool {
    let is_found = rows.get(&at.file, &at.key) == Some(&at.value);
    let removed = rows.remove(&at.file, &at.key);
    let again = rows.remove(&at.file, &at.key);
    is_found
        && removed.as_ref() == Some(&at.value)
        && again.is_none()
        && rows.get(&at.file, &at.key).is_none()
}

// The same of a row of these texts.
fn is_row_removed(
    alloc: Global,
    rows: &mut KeyedFiles,
    file: &[u8],
    key: &[u8],
    value: &[u8],
) -> Result<bool, NameFault> {
    let at = row(alloc, file, key, value)?;
    Ok(is_removed(rows, &at))
}

#[test]
fn rows_found_and_removed(rt: HostRuntime) -> Result<(), Fail> {
    let mut rows = filled(rt.alloc())?;
    assert!(rt; is_row_removed(rt.alloc(), &mut rows, b"g", b"a", b"4")?);
    assert!(rt; is_row_removed(rt.alloc(), &mut rows, b"f", b"a", b"3")?);
    assert!(rt; is_first(rt.alloc(), &rows, b"f b 2 ")?);
    Ok(())
}
