//! Texts at their limits, and copies of rows and changes.
use super::fixtures::row;
use rdf_types::names::NameFault::{BadByte, Empty, TooLong};
use rdf_types::names::{FileName, Key, NameFault, Value};
use rdf_types::records::{Change, Row};
use std::alloc::{AllocError, Global};
use std::test::Fail;

#[derive(Clone, Copy, Debug)]
enum Kind {
    File,
    Key,
    Value,
}

// The bytes of a copy of the text that is read.
fn copied(alloc: Global, kind: Kind, bytes: &[u8]) -> Result<Vec<u8>, NameFault> {
    let copy = match kind {
        Kind::File => copied_name(alloc, &FileName::read(alloc, bytes)?),
        Kind::Key => copied_key(alloc, &Key::read(alloc, bytes)?),
        Kind::Value => copied_value(alloc, &Value::read(alloc, bytes)?),
    };
    copy.map_err(|_| NameFault::NoMemory)
}

fn copied_name(alloc: Global, name: &FileName) -> Result<Vec<u8>, AllocError> {
    name.try_clone()?.bytes().to_vec(alloc)
}

fn copied_key(alloc: Global, key: &Key) -> Result<Vec<u8>, AllocError> {
    key.try_clone()?.bytes().to_vec(alloc)
}

fn copied_value(alloc: Global, value: &Value) -> Result<Vec<u8>, AllocError> {
    value.try_clone()?.bytes().to_vec(alloc)
}

fn fault_of(read: &Result<Vec<u8>, NameFault>, bytes: &[u8]) -> Option<NameFault> {
    match read {
        Ok(copy) if copy.as_slice() == bytes => None,
        Ok(_) => Some(NameFault::NoMemory),
        Err(fault) => Some(*fault),
    }
}

fn limits() -> &'static [(Kind, u8, usize, Option<NameFault>)] {
    &[
        (Kind::File, b'z', 0, Some(Empty)),
        (Kind::File, b'z', 1, None),
        (Kind::File, b'z', 16, None),
        (Kind::File, b'z', 17, Some(TooLong { limit: 16 })),
        (Kind::File, b'Z', 16, Some(BadByte { at: 0 })),
        (Kind::File, b'Z', 17, Some(TooLong { limit: 16 })),
        (Kind::Key, b'!', 0, Some(Empty)),
        (Kind::Key, b'!', 1, None),
        (Kind::Key, b'~', 32, None),
        (Kind::Key, b'~', 33, Some(TooLong { limit: 32 })),
        (Kind::Key, b' ', 33, Some(TooLong { limit: 32 })),
        (Kind::Value, b'!', 0, Some(Empty)),
        (Kind::Value, b'!', 1, None),
        (Kind::Value, b'~', 200, None),
        (Kind::Value, b'~', 201, Some(TooLong { limit: 200 })),
        (Kind::Value, b' ', 201, Some(TooLong { limit: 200 })),
    ]
}

// So many times one byte: too long is told before a bad byte.
#[test]
fn texts_at_their_limits(rt: HostRuntime) -> Result<(), Fail> {
    let alloc = rt.alloc();
    for (kind, byte, length, fault) in limits() {
        let bytes = vec![in alloc; *byte; *length]?;
        let found = fault_of(&copied(alloc, *kind, &bytes), &bytes);
        assert!(rt; found == *fault, "{kind:?} {byte} {length}");
    }
    Ok(())
}

fn bad_bytes() -> &'static [(Kind, &'static [u8], Option<NameFault>)] {
    &[
        (Kind::File, b"az09", None),
        (Kind::File, b"/", Some(BadByte { at: 0 })),
        (Kind::File, b"0:", Some(BadByte { at: 1 })),
        (Kind::File, b"ab`{", Some(BadByte { at: 2 })),
        (Kind::File, b"xyz{", Some(BadByte { at: 3 })),
        (Kind::Key, b"!aA9~", None),
        (Kind::Key, b" \x7F", Some(BadByte { at: 0 })),
        (Kind::Key, b"a\x7F", Some(BadByte { at: 1 })),
        (Kind::Key, b"ab\n ", Some(BadByte { at: 2 })),
        (Kind::Value, b"!aA9~", None),
        (Kind::Value, b"a\x7F", Some(BadByte { at: 1 })),
        (Kind::Value, b"abc \xFF", Some(BadByte { at: 3 })),
    ]
}

// The first byte that may not stand there, and its place.
#[test]
fn bytes_of_texts(rt: HostRuntime) {
    for (kind, bytes, fault) in bad_bytes() {
        let found = fault_of(&copied(rt.alloc(), *kind, bytes), bytes);
        assert!(rt; found == *fault, "{kind:?} {bytes:?}");
    }
}

fn is_row_copied(row: &Row) -> Result<bool, AllocError> {
    let copy = row.try_clone()?;
    Ok(copy == *row)
}

fn is_change_copied(change: &Change) -> Result<bool, AllocError> {
    let copy = change.try_clone()?;
    Ok(copy == *change)
}

#[test]
fn copies_of_rows(rt: HostRuntime) -> Result<(), Fail> {
    let row = row(rt.alloc(), b"f", b"k", b"v")?;
    assert!(rt; is_row_copied(&row)?);
    let Row { file, key, value } = row;
    let mut change = Change {
        file,
        key,
        after: Some(value),
    };
    assert!(rt; is_change_copied(&change)?);
    change.after = None;
    assert!(rt; is_change_copied(&change)?);
    Ok(())
}
