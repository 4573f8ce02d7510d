//! Records, rows and bytes that several of the tests have.
use rdf_types::names::{FileName, Key, NameFault, Value};
use rdf_types::records::{Record, Row, TxnId, VolNo};
use std::alloc::Global;

/// Transaction 1 inserts the value `10` at the key `k1` of the file `f` of volume 0.
pub(crate) fn image(alloc: Global) -> Result<Record, NameFault> {
    Ok(Record::Image {
        txn: TxnId(1),
        vol: VolNo(0),
        file: FileName::read(alloc, b"f")?,
        key: Key::read(alloc, b"k1")?,
        before: None,
        after: Some(Value::read(alloc, b"10")?),
    })
}

/// The bytes of that image.
pub(crate) const IMAGE: [u8; 16] = [1, 0, 0, 0, 1, 0, 1, 102, 2, 107, 49, 0, 1, 2, 49, 48];

/// The bytes of its commit.
pub(crate) const COMMIT: [u8; 5] = [2, 0, 0, 0, 1];

/// A log of both.
pub(crate) fn both() -> &'static [u8] {
    &[
        1, 0, 0, 0, 16, 1, 0, 0, 0, 1, 0, 1, 102, 2, 107, 49, 0, 1, 2, 49, 48, 1, 0, 0, 0, 5, 2, 0,
        0, 0, 1, 0,
    ]
}

/// A row of these texts.
pub(crate) fn row(alloc: Global, file: &[u8], key: &[u8], value: &[u8]) -> Result<Row, NameFault> {
    Ok(Row {
        file: FileName::read(alloc, file)?,
        key: Key::read(alloc, key)?,
        value: Value::read(alloc, value)?,
    })
}
