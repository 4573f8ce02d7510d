//! Changes and answers of volumes, from bytes.
use rdf_types::names::{FileName, Key, NameFault, Value};
use rdf_types::records::Change;
use std::alloc::Global;

/// A file, a key and what stands there: no bytes where nothing does.
pub(crate) type Place = (&'static [u8], &'static [u8], &'static [u8]);

/// Sets a place to the value, or empties it where the value is empty.
pub(crate) fn change(
    alloc: Global,
    file: &[u8],
    key: &[u8],
    value: &[u8],
) -> Result<Change, NameFault> {
    let file = FileName::read(alloc, file)?;
    let key = Key::read(alloc, key)?;
    if value.is_empty() {
        return Ok(Change {
            file,
            key,
            after: None,
        });
    }
    let after = Some(Value::read(alloc, value)?);
    Ok(Change { file, key, after })
}
