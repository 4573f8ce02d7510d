//! The image of a change, and the change that it makes on its volume.
ghost use Rattle.std.specs.Prelude.{◌≡◌, IfOk};
ghost use Rattle.rdf_types.specs.declared.records.Record.TheVariants.{Image};

use rdf_types::names::Value;
use rdf_types::records::{Change, RecKey, Record, TxnId, copy_of};
use std::alloc::AllocError;

/// What the place is set to on its volume.
pub fn change_of(key: &RecKey, after: &Option<Value>) -> Result<Change, AllocError>
    ensures { IfOk result (λ change. change ≡ record { file = key.now.file; key = key.now.key; after = after.now }) }
{
    let file = key.file.try_clone()?;
    let name = key.key.try_clone()?;
    let after = copy_of(after.as_ref())?;
    Ok(Change {
        file,
        key: name,
        after,
    })
}

/// The image of a change of a place.
pub fn image_of(
    txn: TxnId,
    key: &RecKey,
    before: Option<Value>,
    after: Option<Value>,
) -> Result<Record, AllocError>
    ensures { IfOk result (λ rec. rec ≡ Image txn key.now.vol key.now.file key.now.key before after) }
{
    let file = key.file.try_clone()?;
    let name = key.key.try_clone()?;
    Ok(Record::Image {
        txn,
        vol: key.vol,
        file,
        key: name,
        before,
        after,
    })
}
