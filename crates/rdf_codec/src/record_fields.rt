//! The fields of a record, where they stand in an input.
ghost use Rattle.std.specs.Prelude.{◌≡◌, IfOk};
ghost use Rattle.std.specs.Option.{option_copied};
ghost use Rattle.rdf_codec.specs.Shown.{record_of, HasVolume};

use rdf_types::names::{FileName, Key, Value};
use rdf_types::records::{Record, TxnId, VolNo};
use std::alloc::{AllocError, Global};

/// A record whose texts still stand in the input.
#[derive(Drop)]
pub enum RecordFields<'a> {
    Image {
        txn: u32,
        vol: u8,
        file: &'a [u8],
        key: &'a [u8],
        before: Option<&'a [u8]>,
        after: Option<&'a [u8]>,
    },
    Commit {
        txn: u32,
    },
    Abort {
        txn: u32,
    },
}

impl<'a> RecordFields<'a> {
    /// The record, with texts of its own. Memory is all that it can want.
    pub fn record(self, alloc: Global) -> Result<Record, AllocError>
        requires { HasVolume self }
        ensures { IfOk result (λ rec. rec ≡ record_of self.entry) }
    {
        match self {
            RecordFields::Image {
                txn,
                vol,
                file,
                key,
                before,
                after,
            } => {
                let file = FileName::read(alloc, file).ok().ok_or(AllocError)?;
                let key = Key::read(alloc, key).ok().ok_or(AllocError)?;
                let before = optional(alloc, before)?;
                let after = optional(alloc, after)?;
                Ok(Record::Image {
                    txn: TxnId(txn),
                    vol: VolNo(vol),
                    file,
                    key,
                    before,
                    after,
                })
            }
            RecordFields::Commit { txn } => Ok(Record::Commit { txn: TxnId(txn) }),
            RecordFields::Abort { txn } => Ok(Record::Abort { txn: TxnId(txn) }),
        }
    }
}

/// The value, with bytes of its own.
pub fn optional(alloc: Global, bytes: Option<&[u8]>) -> Result<Option<Value>, AllocError>
    ensures { IfOk result (λ value. value ≡ option_copied bytes.entry) }
{
    let Some(bytes) = bytes else {
        return Ok(None);
    };
    let value = Value::read(alloc, bytes).ok().ok_or(AllocError)?;
    Ok(Some(value))
}
