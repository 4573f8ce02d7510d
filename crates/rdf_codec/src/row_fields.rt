//! The fields of rows, changes and entries of an index, where they stand in an input.
ghost use Rattle.std.specs.Prelude.{◌≡◌, ◌≤◌, ◌<◌, ◌+◌, ◌^◌, IfOk};
ghost use Rattle.rdf_codec.specs.Reading.{left_of, Gives};
ghost use Rattle.rdf_codec.specs.Shown.{row_of, change_of, entry_of, place_in};
ghost use Rattle.rdf_codec.specs.VolumeReading.{is_above, row_at, change_at, entry_at};

use crate::fault::CodecFault;
use crate::index_entries::IndexEntry;
use crate::input::Input;
use crate::record_fields::optional;
use rdf_types::names::{FileName, Key, Value};
use rdf_types::records::{Change, Row};
use std::alloc::{AllocError, Global};

/// A row whose texts still stand in the input.
#[derive(Clone, Copy)]
pub struct RowFields<'a> {
    pub file: &'a [u8],
    pub key: &'a [u8],
    pub value: &'a [u8],
}

impl<'a> RowFields<'a> {
    /// The row at the front, if it is above the last one.
    #[tactic(auto, unfolding(crate::specs::VolumeReading::row_at, crate::specs::VolumeReading::place_at))]
    pub fn read(
        last: Option<RowFields<'a>>,
        input: Input<'a>,
    ) -> Result<(RowFields<'a>, Input<'a>), CodecFault>
        requires { input.at < 2 ^ 30 }
        ensures value { Gives (λ x. (row_of x.0, left_of x.1)) result (row_at (place_in last.entry) (left_of input.entry)) }
        ensures near { IfOk result (λ x. x.1.at ≤ input.entry.at + 251) }
    {
        let (file, rest) = input.file_name()?;
        let (key, rest) = rest.key()?;
        if !stands_above(last, file, key) {
            return Err(CodecFault::BadNumber { at: input.at });
        }
        let (value, rest) = rest.value()?;
        Ok((RowFields { file, key, value }, rest))
    }

    /// The row, with texts of its own.
    pub fn row(self, alloc: Global) -> Result<Row, AllocError>
        ensures { IfOk result (λ row. row ≡ row_of self.entry) }
    {
        let file = FileName::read(alloc, self.file).ok().ok_or(AllocError)?;
        let key = Key::read(alloc, self.key).ok().ok_or(AllocError)?;
        let value = Value::read(alloc, self.value).ok().ok_or(AllocError)?;
        Ok(Row { file, key, value })
    }
}

// Whether the file and key are above those of the last row.
fn stands_above(last: Option<RowFields<'_>>, file: &[u8], key: &[u8]) -> bool
    ensures { result ≡ is_above (place_in last.entry) (file.now, key.now) }
{
    match last {
        None => true,
        Some(last) => last.file.cmp(file).then(last.key.cmp(key)).is_lt(),
    }
}

/// A change whose texts still stand in the input.
#[derive(Clone, Copy)]
pub struct ChangeFields<'a> {
    pub file: &'a [u8],
    pub key: &'a [u8],
    pub after: Option<&'a [u8]>,
}

impl<'a> ChangeFields<'a> {
    /// The change at the front.
    #[tactic(auto, unfolding(crate::specs::VolumeReading::change_at))]
    pub fn read(input: Input<'a>) -> Result<(ChangeFields<'a>, Input<'a>), CodecFault>
        requires { input.at < 2 ^ 30 }
        ensures value { Gives (λ x. (change_of x.0, left_of x.1)) result (change_at (left_of input.entry)) }
        ensures near { IfOk result (λ x. x.1.at ≤ input.entry.at + 252) }
    {
        let (file, rest) = input.file_name()?;
        let (key, rest) = rest.key()?;
        let (after, rest) = rest.optional()?;
        Ok((ChangeFields { file, key, after }, rest))
    }

    /// The change, with texts of its own.
    pub fn change(self, alloc: Global) -> Result<Change, AllocError>
        ensures { IfOk result (λ change. change ≡ change_of self.entry) }
    {
        let file = FileName::read(alloc, self.file).ok().ok_or(AllocError)?;
        let key = Key::read(alloc, self.key).ok().ok_or(AllocError)?;
        let after = optional(alloc, self.after)?;
        Ok(Change { file, key, after })
    }
}

/// An entry of an index whose texts still stand in the input.
#[derive(Clone, Copy)]
pub struct EntryFields<'a> {
    pub at: u64,
    pub file: &'a [u8],
    pub key: &'a [u8],
}

impl<'a> EntryFields<'a> {
    /// The entry at the front.
    #[tactic(auto, unfolding(crate::specs::VolumeReading::entry_at))]
    pub fn read(input: Input<'a>) -> Result<(EntryFields<'a>, Input<'a>), CodecFault>
        requires { input.at < 2 ^ 30 }
        ensures value { Gives (λ x. (entry_of x.0, left_of x.1)) result (entry_at (left_of input.entry)) }
        ensures near { IfOk result (λ x. x.1.at ≤ input.entry.at + 58) }
    {
        let (at, rest) = input.u64()?;
        let (file, rest) = rest.file_name()?;
        let (key, rest) = rest.key()?;
        Ok((EntryFields { at, file, key }, rest))
    }

    /// The entry, with texts of its own.
    pub fn entry(self, alloc: Global) -> Result<IndexEntry, AllocError>
        ensures { IfOk result (λ entry_. entry_ ≡ entry_of self.entry) }
    {
        let file = FileName::read(alloc, self.file).ok().ok_or(AllocError)?;
        let key = Key::read(alloc, self.key).ok().ok_or(AllocError)?;
        Ok(IndexEntry {
            at: self.at,
            file,
            key,
        })
    }
}
