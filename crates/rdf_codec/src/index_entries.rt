//! The entries of a volume's index, and the blocks that they make.
ghost use Rattle.std.specs.Prelude.{◌≡◌, ◌≤◌, ◌<◌, ◌+◌, ◌++◌, ◌^◌, length, take, vec_len, OnOk, OnErr};
ghost use Rattle.std.specs.List.{All, flat_map};
ghost use Rattle.rdf_codec.specs.declared.volume_blocks.VolumeBlock.TheVariants as block;
ghost use Rattle.rdf_codec.specs.VolumeBlocks.{entry_spelling, index_spelling, volume_spelling, FillsIndex, IsIndexEntry, IsVolumeBlock};

use crate::text_writing::{put_bytes, put_count, put_text};
use crate::volume_reading::MOST_BYTES;
use rdf_types::names::{FileName, Key};
use std::alloc::AllocError;

/// Where a block of rows stands, and with which row it begins.
#[derive(Debug, Drop, PartialEq, Eq)]
pub struct IndexEntry {
    /// The place of the block's gate in its file.
    pub at: u64,
    /// The file of the block's first row.
    pub file: FileName,
    /// The key of the block's first row.
    pub key: Key,
}

/// Appends the spelling of a block of these entries. An `Err` leaves `out` as it was.
pub fn write_index(entries: &[IndexEntry], out: &mut Vec<u8>) -> Result<(), AllocError>
    requires { FillsIndex entries.now }
    ensures ok { OnOk result (out.new.items ≡ out.old.items ++ volume_spelling (block.Index entries.now)) }
    ensures err { OnErr result (out.new.items ≡ out.old.items) }
    ensures limits { OnOk result (IsVolumeBlock (block.Index entries.now)) }
{
    let start = out.len();
    let written = put_index(entries, out);
    if written.is_err() {
        out.truncate(start);
    }
    written
}

fn put_index(entries: &[IndexEntry], out: &mut Vec<u8>) -> Result<(), AllocError>
    requires { length entries.now < 2 ^ 16 }
    ensures ok { OnOk result (out.new.items ≡ out.old.items ++ index_spelling entries.now) }
    ensures kept { take (vec_len out.old) out.new.items ≡ out.old.items }
    ensures limits { OnOk result (All IsIndexEntry entries.now) }
{
    put_count(36, entries.len() as u16, out)?;
    put_each_entry(entries, out)
}

fn put_each_entry(entries: &[IndexEntry], out: &mut Vec<u8>) -> Result<(), AllocError>
    ensures ok { OnOk result (out.new.items ≡ out.old.items ++ flat_map entry_spelling entries.now) }
    ensures kept { take (vec_len out.old) out.new.items ≡ out.old.items }
    ensures limits { OnOk result (All IsIndexEntry entries.now) }
{
    for entry in entries {
        write_entry(entry, out)?;
    }
    Ok(())
}

/// Appends the spelling of the entry. An `Err` leaves `out` as it was.
fn write_entry(entry: &IndexEntry, out: &mut Vec<u8>) -> Result<(), AllocError>
    ensures ok { OnOk result (out.new.items ≡ out.old.items ++ entry_spelling entry.now) }
    ensures err { OnErr result (out.new.items ≡ out.old.items) }
    // Of any entry, whatever the answer.
    ensures limits { IsIndexEntry entry.now }
{
    let start = out.len();
    let written = put_entry(entry, out);
    if written.is_err() {
        out.truncate(start);
    }
    written
}

fn put_entry(entry: &IndexEntry, out: &mut Vec<u8>) -> Result<(), AllocError>
    ensures ok { OnOk result (out.new.items ≡ out.old.items ++ entry_spelling entry.now) }
    ensures kept { take (vec_len out.old) out.new.items ≡ out.old.items }
    ensures limits { IsIndexEntry entry.now }
{
    let file = entry.file.bytes();
    let key = entry.key.bytes();
    put_bytes(&entry.at.to_be_bytes(), out)?;
    put_text(file, out)?;
    put_text(key, out)
}

/// How many bytes the spelling of the entry has.
pub fn entry_length(entry: &IndexEntry) -> usize
    ensures value { result ≡ length (entry_spelling entry.now) }
    ensures few { result ≤ 58 }
{
    10 + entry.file.bytes().len() + entry.key.bytes().len()
}

/// How many of the entries, from the first on, fit into one block of 4,096 bytes.
#[tactic(auto, using(crate::proofs::Blocks::index_fills))]
pub fn entries_in_block(entries: &[IndexEntry]) -> usize
    ensures within { result ≤ length entries.now }
    ensures some { 0 < length entries.now → 0 < result }
    ensures fits { length (index_spelling (take result entries.now)) ≤ 4096 }
    // The next entry would not fit.
    ensures full { result < length entries.now → 4096 < length (index_spelling (take (result + 1) entries.now)) }
    // They make a block.
    ensures fills { 0 < length entries.now → FillsIndex (take result entries.now) }
{
    let mut size = 3;
    for (at, entry) in entries.iter().enumerate() {
        size += entry_length(entry);
        if size > MOST_BYTES {
            return at;
        }
    }
    entries.len()
}
