//! Writing records and rows.
ghost use Rattle.std.specs.Prelude.{◌≡◌, ◌≤◌, ◌<◌, ◌^◌, IfSome, ◌++◌, length, take, vec_len, OnOk, OnErr};
ghost use Rattle.rdf_codec.specs.Spelling.{record_spelling, row_spelling, change_spelling, IsRecord, IsRow, IsChange};
ghost use Rattle.rdf_types.specs.Limits.{IsValue};

use crate::text_writing::{put_byte, put_optional, put_text, put_txn};
use rdf_types::names::Value;
use rdf_types::records::{Change, Record, Row, TxnId};
use std::alloc::AllocError;

/// Appends the spelling of the record. An `Err` leaves `out` as it was.
#[tactic(auto, using(crate::proofs::Lengths::spelling_few, crate::proofs::Lengths::spelling_some))]
pub fn write_record(rec: &Record, out: &mut Vec<u8>) -> Result<(), AllocError>
    ensures ok { OnOk result (out.new.items ≡ out.old.items ++ record_spelling rec.now) }
    ensures err { OnErr result (out.new.items ≡ out.old.items) }
    // Of any record, whatever the answer.
    ensures limits { IsRecord rec.now }
    ensures some { 5 ≤ length (record_spelling rec.now) }
    ensures few { length (record_spelling rec.now) ≤ 460 }
{
    known(rec);
    let start = out.len();
    let written = put_record(rec, out);
    if written.is_err() {
        out.truncate(start);
    }
    written
}

/// Appends the spelling of the row. An `Err` leaves `out` as it was.
pub fn write_row(row: &Row, out: &mut Vec<u8>) -> Result<(), AllocError>
    ensures ok { OnOk result (out.new.items ≡ out.old.items ++ row_spelling row.now) }
    ensures err { OnErr result (out.new.items ≡ out.old.items) }
    // Of any row, whatever the answer.
    ensures limits { IsRow row.now }
{
    let start = out.len();
    let written = put_row(row, out);
    if written.is_err() {
        out.truncate(start);
    }
    written
}

/// Appends the spelling of the change. An `Err` leaves `out` as it was.
pub fn write_change(change: &Change, out: &mut Vec<u8>) -> Result<(), AllocError>
    ensures ok { OnOk result (out.new.items ≡ out.old.items ++ change_spelling change.now) }
    ensures err { OnErr result (out.new.items ≡ out.old.items) }
    // Of any change, whatever the answer.
    ensures limits { IsChange change.now }
{
    let start = out.len();
    let written = put_change(change, out);
    if written.is_err() {
        out.truncate(start);
    }
    written
}

// Does nothing: a record is within the limits of its fields' types.
fn known(rec: &Record)
    ensures { IsRecord rec.now }
{
    match rec {
        Record::Image {
            txn,
            vol,
            file,
            key,
            before,
            after,
        } => {
            let _txn = number_of(*txn);
            let _vol = vol.number();
            let _file = file.bytes();
            let _key = key.bytes();
            known_value(before);
            known_value(after);
        }
        Record::Commit { txn } => {
            let _txn = number_of(*txn);
        }
        Record::Abort { txn } => {
            let _txn = number_of(*txn);
        }
    }
}

fn number_of(txn: TxnId) -> u32
    ensures value { result ≡ txn }
    ensures limit { result < 2 ^ 32 }
{
    txn.0
}

fn known_value(value: &Option<Value>)
    ensures { IfSome value.now IsValue }
{
    if let Some(value) = value {
        let _bytes = value.bytes();
    }
}

fn put_record(rec: &Record, out: &mut Vec<u8>) -> Result<(), AllocError>
    ensures ok { OnOk result (out.new.items ≡ out.old.items ++ record_spelling rec.now) }
    ensures kept { take (vec_len out.old) out.new.items ≡ out.old.items }
{
    match rec {
        Record::Image {
            txn,
            vol,
            file,
            key,
            before,
            after,
        } => {
            put_txn(1, number_of(*txn), out)?;
            put_byte(vol.number(), out)?;
            put_text(file.bytes(), out)?;
            put_text(key.bytes(), out)?;
            put_optional(before, out)?;
            put_optional(after, out)
        }
        Record::Commit { txn } => put_txn(2, number_of(*txn), out),
        Record::Abort { txn } => put_txn(3, number_of(*txn), out),
    }
}

fn put_row(row: &Row, out: &mut Vec<u8>) -> Result<(), AllocError>
    ensures ok { OnOk result (out.new.items ≡ out.old.items ++ row_spelling row.now) }
    ensures kept { take (vec_len out.old) out.new.items ≡ out.old.items }
    ensures limits { IsRow row.now }
{
    let file = row.file.bytes();
    let key = row.key.bytes();
    let value = row.value.bytes();
    put_text(file, out)?;
    put_text(key, out)?;
    put_text(value, out)
}

fn put_change(change: &Change, out: &mut Vec<u8>) -> Result<(), AllocError>
    ensures ok { OnOk result (out.new.items ≡ out.old.items ++ change_spelling change.now) }
    ensures kept { take (vec_len out.old) out.new.items ≡ out.old.items }
    ensures limits { IsChange change.now }
{
    let file = change.file.bytes();
    let key = change.key.bytes();
    known_value(&change.after);
    put_text(file, out)?;
    put_text(key, out)?;
    put_optional(&change.after, out)
}
