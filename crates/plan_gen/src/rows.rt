//! The rows of generated plans: their places and values.
ghost use Rattle.std.specs.Prelude.{◌≡◌, ◌<◌, ◌∷◌, true, codes, decimal, IfOk};
ghost use Rattle.rdf_types.specs.Limits.{is_text_byte};
ghost use Rattle.plan_gen.specs.Generated.{row_at, own_row, shared_row};

use itoa::Buffer;
use rdf_types::names::{FileName, Key, NameFault, Value};
use rdf_types::records::{RecKey, VolNo};
use std::alloc::{AllocError, Global};

/// The place of the row that a transaction inserts as its own.
pub fn own_row(alloc: Global, vol: u8, txn: u32) -> Result<RecKey, AllocError>
    requires { vol < 16 }
    ensures { IfOk result (λ place. place ≡ own_row vol txn) }
{
    row_at(alloc, vol, b'n', txn)
}

/// The place of a row that transactions share.
pub fn shared_row(alloc: Global, vol: u8, number: u32) -> Result<RecKey, AllocError>
    requires { vol < 16 }
    ensures { IfOk result (λ place. place ≡ shared_row vol number) }
{
    row_at(alloc, vol, b'k', number)
}

fn row_at(alloc: Global, vol: u8, letter: u8, number: u32) -> Result<RecKey, AllocError>
    requires vol { vol < 16 }
    requires letter { is_text_byte letter ≡ true }
    ensures { IfOk result (λ place. place ≡ row_at vol letter number) }
{
    let file = file_name(alloc)?;
    let key = lettered_key(alloc, letter, number)?;
    Ok(RecKey {
        vol: VolNo(vol),
        file,
        key,
    })
}

// All rows of generated plans are in one file of each volume.
fn file_name(alloc: Global) -> Result<FileName, AllocError>
    ensures { IfOk result (λ name. name ≡ codes "f") }
{
    match FileName::read(alloc, b"f") {
        Ok(name) => Ok(name),
        Err(fault) => Err(want_of_memory(fault)),
    }
}

fn lettered_key(alloc: Global, letter: u8, number: u32) -> Result<Key, AllocError>
    requires { is_text_byte letter ≡ true }
    ensures { IfOk result (λ key. key ≡ letter ∷ decimal number) }
{
    let mut buffer = Buffer::new();
    let mut text = Vec::new(alloc);
    text.push(letter)?;
    text.extend_from_slice(buffer.format(number).as_bytes())?;
    match Key::read(alloc, &text) {
        Ok(key) => Ok(key),
        Err(fault) => Err(want_of_memory(fault)),
    }
}

/// The value that is a number's text.
pub fn decimal_value(alloc: Global, number: u32) -> Result<Value, AllocError>
    ensures { IfOk result (λ value. value ≡ decimal number) }
{
    let mut buffer = Buffer::new();
    match Value::read(alloc, buffer.format(number).as_bytes()) {
        Ok(value) => Ok(value),
        Err(fault) => Err(want_of_memory(fault)),
    }
}

// A text that has no fault of its own wants memory alone.
fn want_of_memory(fault: NameFault) -> AllocError
    requires { fault ≡ NameFault.NoMemory }
{
    match fault {
        NameFault::NoMemory => AllocError,
        _ => unreachable!(),
    }
}
