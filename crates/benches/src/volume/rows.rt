//! The rows that a volume is filled with, and the order in which they come.
ghost use Rattle.std.specs.Prelude.{◌≡◌, ◌<◌, ◌≤◌, length, IfOk};

use rdf_types::names::{FileName, Key, Value};
use rdf_types::records::Change;
use std::alloc::{AllocError, Global};

/// Primes: the multiples of one, each taken by a count of rows, go over all numbers below the count, unless it is a multiple of the prime.
const PUT: u64 = 2_654_435_761;

const ASKED: u64 = 3_266_489_917;

/// The number of the row that is put at a place of the order. Two places have two numbers.
pub fn number_put(place: u32, rows: u32) -> u32
    requires { 0 < rows }
{
    (u64::from(place) * PUT % u64::from(rows)) as u32
}

/// The number of the row that is asked for at a place of another order.
pub fn number_asked(place: u32, rows: u32) -> u32
    requires { 0 < rows }
{
    (u64::from(place) * ASKED % u64::from(rows)) as u32
}

/// The file of all rows.
pub fn file_name(alloc: Global) -> Result<FileName, AllocError> {
    FileName::read(alloc, b"f").map_err(|_| AllocError)
}

/// The key of the row of that number.
pub fn key_of(alloc: Global, number: u32) -> Result<Key, AllocError> {
    let text = format!(in alloc; "{number}")?;
    Key::read(alloc, text.as_bytes()).map_err(|_| AllocError)
}

/// The value of the row of that number, of 11 bytes and its digits.
pub fn value_of(alloc: Global, number: u32) -> Result<Value, AllocError> {
    let text = format!(in alloc; "the-row-no-{number}")?;
    Value::read(alloc, text.as_bytes()).map_err(|_| AllocError)
}

fn change_of(alloc: Global, number: u32) -> Result<Change, AllocError> {
    Ok(Change {
        file: file_name(alloc)?,
        key: key_of(alloc, number)?,
        after: Some(value_of(alloc, number)?),
    })
}

/// The changes that put the rows at the places from the first on, 64 of them or as many as there are.
pub fn batch_at(alloc: Global, first: u32, rows: u32) -> Result<Vec<Change>, AllocError>
    requires { 0 < rows }
    ensures { IfOk result (λ batch. length batch.items ≤ 64) }
{
    let mut batch = Vec::new(alloc);
    let end = first.saturating_add(64).min(rows);
    for place in first..end {
        batch.push(change_of(alloc, number_put(place, rows))?)?;
    }
    Ok(batch)
}
