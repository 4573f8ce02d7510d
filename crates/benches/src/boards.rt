//! Questions to a board.
ghost use Rattle.std.specs.Prelude.{◌≡◌, ◌≤◌, IfOk, length};
ghost use Rattle.rdf_types.specs.Entries.{Rises};

use image_board::Board;
use itoa::Buffer;
use rdf_disk::MemDisk;
use rdf_types::names::{FileName, Key, NameFault, Value};
use rdf_types::records::{Pos, Record, Stamped, TxnId, VolNo};
use std::alloc::Global;
use std::io;
use std::time::{Clock, Instant};
use updaters::VolumeNote;

const CALLS: u64 = 10_000;

/// An image at the position, of a row of its own on one of four volumes.
fn image(alloc: Global, pos: Pos) -> Result<Stamped, NameFault>
    ensures { IfOk result (λ s. s.pos ≡ pos) }
{
    let mut buffer = Buffer::new();
    let key = Key::read(alloc, buffer.format(pos).as_bytes())?;
    let file = FileName::read(alloc, b"f")?;
    let after = Some(Value::read(alloc, b"1")?);
    let rec = Record::Image {
        txn: TxnId(1),
        vol: VolNo((pos % 4) as u8),
        file,
        key,
        before: None,
        after,
    };
    Ok(Stamped { pos, rec })
}

/// Entries at the positions from 0 to below the count.
pub(crate) fn entries(alloc: Global, count: u64) -> io::Result<Vec<Stamped>>
    ensures { IfOk result (λ part. Rises 0 part.items count × (length part.items ≡ count)) }
{
    let mut part = Vec::new(alloc);
    for pos in 0..count {
        match image(alloc, pos) {
            Ok(entry) => part.push(entry)?,
            Err(_) => return Err(io::ErrorKind::OutOfMemory)?,
        }
    }
    Ok(part)
}

/// The nanoseconds of a question for the last images of a volume, on a board of so many entries.
pub(crate) fn next<R: Clock>(rt: &R, alloc: Global, count: u64) -> io::Result<u128>
    requires { 4 ≤ count }
{
    let notes: Vec<VolumeNote<MemDisk>> = Vec::new(alloc);
    let board = Board::start(alloc, entries(alloc, count)?, 0, count, notes);
    let start = Instant::now(rt)?;
    for _ in 0..CALLS {
        board.next_for(VolNo(0), count - 4, 16)?;
    }
    let elapsed = start.elapsed(rt)?;
    Ok(elapsed.as_nanos() / u128::from(CALLS))
}
