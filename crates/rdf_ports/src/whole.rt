//! Writing all of some bytes, and reading all that a source has.
ghost use Rattle.std.specs.Prelude.{◌≡◌, ◌<◌, ◌≤◌, ◌+◌, ◌-◌, ◌++◌, ℕ, [], length, take, drop, Ok, Err, true, false, IfOk, OnOk, OnErr};
ghost use Rattle.rdf_ports.specs.Counts.{CountsFault, CountsReadFault};

use crate::traits::{Failed, Sink, Source};
use std::alloc::{AllocError, Global};
use std::fmt;

/// Writes all the bytes, in as many writes as it takes. An `Err` leaves the first of them written, or none, and never all.
pub fn write_all<K: Sink>(sink: &mut K, bytes: &[u8]) -> Result<(), Failed>
    ensures ok { K.tells → OnOk result (K.written sink.new ≡ K.written sink.old ++ bytes.now) }
    ensures err { K.tells → OnErr result ((k : ℕ) × (k < length bytes.now) × (K.written sink.new ≡ K.written sink.old ++ take k bytes.now)) }
    ensures cause { CountsFault result (K.faults sink.old) (K.faults sink.new) }
{
    let mut done = 0;
    while done < bytes.len() {
        done += sink.write(&bytes[done..])?;
    }
    Ok(())
}

/// Why a source was not read to its end.
#[derive(Clone, Copy, Debug, PartialEq, Eq)]
pub enum ReadAllFault {
    /// A read failed.
    Failed,
    /// The source has more bytes than are allowed.
    TooLong,
    /// There was no memory for the bytes.
    NoMemory,
}

impl fmt::Display for ReadAllFault {
    ghost use Rattle.std.specs.Prelude.{Some};
    ghost use Rattle.rdf_ports.specs.Saying.{read_all_fault_text};

    ghost output = { λ fault. Some (read_all_fault_text fault) };

    fn fmt<W: fmt::Write>(&self, f: &mut fmt::Formatter<W>) -> fmt::Result {
        match *self {
            ReadAllFault::Failed => f.write_str("cannot read"),
            ReadAllFault::TooLong => f.write_str("too long"),
            ReadAllFault::NoMemory => f.write_str("no memory"),
        }
    }
}

impl From<Failed> for ReadAllFault {
    ghost use Rattle.rdf_ports.specs.declared.whole.ReadAllFault.TheVariants.{Failed as ReadFailed};
    ghost use Rattle.std.specs.Prelude.{◌≡◌};

    ghost from_gives = { λ _ e. e ≡ ReadFailed };

    fn from(_: Failed) -> Self {
        ReadAllFault::Failed
    }
}

impl From<AllocError> for ReadAllFault {
    ghost use Rattle.rdf_ports.specs.declared.whole.ReadAllFault.TheVariants.{NoMemory};
    ghost use Rattle.std.specs.Prelude.{◌≡◌};

    ghost from_gives = { λ _ e. e ≡ NoMemory };

    fn from(_: AllocError) -> Self {
        ReadAllFault::NoMemory
    }
}

/// How many bytes a source is asked for at once, at most.
const PIECE: usize = 4096;

/// Reads a source to its end, where it has at most `limit` bytes. It takes at most one byte more than that.
/// An `Err` leaves the source where it stands, and what was read is lost.
pub fn read_all<S: Source>(
    alloc: Global,
    source: &mut S,
    limit: u32,
) -> Result<Vec<u8>, ReadAllFault>
    ensures ok { S.tells → IfOk result (λ bytes. (bytes.items ≡ S.left source.old) × (S.left source.new ≡ [])) }
    ensures within { IfOk result (λ bytes. length bytes.items ≤ limit) }
    ensures too_long { S.tells → result ≡ Err ReadAllFault.TooLong → limit < length (S.left source.old) }
    ensures took { S.tells → (k : ℕ) × (k ≤ limit + 1) × (S.left source.new ≡ drop k (S.left source.old)) }
    ensures cause { CountsReadFault result (S.faults source.old) (S.faults source.new) }
{
    let mut held = Vec::new(alloc);
    let mut piece = [0; PIECE];
    while read_piece(source, &mut piece, limit, &mut held)? {}
    Ok(held)
}

/// Takes one more piece onto what is held, and answers whether there was one.
fn read_piece<S: Source>(
    source: &mut S,
    piece: &mut [u8],
    limit: u32,
    held: &mut Vec<u8>,
) -> Result<bool, ReadAllFault>
    requires room { 0 < length piece.old }
    requires held { length held.old.items ≤ limit }
    ensures same { S.tells → OnOk result (held.new.items ++ S.left source.new ≡ held.old.items ++ S.left source.old) }
    ensures within { OnOk result (length held.new.items ≤ limit) }
    ensures more { IfOk result (λ more. more ≡ true → length held.old.items < length held.new.items) }
    ensures end { S.tells → IfOk result (λ more. more ≡ false → S.left source.new ≡ []) }
    ensures too_long { S.tells → result ≡ Err ReadAllFault.TooLong → limit < length held.old.items + length (S.left source.old) }
    ensures took { S.tells → (k : ℕ) × (length held.old.items + k ≤ limit + 1) × (S.left source.new ≡ drop k (S.left source.old)) }
    ensures cause { CountsReadFault result (S.faults source.old) (S.faults source.new) }
{
    let room = piece.len().min(limit as usize + 1 - held.len());
    let taken = source.read(&mut piece[..room])?;
    if taken == 0 {
        return Ok(false);
    }
    if limit as usize - held.len() < taken {
        return Err(ReadAllFault::TooLong);
    }
    held.extend_from_slice(&piece[..taken])?;
    Ok(true)
}
