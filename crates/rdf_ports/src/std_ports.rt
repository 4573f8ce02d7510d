//! A source over std's reader, and a sink over std's writer.
ghost use Rattle.std.specs.Prelude.{◌≡◌, ◌<◌, ◌≤◌, length, IfOk};
ghost use Rattle.std.specs.Io.KnownBytes.{ReadConsumes, WriteAppends};
ghost use Rattle.rdf_ports.specs.Counts.{CountsFault};
ghost use Rattle.rdf_ports.specs.Std.{source_reader, sink_writer, source_faults, sink_faults};

use crate::traits::{Failed, Sink, Source};
use std::io::{ErrorKind, Read, Write};

/// How often a call that a signal interrupts is made, at most.
const TRIES: u32 = 64;

/// Reads from a reader of std's. It doesn't tell which bytes are left.
#[derive(Drop)]
pub struct StdSource<R> {
    reader: R,
    faults: u64,
}

impl<R> StdSource<R> {
    /// Of no fault yet.
    pub fn new(reader: R) -> StdSource<R>
        ensures reader { source_reader result ≡ reader }
        ensures faults { source_faults result ≡ 0 }
    {
        StdSource { reader, faults: 0 }
    }

    /// Gives the reader back.
    pub fn into_inner(self) -> R
        ensures { result ≡ source_reader self }
    {
        self.reader
    }
}

impl<R: Read> Source for StdSource<R> {
    ghost use Rattle.std.specs.Prelude.{[]};

    ghost tells = { ⊥ };

    ghost left = { λ _. [] };

    ghost faults = { source_faults };

    fn read(&mut self, into: &mut [u8]) -> Result<usize, Failed>
        requires { 0 < length into.old }
        ensures within { IfOk result (λ n. n ≤ length into.old) }
        ensures cause { CountsFault result (source_faults self.old) (source_faults self.new) }
        ensures bytes { ReadConsumes (R.remaining (source_reader self.old)) (R.remaining (source_reader self.new)) result into.new }
    {
        let answer = read_retrying(&mut self.reader, into);
        if answer.is_err() {
            self.faults = self.faults.saturating_add(1);
        }
        answer
    }
}

/// One read, again where a signal interrupts it.
fn read_retrying<R: Read>(reader: &mut R, into: &mut [u8]) -> Result<usize, Failed>
    ensures within { IfOk result (λ n. n ≤ length into.old) }
    ensures bytes { ReadConsumes (R.remaining reader.old) (R.remaining reader.new) result into.new }
{
    for _ in 0..TRIES {
        match reader.read(into) {
            Ok(taken) => return Ok(taken),
            Err(e) => {
                if e.kind() != ErrorKind::Interrupted {
                    return Err(Failed);
                }
            }
        }
    }
    Err(Failed)
}

/// Writes to a writer of std's, and never flushes it. It doesn't tell what was written.
#[derive(Drop)]
pub struct StdSink<W> {
    writer: W,
    faults: u64,
}

impl<W> StdSink<W> {
    /// Of no fault yet.
    pub fn new(writer: W) -> StdSink<W>
        ensures writer { sink_writer result ≡ writer }
        ensures faults { sink_faults result ≡ 0 }
    {
        StdSink { writer, faults: 0 }
    }

    /// Gives the writer back.
    pub fn into_inner(self) -> W
        ensures { result ≡ sink_writer self }
    {
        self.writer
    }
}

impl<W: Write> Sink for StdSink<W> {
    ghost use Rattle.std.specs.Prelude.{[]};

    ghost tells = { ⊥ };

    ghost written = { λ _. [] };

    ghost faults = { sink_faults };

    fn write(&mut self, piece: &[u8]) -> Result<usize, Failed>
        requires { 0 < length piece.now }
        ensures within { IfOk result (λ n. (0 < n) × (n ≤ length piece.now)) }
        ensures cause { CountsFault result (sink_faults self.old) (sink_faults self.new) }
        ensures bytes { WriteAppends (W.contents (sink_writer self.old)) (W.contents (sink_writer self.new)) result piece.now }
    {
        let answer = write_retrying(&mut self.writer, piece);
        if answer.is_err() {
            self.faults = self.faults.saturating_add(1);
        }
        answer
    }
}

/// One write, again where a signal interrupts it. A write that takes nothing is `Failed`.
fn write_retrying<W: Write>(writer: &mut W, piece: &[u8]) -> Result<usize, Failed>
    ensures within { IfOk result (λ n. (0 < n) × (n ≤ length piece.now)) }
    ensures bytes { WriteAppends (W.contents writer.old) (W.contents writer.new) result piece.now }
{
    for _ in 0..TRIES {
        match writer.write(piece) {
            Ok(0) => return Err(Failed),
            Ok(taken) => return Ok(taken),
            Err(e) => {
                if e.kind() != ErrorKind::Interrupted {
                    return Err(Failed);
                }
            }
        }
    }
    Err(Failed)
}
