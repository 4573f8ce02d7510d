//! A source and a sink in memory, some of whose calls fail.
ghost use Rattle.std.specs.Prelude.{◌≡◌, ◌<◌, ◌≤◌, ◌++◌, [], min, length, take, is_err, not, ◌&&◌, false, IfOk, OnOk, OnErr, if◌then◌else◌};
ghost use Rattle.rdf_ports.specs.Bytes.{Takes};
ghost use Rattle.rdf_ports.specs.Calls.{no_calls, is_listed, after_call, one_more};
ghost use Rattle.rdf_ports.specs.Counts.{CountsFault};
ghost use Rattle.rdf_ports.specs.Memory.{faults_of};

use crate::calls::CallList;
use crate::traits::{Failed, Sink, Source};
use std::alloc::Global;
use std::marker::Model;

/// Gives the bytes that it was made with, as many as there is room for at each call.
/// The listed calls, numbered from 0, answer `Failed`.
#[derive(Drop)]
pub struct MemSource {
    bytes: Vec<u8>,
    at: usize,
    calls: CallList,
}

impl Model for MemSource {
    ghost use Rattle.std.specs.Prelude.{◌≤◌, drop, length};
    ghost use Rattle.rdf_ports.specs.Memory.{SourceState};

    ghost Value = { SourceState };

    ghost view = { λ s. record { left = drop s.at s.bytes.items; calls = s.calls } };

    ghost invariant = { λ s. s.at ≤ length s.bytes.items };
}

impl MemSource {
    /// Has these bytes. The listed calls are to fail.
    pub fn new(bytes: Vec<u8>, fails: Vec<u64>) -> MemSource
        ensures { result ≡ record { left = bytes.items; calls = no_calls fails.items } }
    {
        MemSource {
            bytes,
            at: 0,
            calls: CallList::new(fails),
        }
    }
}

impl Source for MemSource {
    ghost tells = { Unit {0} };

    ghost left = { λ s. s.left };

    ghost faults = { λ s. s.calls.failed };

    fn read(&mut self, into: &mut [u8]) -> Result<usize, Failed>
        requires { 0 < length into.old }
        ensures ok { IfOk result (λ n. Takes n self.old.left self.new.left into.old into.new) }
        ensures within { IfOk result (λ n. n ≡ min (length into.old) (length self.old.left)) }
        ensures err { OnErr result ((self.new.left ≡ self.old.left) × (into.new ≡ into.old)) }
        ensures cause { CountsFault result self.old.calls.failed self.new.calls.failed }
        ensures listed { is_err result ≡ is_listed self.old.calls }
        ensures calls { self.new.calls ≡ after_call self.old.calls }
    {
        if self.calls.next_fails() {
            return Err(Failed);
        }
        let taken = into.len().min(self.bytes.len() - self.at);
        into[..taken].copy_from_slice(&self.bytes[self.at..self.at + taken]);
        self.at += taken;
        Ok(taken)
    }
}

/// Keeps what is written to it. The listed calls, numbered from 0, answer `Failed`.
#[derive(Drop)]
pub struct MemSink {
    written: Vec<u8>,
    calls: CallList,
    refused: u64,
}

impl Model for MemSink {
    ghost use Rattle.rdf_ports.specs.Memory.{SinkState};

    ghost Value = { SinkState };

    ghost view = { λ s. record { written = s.written.items; calls = s.calls; refused = s.refused } };
}

impl MemSink {
    /// Holds nothing yet. The listed calls are to fail.
    pub fn new(alloc: Global, fails: Vec<u64>) -> MemSink
        ensures { result ≡ record { written = []; calls = no_calls fails.items; refused = 0 } }
    {
        MemSink {
            written: Vec::new(alloc),
            calls: CallList::new(fails),
            refused: 0,
        }
    }

    /// The bytes written.
    pub fn written(&self) -> &[u8]
        ensures { result.now ≡ self.now.written }
    {
        &self.written
    }

    /// How many writes found no memory for their bytes. It stays at 2 ^ 64 - 1.
    pub fn refused(&self) -> u64
        ensures { result ≡ self.now.refused }
    {
        self.refused
    }
}

impl Sink for MemSink {
    ghost tells = { Unit {0} };

    ghost written = { λ s. s.written };

    ghost faults = { faults_of };

    fn write(&mut self, piece: &[u8]) -> Result<usize, Failed>
        requires { 0 < length piece.now }
        ensures ok { IfOk result (λ n. self.new.written ≡ self.old.written ++ take n piece.now) }
        ensures within { IfOk result (λ n. n ≡ length piece.now) }
        ensures err { OnErr result (self.new.written ≡ self.old.written) }
        ensures cause { CountsFault result (faults_of self.old) (faults_of self.new) }
        ensures listed { OnOk result (is_listed self.old.calls ≡ false) }
        ensures calls { self.new.calls ≡ after_call self.old.calls }
        ensures refused { self.new.refused ≡ (if is_err result && not (is_listed self.old.calls) then one_more self.old.refused else self.old.refused) }
    {
        if self.calls.next_fails() {
            return Err(Failed);
        }
        if self.written.extend_from_slice(piece).is_err() {
            self.refused = self.refused.saturating_add(1);
            return Err(Failed);
        }
        Ok(piece.len())
    }
}
