//! What the system asks of the outside: a source of bytes, a sink for them, and a gate.
ghost use Rattle.std.specs.Prelude.{◌≡◌, ◌<◌, ◌≤◌, ◌++◌, ℕ, List, length, take, IfOk, OnErr};
ghost use Rattle.rdf_ports.specs.Bytes.{Takes};
ghost use Rattle.rdf_ports.specs.Counts.{CountsFault};

use rdf_types::records::VolNo;
use std::fmt;

/// A source or a sink did not do what was asked. It took or appended nothing.
#[derive(Clone, Copy, Debug, PartialEq, Eq)]
pub struct Failed;

impl fmt::Display for Failed {
    ghost use Rattle.std.specs.Prelude.{Some};
    ghost use Rattle.rdf_ports.specs.Saying.{failed_text};

    ghost output = { λ _. Some failed_text };

    fn fmt<W: fmt::Write>(&self, f: &mut fmt::Formatter<W>) -> fmt::Result {
        f.write_str("failed")
    }
}

/// Gives bytes, in pieces of any size.
pub trait Source {
    /// Whether sources of this type tell which bytes are left.
    ghost tells: { Type 0 };

    /// The bytes left, where it tells.
    ghost left: { Self → List ℕ };

    /// How often it has failed. It stays at 2 ^ 64 - 1.
    ghost faults: { Self → ℕ };

    /// Takes the next bytes into the front of the buffer, and answers how many. 0 is the end.
    /// A source that tells leaves the rest of the buffer as it was. An `Err` takes nothing.
    fn read(&mut self, into: &mut [u8]) -> Result<usize, Failed>
        requires { 0 < length into.old }
        ensures ok { tells → IfOk result (λ n. Takes n (left self.old) (left self.new) into.old into.new) }
        ensures within { IfOk result (λ n. n ≤ length into.old) }
        ensures err { tells → OnErr result (left self.new ≡ left self.old) }
        ensures cause { CountsFault result (faults self.old) (faults self.new) };
}

/// Takes bytes, in pieces of any size.
pub trait Sink {
    /// Whether sinks of this type tell what was written.
    ghost tells: { Type 0 };

    /// The bytes written, where it tells.
    ghost written: { Self → List ℕ };

    /// How often it has failed. It stays at 2 ^ 64 - 1.
    ghost faults: { Self → ℕ };

    /// Appends the first bytes of the piece, and answers how many, at least one. An `Err` appends nothing.
    fn write(&mut self, piece: &[u8]) -> Result<usize, Failed>
        requires { 0 < length piece.now }
        ensures ok { tells → IfOk result (λ n. written self.new ≡ written self.old ++ take n piece.now) }
        ensures within { IfOk result (λ n. (0 < n) × (n ≤ length piece.now)) }
        ensures err { tells → OnErr result (written self.new ≡ written self.old) }
        ensures cause { CountsFault result (faults self.old) (faults self.new) };
}

/// What is passed before images are applied to a volume. It may wait, and tells nothing.
pub trait Gate {
    fn before_apply(&self, vol: VolNo);
}

/// A gate that returns at once.
#[derive(Clone, Copy, Debug)]
pub struct NoGate;

impl Gate for NoGate {
    fn before_apply(&self, _vol: VolNo) {}
}
