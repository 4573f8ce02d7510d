//! What the program is asked for by its words.
use std::fmt;

/// What is asked for, by a list of words that the program takes.
#[derive(Debug, Drop)]
pub enum Words {
    /// The plan on standard input is performed over disks in memory.
    Run,
    /// It is performed over folders in `dir`.
    RunDir { dir: String },
    /// Its replies are predicted, and no disk is touched.
    Predict,
    /// The plan of so many transactions that is generated from the seed is performed in memory and summed up.
    Make { seed: u32, txns: u32 },
}

/// Why words were not read.
#[derive(Clone, Copy, Debug, PartialEq, Eq)]
pub enum WordsFault {
    /// They are none of the lists of words that the program takes.
    BadWords,
    /// There was no memory for them.
    NoMemory,
}

impl fmt::Display for WordsFault {
    ghost use Rattle.std.specs.Prelude.{Some};
    ghost use Rattle.command_words.specs.Saying.{words_fault_text};

    ghost output = { λ fault. Some (words_fault_text fault) };

    fn fmt<W: fmt::Write>(&self, f: &mut fmt::Formatter<W>) -> fmt::Result {
        match *self {
            WordsFault::BadWords => f.write_str("bad words"),
            WordsFault::NoMemory => f.write_str("no memory"),
        }
    }
}
