//! Why a reply was not written.
use rdf_ports::Failed;
use std::alloc::AllocError;
use std::fmt;

/// Why a reply was not written, or only a first part of it.
#[derive(Clone, Copy, Debug, PartialEq, Eq)]
pub enum AnswerFault {
    Write,
    NoMemory,
}

impl fmt::Display for AnswerFault {
    ghost use Rattle.std.specs.Prelude.{Some};
    ghost use Rattle.rdf_monitor.specs.Saying.{answer_fault_text};

    ghost output = { λ fault. Some (answer_fault_text fault) };

    fn fmt<W: fmt::Write>(&self, f: &mut fmt::Formatter<W>) -> fmt::Result {
        match *self {
            AnswerFault::Write => f.write_str("cannot write"),
            AnswerFault::NoMemory => f.write_str("no memory"),
        }
    }
}

impl From<AllocError> for AnswerFault {
    ghost use Rattle.rdf_monitor.specs.declared.fault.AnswerFault.TheVariants.{NoMemory};
    ghost use Rattle.std.specs.Prelude.{◌≡◌};

    ghost from_gives = { λ _ e. e ≡ NoMemory };

    fn from(_: AllocError) -> Self {
        AnswerFault::NoMemory
    }
}

impl From<Failed> for AnswerFault {
    ghost use Rattle.rdf_monitor.specs.declared.fault.AnswerFault.TheVariants.{Write};
    ghost use Rattle.std.specs.Prelude.{◌≡◌};

    ghost from_gives = { λ _ e. e ≡ Write };

    fn from(_: Failed) -> Self {
        AnswerFault::Write
    }
}
