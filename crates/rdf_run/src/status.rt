//! How a call of the program ends.
ghost use Rattle.std.specs.Prelude.{◌≡◌};

use plan_lang::why::PlanWhy;
use rdf_types::records::Node;

/// How a call of the program ended.
#[derive(Clone, Copy, Debug, PartialEq, Eq)]
pub enum Status {
    /// The plan was performed, and each line has its reply written.
    Done,
    /// The words are none that the program takes.
    BadWords,
    /// The source has no plan: this line, counted from 1, is the first bad one.
    BadPlan {
        line: u32,
        why: PlanWhy,
    },
    /// The source of the plan failed.
    ReadFault,
    /// The sink of the replies failed. The first part of the replies is written.
    WriteFault,
    /// A disk failed.
    DeviceFault {
        node: Node,
        disk: u8,
    },
    NoMemory,
    /// What stands there on the disk has no meaning.
    Damaged {
        node: Node,
        disk: u8,
        file: u32,
        at: u64,
    },
    /// The disk has a file, and is the first one of those used that has one.
    NotBlank {
        node: Node,
        disk: u8,
    },
    /// The source gave more than 1,048,576 bytes.
    TooLong,
    /// A disk was off or stopped.
    StoppedEarly {
        node: Node,
        disk: u8,
    },
}

impl Status {
    ghost use Rattle.rdf_run.specs.Statuses.{status_number};

    /// The exit status of the program.
    pub fn number(self) -> u8
        ensures { result ≡ status_number self }
    {
        match self {
            Status::Done => 0,
            Status::BadWords => 2,
            Status::BadPlan { .. } => 3,
            Status::ReadFault => 4,
            Status::WriteFault => 5,
            Status::DeviceFault { .. } => 6,
            Status::NoMemory => 7,
            Status::Damaged { .. } => 8,
            Status::NotBlank { .. } => 9,
            Status::TooLong => 10,
            Status::StoppedEarly { .. } => 11,
        }
    }
}
