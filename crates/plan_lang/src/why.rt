//! Why a line is none of a plan.
ghost use Rattle.std.specs.Prelude.{◌≡◌};
ghost use Rattle.plan_lang.specs.Faults.{why_name};

use std::fmt;

/// The first fault of a line, in the order in which a line is judged, but that before `go` each fault of its words is
/// `Header`.
#[derive(Clone, Copy, Debug, PartialEq, Eq)]
pub enum PlanWhy {
    /// A byte is neither a space nor one that can be seen.
    NotAscii,
    /// It is not the line of the header that stands here, or there is none.
    Header,
    /// No line begins with the word.
    Word,
    /// There are more or fewer words than the line has.
    Count,
    /// A word is no name, key, value, node or tear that may stand there.
    Name,
    /// A word is no number of the range.
    Number,
    /// A plan has at most 20,000 lines.
    TooManyLines,
    /// The line may not stand inside a session, or the session that it begins is open at the end.
    SessionOpen,
    /// The line stands only inside a session.
    NotInSession,
}

impl PlanWhy {
    /// The fault's name, for an operator.
    pub fn name(self) -> &'static str
        ensures { result.now ≡ why_name self }
    {
        match self {
            PlanWhy::NotAscii => "NotAscii",
            PlanWhy::Header => "Header",
            PlanWhy::Word => "Word",
            PlanWhy::Count => "Count",
            PlanWhy::Name => "Name",
            PlanWhy::Number => "Number",
            PlanWhy::TooManyLines => "TooManyLines",
            PlanWhy::SessionOpen => "SessionOpen",
            PlanWhy::NotInSession => "NotInSession",
        }
    }
}

impl fmt::Display for PlanWhy {
    ghost use Rattle.std.specs.Prelude.{Some};

    ghost output = { λ why. Some (why_name why) };

    fn fmt<W: fmt::Write>(&self, f: &mut fmt::Formatter<W>) -> fmt::Result {
        f.write_str(self.name())
    }
}

/// A line that is none of a plan, and its first fault.
#[derive(Clone, Copy)]
pub struct BadLine {
    /// Its number, from 1 on.
    pub line: u32,
    /// Its first fault.
    pub why: PlanWhy,
}
