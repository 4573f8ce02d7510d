//! Why there is no plan.
use crate::why::{BadLine, PlanWhy};
use std::alloc::AllocError;
use std::fmt;

/// Why bytes are read as no plan.
#[derive(Clone, Copy, Debug, PartialEq, Eq)]
pub enum PlanFault {
    /// The first line that is none of a plan, by its number from 1 on, and its first fault.
    Bad { line: u32, why: PlanWhy },
    /// They are the text of a plan, and there was no memory for it.
    NoMemory,
}

impl fmt::Display for PlanFault {
    ghost use Rattle.std.specs.Prelude.{Some};
    ghost use Rattle.plan_lang.specs.Faults.{plan_fault_text};

    ghost output = { λ fault. Some (plan_fault_text fault) };

    fn fmt<W: fmt::Write>(&self, f: &mut fmt::Formatter<W>) -> fmt::Result {
        match *self {
            PlanFault::Bad { line, why } => write!(f, "line {line}: {why}"),
            PlanFault::NoMemory => f.write_str("no memory"),
        }
    }
}

impl From<AllocError> for PlanFault {
    ghost use Rattle.plan_lang.specs.declared.plan_fault.PlanFault.TheVariants.{NoMemory};
    ghost use Rattle.std.specs.Prelude.{◌≡◌};

    ghost from_gives = { λ _ e. e ≡ NoMemory };

    fn from(_: AllocError) -> Self {
        PlanFault::NoMemory
    }
}

impl From<BadLine> for PlanFault {
    ghost use Rattle.plan_lang.specs.declared.plan_fault.PlanFault.TheVariants.{Bad};
    ghost use Rattle.std.specs.Prelude.{◌≡◌};

    ghost from_gives = { λ bad e. e ≡ Bad bad.line bad.why };

    fn from(bad: BadLine) -> Self {
        PlanFault::Bad {
            line: bad.line,
            why: bad.why,
        }
    }
}
