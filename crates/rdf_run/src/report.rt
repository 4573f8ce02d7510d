//! What is said of a status on standard error.
use crate::status::Status;
use std::fmt;

/// One line, without its end. Of bad words a line for each list of words follows; of a call that is done nothing is said.
impl fmt::Display for Status {
    ghost use Rattle.std.specs.Prelude.{Some};
    ghost use Rattle.rdf_run.specs.Saying.{said_of};

    ghost output = { λ status. Some (said_of status) };

    fn fmt<W: fmt::Write>(&self, f: &mut fmt::Formatter<W>) -> fmt::Result {
        match *self {
            Status::Done => Ok(()),
            Status::BadWords => f.write_str(
                "rdf: bad words\nusage: rdf run\nusage: rdf run --dir D\nusage: rdf predict\nusage: rdf make SEED TXNS",
            ),
            Status::BadPlan { line, why } => write!(f, "rdf: line {line}: {why}"),
            Status::ReadFault => f.write_str("rdf: cannot read the plan"),
            Status::WriteFault => f.write_str("rdf: cannot write"),
            Status::DeviceFault { node, disk } => write!(
                f,
                "rdf: device fault at {node} disk {disk}"
            ),
            Status::NoMemory => f.write_str("rdf: no memory"),
            Status::Damaged {
                node,
                disk,
                file,
                at,
            } => write!(f, "rdf: damaged {node} disk {disk} file {file} at {at}"),
            Status::NotBlank { node, disk } => write!(f, "rdf: not blank {node} disk {disk}"),
            Status::TooLong => f.write_str("rdf: plan too long"),
            Status::StoppedEarly { node, disk } => write!(
                f,
                "rdf: stopped early {node} disk {disk}"
            ),
        }
    }
}
