//! Reading the source of a plan.
ghost use Rattle.std.specs.Prelude.{◌≡◌};
ghost use Rattle.rdf_run.specs.Statuses.{status_of_source};

use crate::status::Status;
use rdf_ports::ReadAllFault;

/// The most bytes that a plan may have.
pub const LIMIT: u32 = 1_048_576;

/// Why the source was not read to its end, as a status.
pub fn status_of_read(fault: ReadAllFault) -> Status
    ensures { result ≡ status_of_source fault }
{
    match fault {
        ReadAllFault::Failed => Status::ReadFault,
        ReadAllFault::TooLong => Status::TooLong,
        ReadAllFault::NoMemory => Status::NoMemory,
    }
}
