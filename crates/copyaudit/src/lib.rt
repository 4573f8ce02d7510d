//! COPYAUDIT: fetching what another backup has received more.
#![tactic(auto)]

ghost use Rattle.image_trails.specs.Trails.{AreInUse};
ghost use Rattle.copyaudit.specs.Copying.{Fetches};

mod copying;
pub mod laws;
mod message;

use crate::copying::copy_rest;
use image_trails::ImageTrails;
use rdf_disk::Disk;
use rdf_gatelog::LogFault;
use rdf_types::records::Pos;
use std::fmt;

/// Why audit was not copied.
#[derive(Clone, Copy, Debug, PartialEq, Eq)]
pub enum CopyFault {
    /// The leading trails keep the records from this position on no longer. Nothing has changed.
    Purged { first: Pos },
    /// A fault of the disk of the trails that are behind, or want of memory.
    Log { fault: LogFault },
}

impl fmt::Display for CopyFault {
    ghost use Rattle.std.specs.Prelude.{Some};
    ghost use Rattle.copyaudit.specs.Saying.{copy_fault_text};

    ghost output = { λ fault. Some (copy_fault_text fault) };

    fn fmt<W: fmt::Write>(&self, f: &mut fmt::Formatter<W>) -> fmt::Result {
        match *self {
            CopyFault::Purged { first } => write!(f, "purged {first}"),
            CopyFault::Log { fault } => write!(f, "{fault}"),
        }
    }
}

/// Fetches what the leading image trails have received more, in messages of 64 positions, the last one of what is left, and
/// answers how many positions that were. It makes no device call on the leading ones. After a `Log` some first ones of the
/// parts of these stores are durable, and the trails that are behind may only be closed.
pub fn copy_audit<D: Disk>(
    lag: &mut ImageTrails<D>,
    lead: &ImageTrails<D>,
) -> Result<u64, CopyFault>
    requires lag { D.tells → AreInUse D.files lag.old }
    requires lead { D.tells → AreInUse D.files lead.now }
    ensures { Fetches D.tells D.files D.counts lead.now lag.old result lag.new }
{
    let first = lag.received();
    if first < lead.kept() {
        return Err(CopyFault::Purged { first });
    }
    match copy_rest(lag, lead) {
        Ok(()) => Ok(lead.received().saturating_sub(first)),
        Err(fault) => Err(CopyFault::Log { fault }),
    }
}
