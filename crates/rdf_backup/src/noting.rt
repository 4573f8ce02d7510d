//! The open transactions of what was received.
ghost use Rattle.std.specs.Prelude.{◌≡◌, nat_le, if◌then◌else◌, OnOk};
ghost use Rattle.open_txns.specs.Noted.{noted};
ghost use Rattle.rdf_backup.specs.Parts.{noted_since};

use open_txns::OpenTxns;
use rdf_types::records::{Pos, Stamped};
use std::alloc::AllocError;

/// Notes the entries from a position on.
pub fn note_since(txns: &mut OpenTxns, from: Pos, part: &[Stamped]) -> Result<(), AllocError>
    ensures { OnOk result (txns.new ≡ noted_since from txns.old part.now) }
{
    for entry in part {
        note_entry(txns, from, entry)?;
    }
    Ok(())
}

/// Notes an entry, unless it stands below the position.
fn note_entry(txns: &mut OpenTxns, from: Pos, entry: &Stamped) -> Result<(), AllocError>
    ensures { OnOk result (txns.new ≡ (if nat_le from entry.now.pos then noted txns.old entry.now.pos entry.now.rec else txns.old)) }
{
    if from <= entry.pos {
        return txns.note(entry.pos, &entry.rec);
    }
    Ok(())
}
