//! The open transactions of what a backup received.
ghost use Rattle.std.specs.Prelude.{◌≡◌, ◌≤◌, length, take, if◌then◌else◌, OnOk, OnErr};
ghost use Rattle.rdf_model.specs.Window.{concerns, low, open_on};
ghost use Rattle.std.specs.FinSet as set;
ghost use Rattle.open_txns.specs.Noted.{noted};
ghost use Rattle.rdf_core.specs.Effects.{count_u32};
ghost use Rattle.rdf_core.specs.Layouts.{protects};
ghost use Rattle.backup_machine.specs.Kept.{backup_of, AreNoted, Follows};

use crate::backup::BackupState;
use open_txns::OpenTxns;
use open_txns::laws::{count_of_notes, legal_is_proper, low_of_notes};
use rdf_model::laws::{count_of_part, low_of_part, prefix_is_legal};
use rdf_types::layout::Layout;
use rdf_types::records::{Pos, Record};
use std::alloc::AllocError;

/// Whether a record is an outcome, or an image on a protected volume.
fn is_concerned(layout: &Layout, rec: &Record) -> bool
    ensures { result ≡ concerns (protects layout.now) rec.now }
{
    match rec {
        Record::Image { vol, .. } => {
            let flags = layout.protect.flags();
            let vol = vol.number() as usize;
            vol < flags.len() && flags[vol]
        }
        Record::Commit { .. } => true,
        Record::Abort { .. } => true,
    }
}

fn note_one(opens: &mut OpenTxns, layout: &Layout, pos: Pos, rec: &Record) -> Result<(), AllocError>
    ensures ok { OnOk result (opens.new ≡ (if concerns (protects layout.now) rec.now then noted opens.old pos rec.now else opens.old)) }
    ensures err { OnErr result (opens.new ≡ opens.old) }
{
    if !is_concerned(layout, rec) {
        return Ok(());
    }
    opens.note(pos, rec)
}

/// Notes the records before a position. After an `Err` some first ones of them are noted.
fn note_up_to(
    opens: &mut OpenTxns,
    done: &mut Pos,
    layout: &Layout,
    trail: &[Record],
    to: Pos,
) -> Result<(), AllocError>
    requires noted { AreNoted layout.now trail.now done.old opens.old }
    requires order { done.old ≤ to }
    requires within { to ≤ length trail.now }
    ensures noted { AreNoted layout.now trail.now done.new opens.new }
    ensures order { done.new ≤ to }
    ensures ok { OnOk result (done.new ≡ to) }
{
    while *done < to {
        let pos = *done;
        note_one(opens, layout, pos, &trail[pos as usize])?;
        *done = pos + 1;
    }
    Ok(())
}

impl BackupState {
    /// Notes all that was received.
    pub(crate) fn catch_up(&mut self, layout: &Layout, trail: &[Record]) -> Result<(), AllocError>
        requires { Follows layout.now trail.now self.old }
        ensures follows { Follows layout.now trail.now self.new }
        ensures same { backup_of self.new ≡ backup_of self.old }
        ensures ok { OnOk result (self.new.noted ≡ self.new.received) }
    {
        let to = self.received;
        note_up_to(&mut self.opens, &mut self.noted, layout, trail, to)
    }

    /// The low position of what was received.
    pub(crate) fn low_now(&self, layout: &Layout, trail: &[Record]) -> Pos
        requires follows { Follows layout.now trail.now self.now }
        requires noted { self.now.noted ≡ self.now.received }
        ensures { result ≡ low (protects layout.now) (take self.now.received trail.now) }
    {
        legal_is_proper();
        low_of_notes();
        low_of_part();
        prefix_is_legal();
        self.opens.low(self.received)
    }

    /// How many transactions are open in what was received.
    pub(crate) fn count_now(&self, layout: &Layout, trail: &[Record]) -> u32
        requires follows { Follows layout.now trail.now self.now }
        requires noted { self.now.noted ≡ self.now.received }
        ensures { result ≡ count_u32 (set.len (open_on (protects layout.now) (take self.now.received trail.now))) }
    {
        legal_is_proper();
        count_of_notes();
        count_of_part();
        prefix_is_legal();
        self.opens.count()
    }
}
