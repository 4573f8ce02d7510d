//! The replies to a generated plan's lines are noted for its summary.
ghost use Rattle.std.specs.Prelude.{refl};
ghost use Rattle.rdf_run.specs.Making.{noted};
ghost use Rattle.rdf_run.specs.Noting.{note_begins, notes_join};

use load_summary::Tally;
use plan_lang::lines::Line;
use rdf_core::replies::Reply;
use rdf_monitor::{AnswerFault, Answering};
use std::alloc::Global;

/// The replies are noted in a tally.
pub struct ByTally {}

impl Answering for ByTally {
    type Out = Tally;

    ghost given = { noted };

    ghost faults = { λ _. 0 };

    fn take(_alloc: Global, out: &mut Tally, line: &Line, reply: Reply) -> Result<(), AnswerFault> {
        out.note(line, reply)?;
        Ok(())
    }

    ghost begins = { note_begins };

    ghost stays = { λ _. refl };

    ghost joins = { notes_join };
}
