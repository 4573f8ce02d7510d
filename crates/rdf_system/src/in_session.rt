//! The lines `read` and `end`, in a session that was refused, or in which a disk of its node stopped.
ghost use Rattle.std.specs.Prelude.{◌≡◌, true, Some, None};
ghost use Rattle.rdf_types.specs.declared.records.RecKey.{RecKey};
ghost use Rattle.plan_lang.specs.declared.lines.Line.TheVariants as lines;
ghost use Rattle.plan_lang.specs.Sessions.{fits_session};
ghost use Rattle.rdf_system.specs.Sessions.{node_of, running_in};

use crate::fault::StepFault;
use crate::session::SessionState;
use crate::system::System;
use rdf_core::replies::{NoWhy, Reply};
use rdf_disk::Disk;
use rdf_types::records::Node;

impl<D: Disk + Drop> System<D> {
    ghost use Rattle.rdf_system.specs.States.{MayServe};
    ghost use Rattle.rdf_system.specs.Lines.{Does};
    ghost use Rattle.rdf_system.specs.Stances.{IsHeld, stances_of};

    /// The line `read`. In a session that was refused it is answered like that, unless the backup is down.
    pub(crate) fn read(&mut self, node: Node) -> Result<Reply, StepFault>
        requires open { node_of self.old.session ≡ Some node }
        requires serves { MayServe D.tells D.files D.counts self.old }
        requires idle { running_in self.old.session ≡ None }
        requires held { IsHeld (stances_of self.old) }
        ensures { (key : RecKey) → Does D.tells D.files D.counts (lines.Read node key) result self.old self.new }
    {
        self.stands();
        match self.session {
            SessionState::Closed => unreachable!(),
            SessionState::Refused { node: _, bar } => match self.received(node) {
                Some(_) => Ok(Reply::No { why: bar.why() }),
                None => Ok(Reply::No { why: NoWhy::Down }),
            },
            SessionState::Open { .. } => Ok(Reply::No { why: NoWhy::Down }),
        }
    }

    /// The line `end`. A session that was refused is answered so again. Where a disk stopped in the session, that is told again. No disk is called.
    pub(crate) fn end(&mut self) -> Result<Reply, StepFault>
        requires fits { fits_session (node_of self.old.session) lines.End ≡ true }
        requires serves { MayServe D.tells D.files D.counts self.old }
        requires idle { running_in self.old.session ≡ None }
        ensures { Does D.tells D.files D.counts lines.End result self.old self.new }
    {
        self.stands();
        match self.session {
            SessionState::Closed => unreachable!(),
            SessionState::Refused { node: _, bar } => {
                self.session = SessionState::Closed;
                Ok(Reply::No { why: bar.why() })
            }
            SessionState::Open { node, stopped: _ } => {
                self.session = SessionState::Closed;
                Ok(Reply::Stopped { node })
            }
        }
    }
}
