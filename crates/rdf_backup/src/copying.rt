//! The line `copyaudit`.
ghost use Rattle.std.specs.Prelude.{◌≡◌, ◌≤◌, None, IfOk};
ghost use Rattle.rdf_backup.specs.Copying.{not_copied};

use crate::backup::Backup;
use crate::noting::note_since;
use copyaudit::{CopyFault, copy_audit};
use image_disks::one_value;
use node_faults::{NodeFault, at_disk};
use rdf_core::replies::{NoWhy, Reply};
use rdf_disk::Disk;
use rdf_types::records::{Phase, Stamped};

/// How a copy is answered that was not made: one that is purged is refused, and the disk's fault is the node's.
fn not_copied(fault: CopyFault) -> Result<Reply, NodeFault>
    ensures { result ≡ not_copied fault }
{
    match fault {
        CopyFault::Purged { first } => Ok(Reply::No {
            why: NoWhy::Purged { first },
        }),
        CopyFault::Log { fault } => Err(at_disk(0, fault)),
    }
}

impl<D: Disk> Backup<D> {
    ghost use Rattle.node_faults.specs.Faults.{IsSound};
    ghost use Rattle.image_disks.specs.Values.{received, kept};
    ghost use Rattle.rdf_core.specs.Backup.{copy_refusal};
    ghost use Rattle.rdf_backup.specs.Copying.{not_taken};
    ghost use Rattle.rdf_backup.specs.Fetching.{received_more, EndsCopy, EndsFetch};
    ghost use Rattle.rdf_backup.specs.States.{layout_of, value_of, state_of, MayUse};
    ghost use Rattle.rdf_backup.specs.Keeping.{KeepsLine};
    ghost use Rattle.rdf_backup.specs.Refusals.{IsRefusal, IsJudged, IsNumber};

    /// Why no audit is copied to it or from it: it has not taken over.
    fn untaken(&self) -> Option<NoWhy>
        ensures { result ≡ not_taken (value_of self.now).phase }
    {
        match self.trails.phase() {
            Phase::Running => Some(NoWhy::Running),
            Phase::Taking => Some(NoWhy::Taking),
            Phase::Taken { upto: _ } => None,
        }
    }

    /// Stores what the other backup has received more, and notes it: the entries are those from the received position on.
    fn fetch(&mut self, lead: &Backup<D>, part: &[Stamped]) -> Result<Reply, NodeFault>
        requires taken { not_taken (value_of self.old).phase ≡ None }
        requires lead_taken { not_taken (value_of lead.now).phase ≡ None }
        requires same { layout_of lead.now ≡ layout_of self.old }
        requires usable { D.tells → MayUse D.files self.old }
        requires lead { D.tells → MayUse D.files lead.now }
        ensures keeps { KeepsLine D.tells D.files D.counts result self.old self.new }
        ensures ends { D.tells → EndsFetch D.files lead.now part.now result self.old self.new }
        ensures taken_in { kept (value_of lead.now) ≤ received (value_of self.old) → IfOk result (IsNumber (received_more lead.now self.old)) }
        ensures sound { IsSound result }
    {
        one_value();
        let at = self.trails.received();
        match copy_audit(&mut self.trails, &lead.trails) {
            Ok(n) => {
                note_since(&mut self.txns, at, part)?;
                Ok(Reply::Number { n })
            }
            Err(fault) => not_copied(fault),
        }
    }

    /// Fetches from another backup of the same system what it has received more, once both have taken over, and answers how
    /// many positions that were. The volumes stay until the next takeover. Where the other one keeps the records from the
    /// received position on no longer, this is refused. It makes no device call on the other backup.
    pub fn copy_from(&mut self, lead: &Backup<D>) -> Result<Reply, NodeFault>
        requires same { layout_of lead.now ≡ layout_of self.old }
        requires usable { D.tells → MayUse D.files self.old }
        requires lead { D.tells → MayUse D.files lead.now }
        ensures keeps { KeepsLine D.tells D.files D.counts result self.old self.new }
        ensures ends { D.tells → EndsCopy D.files lead.now result self.old self.new }
        ensures refused { IsRefusal result → self.new ≡ self.old }
        ensures judged { IsJudged (copy_refusal (state_of 0 self.old) (state_of 0 lead.now))
            (IsNumber (received_more lead.now self.old)) result self.old self.new }
        ensures sound { IsSound result }
    {
        if let Some(why) = self.untaken() {
            return Ok(Reply::No { why });
        }
        if let Some(why) = lead.untaken() {
            return Ok(Reply::No { why });
        }
        let first = self.trails.received();
        if first < lead.trails.kept() {
            return Ok(Reply::No {
                why: NoWhy::Purged { first },
            });
        }
        let part = lead.part_since(first)?;
        self.fetch(lead, part.as_slice())
    }
}
