//! What a backup tells of its volumes and of itself.
ghost use Rattle.std.specs.Prelude.{◌≡◌, ◌≢◌, ◌<◌, length, IfOk};
ghost use Rattle.plan_lang.specs.declared.lines.Line.TheVariants as line;
ghost use Rattle.rdf_types.specs.declared.records.Node.{Node as AnyNode};

use crate::backup::Backup;
use node_faults::{NodeFault, at_disk};
use open_txns::laws::{count_of_notes, legal_is_proper};
use rdf_core::replies::{NoWhy, Reply, RowList};
use rdf_disk::Disk;
use rdf_model::laws::{count_of_part, prefix_is_legal};
use rdf_types::records::{Phase, Pos, VolNo};

impl<D: Disk> Backup<D> {
    ghost use Rattle.node_faults.specs.Faults.{IsSound};
    ghost use Rattle.rdf_types.specs.declared.records.Phase.TheVariants as phase;
    ghost use Rattle.rdf_core.specs.Backup.{Around, listed_at, list_refusal};
    ghost use Rattle.rdf_backup.specs.Keeping.{KeepsLine};
    ghost use Rattle.rdf_backup.specs.States.{layout_of, value_of, state_of, MayUse, Serves};
    ghost use Rattle.rdf_backup.specs.Replies.{Ends, Goes};
    ghost use Rattle.rdf_backup.specs.Answers.{IsNoStop};
    ghost use Rattle.rdf_backup.specs.Refusals.{IsRefusal, IsJudged, AreRowsAt, IsStatus};

    /// How the backup stands.
    pub fn status(&self) -> Reply
        ensures goes { D.tells → (w : Around) (node : AnyNode) → Serves D.files w.trail self.now →
            Goes D.files w (line.Status node) result self.now self.now }
        ensures plain { IsNoStop result }
        ensures said { IsStatus (state_of 0 self.now) result }
    {
        prefix_is_legal();
        legal_is_proper();
        count_of_notes();
        count_of_part();
        Reply::BackupUp {
            phase: self.trails.phase(),
            received: self.trails.received(),
            kept: self.trails.kept(),
            generations: self.trails.generations(),
            unended: self.txns.count(),
        }
    }

    /// The position that a list of the volume tells: its restart point, or where the takeover ended.
    fn position(&self, vol: VolNo) -> Pos
        requires there { vol < length self.now.volumes.items }
        ensures { result ≡ listed_at (state_of 0 self.now).volumes vol }
    {
        match self.trails.phase() {
            Phase::Running => self.volumes[vol.number() as usize].restart_point(),
            Phase::Taking => 0,
            Phase::Taken { upto } => upto,
        }
    }

    /// The rows of a volume, where no takeover is under way.
    fn rows(&mut self, vol: VolNo) -> Result<Reply, NodeFault>
        requires there { vol < length self.old.volumes.items }
        requires still { (value_of self.old).phase ≢ phase.Taking }
        requires usable { D.tells → MayUse D.files self.old }
        ensures keeps { KeepsLine D.tells D.files D.counts result self.old self.new }
        ensures ends { D.tells → (w : Around) (node : AnyNode) → Serves D.files w.trail self.old →
            Ends D.files w (line.List node vol) result self.old self.new }
        ensures shown { IfOk result (AreRowsAt (listed_at (state_of 0 self.old).volumes vol)) }
        ensures sound { D.tells → IsSound result }
    {
        let at = self.position(vol);
        let number = vol.number();
        let volume = &mut self.volumes[number as usize];
        match volume.scan() {
            Ok(rows) => Ok(Reply::Rows {
                at,
                rows: RowList::new(rows),
            }),
            Err(fault) => Err(at_disk(number + 1, fault)),
        }
    }

    /// All rows of a volume, in the order of file and key: those of its restart point, and once the backup has taken over
    /// those of the committed transactions.
    pub fn list(&mut self, vol: VolNo) -> Result<Reply, NodeFault>
        requires usable { D.tells → MayUse D.files self.old }
        ensures keeps { KeepsLine D.tells D.files D.counts result self.old self.new }
        ensures ends { D.tells → (w : Around) (node : AnyNode) → Serves D.files w.trail self.old →
            Ends D.files w (line.List node vol) result self.old self.new }
        ensures refused { IsRefusal result → self.new ≡ self.old }
        ensures judged { IsJudged (list_refusal (layout_of self.old) (state_of 0 self.old) vol)
            (AreRowsAt (listed_at (state_of 0 self.old).volumes vol)) result self.old self.new }
        ensures sound { D.tells → IsSound result }
    {
        if let Phase::Taking = self.trails.phase() {
            return Ok(Reply::No { why: NoWhy::Taking });
        }
        if vol.number() as usize >= self.volumes.len() {
            return Ok(Reply::No { why: NoWhy::Volume });
        }
        self.rows(vol)
    }
}
