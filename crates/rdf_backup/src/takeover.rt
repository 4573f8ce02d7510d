//! The line `takeover`.
ghost use Rattle.std.specs.Prelude.{◌≡◌, ◌≢◌, ℕ, false, List, IfOk, IfErr, OnOk, OnErr, IsTrue};
ghost use Rattle.plan_lang.specs.declared.lines.Line.TheVariants as line;
ghost use Rattle.rdf_types.specs.declared.records.Node.{Node as AnyNode};
ghost use Rattle.rdf_types.specs.declared.records.Record.{Record};

use crate::audit::kept_audit;
use crate::backup::Backup;
use crate::beside::take_over_volumes;
use image_disks::one_value;
use node_faults::{NodeFault, at_disk};
use rdf_core::replies::Reply;
use rdf_disk::Disk;
use rdf_model::laws::fits_taken;
use rdf_ports::Gate;
use rdf_types::records::Phase;
use std::sync::Wait;
use std::thread::Threads;

impl<D: Disk> Backup<D> {
    ghost use Rattle.std.specs.Prelude.{true};
    ghost use Rattle.node_faults.specs.Faults.{IsSound};
    ghost use Rattle.rdf_types.specs.declared.records.Phase.TheVariants as phase;
    ghost use Rattle.image_disks.specs.Values.{received};
    ghost use Rattle.rdf_core.specs.Backup.{Around};
    ghost use Rattle.rdf_backup.specs.Keeping.{Keeps};
    ghost use Rattle.rdf_backup.specs.States.{value_of, state_of, MayUse, Serves};
    ghost use Rattle.rdf_backup.specs.Replies.{Breaks};
    ghost use Rattle.rdf_backup.specs.Taking.{taking};

    /// Whether a takeover has ended that reached all that was received.
    fn has_taken_all(&self) -> bool
        ensures all { IsTrue result → (value_of self.now).phase ≡ phase.Taken (received (value_of self.now)) }
        ensures some { result ≡ false → (value_of self.now).phase ≢ phase.Taken (received (value_of self.now)) }
    {
        match self.trails.phase() {
            Phase::Running => false,
            Phase::Taking => false,
            Phase::Taken { upto } => upto == self.trails.received(),
        }
    }

    /// Makes the mark of a takeover under way durable, unless it stands.
    fn mark_taking(&mut self) -> Result<(), NodeFault>
        requires usable { D.tells → MayUse D.files self.old }
        ensures keeps { Keeps D.tells D.files D.counts result self.old self.new }
        ensures serves { D.tells → OnOk result ((trail : List Record) → Serves D.files trail self.old → Serves D.files trail self.new) }
        ensures state { OnOk result ((stops : ℕ) → state_of stops self.new ≡ taking (state_of stops self.old)) }
        ensures phase { OnOk result ((value_of self.new).phase ≡ phase.Taking) }
        ensures received { OnOk result (received (value_of self.new) ≡ received (value_of self.old)) }
        ensures volumes { self.new.volumes ≡ self.old.volumes }
        ensures breaks { D.tells → OnErr result ((w : Around) (node : AnyNode) → w.lost ≡ true →
            (value_of self.old).phase ≢ phase.Taken (received (value_of self.old)) → Serves D.files w.trail self.old →
            Breaks D.files w (line.Takeover node) self.old self.new) }
        ensures sound { IsSound result }
    {
        one_value();
        fits_taken();
        if let Phase::Taking = self.trails.phase() {
            return Ok(());
        }
        match self.trails.mark(Phase::Taking) {
            Ok(()) => Ok(()),
            Err(fault) => Err(at_disk(0, fault)),
        }
    }
}

impl<D: Disk + Drop + Send> Backup<D> {
    ghost use Rattle.std.specs.Prelude.{true};
    ghost use Rattle.node_faults.specs.Faults.{IsSound};
    ghost use Rattle.rdf_types.specs.declared.records.Phase.TheVariants as phase;
    ghost use Rattle.image_disks.specs.Values.{received};
    ghost use Rattle.rdf_core.specs.Backup.{Around};
    ghost use Rattle.rdf_backup.specs.Keeping.{KeepsBeside};
    ghost use Rattle.rdf_backup.specs.States.{layout_of, value_of, MayUse, Serves};
    ghost use Rattle.rdf_backup.specs.Replies.{Ends};
    ghost use Rattle.rdf_backup.specs.Refusals.{IsNumber};
    ghost use Rattle.rdf_backup.specs.Damage.{IsWrong};

    /// Takes over the protected volumes beside each other, and then makes the mark of a takeover that has ended durable.
    fn take_over<R: Threads + Wait + Sync, G: Gate + Sync>(
        &mut self,
        rt: &R,
        gate: &G,
    ) -> Result<Reply, NodeFault>
        requires marked { (value_of self.old).phase ≡ phase.Taking }
        requires usable { D.tells → MayUse D.files self.old }
        ensures keeps { KeepsBeside D.tells D.files D.counts result self.old self.new }
        ensures ends { D.tells → (w : Around) (node : AnyNode) → w.lost ≡ true → Serves D.files w.trail self.old →
            Ends D.files w (line.Takeover node) result self.old self.new }
        ensures told { IfOk result (IsNumber (received (value_of self.old))) }
        ensures sound { D.tells → (trail : List Record) → Serves D.files trail self.old → IsSound result }
        ensures damaged { IfErr result (IsWrong D.tells (layout_of self.old) (received (value_of self.old)) self.old.volumes.items) }
    {
        one_value();
        fits_taken();
        let low = self.txns.low(self.trails.received());
        let trails = &self.trails;
        let audit = kept_audit(trails, low)?;
        take_over_volumes(
            rt,
            trails.alloc(),
            &mut self.volumes,
            &trails.memory.layout,
            &audit,
            gate,
        )?;
        let upto = audit.upto;
        drop(audit);
        match self.trails.mark(Phase::Taken { upto }) {
            Ok(()) => Ok(Reply::Number { n: upto }),
            Err(fault) => Err(at_disk(0, fault)),
        }
    }

    /// Takes over, once the primary is lost: each protected volume shows the transactions that were committed among what
    /// was received. By the RDF System Management Manual TAKEOVER applies all audit that was received and then undoes the
    /// transactions whose outcome is not known. A takeover that was cut off begins again; one that has reached all that was
    /// received changes nothing.
    ///
    /// The volumes are worked beside each other, each in a thread of its own. Where several faults come the first is told: a
    /// disk that failed, then damage, then want of memory, then a disk that stopped; among equals that of the lowest disk.
    pub fn takeover<R: Threads + Wait + Sync, G: Gate + Sync>(
        &mut self,
        rt: &R,
        gate: &G,
    ) -> Result<Reply, NodeFault>
        requires usable { D.tells → MayUse D.files self.old }
        ensures keeps { KeepsBeside D.tells D.files D.counts result self.old self.new }
        ensures ends { D.tells → (w : Around) (node : AnyNode) → w.lost ≡ true → Serves D.files w.trail self.old →
            Ends D.files w (line.Takeover node) result self.old self.new }
        ensures told { IfOk result (IsNumber (received (value_of self.old))) }
        ensures sound { D.tells → (trail : List Record) → Serves D.files trail self.old → IsSound result }
        ensures damaged { IfErr result (IsWrong D.tells (layout_of self.old) (received (value_of self.old)) self.old.volumes.items) }
    {
        if self.has_taken_all() {
            return Ok(Reply::Number {
                n: self.trails.received(),
            });
        }
        self.mark_taking()?;
        self.take_over(rt, gate)
    }
}
