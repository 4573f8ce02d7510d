//! The lines of a session, and what happens between them.
ghost use Rattle.std.specs.Prelude.{◌≡◌, ℕ, ◌≤◌, [], ◌∷◌, true, false, not, ◌&&◌, nat_lt, OnOk, IfOk, IfSome, IfNone, OnErr, Some};
ghost use Rattle.rdf_types.specs.declared.layout.Layout.{Layout};
ghost use Rattle.plan_lang.specs.declared.lines.Line.TheVariants as line;
ghost use Rattle.rdf_core.specs.declared.replies.NoWhy.TheVariants as no;
ghost use Rattle.rdf_core.specs.Allowed.{allowed};
ghost use Rattle.rdf_core.specs.Backup.{needs_running, needs_up, read_reply, with_up};
ghost use Rattle.rdf_core.specs.Effects.{first, when};
ghost use Rattle.rdf_core.specs.Happens.{Does};
ghost use Rattle.rdf_core.specs.Layouts.{point_of, points_at, protects};
ghost use Rattle.rdf_core.specs.Lines.{session_refusal, with_points};
ghost use Rattle.by_node.specs.Each.{at};
ghost use Rattle.rdf_core.specs.State.{fallen, with_backup, with_session};
ghost use Rattle.rdf_core.specs.declared.replies.NoWhy.{NoWhy};
ghost use Rattle.rdf_core.specs.Step.{CanApply, CanHalt, after_apply, after_halt, points_now};
ghost use Rattle.backup_machine.specs.Sessions.{has_halted_in};
ghost use Rattle.rdf_core.specs.Sessions.{Refused};
ghost use Rattle.rdf_machine.specs.Machines.{state_of, AreKept};

use crate::cuts::is_backup_node;
use crate::parts::Parts;
use backup_machine::positions::Positions;
use backup_machine::rows::is_protected;
use backup_machine::session::{OpenedState, SessionState};
use rdf_core::replies::{NoWhy, Reply};
use rdf_types::layout::Layout;
use rdf_types::names::Value;
use rdf_types::records::{Node, Pos, RecKey, VolNo};
use std::alloc::AllocError;

impl Parts {
    /// Why the backup does not run.
    fn not_running(&self, node: Node) -> Option<NoWhy>
        ensures { result ≡ needs_running (at (state_of self.now).backups node) }
    {
        self.backup(node).not_running()
    }

    /// The restart points of the backup.
    fn points(&self, layout: &Layout, node: Node) -> Result<Positions, AllocError>
        requires kept { AreKept layout.now self.now }
        ensures { IfOk result (λ points. points ≡ points_now layout.now (state_of self.now) node) }
    {
        self.backup(node).points(layout, self.primary.trail())
    }

    /// The restart point of a volume of the backup.
    fn point(&self, layout: &Layout, node: Node, vol: VolNo) -> Pos
        requires kept { AreKept layout.now self.now }
        ensures { result ≡ point_of (points_now layout.now (state_of self.now) node) vol }
    {
        self.backup(node).point(layout, self.primary.trail(), vol)
    }

    /// The backup is down, where a disk of it stopped before.
    fn go_down(&mut self, node: Node)
        ensures down { state_of self.new ≡ with_backup (state_of self.old) node (with_up (at (state_of self.old).backups node) false) }
        ensures kept { (layout : Layout) → AreKept layout self.old → AreKept layout self.new }
        ensures session { self.new.session ≡ self.old.session }
    {
        self.backups.get_mut(node).go_down();
    }

    /// The volumes of the backup come up to what it received.
    fn rise_all(&mut self, layout: &Layout, node: Node) -> Result<(), AllocError>
        ensures ok { OnOk result (let s = state_of self.old in let b = at s.backups node in
            state_of self.new ≡ with_backup s node (with_points b (points_at layout.now b.received))) }
        ensures kept { AreKept layout.now self.old → AreKept layout.now self.new }
        ensures err { OnErr result (state_of self.new ≡ state_of self.old) }
    {
        self.backups.get_mut(node).rise_all(layout)
    }

    /// Keeps the refusal of a session of a backup that does not run.
    fn refuse_session(&mut self, node: Node)
        ensures session { (why : NoWhy) → Some why ≡ needs_running (at (state_of self.old).backups node)
            → state_of self.new ≡ with_session (state_of self.old) (Refused node why) }
        ensures kept { (layout : Layout) → AreKept layout self.old → AreKept layout self.new }
    {
        if let Some(why) = self.not_running(node) {
            self.session = SessionState::Refused { node, why };
        }
    }

    /// The line `session`.
    pub(crate) fn open_session(&mut self, layout: &Layout, node: Node) -> Result<Reply, AllocError>
        requires kept { AreKept layout.now self.old }
        ensures ok { IfOk result (λ reply. Does layout.now (state_of self.old) (line.Session node) reply (state_of self.new)) }
        ensures kept { AreKept layout.now self.new }
        ensures err { OnErr result (state_of self.new ≡ state_of self.old) }
    {
        if let Some(why) = self.not_running(node) {
            self.refuse_session(node);
            return Ok(Reply::No { why });
        }
        let points = self.points(layout, node)?;
        let so_far = OpenedState::new(self.alloc, node, points)?;
        let n = self.received(node);
        self.session = SessionState::Open { so_far };
        Ok(Reply::Number { n })
    }

    /// Why nothing is read.
    fn bar_read(&self, layout: &Layout, node: Node, vol: VolNo) -> Option<NoWhy>
        ensures { let s = state_of self.now in
            result ≡ first (needs_up (at s.backups node) ∷ session_refusal s.session ∷ when (not (nat_lt vol layout.now.volumes)) no.Volume ∷ []) }
    {
        if let Some(why) = self.backup_off(node) {
            return Some(why);
        }
        if let Some(why) = self.session.refusal() {
            return Some(why);
        }
        if vol.number() < layout.volumes {
            None
        } else {
            Some(NoWhy::Volume)
        }
    }

    /// The line `read`.
    pub(crate) fn read(
        &mut self,
        layout: &Layout,
        node: Node,
        key: &RecKey,
    ) -> Result<Reply, AllocError>
        requires kept { AreKept layout.now self.old }
        requires allowed { allowed layout.now (state_of self.old).session (line.Read node key.now) ≡ true }
        ensures ok { IfOk result (λ reply. Does layout.now (state_of self.old) (line.Read node key.now) reply (state_of self.new)) }
        ensures kept { AreKept layout.now self.new }
        ensures err { OnErr result (state_of self.new ≡ state_of self.old) }
    {
        if let Some(why) = self.bar_read(layout, node, key.vol) {
            return Ok(Reply::No { why });
        }
        if self.session.has_halted(key.vol) {
            self.go_down(node);
            return Ok(Reply::Stopped { node });
        }
        let at = self.point(layout, node, key.vol);
        let value = self.index.value_at(self.primary.trail(), at, key)?;
        self.session.see(key.vol, at);
        Ok(read_of(at, value))
    }

    /// The line `end`.
    pub(crate) fn end(&mut self, layout: &Layout) -> Result<Reply, AllocError>
        requires kept { AreKept layout.now self.old }
        requires allowed { allowed layout.now (state_of self.old).session line.End ≡ true }
        ensures ok { IfOk result (λ reply. Does layout.now (state_of self.old) line.End reply (state_of self.new)) }
        ensures kept { AreKept layout.now self.new }
        ensures err { OnErr result (state_of self.new ≡ state_of self.old) }
    {
        if let Some(why) = self.session.refusal() {
            self.session = SessionState::Closed;
            return Ok(Reply::No { why });
        }
        let Some(node) = self.session.node() else {
            return Ok(Reply::Done);
        };
        if self.session.met_stop() {
            self.go_down(node);
            self.session = SessionState::Closed;
            return Ok(Reply::Stopped { node });
        }
        let n = self.received(node);
        self.rise_all(layout, node)?;
        self.session = SessionState::Closed;
        Ok(Reply::Number { n })
    }

    /// A volume of the open session's backup comes up to a position.
    pub(crate) fn rise(&mut self, vol: VolNo, upto: Pos)
        ensures moved { state_of self.new ≡ after_apply (state_of self.old) (state_of self.old).session vol upto }
        ensures kept { (layout : Layout) → AreKept layout self.old → AreKept layout self.new }
    {
        if let Some(node) = self.session.node() {
            self.backups.get_mut(node).rise(vol, upto);
        }
    }

    /// The disk of a volume of the open session's backup stops.
    pub(crate) fn halt(&mut self, vol: VolNo)
        ensures halted { state_of self.new ≡ after_halt 1 (state_of self.old) (state_of self.old).session vol }
        ensures kept { (layout : Layout) → AreKept layout self.old → AreKept layout self.new }
    {
        let node = self.session.node();
        self.session.halt(vol);
        if let Some(node) = node {
            self.backups.get_mut(node).halt();
        }
    }

    /// Whether the volume is protected, and its disk did not stop in the session.
    pub(crate) fn may_move(&self, layout: &Layout, vol: VolNo) -> bool
        ensures { result ≡ (protects layout.now vol && not (has_halted_in (state_of self.now).session vol)) }
    {
        is_protected(layout, vol) && !self.session.has_halted(vol)
    }

    /// Up to where a volume of the open session may come: all that its backup received. There is none where it may not move.
    pub(crate) fn may_rise(&self, layout: &Layout, vol: VolNo) -> Option<Pos>
        requires kept { AreKept layout.now self.now }
        ensures some { IfSome result (λ upto. CanApply layout.now (state_of self.now) (state_of self.now).session vol upto) }
        ensures most { IfSome result (λ upto. (to : ℕ) → CanApply layout.now (state_of self.now) (state_of self.now).session vol to → to ≤ upto) }
        ensures none { IfNone result ((to : ℕ) → CanApply layout.now (state_of self.now) (state_of self.now).session vol to → ⊥) }
    {
        let node = self.session.node()?;
        let upto = self.received(node);
        if !self.may_move(layout, vol) {
            return None;
        }
        if self.point(layout, node, vol) > upto {
            return None;
        }
        Some(upto)
    }

    /// Whether the disk of the volume may stop in the open session.
    pub(crate) fn may_halt(&self, layout: &Layout, vol: VolNo) -> bool
        ensures may { result ≡ true → CanHalt layout.now (state_of self.now).session vol }
        ensures only { CanHalt layout.now (state_of self.now).session vol → result ≡ true }
    {
        match self.session.node() {
            Some(node) => is_backup_node(node) && self.may_move(layout, vol),
            None => false,
        }
    }

    /// A disk of the node stops, and the node is down.
    pub(crate) fn fall(&mut self, node: Node)
        ensures fallen { state_of self.new ≡ fallen node 1 (state_of self.old) }
        ensures kept { (layout : Layout) → AreKept layout self.old → AreKept layout self.new }
    {
        if is_backup_node(node) {
            self.backups.get_mut(node).fall();
            self.session.cut(node);
        } else {
            self.primary.fall();
        }
    }
}

/// What a read answers.
fn read_of(at: Pos, value: Option<Value>) -> Reply
    ensures { result ≡ read_reply at value }
{
    match value {
        None => Reply::Absent { at },
        Some(value) => Reply::Holds { at, value },
    }
}
