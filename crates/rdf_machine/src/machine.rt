//! The whole system as a machine.
ghost use Rattle.std.specs.Prelude.{◌≡◌, ℕ, ◌≤◌, true, IfOk, IfSome, IfNone, OnErr};
ghost use Rattle.rdf_core.specs.declared.events.Event.TheVariants as event;
ghost use Rattle.rdf_core.specs.Allowed.{allowed};
ghost use Rattle.rdf_core.specs.Happens.{Admits, CanStop, Does, Happens, Stops};
ghost use Rattle.rdf_core.specs.Run.{CanMove, after_move};
ghost use Rattle.rdf_core.specs.State.{blank};

use crate::allowing::is_allowed;
use crate::parts::Parts;
use plan_lang::lines::Line;
use rdf_core::events::Event;
use rdf_core::laws::{event_goes_on, positions_sound, primary_proper};
use rdf_core::replies::Reply;
use rdf_types::layout::Layout;
use rdf_types::records::{Node, Pos, VolNo};
use std::alloc::{AllocError, Global};
use std::marker::Model;

/// The state of the whole system. Some run leads to it.
#[derive(Drop)]
pub struct Machine {
    layout: Layout,
    parts: Parts,
}

impl Model for Machine {
    ghost use Rattle.std.specs.Coded.{codes};
    ghost use Rattle.primary_machine.specs.Kept.{txns_code};
    ghost use Rattle.rdf_machine.specs.Machines.{Whole, state_of, AreFitted};

    ghost Value = { Whole };

    ghost coded = { Prim.hlevel (codes, txns_code) };

    ghost view = { λ a. record { layout = a.layout; state = state_of a.parts } };

    ghost invariant = { λ a. AreFitted a.layout a.parts };
}

impl Machine {
    /// The start: an empty trail, all nodes up, nothing sent and nothing received.
    pub fn new(alloc: Global, layout: &Layout) -> Result<Machine, AllocError>
        ensures { IfOk result (λ machine. machine ≡ record { layout = layout.now; state = blank layout.now }) }
    {
        let parts = Parts::new(alloc, layout)?;
        let layout = layout.try_clone()?;
        Ok(Machine { layout, parts })
    }

    /// What happens next, with the reply where a line is answered. An `Err` is want of memory, and leaves all as it was.
    pub fn step(&mut self, event: &Event) -> Result<Option<Reply>, AllocError>
        requires { Admits self.old.layout self.old.state event.now }
        ensures ok { IfOk result (λ answer. Happens self.old.layout self.old.state event.now answer self.new.state) }
        ensures layout { self.new.layout ≡ self.old.layout }
        ensures err { OnErr result (self.new ≡ self.old) }
    {
        match event {
            Event::Do { line } => Ok(Some(self.line(line)?)),
            Event::Apply { vol, upto } => {
                self.rise(*vol, *upto);
                Ok(None)
            }
            Event::Halt { vol } => {
                self.halt(*vol);
                Ok(None)
            }
            Event::Stop { node, line, done } => Ok(Some(self.stop(*node, line, *done)?)),
        }
    }

    /// Whether the line may stand here.
    pub fn allows(&self, line: &Line) -> bool
        ensures { result ≡ allowed self.now.layout self.now.state.session line.now }
    {
        is_allowed(&self.layout, &self.parts.session, line)
    }

    /// Up to where a volume of the open session may come: all that its backup received. There is none where it may not move.
    pub fn may_rise(&self, vol: VolNo) -> Option<Pos>
        ensures some { IfSome result (λ upto. CanMove self.now.layout self.now.state (event.Apply vol upto)) }
        ensures most { IfSome result (λ upto. (to : ℕ) → CanMove self.now.layout self.now.state (event.Apply vol to) → to ≤ upto) }
        ensures none { IfNone result ((to : ℕ) → CanMove self.now.layout self.now.state (event.Apply vol to) → ⊥) }
    {
        self.parts.may_rise(&self.layout, vol)
    }

    /// Whether the disk of the volume may stop in the open session.
    pub fn may_halt(&self, vol: VolNo) -> bool
        ensures may { result ≡ true → CanMove self.now.layout self.now.state (event.Halt vol) }
        ensures only { CanMove self.now.layout self.now.state (event.Halt vol) → result ≡ true }
    {
        self.parts.may_halt(&self.layout, vol)
    }

    /// Does a line, whole. An `Err` is want of memory, and leaves all as it was.
    pub fn line(&mut self, line: &Line) -> Result<Reply, AllocError>
        requires { allowed self.old.layout self.old.state.session line.now ≡ true }
        ensures ok { IfOk result (λ reply. Does self.old.layout self.old.state line.now reply self.new.state) }
        ensures layout { self.new.layout ≡ self.old.layout }
        ensures err { OnErr result (self.new ≡ self.old) }
    {
        positions_sound();
        primary_proper();
        event_goes_on();
        self.parts.line(&self.layout, line)
    }

    /// Does the first `done` durable parts of a line, off which a stop of a disk of the node cuts it, and takes the node down.
    /// An `Err` is want of memory, and leaves all as it was.
    pub fn stop(&mut self, node: Node, line: &Line, done: u32) -> Result<Reply, AllocError>
        requires { CanStop self.old.layout self.old.state node line.now done }
        ensures ok { IfOk result (λ reply. Stops self.old.layout self.old.state node line.now done reply self.new.state) }
        ensures layout { self.new.layout ≡ self.old.layout }
        ensures err { OnErr result (self.new ≡ self.old) }
    {
        positions_sound();
        primary_proper();
        event_goes_on();
        self.parts.stop(&self.layout, node, line, done)
    }

    /// A volume of the open session comes up to a position.
    pub fn rise(&mut self, vol: VolNo, upto: Pos)
        requires { CanMove self.old.layout self.old.state (event.Apply vol upto) }
        ensures moved { self.new.state ≡ after_move 1 self.old.state (event.Apply vol upto) }
        ensures layout { self.new.layout ≡ self.old.layout }
    {
        event_goes_on();
        self.parts.rise(vol, upto);
    }

    /// The disk of a volume of the open session stops.
    pub fn halt(&mut self, vol: VolNo)
        requires { CanMove self.old.layout self.old.state (event.Halt vol) }
        ensures halted { self.new.state ≡ after_move 1 self.old.state (event.Halt vol) }
        ensures layout { self.new.layout ≡ self.old.layout }
    {
        event_goes_on();
        self.parts.halt(vol);
    }
}
