//! The session of the machine.
ghost use Rattle.std.specs.Prelude.{◌≡◌, true, false, map, get_or, slice_set, IfOk};
ghost use Rattle.std.specs.List.{list_any};
ghost use Rattle.rdf_core.specs.Lines.{session_refusal};
ghost use Rattle.rdf_core.specs.Sessions.{opened, with_cut};
ghost use Rattle.backup_machine.specs.Sessions.{halted_in, has_halted_in, has_met_stop, node_in, opened_of, seen_in, session_of};

use crate::positions::Positions;
use rdf_core::replies::NoWhy;
use rdf_types::records::{Node, Pos, VolNo};
use std::alloc::{AllocError, Global};
use std::marker::Model;

/// Whether the disk of each volume has stopped.
#[derive(Drop)]
pub struct Halts {
    flags: Vec<bool>,
}

impl Model for Halts {
    ghost use Rattle.std.specs.Prelude.{List, Bool};

    ghost Value = { List Bool };

    ghost view = { λ a. a.flags.items };
}

impl Halts {
    /// None has, of as many volumes as there are points.
    fn none(alloc: Global, points: &Positions) -> Result<Halts, AllocError>
        ensures { IfOk result (λ halts. halts ≡ map (λ _. false) points.now) }
    {
        let all = points.all();
        let mut flags = Vec::new(alloc);
        for _point in all {
            flags.push(false)?;
        }
        Ok(Halts { flags })
    }

    fn get(&self, number: usize) -> bool
        ensures { result ≡ get_or self.now number false }
    {
        number < self.flags.len() && self.flags[number]
    }

    fn set(&mut self, number: usize)
        ensures { self.new ≡ slice_set self.old number true }
    {
        if number < self.flags.len() {
            self.flags[number] = true;
        }
    }

    fn any(&self) -> bool
        ensures { result ≡ list_any (λ h. h) self.now }
    {
        self.flags.iter().any(|flag| *flag)
    }
}

/// A session since its line.
#[derive(Drop)]
pub struct OpenedState {
    node: Node,
    /// The restart point of each volume at the line.
    began: Positions,
    /// The last position that was read of each volume.
    seen: Positions,
    halted: Halts,
    /// Whether disk 0 stopped.
    cut: bool,
}

/// Whether there is a session.
#[derive(Drop)]
pub enum SessionState {
    /// There is none.
    Closed,
    /// It was refused.
    Refused { node: Node, why: NoWhy },
    /// It is open.
    Open { so_far: OpenedState },
}

impl OpenedState {
    /// A session that begins at these restart points.
    pub fn new(alloc: Global, node: Node, points: Positions) -> Result<OpenedState, AllocError>
        ensures { IfOk result (λ o. opened_of o ≡ opened node points) }
    {
        let seen = points.try_clone()?;
        let halted = Halts::none(alloc, &points)?;
        Ok(OpenedState {
            node,
            began: points,
            seen,
            halted,
            cut: false,
        })
    }

    /// The backup.
    pub fn node(&self) -> Node
        ensures { result ≡ (opened_of self.now).node }
    {
        self.node
    }
}

impl SessionState {
    /// The reply that refused the session.
    pub fn refusal(&self) -> Option<NoWhy>
        ensures { result ≡ session_refusal (session_of self.now) }
    {
        match self {
            SessionState::Refused { why, .. } => Some(*why),
            SessionState::Closed => None,
            SessionState::Open { .. } => None,
        }
    }

    /// The backup of an open session.
    pub fn node(&self) -> Option<Node>
        ensures { result ≡ node_in (session_of self.now) }
    {
        match self {
            SessionState::Open { so_far } => Some(so_far.node),
            SessionState::Closed => None,
            SessionState::Refused { .. } => None,
        }
    }

    /// Whether the disk of the volume stopped in the open session.
    pub fn has_halted(&self, vol: VolNo) -> bool
        ensures { result ≡ has_halted_in (session_of self.now) vol }
    {
        match self {
            SessionState::Open { so_far } => so_far.halted.get(vol.number() as usize),
            SessionState::Closed => false,
            SessionState::Refused { .. } => false,
        }
    }

    /// Whether a disk of the backup stopped in the open session.
    pub fn met_stop(&self) -> bool
        ensures { result ≡ has_met_stop (session_of self.now) }
    {
        match self {
            SessionState::Open { so_far } => so_far.cut || so_far.halted.any(),
            SessionState::Closed => false,
            SessionState::Refused { .. } => false,
        }
    }

    /// Notes the position that was read of a volume.
    pub fn see(&mut self, vol: VolNo, at: Pos)
        ensures { session_of self.new ≡ seen_in (session_of self.old) vol at }
    {
        match self {
            SessionState::Open { so_far } => so_far.seen.set(vol.number() as usize, at),
            SessionState::Closed => {}
            SessionState::Refused { .. } => {}
        }
    }

    /// Notes that the disk of a volume stopped.
    pub fn halt(&mut self, vol: VolNo)
        ensures { session_of self.new ≡ halted_in (session_of self.old) vol }
    {
        match self {
            SessionState::Open { so_far } => so_far.halted.set(vol.number() as usize),
            SessionState::Closed => {}
            SessionState::Refused { .. } => {}
        }
    }

    /// Notes that disk 0 of the node stopped.
    pub fn cut(&mut self, node: Node)
        ensures { session_of self.new ≡ with_cut (session_of self.old) node }
    {
        match self {
            SessionState::Open { so_far } => {
                so_far.cut = so_far.node == node || so_far.cut;
            }
            SessionState::Closed => {}
            SessionState::Refused { .. } => {}
        }
    }
}
