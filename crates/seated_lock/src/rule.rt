//! What each seat at the table knows, and the rule of the table.
//! Word 0 is the story's number. Word 1 is the next ticket to be drawn and word 2 the ticket that is served, each modulo 2^64. Slot 0 holds the value.
ghost use base.Fml.{ftrue};
ghost use base.Stored.{Gv};
ghost use Rattle.seated_lock.specs.Codes.{itself};

use crate::story::{Story, Told};
use atomic_table::TableRule;
use std::marker::{Model, PhantomData};
use std::snapshot::Snapshot;

/// A lock's first value, in a type that does not name the value's. No value of it is made.
pub struct Mark {
    nothing: (),
    pub ghost code: { Gv } by { itself },
}

impl Model for Mark {
    ghost also_owns = { λ _. ftrue };
}

/// Where a seat is in its turn: it wants none, waits for it, or has the value.
pub enum Stage {
    Idle,
    Waiting,
    Holding,
}

/// What a seat at the table knows. No value of it is made.
pub struct View {
    pub seen: Story,
    /// What the pass that was joined last had seen.
    pub beside: Story,
    pub writes: bool,
    pub turns: u64,
    /// 0 of a view that was spent by a join.
    pub seats: u64,
    pub stage: Stage,
    /// It does not wrap.
    pub ticket: u64,
    /// That two writing passes were joined, which does not happen.
    pub clash: bool,
    pub origin: Mark,
}

/// How a lock began.
#[derive(Drop)]
pub struct Origin<V> {
    pub seats: u32,
    pub first: Snapshot<V>,
}

/// The rule of a lock's table (`docs/MODEL.md`, "Stories and passes").
pub struct Rule<V> {
    marker: PhantomData<V>,
}

impl<V: Told> TableRule<Option<V>, View, Origin<V>> for Rule<V> {
    ghost use Rattle.seated_lock.specs.Rules.{IsKept, maker};

    ghost holds = { λ key. IsKept V.mark V.stands V.reach key.first.value key.seats };

    ghost first = { λ key. maker (V.mark key.first.value) (V.reach key.first.value) key.seats };
}
