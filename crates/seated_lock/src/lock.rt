//! The lock and its turns.
ghost use Rattle.std.specs.Prelude.{◌≡◌, ℕ, ◌+◌, ◌-◌, ◌<◌, true, false, [], ◌∷◌, Some, IfOk, IfErr};
ghost use Rattle.seated_lock.specs.declared.story.Story.{Story};
ghost use Rattle.std.specs.Borrow.{sem};
ghost use Rattle.seated_lock.specs.Lends.{lends_value};
ghost use Rattle.seated_lock.specs.Stories.{Begins, Grows, untold};
ghost use Rattle.seated_lock.specs.Rules.{StandsFor};
ghost use Rattle.seated_lock.specs.Steps.{sees};
ghost use Rattle.seated_lock.specs.declared.rule.Stage.TheVariants.{Holding};
ghost use Rattle.seated_lock.specs.Passes.{makers_pass, with_story, one_turn_more, with_seats, given_pass, joined_pass};

use crate::pass::Pass;
use crate::plays::{After, Draw, Learn, Look, PassOn, Raise, Seats};
use crate::rule::{Origin, Rule, View};
use crate::story::Told;
use atomic_table::{Badge, Seat, Table};
use std::alloc::{AllocFailed, Global};
use std::marker::{Brand, Model};
use std::mem::replace;
use std::snapshot::Snapshot;
use std::sync::Wait;
use std::sync::atomic::{AtomicU64, Ordering};
use std::thread::yield_now;

const NUMBER: usize = 0;

const TICKET: usize = 1;

const SERVING: usize = 2;

/// How often a pass that waits looks whether its ticket is served before it sleeps.
const LOOKS: u32 = 16;

/// A lock that at most one holder has at a time (`docs/MODEL.md`, "Stories and passes"). Who comes draws a number and waits
/// until that is served, so holders go in the order of their numbers; no clause says so. It is made with a number of seats,
/// and each pass of it holds some of them.
#[derive(Drop)]
pub struct SeatedLock<V: Told> {
    table: Table<Option<V>, View, Origin<V>, Rule<V>, Global>,
    /// How often was announced that there is something new. No clause speaks of it.
    announcements: AtomicU64,
    /// How many passes sleep until their ticket is served. No clause speaks of it.
    sleepers: AtomicU64,
}

impl<V: Told> Model for SeatedLock<V> {
    ghost use Rattle.seated_lock.specs.Passes.{Lock};

    ghost Value = { Lock V };

    ghost use Rattle.std.specs.Prelude.{◌≡◌};
    ghost use Rattle.seated_lock.specs.Passes.{lock_of};

    ghost view = { λ l. lock_of l.table.shared.table_id V.mark l.table.shared.key.first.value l.table.shared.key.seats };

    ghost invariant = { λ l. (l.table.shared.table_id.words ≡ 3) × (l.table.shared.table_id.slots ≡ 1) };
}

/// There was no memory for the lock. The value comes back.
#[derive(Drop)]
pub struct Refused<V> {
    pub value: V,
}

/// A pass whose holder has the value.
pub struct Hold<V> {
    seat: Seat<Option<V>, View>,
    seats: u32,
}

impl<V> Model for Hold<V> {
    ghost use Rattle.seated_lock.specs.Passes.{Seeing};

    ghost Value = { Seeing };

    ghost use Rattle.seated_lock.specs.Passes.{seeing, IsHolding};

    ghost view = { λ h. seeing h.seat.table_id h.seat.me.0 };

    ghost invariant = { λ h. IsHolding h.seat.me h.seats };
}

/// The value, taken out, with the pass.
pub struct Turn<V> {
    value: V,
    hold: Hold<V>,
}

impl<V: Told> SeatedLock<V> {
    /// A lock round the value, and the one pass that writes, with all seats.
    pub fn make(alloc: Global, value: V, seats: u32) -> Result<(SeatedLock<V>, Pass), Refused<V>>
        requires seats { 0 < seats }
        requires value { V.stands value (untold (V.reach value)) value }
        ensures lock { IfOk result (λ r. (r.0.first ≡ value) × (r.0.seats ≡ seats)) }
        ensures pass { IfOk result (λ r. r.1 ≡ makers_pass r.0.id (V.reach value) seats) }
        ensures refused { IfErr result (λ r. r.value ≡ value) }
    {
        let number = value.number();
        let about = Origin {
            seats,
            first: Snapshot::of(&value),
        };
        let slots = match one_slot(alloc, value) {
            Ok(slots) => slots,
            Err(refused) => return Err(refused),
        };
        match Table::new(alloc, &[number, 0, 0], slots, &about) {
            Ok((table, seat)) => {
                let badge = seat.into_badge();
                let lock = SeatedLock {
                    table,
                    announcements: AtomicU64::new(0),
                    sleepers: AtomicU64::new(0),
                };
                Ok((lock, Pass { badge, seats }))
            }
            Err(refused) => {
                let value = slot_value(refused.slots);
                Err(Refused { value })
            }
        }
    }

    /// Waits for its turn, and takes the value out. The turn must be given back.
    pub fn take<R: Wait>(&self, rt: &R, pass: Pass) -> Turn<V>
        requires lock { pass.lock ≡ self.now.id }
        ensures value { StandsFor V.stands V.reach self.now.first result.hold.story result.value }
        ensures seen { Begins pass.story result.hold.story }
        ensures writer { pass.writes ≡ true → result.hold.story ≡ pass.story }
        ensures same { result.hold ≡ one_turn_more pass result.hold.story }
    {
        let Pass { badge, seats } = pass;
        let mut seat = badge.into_seat();
        let words = &self.table.shared;
        let ticket = words.fetch_add::<Draw>(&mut seat, TICKET, 1);
        let mut looks = 0;
        for _ in rt.forever() {
            let served = words.load::<Look>(&mut seat, SERVING);
            if served == ticket {
                match words.exchange(&mut seat, 0, None) {
                    Some(value) => {
                        let hold = Hold { seat, seats };
                        return Turn { value, hold };
                    }
                    None => unreachable!(),
                }
            }
            if looks < LOOKS {
                looks += 1;
                yield_now();
            } else {
                self.sleepers.fetch_add(1, Ordering::SeqCst);
                words.park(rt, SERVING, (served & 0xffff_ffff) as u32);
                self.sleepers.fetch_sub(1, Ordering::SeqCst);
            }
        }
        unreachable!()
    }

    /// Puts the value back, which stands for the story `after`, and lets the next pass have its turn.
    pub fn give(&self, turn: Turn<V>) -> Pass
        ghost after: { Story }
        requires lock { turn.hold.lock ≡ self.now.id }
        requires value { StandsFor V.stands V.reach self.now.first after turn.value }
        requires grows { Grows turn.hold.writes turn.hold.story after }
        ensures { result ≡ with_story turn.hold after }
    {
        let Turn { value, hold } = turn;
        let Hold { mut seat, seats } = hold;
        let number = value.number();
        self.raise::<Brand>(&mut seat, number);
        match self.table.shared.exchange(&mut seat, 0, Some(value)) {
            None => {}
            Some(_) => unreachable!(),
        }
        self.table.shared.fetch_add::<PassOn>(&mut seat, SERVING, 1);
        if self.sleepers.load(Ordering::SeqCst) != 0 {
            self.table.shared.wake_all(SERVING);
        }
        let badge = seat.into_badge();
        Pass { badge, seats }
    }

    fn raise<J: After>(&self, seat: &mut Seat<Option<V>, View>, number: u64)
        requires lock { seat.old.table_id ≡ self.now.id.table }
        requires holds { (seat.old.me.0.stage ≡ Holding) × (0 < seat.old.me.0.seats) }
        requires grows { Grows seat.old.me.0.writes seat.old.me.0.seen J.after × (number ≡ J.after.number) }
        ensures { (seat.new.table_id ≡ seat.old.table_id) × (seat.new.id ≡ seat.old.id) × (seat.new.me ≡ (sees seat.old.me.0 J.after, seat.old.me.1)) }
    {
        self.table
            .shared
            .fetch_max::<Raise<J>>(seat, NUMBER, number);
    }

    /// The number up to which the pass has then seen the story. It waits for nobody.
    pub fn number(&self, pass: &mut Pass) -> u64
        requires lock { pass.old.lock ≡ self.now.id }
        ensures seen { Begins pass.old.story pass.new.story × (result ≡ pass.new.story.number) }
        ensures writer { pass.old.writes ≡ true → pass.new.story ≡ pass.old.story }
        ensures same { pass.new ≡ with_story pass.old pass.new.story }
    {
        let badge = replace(&mut pass.badge, Badge::blank());
        let mut seat = badge.into_seat();
        let found = self.table.shared.load::<Learn>(&mut seat, NUMBER);
        pass.badge = seat.into_badge();
        found
    }

    /// A pass with one of the seats. It has seen what the pass has seen, and does not write.
    pub fn split(&self, pass: &mut Pass) -> Pass
        requires lock { pass.old.lock ≡ self.now.id }
        requires seats { 1 < pass.old.seats }
        ensures kept { pass.new ≡ with_seats pass.old (pass.old.seats - 1) }
        ensures given { result ≡ given_pass pass.old }
    {
        let badge = replace(&mut pass.badge, Badge::blank());
        let mut seat = badge.into_seat();
        let other = self.table.shared.split_seat::<Seats>(&mut seat);
        pass.badge = seat.into_badge();
        pass.seats -= 1;
        let badge = other.into_badge();
        Pass { badge, seats: 1 }
    }

    /// How many passes can still be split from this one.
    pub fn seats_left(&self, pass: &Pass) -> u32
        ensures { result ≡ pass.now.seats - 1 }
    {
        pass.seats - 1
    }

    /// One pass with the seats of both. It has seen what each of the two had seen.
    pub fn join(&self, pass: Pass, other: Pass) -> Pass
        requires lock { (pass.lock ≡ self.now.id) × (other.lock ≡ pass.lock) }
        ensures seen { Begins pass.story result.story × Begins other.story result.story }
        ensures writer { (pass.writes ≡ true → result.story ≡ pass.story) × (other.writes ≡ true → result.story ≡ other.story) }
        ensures both { result ≡ joined_pass pass other result.story }
    {
        let Pass { badge, seats } = pass;
        let Pass {
            badge: other_badge,
            seats: other_seats,
        } = other;
        let mut seat = badge.into_seat();
        let words = &self.table.shared;
        words.join_seat::<Seats>(&mut seat, other_badge.into_seat());
        words.load::<Learn>(&mut seat, NUMBER);
        let badge = seat.into_badge();
        Pass {
            badge,
            seats: seats + other_seats,
        }
    }

    /// How often something new was announced, which wraps.
    pub fn announced(&self) -> u64 {
        self.announcements.load(Ordering::SeqCst)
    }

    /// Announces something new: counts one more, and wakes all that rest. Whoever has given such a value back announces it then.
    pub fn announce(&self) {
        self.announcements.fetch_add(1, Ordering::SeqCst);
        self.announcements.wake_all();
    }

    /// Sleeps until something is announced, or not at all if the count is no longer this one, so that no announcement is
    /// missed of what a turn behind the count did not find. The low 32 bits are compared. It may return for no reason.
    pub fn rest<R: Wait>(&self, rt: &R, announced: u64) {
        self.announcements
            .park(rt, (announced & 0xffff_ffff) as u32);
    }

    /// The value, once all seats are back.
    pub fn close(self, pass: Pass) -> V
        requires lock { pass.lock ≡ self.id }
        requires seats { pass.seats ≡ self.seats }
        ensures { StandsFor V.stands V.reach self.first pass.story result }
    {
        let Pass { badge, seats: _ } = pass;
        let SeatedLock {
            table,
            announcements: _,
            sleepers: _,
        } = self;
        let mut closed = table.close_with(badge.into_seat());
        match closed.take(0) {
            Some(value) => {
                closed.free();
                value
            }
            None => unreachable!(),
        }
    }
}

fn one_slot<V>(alloc: Global, value: V) -> Result<Vec<Option<V>>, Refused<V>>
    ensures ok { IfOk result (λ s. s.items ≡ Some value ∷ []) }
    ensures refused { IfErr result (λ r. r.value ≡ value) }
{
    let mut slots = Vec::new(alloc);
    match slots.push(Some(value)) {
        Ok(()) => Ok(slots),
        Err(failed) => {
            slots.destroy_empty();
            let AllocFailed { value } = failed;
            match value {
                Some(value) => Err(Refused { value }),
                None => unreachable!(),
            }
        }
    }
}

fn slot_value<V>(mut slots: Vec<Option<V>>) -> V
    requires { (v : V) × (slots.items ≡ Some v ∷ []) }
    ensures { slots.items ≡ Some result ∷ [] }
{
    match slots.pop() {
        Some(Some(value)) => {
            slots.destroy_empty();
            value
        }
        _ => unreachable!(),
    }
}

impl<V> Turn<V> {
    /// The value, for the length of the turn.
    pub fn value(&mut self) -> &mut V
        ensures* writes_back { sem 𝓛 (lends_value V.row self.entry result) }
        ensures value { result.now ≡ self.old.value }
    {
        &mut self.value
    }
}
