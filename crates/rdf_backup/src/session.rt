//! Sessions of a backup: what is driven in one, and its end.
ghost use Rattle.std.specs.Prelude.{◌≡◌, ◌≤◌, ◌<◌, ℕ, max, true, false, List, length, map, get_or, is_some, Some, None, IfOk, IfErr, IsTrue};
ghost use Rattle.plan_lang.specs.declared.lines.Line.TheVariants as line;
ghost use Rattle.rdf_types.specs.declared.records.Node.{Node as AnyNode};
ghost use Rattle.rdf_types.specs.declared.records.Phase.TheVariants as phase;
ghost use Rattle.rdf_types.specs.declared.records.Record.{Record as AnyRecord};
ghost use Rattle.rdf_disk.specs.declared.disk.Disk.{Ghosts};
ghost use Rattle.rdf_codec.specs.declared.ships.Ship.{Ship as AnyShip};
ghost use Rattle.rdf_codec.specs.Ships.{HasShipSpelling};
ghost use Rattle.image_disks.specs.Values.{received};
ghost use Rattle.image_trails.specs.Trails.{trails_value};
ghost use Rattle.open_txns.specs.Noted.{low_of};
ghost use Rattle.rdf_volume.specs.Views.{restart_of};
ghost use Rattle.volume_sessions.specs.Shown.{HasRoom, with_back};
ghost use Rattle.rdf_core.specs.Layouts.{protects, least};
ghost use Rattle.rdf_core.specs.Backup.{Around, points_in, deliver_refusal, needs_volumes, read_reply};
ghost use Rattle.rdf_backup.specs.declared.backup.Backup.{Backup as AnyBackup};
ghost use Rattle.rdf_backup.specs.States.{layout_of, value_of, state_of, Serves};
ghost use Rattle.rdf_backup.specs.Replies.{Brings};
ghost use Rattle.rdf_wire.specs.Shipping.{IsSent};
ghost use Rattle.rdf_backup.specs.Refusals.{IsJudged, IsNumber, IsCount, read_refusal};

use crate::backup::Backup;
use crate::delivery::{bar, delivery_refusal, ship_in, store};
use crate::feeding::{count_flagged, least_shown, new_part, place_of, takes_part};
use image_disks::one_value;
use image_trails::ImageTrails;
use node_faults::{NodeFault, at_disk};
use open_txns::OpenTxns;
use open_txns::laws::{legal_is_proper, low_of_notes};
use purger::purge;
use rdf_codec::ships::Ship;
use rdf_core::replies::{NoWhy, Reply};
use rdf_disk::Disk;
use rdf_model::laws::{low_of_part, prefix_is_legal};
use rdf_types::names::Value;
use rdf_types::records::{Phase, Pos, RecKey};
use rdf_volume::Volume;
use std::snapshot::Snapshot;
use std::sync::Wait;
use updaters::laws::{applied_shows, step_applies};
use volume_sessions::{Room, Watch};

/// What a read answers of a place at a position.
fn answer_at(at: Pos, value: Option<Value>) -> Reply
    ensures { result ≡ read_reply at value }
{
    match value {
        Some(value) => Reply::Holds { at, value },
        None => Reply::Absent { at },
    }
}

/// What was met in a session: a fault of the image trails' disk or want of memory in a line, or a fault that a volume's
/// seat keeps.
#[derive(Clone, Copy)]
pub enum Met {
    Trails { fault: NodeFault },
    Volume,
}

/// An open session of a backup. Once something was met in a line, each call of it answers that the node is down.
pub struct Session<'s, 'a, D: Disk> {
    /// The backup as the session began.
    pub(crate) first: Snapshot<Backup<D>>,
    /// The volumes that take no part.
    pub(crate) apart: Snapshot<Vec<Volume<D>>>,
    /// The image trails and the open transactions as they stood behind the last line that was answered.
    pub(crate) trails_shown: Snapshot<ImageTrails<D>>,
    pub(crate) txns_shown: Snapshot<OpenTxns>,
    /// Which volumes take part.
    pub(crate) flags: &'a [bool],
    pub(crate) watch: Watch<'s, D>,
    /// Up to which position entries were published.
    pub(crate) end: Pos,
    pub(crate) trails: &'a mut ImageTrails<D>,
    pub(crate) txns: &'a mut OpenTxns,
    pub(crate) met: Option<Met>,
}

impl<'s, 'a, D: Disk> Session<'s, 'a, D> {
    ghost use Rattle.rdf_backup.specs.declared.session.Met.TheVariants as met;
    ghost use Rattle.rdf_backup.specs.Sessions.{MayGoOn, KeepsSession, EndsOpen, IsReadAt, ReadsOpen, IsFed, HasCome, RisesOpen, PurgesOpen};
    ghost use Rattle.rdf_backup.specs.Sessions.{open_of, shown_in, with_watch, trails_name, txns_name, places_of};

    /// Whether something was met in it.
    pub fn is_met(&self) -> bool
        ensures { result ≡ is_some (open_of self.now).met }
    {
        self.met.is_some()
    }

    /// The positions of the primary's trail below this one are shown to be received.
    pub fn received(&self) -> Pos
        requires goes { MayGoOn D.tells D.files self.now }
        ensures { D.tells → result ≡ received (value_of (open_of self.now).shown) }
    {
        self.end
    }

    /// The line `deliver` in the session: in one turn of the board what is new is stored, durably, and then the updaters get it.
    pub fn deliver<R: Wait>(&mut self, rt: &R, bytes: &[u8]) -> Result<Reply, NodeFault>
        requires sent { (ship : AnyShip) × IsSent bytes.now ship }
        requires goes { MayGoOn D.tells D.files self.old }
        ensures goes { MayGoOn D.tells D.files self.new }
        ensures same_trails { trails_name self.new ≡ trails_name self.old }
        ensures same_txns { txns_name self.new ≡ txns_name self.old }
        ensures same_places { places_of self.new ≡ places_of self.old }
        ensures keeps { KeepsSession D.tells D.files D.counts (λ why. met.Trails why) result (open_of self.old) (open_of self.new) }
        ensures ends { D.tells → (open_of self.old).met ≡ None → (w : Around) (ship : AnyShip) (node : AnyNode) (k : ℕ) → IsSent bytes.now ship →
            Serves D.files w.trail (open_of self.old).shown → Brings (layout_of (open_of self.old).shown) w ship →
            EndsOpen D.files w (line.Deliver node k) result (open_of self.old) (open_of self.new) }
        ensures judged { (open_of self.old).met ≡ None → (ship : AnyShip) → IsSent bytes.now ship →
            IsJudged (deliver_refusal (state_of 0 (open_of self.old).shown) (Some (ship.from, ship.to)))
            (IsNumber (max (received (value_of (open_of self.old).shown)) ship.to)) result (open_of self.old) (open_of self.new) }
    {
        if self.met.is_some() {
            return Ok(Reply::No { why: NoWhy::Down });
        }
        if let Some(why) = delivery_refusal(self.trails, bytes) {
            return Ok(Reply::No { why });
        }
        match ship_in(self.trails.alloc(), bytes) {
            Ok(ship) => self.receive(rt, ship),
            Err(fault) => {
                self.met = Some(Met::Trails { fault });
                Err(fault)
            }
        }
    }

    /// Takes in a shipment that joins what was received.
    fn receive<R: Wait>(&mut self, rt: &R, ship: Ship) -> Result<Reply, NodeFault>
        requires spelled { HasShipSpelling ship }
        requires joins { ship.from ≤ received (trails_value self.old.trails.now) }
        requires unmet { self.old.met ≡ None }
        requires goes { MayGoOn D.tells D.files self.old }
        ensures goes { MayGoOn D.tells D.files self.new }
        ensures same_trails { trails_name self.new ≡ trails_name self.old }
        ensures same_txns { txns_name self.new ≡ txns_name self.old }
        ensures same_places { places_of self.new ≡ places_of self.old }
        ensures keeps { KeepsSession D.tells D.files D.counts (λ why. met.Trails why) result (open_of self.old) (open_of self.new) }
        ensures ends { D.tells → (w : Around) (node : AnyNode) (k : ℕ) → Serves D.files w.trail (open_of self.old).shown →
            Brings (layout_of (open_of self.old).shown) w ship → EndsOpen D.files w (line.Deliver node k) result (open_of self.old) (open_of self.new) }
        ensures taken { IfOk result (IsNumber (max (received (value_of (open_of self.old).shown)) ship.to)) }
    {
        let at = self.trails.received();
        if ship.to <= at {
            return Ok(Reply::Number { n: at });
        }
        match self.watch.reserve(rt, 64) {
            Ok(room) => self.store_in(room, ship),
            Err(_) => {
                let fault = NodeFault::NoMemory;
                self.met = Some(Met::Trails { fault });
                Err(fault)
            }
        }
    }

    /// Stores a shipment that joins and has something new, and publishes what is new of it in the room that was made.
    fn store_in(&mut self, room: Room<D>, ship: Ship) -> Result<Reply, NodeFault>
        requires spelled { HasShipSpelling ship }
        requires joins { ship.from ≤ received (trails_value self.old.trails.now) }
        requires more { received (trails_value self.old.trails.now) < ship.to }
        requires unmet { self.old.met ≡ None }
        requires room { HasRoom self.old.watch room × (room.more ≡ 64) × (self.old.watch.lent ≡ true) }
        requires goes { MayGoOn D.tells D.files (with_watch self.old (with_back self.old.watch)) }
        ensures goes { MayGoOn D.tells D.files self.new }
        ensures same_trails { trails_name self.new ≡ trails_name self.old }
        ensures same_txns { txns_name self.new ≡ txns_name self.old }
        ensures same_places { places_of self.new ≡ places_of self.old }
        ensures keeps { KeepsSession D.tells D.files D.counts (λ why. met.Trails why) result (open_of self.old) (open_of self.new) }
        ensures ends { D.tells → (w : Around) (node : AnyNode) (k : ℕ) → Serves D.files w.trail (open_of self.old).shown →
            Brings (layout_of (open_of self.old).shown) w ship → EndsOpen D.files w (line.Deliver node k) result (open_of self.old) (open_of self.new) }
        ensures taken { IfOk result (IsNumber ship.to) }
    {
        match store(self.trails, self.txns, &ship) {
            Ok(n) => {
                let upto = ship.to.max(self.end);
                self.watch.publish(room, new_part(ship, self.end), upto);
                self.end = upto;
                self.trails_shown = Snapshot::of(self.trails);
                self.txns_shown = Snapshot::of(self.txns);
                Ok(Reply::Number { n })
            }
            Err(fault) => {
                self.watch.give_back(room);
                self.met = Some(Met::Trails { fault });
                Err(fault)
            }
        }
    }

    /// The line `read` in the session: a row as its volume shows it in a turn on its lock, and the position that it stands at.
    pub fn read<R: Wait>(&mut self, rt: &R, key: &RecKey) -> Result<Reply, NodeFault>
        requires goes { MayGoOn D.tells D.files self.old }
        ensures goes { MayGoOn D.tells D.files self.new }
        ensures same_trails { trails_name self.new ≡ trails_name self.old }
        ensures same_txns { txns_name self.new ≡ txns_name self.old }
        ensures same_places { places_of self.new ≡ places_of self.old }
        ensures keeps { KeepsSession D.tells D.files D.counts (λ why. met.Volume) result (open_of self.old) (open_of self.new) }
        ensures reads { D.tells → (open_of self.old).met ≡ None → (trail : List AnyRecord) → Serves D.files trail (open_of self.old).shown →
            IsFed trail (open_of self.old) → IfOk result (λ reply. ReadsOpen D.files trail key.now reply (open_of self.old) (open_of self.new)) }
        ensures judged { (open_of self.old).met ≡ None →
            IsJudged (read_refusal (layout_of (open_of self.old).shown) (state_of 0 (open_of self.old).shown) key.now.vol)
            (IsReadAt (protects (layout_of (open_of self.old).shown) key.now.vol) key.now.vol (open_of self.new)) result (open_of self.old) (open_of self.new) }
        ensures protected { IfErr result (λ why. IsTrue (protects (layout_of (open_of self.old).shown) key.now.vol)) }
    {
        if self.met.is_some() {
            return Ok(Reply::No { why: NoWhy::Down });
        }
        if let Some(why) = bar(self.trails.phase()) {
            return Ok(Reply::No { why });
        }
        if key.vol.number() as usize >= self.flags.len() {
            return Ok(Reply::No { why: NoWhy::Volume });
        }
        let protected = takes_part(self.flags, key.vol);
        if !protected {
            return Ok(Reply::Absent { at: 0 });
        }
        self.look(rt, key)
    }

    /// A row of a protected volume, as the volume shows it in a turn on its lock.
    fn look<R: Wait>(&mut self, rt: &R, key: &RecKey) -> Result<Reply, NodeFault>
        requires unmet { self.old.met ≡ None }
        requires there { key.now.vol < length self.old.flags.now }
        requires protected { get_or self.old.flags.now key.now.vol false ≡ true }
        requires goes { MayGoOn D.tells D.files self.old }
        ensures goes { MayGoOn D.tells D.files self.new }
        ensures same_trails { trails_name self.new ≡ trails_name self.old }
        ensures same_txns { txns_name self.new ≡ txns_name self.old }
        ensures same_places { places_of self.new ≡ places_of self.old }
        ensures keeps { KeepsSession D.tells D.files D.counts (λ why. met.Volume) result (open_of self.old) (open_of self.new) }
        ensures reads { D.tells → (trail : List AnyRecord) → Serves D.files trail (open_of self.old).shown → IsFed trail (open_of self.old) →
            IfOk result (λ reply. ReadsOpen D.files trail key.now reply (open_of self.old) (open_of self.new)) }
        ensures says { IfOk result (IsReadAt true key.now.vol (open_of self.new)) }
    {
        applied_shows();
        step_applies();
        let number = key.vol.number();
        let place = place_of(self.flags, key.vol);
        match self.watch.read(rt, place, key) {
            Ok(value) => Ok(answer_at(self.watch.point(place), value)),
            Err(fault) => {
                self.met = Some(Met::Volume);
                Err(at_disk(number + 1, fault))
            }
        }
    }

    /// The line `purge` in the session, by the restart points that the updaters have noted. These are shown from then on,
    /// also where the purge is broken off.
    pub fn purge<R: Wait>(&mut self, rt: &R) -> Result<Reply, NodeFault>
        requires goes { MayGoOn D.tells D.files self.old }
        ensures goes { MayGoOn D.tells D.files self.new }
        ensures same_trails { trails_name self.new ≡ trails_name self.old }
        ensures same_txns { txns_name self.new ≡ txns_name self.old }
        ensures same_places { places_of self.new ≡ places_of self.old }
        ensures purges { PurgesOpen D.tells D.files D.counts result (open_of self.old) (open_of self.new) }
        ensures comes { (first : AnyBackup D D.Disk) → HasCome D.counts first (open_of self.old) → HasCome D.counts first (open_of self.new) }
    {
        self.rise(rt);
        self.purge_shown()
    }

    /// Shows each volume as its updater has noted it. Once something was met it does nothing.
    fn rise<R: Wait>(&mut self, rt: &R)
        requires goes { MayGoOn D.tells D.files self.old }
        ensures goes { MayGoOn D.tells D.files self.new }
        ensures same_trails { trails_name self.new ≡ trails_name self.old }
        ensures same_txns { txns_name self.new ≡ txns_name self.old }
        ensures same_places { places_of self.new ≡ places_of self.old }
        ensures rises { RisesOpen D.tells D.files D.counts (open_of self.old) (open_of self.new) }
    {
        applied_shows();
        step_applies();
        if self.met.is_some() {
            return;
        }
        self.watch.ask(rt);
        self.watch.accept();
    }

    /// The line `purge`, by the restart points as they are shown.
    fn purge_shown(&mut self) -> Result<Reply, NodeFault>
        requires goes { MayGoOn D.tells D.files self.old }
        ensures goes { MayGoOn D.tells D.files self.new }
        ensures same_trails { trails_name self.new ≡ trails_name self.old }
        ensures same_txns { txns_name self.new ≡ txns_name self.old }
        ensures same_places { places_of self.new ≡ places_of self.old }
        ensures keeps { KeepsSession D.tells D.files D.counts (λ why. met.Trails why) result (open_of self.old) (open_of self.new) }
        ensures ends { D.tells → (open_of self.old).met ≡ None → (w : Around) (node : AnyNode) →
            w.points ≡ points_in (layout_of (open_of self.old).shown) w.trail (state_of 0 (open_of self.old).shown).volumes →
            Serves D.files w.trail (open_of self.old).shown →
            EndsOpen D.files w (line.Purge node) result (open_of self.old) (open_of self.new) }
        ensures judged { (open_of self.old).met ≡ None →
            IsJudged (needs_volumes (state_of 0 (open_of self.old).shown)) IsCount result (open_of self.old) (open_of self.new) }
    {
        one_value();
        prefix_is_legal();
        legal_is_proper();
        low_of_notes();
        low_of_part();
        if self.met.is_some() {
            return Ok(Reply::No { why: NoWhy::Down });
        }
        if let Phase::Taking = self.trails.phase() {
            return Ok(Reply::No { why: NoWhy::Taking });
        }
        let floor = self.floor();
        let retain = self.trails.memory.layout.retain;
        match purge(self.trails, floor, retain) {
            Ok(n) => {
                self.trails_shown = Snapshot::of(self.trails);
                Ok(Reply::Number { n: u64::from(n) })
            }
            Err(fault) => {
                let fault = at_disk(0, fault);
                self.met = Some(Met::Trails { fault });
                Err(fault)
            }
        }
    }

    /// The position that no purge may pass, by the restart points as they are shown.
    fn floor(&self) -> Pos
        requires unmet { self.now.met ≡ None }
        requires goes { MayGoOn D.tells D.files self.now }
        ensures { result ≡ least (layout_of (shown_in self.now)).protect (map (λ volume. restart_of volume) (shown_in self.now).volumes.items)
            (low_of (shown_in self.now).txns (received (value_of (shown_in self.now)))) }
    {
        let low = self.txns.low(self.trails.received());
        least_shown(&self.watch, count_flagged(self.flags), low)
    }
}

/// What is driven in a session.
pub trait Here<D: Disk> {
    ghost use Rattle.rdf_backup.specs.Sessions.{MayGoOn, HasCome, open_of, trails_name, txns_name, places_of};
    ghost use Rattle.rdf_backup.specs.Sessions.{Open as AnyOpen};

    /// What comes of it.
    type Out;

    /// What the value needs to be driven.
    ghost Ready: { Self → Type 0 };

    /// How the value, the session before, what comes of it, and the session after are related.
    ghost Drives: { Self → (d : Ghosts D) → AnyOpen D d → Self.Out → AnyOpen D d → Type 0 };

    /// Drives the session. What is shown keeps its layout, and the counts of its disks tell of what was met in it, and of
    /// nothing else: this is said from any backup that the session came from, so that one call after the other adds up.
    fn drive(self, session: &mut Session<'_, '_, D>) -> Self::Out
        requires ready { Ready self }
        requires goes { MayGoOn D.tells D.files session.old }
        ensures goes { MayGoOn D.tells D.files session.new }
        ensures same_trails { trails_name session.new ≡ trails_name session.old }
        ensures same_txns { txns_name session.new ≡ txns_name session.old }
        ensures same_places { places_of session.new ≡ places_of session.old }
        ensures comes { (first : AnyBackup D D.Disk) → HasCome D.counts first (open_of session.old) → HasCome D.counts first (open_of session.new) }
        ensures drives { Drives self D.Disk (open_of session.old) result (open_of session.new) };
}

/// How a session ended: what came of it, and the reply of the line `end`, or the first of the faults that were met.
#[derive(Drop)]
pub struct SessionEnd<O> {
    pub out: O,
    pub end: Result<Reply, NodeFault>,
}

/// A session that was not begun: for want of memory, or where the disks do not tell what they hold and what is kept of the
/// audit, or a restart point, is out of its place. What was to be driven comes back.
#[derive(Drop)]
pub struct NotBegun<H> {
    pub here: H,
}
