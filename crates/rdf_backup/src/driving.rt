//! Sessions of a backup: how one is opened, driven beside its updaters, and closed.
ghost use Rattle.std.specs.Prelude.{◌≡◌, ◌≤◌, false, [], length, vec_capacity, All, MatchOption, IfOk, IfErr};
ghost use Rattle.rdf_types.specs.Entries.{Rises};
ghost use Rattle.rdf_types.specs.declared.records.Phase.TheVariants as phase;
ghost use Rattle.rdf_volume.specs.Views.{InUse};
ghost use Rattle.volume_sessions.specs.Shown.{Shown as AnyShown};
ghost use Rattle.volume_sessions.specs.Rising.{MayEnter};
ghost use Rattle.volume_sessions.specs.Leaving.{IsOpened};
ghost use Rattle.rdf_backup.specs.declared.backup.Backup.{Backup as AnyBackup};
ghost use Rattle.rdf_backup.specs.Sessions.{MayOpen, MayBegin, HasDriven, HasRunInside, IsGivenBack, HasRun, IsUnbegun, trails_answer, end_of};
ghost use Rattle.rdf_backup.specs.States.{value_of, MayUse};

use crate::backup::Backup;
use crate::beginning::Opening;
use crate::returning::put_back;
use crate::seating::set_apart;
use crate::session::{Here, Met, NotBegun, Session, SessionEnd};
use image_trails::ImageTrails;
use node_faults::NodeFault;
use open_txns::OpenTxns;
use rdf_core::replies::Reply;
use rdf_disk::Disk;
use rdf_ports::Gate;
use rdf_types::records::{Pos, Stamped};
use rdf_volume::Volume;
use std::alloc::Global;
use std::snapshot::Snapshot;
use std::sync::Wait;
use std::thread::Threads;
use updaters::laws::{applied_shows, step_applies};
use volume_sessions::{Inside, Left, NotBegun as Refused, Placed, Watch, in_session};

/// A session that is driven beside its updaters: what it began with, and what drives it.
#[derive(Drop)]
struct Driven<'a, D: Disk, H> {
    first: Snapshot<Backup<D>>,
    apart: Snapshot<Vec<Volume<D>>>,
    flags: &'a [bool],
    end: Pos,
    trails: &'a mut ImageTrails<D>,
    txns: &'a mut OpenTxns,
    here: H,
}

/// What came of it.
#[derive(Drop)]
struct Ran<'a, D: Disk, O> {
    trails: &'a mut ImageTrails<D>,
    txns: &'a mut OpenTxns,
    out: O,
    met: Option<Met>,
}

/// Lends a session to what drives it.
fn drive_with<'s, 'a, D: Disk, H: Here<D>>(
    what: Driven<'a, D, H>,
    watch: Watch<'s, D>,
) -> (Watch<'s, D>, Ran<'a, D, H::Out>)
    requires ready { H.Ready what.here }
    requires opens { MayOpen D.tells D.files what.first.value what.flags.now what.apart.value.items what.end what.trails.now what.txns.now watch }
    ensures open { result.0.lent ≡ false }
    ensures same { result.0.key ≡ watch.entry.key }
    ensures same_trails { result.1.trails.ghost_name ≡ what.entry.trails.ghost_name }
    ensures same_txns { result.1.txns.ghost_name ≡ what.entry.txns.ghost_name }
    ensures drives { HasDriven D.tells D.files D.counts (H.Drives what.entry.here D.Disk) what.entry.first.value
        what.entry.flags.now what.entry.apart.value.items watch.entry
        result.1.out result.1.met result.1.trails.now result.1.txns.now result.0 }
{
    let Driven {
        first,
        apart,
        flags,
        end,
        trails,
        txns,
        here,
    } = what;
    let mut session = Session {
        first,
        apart,
        trails_shown: Snapshot::of(trails),
        txns_shown: Snapshot::of(txns),
        flags,
        watch,
        end,
        trails,
        txns,
        met: None,
    };
    let out = here.drive(&mut session);
    let Session {
        first: _,
        apart: _,
        trails_shown: _,
        txns_shown: _,
        flags: _,
        watch,
        end: _,
        trails,
        txns,
        met,
    } = session;
    (
        watch,
        Ran {
            trails,
            txns,
            out,
            met,
        },
    )
}

impl<'a, D: Disk, H: Here<D>> Inside<D> for Driven<'a, D, H>
where
    H::Out: Drop,
{
    ghost use Rattle.rdf_backup.specs.Sessions.{MayOpen, HasDriven};

    type Out = Ran<'a, D, H::Out>;

    ghost ready = { λ i watch. H.Ready i.here × MayOpen D.tells D.files i.first.value i.flags.now i.apart.value.items i.end i.trails.now i.txns.now watch };

    ghost drives = { λ i watch ran now. (ran.trails.ghost_name ≡ i.trails.ghost_name) × (ran.txns.ghost_name ≡ i.txns.ghost_name) ×
        HasDriven D.tells D.files D.counts (H.Drives i.here D.Disk) i.first.value i.flags.now i.apart.value.items watch ran.out ran.met ran.trails.now ran.txns.now now };

    fn drive(self, watch: &mut Option<Watch<'_, D>>) -> Ran<'a, D, H::Out> {
        match watch.take() {
            Some(lent) => {
                let (back, ran) = drive_with(self, lent);
                *watch = Some(back);
                ran
            }
            None => unreachable!(),
        }
    }
}

/// The image trails and the open transactions, lent back.
struct Back<'a, D: Disk> {
    trails: &'a mut ImageTrails<D>,
    txns: &'a mut OpenTxns,
}

/// Drives a session beside its updaters. What became of it goes into the one place or the other.
fn run_inside<
    'a,
    R: Threads + Wait + Sync,
    D: Disk + Drop + Send,
    G: Gate + Sync,
    H: Here<D> + Drop,
>(
    rt: &R,
    alloc: Global,
    gate: &G,
    trails: &'a mut ImageTrails<D>,
    txns: &'a mut OpenTxns,
    first: Snapshot<Backup<D>>,
    apart: Snapshot<Vec<Volume<D>>>,
    flags: &'a [bool],
    here: H,
    placed: Vec<Placed<D>>,
    start: Pos,
    part: Vec<Stamped>,
    end: Pos,
    ran: &mut Option<((Vec<Left<D>>, H::Out), Option<Met>)>,
    unbegun: &mut Option<(Vec<Placed<D>>, H)>,
) -> Back<'a, D>
where
    H::Out: Drop,
    requires few { length placed.items ≤ 16 }
    requires rises { Rises start part.items end }
    requires enter { All (MayEnter start end) placed.items }
    requires in_use { D.tells → All (λ p. InUse D.files p.volume) placed.items }
    requires ready { H.Ready here }
    requires opens { (s : AnyShown D) → IsOpened placed.items start part.items end s →
        MayOpen D.tells D.files first.value flags.now apart.value.items end trails.old txns.old s }
    ensures same_trails { result.trails.ghost_name ≡ trails.entry.ghost_name }
    ensures same_txns { result.txns.ghost_name ≡ txns.entry.ghost_name }
    ensures ran { MatchOption ran.new (Unit {0}) (λ r. HasRunInside D.tells D.files D.counts (H.Drives here D.Disk) first.value flags.now apart.value.items
        placed.items start part.items end r.0.0.items r.0.1 r.1 result.trails.now result.txns.now) }
    ensures not { MatchOption ran.new (MatchOption unbegun.new ⊥ (λ u. IsGivenBack D.tells D.files D.counts placed.items u.0.items here u.1
        trails.old result.trails.now txns.old result.txns.now)) (λ r. Unit {0}) }
{
    let what = Driven {
        first,
        apart,
        flags,
        end,
        trails,
        txns,
        here,
    };
    match in_session(rt, alloc, gate, placed, start, part, end, what) {
        Ok((ended, came)) => {
            let Ran {
                trails,
                txns,
                out,
                met,
            } = came;
            *ran = Some(((ended, out), met));
            Back { trails, txns }
        }
        Err(refused) => {
            let Refused { volumes, inside } = refused;
            let Driven {
                first: _,
                apart: _,
                flags: _,
                end: _,
                trails,
                txns,
                here,
            } = inside;
            *ran = None;
            *unbegun = Some((volumes, here));
            Back { trails, txns }
        }
    }
}

/// A session that is driven, or given back, over the image trails and the open transactions of a backup.
fn run_over<R: Threads + Wait + Sync, D: Disk + Drop + Send, G: Gate + Sync, H: Here<D> + Drop>(
    rt: &R,
    gate: &G,
    trails: &mut ImageTrails<D>,
    txns: &mut OpenTxns,
    first: Snapshot<Backup<D>>,
    apart: Snapshot<Vec<Volume<D>>>,
    flags: &[bool],
    here: H,
    placed: Vec<Placed<D>>,
    start: Pos,
    part: Vec<Stamped>,
    end: Pos,
) -> Result<((Vec<Left<D>>, H::Out), Option<Met>), (Vec<Placed<D>>, H)>
where
    H::Out: Drop,
    requires few { length placed.items ≤ 16 }
    requires rises { Rises start part.items end }
    requires enter { All (MayEnter start end) placed.items }
    requires in_use { D.tells → All (λ p. InUse D.files p.volume) placed.items }
    requires ready { H.Ready here }
    requires opens { (s : AnyShown D) → IsOpened placed.items start part.items end s →
        MayOpen D.tells D.files first.value flags.now apart.value.items end trails.old txns.old s }
    ensures ran { IfOk result (λ r. HasRunInside D.tells D.files D.counts (H.Drives here D.Disk) first.value flags.now apart.value.items
        placed.items start part.items end r.0.0.items r.0.1 r.1 trails.new txns.new) }
    ensures not { IfErr result (λ u. IsGivenBack D.tells D.files D.counts placed.items u.0.items here u.1 trails.old trails.new txns.old txns.new) }
{
    let alloc = trails.alloc();
    let mut ran = None;
    let mut unbegun = None;
    let Back { trails: _, txns: _ } = run_inside(
        rt,
        alloc,
        gate,
        trails,
        txns,
        first,
        apart,
        flags,
        here,
        placed,
        start,
        part,
        end,
        &mut ran,
        &mut unbegun,
    );
    if let Some(ran) = ran {
        return Ok(ran);
    }
    match unbegun {
        Some(back) => Err(back),
        None => unreachable!(),
    }
}

/// What was met, as an answer of the image trails' disk.
fn trails_told(met: Option<Met>) -> Result<(), NodeFault>
    ensures { result ≡ trails_answer met }
{
    match met {
        None => Ok(()),
        Some(Met::Trails { fault }) => Err(fault),
        Some(Met::Volume) => Ok(()),
    }
}

/// The answer at the end of a session.
fn told_end(first: Result<(), NodeFault>, met: Option<Met>, n: Pos) -> Result<Reply, NodeFault>
    ensures { result ≡ end_of first met n }
{
    match (first, met) {
        (Err(fault), _) => Err(fault),
        (Ok(()), None) => Ok(Reply::Number { n }),
        (Ok(()), Some(_)) => Err(NodeFault::NoMemory),
    }
}

/// Takes the volumes that take part out of their places, drives the session, and puts them back.
fn work<R: Threads + Wait + Sync, D: Disk + Drop + Send, G: Gate + Sync, H: Here<D> + Drop>(
    rt: &R,
    gate: &G,
    trails: &mut ImageTrails<D>,
    volumes: &mut Vec<Volume<D>>,
    txns: &mut OpenTxns,
    first: Snapshot<Backup<D>>,
    opening: Opening<D>,
    here: H,
) -> Result<SessionEnd<H::Out>, NotBegun<H>>
where
    H::Out: Drop,
    requires ready { H.Ready here }
    requires begins { MayBegin D.tells D.files first.value opening.protection opening.start opening.part.items opening.end }
    requires empty { (opening.lists.0.items ≡ []) × (opening.lists.1.items ≡ []) }
    requires room { (length opening.protection ≤ vec_capacity opening.lists.0) × (length opening.protection ≤ vec_capacity opening.lists.1) }
    requires same { (trails.old ≡ first.value.trails) × (volumes.old ≡ first.value.volumes) × (txns.old ≡ first.value.txns) }
    requires usable { ((value_of first.value).phase ≡ phase.Running) × (D.tells → MayUse D.files first.value) }
    ensures laid { trails.new.memory.layout ≡ trails.old.memory.layout }
    ensures many { length volumes.new.items ≡ length volumes.old.items }
    ensures unbegun { (new : AnyBackup D D.Disk) → new.trails ≡ trails.new → new.volumes.items ≡ volumes.new.items → new.txns ≡ txns.new →
        IfErr result (λ n. (n.here ≡ here) × IsUnbegun D.tells D.files D.counts first.value new) }
    ensures runs { (new : AnyBackup D D.Disk) → new.trails ≡ trails.new → new.volumes.items ≡ volumes.new.items → new.txns ≡ txns.new →
        IfOk result (λ e. HasRun D.tells D.files D.counts (H.Drives here D.Disk) e.out e.end first.value new) }
{
    applied_shows();
    step_applies();
    let Opening {
        protection,
        start,
        part,
        end,
        lists,
    } = opening;
    let flags = protection.flags();
    let (placed, apart) = set_apart(volumes, flags, lists);
    let aside = Snapshot::of(&apart);
    match run_over(
        rt, gate, trails, txns, first, aside, flags, here, placed, start, part, end,
    ) {
        Ok(((ended, out), met)) => {
            let fault = put_back(volumes, flags, ended, apart, trails_told(met));
            let end = told_end(fault, met, trails.received());
            Ok(SessionEnd { out, end })
        }
        Err((back, here)) => {
            let _ = put_back(volumes, flags, back, apart, Ok(()));
            Err(NotBegun { here })
        }
    }
}

impl<D: Disk + Drop + Send> Backup<D> {
    /// A session from its line to its end. Each protected volume goes into a lock, and an updater in a thread of its own
    /// brings it on; beside them a session is lent to `here`. When that is done the updaters apply what there is, and each
    /// volume comes back to its place. It is asked for while the backup runs.
    pub fn session<R: Threads + Wait + Sync, G: Gate + Sync, H: Here<D> + Drop>(
        &mut self,
        rt: &R,
        gate: &G,
        here: H,
    ) -> Result<SessionEnd<H::Out>, NotBegun<H>>
    where
        H::Out: Drop,
        requires running { (value_of self.old).phase ≡ phase.Running }
        requires ready { H.Ready here }
        requires usable { D.tells → MayUse D.files self.old }
        ensures unbegun { IfErr result (λ n. (n.here ≡ here) × IsUnbegun D.tells D.files D.counts self.old self.new) }
        ensures runs { IfOk result (λ e. HasRun D.tells D.files D.counts (H.Drives here D.Disk) e.out e.end self.old self.new) }
    {
        let first = Snapshot::of(&*self);
        match self.opening() {
            Ok(opening) => work(
                rt,
                gate,
                &mut self.trails,
                &mut self.volumes,
                &mut self.txns,
                first,
                opening,
                here,
            ),
            Err(_) => Err(NotBegun { here }),
        }
    }
}
