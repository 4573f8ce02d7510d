//! The transactions of a node over its trail and its volumes.
ghost use Rattle.std.specs.Prelude.{◌≡◌, ◌+◌, ◌≤◌, ◌<◌, Bool, true, false, Option, Some, None, IfNone, vec_len, vec_capacity};

use crate::disks::gathered;
use crate::fault::TmfFault;
use crate::joining::table_of;
use crate::store::Store;
use crate::volumes::{fuse_disk, rows_on};
use active_txns::ActiveTxns;
use audit_trail::AuditTrail;
use audit_trail::laws::in_use_is_durable;
use node_faults::{NodeFault, Shut};
use rdf_disk::{Disk, Tear};
use rdf_model::laws::begin_runs;
use rdf_types::records::{RecKey, Row, TxnId, VolNo};
use rdf_volume::Volume;
use rdf_volume::laws::in_use_stands;
use std::alloc::Global;

/// The transactions of a primary, with its audit trail and its volumes. Disk 0 is the trail's, and disk 1 + v volume v's.
///
/// After a call ended by a fault of the node every further one is answered `Down`, and only `close` is of use.
#[derive(Drop)]
pub struct Tmf<D: Disk> {
    pub(crate) store: Store<D>,
    pub(crate) txns: ActiveTxns,
    pub(crate) down: bool,
    pub(crate) room: Vec<D>,
    ghost empty: { vec_len room ≡ 0 },
    ghost roomy: { vec_len store.volumes + 1 ≤ vec_capacity room },
}

impl<D: Disk> Tmf<D> {
    ghost use Rattle.std.specs.FinSet as set;
    ghost use Rattle.std.specs.Prelude.{min, IfOk, IfErr, IfSome};
    ghost use Rattle.rdf_model.specs.Contents.{nothing};
    ghost use Rattle.rdf_model.specs.Trail.{raw, owner};
    ghost use Rattle.tmf_core.specs.States.{tmf_trail, tmf_active, tmf_volumes, is_down, RunsUnlessDown, RunsWith, FusedAt};
    ghost use Rattle.tmf_core.specs.Refusals.{locked_for, cannot_use, end_refusal, IsOfEnd, IsOfPlace};
    ghost use Rattle.tmf_core.specs.Answers.{IsPlain, IsOfMemory, AreRowsOn};
    ghost use Rattle.tmf_core.specs.Calls.{Begins, Lists};

    /// The audit trail.
    pub fn trail(&self) -> &AuditTrail<D>
        ensures { result.now ≡ self.now.store.trail }
    {
        &self.store.trail
    }

    /// How many transactions are active. The count stands still at 4,294,967,295.
    pub fn active(&self) -> u32
        requires runs { D.tells → RunsUnlessDown D.files self.now }
        ensures { D.tells → is_down self.now ≡ false → result ≡ min (set.len (tmf_active self.now)) u32.MAX }
    {
        self.txns.count()
    }

    /// Makes a transaction active. It calls no disk: want of memory is its only fault of the node, and the disks are as they were.
    pub fn begin(&mut self, txn: TxnId) -> Result<(), TmfFault>
        requires runs { D.tells → RunsUnlessDown D.files self.old }
        ensures does { Begins D.tells D.files D.counts txn self.old result self.new }
        ensures store { self.new.store ≡ self.old.store }
        ensures memory { IsOfMemory result }
    {
        if self.down {
            return Err(TmfFault::Down);
        }
        if self.txns.is_active(txn) || self.txns.is_used(txn) {
            return Err(TmfFault::TxnUsed);
        }
        begin_runs();
        in_use_is_durable();
        in_use_stands::<D>();
        match self.txns.begin(txn) {
            Ok(()) => Ok(()),
            Err(_) => Err(self.fall(NodeFault::NoMemory)),
        }
    }

    /// All rows of a volume, in the order of file and key, committed or not.
    pub fn scan(&mut self, vol: VolNo) -> Result<Vec<Row>, TmfFault>
        requires runs { D.tells → RunsUnlessDown D.files self.old }
        ensures does { Lists D.tells D.files D.counts vol self.old result self.new }
        ensures rows { D.tells → IfOk result (λ rows. AreRowsOn vol (raw nothing (tmf_trail self.old)) rows.items) }
    {
        if self.down {
            return Err(TmfFault::Down);
        }
        if vol.number() as usize >= self.store.volumes.len() {
            return Err(TmfFault::NoVolume);
        }
        match rows_on(&mut self.store, vol) {
            Ok(rows) => Ok(rows),
            Err(fault) => Err(self.fall(fault)),
        }
    }

    /// After that many more counted calls of the disk the next one stops. The node is not down yet.
    pub fn fuse(&mut self, disk: u8, calls: u32, tear: Tear)
        requires there { disk ≤ tmf_volumes self.old }
        requires up { is_down self.old ≡ false }
        requires runs { D.tells → RunsUnlessDown D.files self.old }
        ensures runs { D.tells → RunsWith D.files (tmf_trail self.old) (tmf_active self.old) self.new }
        ensures down { is_down self.new ≡ is_down self.old }
        ensures counts { FusedAt D.counts disk self.old.store self.new.store }
    {
        fuse_disk(&mut self.store, disk, calls, tear);
    }

    /// Why the transaction cannot end, where that is so.
    pub(crate) fn end_refusal(&self, txn: TxnId) -> Option<TmfFault>
        requires runs { D.tells → RunsUnlessDown D.files self.now }
        ensures judged { D.tells → result ≡ end_refusal self.now txn }
        ensures plain { IsPlain (is_down self.now) result }
        ensures kinds { IfSome result IsOfEnd }
    {
        if self.down {
            return Some(TmfFault::Down);
        }
        if !self.txns.is_active(txn) {
            return Some(TmfFault::NoTxn);
        }
        None
    }

    /// Why the transaction has no say over the record, where that is so.
    pub(crate) fn bar(&self, txn: TxnId, key: &RecKey) -> Option<TmfFault>
        requires runs { D.tells → RunsUnlessDown D.files self.now }
        ensures judged { D.tells → result ≡ cannot_use self.now txn key.now }
        ensures plain { IsPlain (is_down self.now) result }
        ensures kinds { (needs : Bool) → IfSome result (IsOfPlace needs) }
        ensures there { IfNone result (key.now.vol < tmf_volumes self.now) }
    {
        if let Some(refusal) = self.end_refusal(txn) {
            return Some(refusal);
        }
        if key.vol.number() as usize >= self.store.volumes.len() {
            return Some(TmfFault::NoVolume);
        }
        self.lock(txn, key)
    }

    /// Why the record is locked for the transaction, where that is so.
    fn lock(&self, txn: TxnId, key: &RecKey) -> Option<TmfFault>
        requires up { is_down self.now ≡ false }
        requires runs { D.tells → RunsUnlessDown D.files self.now }
        ensures judged { D.tells → result ≡ locked_for txn (owner (tmf_trail self.now) key.now) }
        ensures plain { IsPlain false result }
        ensures kinds { (needs : Bool) → IfSome result (IsOfPlace needs) }
    {
        match self.txns.owner(key) {
            None => None,
            Some(by) => {
                if by == txn {
                    return None;
                }
                Some(TmfFault::Locked { by })
            }
        }
    }

    /// Takes the node down: no further call does anything.
    pub(crate) fn fall(&mut self, fault: NodeFault) -> TmfFault
        ensures told { result ≡ TmfFault.Node fault }
        ensures store { self.new.store ≡ self.old.store }
        ensures down { is_down self.new ≡ true }
    {
        self.down = true;
        TmfFault::Node { fault }
    }
}

impl<D: Disk + Drop> Tmf<D> {
    ghost use Rattle.std.specs.Prelude.{IfOk, IfErr};
    ghost use Rattle.rdf_model.specs.Contents.{nothing};
    ghost use Rattle.rdf_model.specs.Trail.{open_in};
    ghost use Rattle.rdf_model.specs.Legal.{Legal};
    ghost use Rattle.audit_trail.specs.InUse.{trail_of};
    ghost use Rattle.tmf_core.specs.Stores.{Stored};
    ghost use Rattle.tmf_core.specs.Disks.{disks_of};
    ghost use Rattle.tmf_core.specs.States.{is_down, RunsWith};

    /// Puts a trail and volumes together, whose disks are handed back where there is no memory. The active transactions
    /// are the losers of the trail. `room` takes the disks when they are handed back.
    pub fn join(
        alloc: Global,
        trail: AuditTrail<D>,
        volumes: Vec<Volume<D>>,
        room: Vec<D>,
    ) -> Result<Tmf<D>, Shut<D>>
        requires empty { vec_len room ≡ 0 }
        requires roomy { vec_len volumes + 1 ≤ vec_capacity room }
        ensures store { IfOk result (λ tmf. tmf.store ≡ record { trail = trail; volumes = volumes }) }
        ensures up { IfOk result (λ tmf. is_down tmf ≡ false) }
        ensures runs { D.tells → IfOk result (λ tmf. Legal nothing (trail_of trail) → Stored D.files tmf.store
            → RunsWith D.files (trail_of trail) (open_in (trail_of trail)) tmf) }
        ensures memory { IfErr result (λ shut. shut.fault ≡ NodeFault.NoMemory) }
        ensures disks { IfErr result (λ shut. shut.disks.items ≡ disks_of trail volumes.items) }
    {
        match table_of(alloc, trail.records()) {
            Ok(txns) => Ok(Tmf {
                store: Store { trail, volumes },
                txns,
                down: false,
                room,
            }),
            Err(_) => Err(Shut {
                disks: gathered(trail, volumes, room),
                fault: NodeFault::NoMemory,
            }),
        }
    }

    /// Hands the disks back, in their order.
    pub fn close(self) -> Vec<D>
        ensures { result.items ≡ disks_of self.store.trail self.store.volumes.items }
    {
        let Tmf { store, room, .. } = self;
        let Store { trail, volumes } = store;
        gathered(trail, volumes, room)
    }
}
