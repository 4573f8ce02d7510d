//! A volume of a backup that is taken over, in a thread of its own.
ghost use Rattle.std.specs.Prelude.{◌≡◌, OnOk, OnErr, IfOk, IfErr, Err};
ghost use Rattle.rdf_disk.specs.Counts.{Causes};
ghost use Rattle.rdf_gatelog.specs.LogCauses.{ending, NotDamaged};
ghost use Rattle.rdf_gatelog.specs.declared.fault.LogFault.TheVariants.{NoMemory};
ghost use Rattle.rdf_types.specs.Entries.{RiseFrom};
ghost use Rattle.rdf_volume.specs.Views.{disk_of, InUse};
ghost use Rattle.rdf_backup.specs.Damage.{IsTooFar};
ghost use Rattle.rdf_backup.specs.Taking.{entries_of, TakesOver, StaysTaking, WhereKept, HasTaken, MayTake};

use crate::audit::KeptAudit;
use rdf_disk::Disk;
use rdf_model::laws::fits_taken;
use rdf_ports::Gate;
use rdf_types::records::VolNo;
use rdf_volume::{VolFault, Volume};
use std::alloc::Global;
use takeover_undo::laws::{undo_keeps_fit, undone_shows_committed};
use takeover_undo::{undo_of, undo_volume};
use updater_pool::Worker;
use updaters::laws::applied_fits;
use updaters::redo_part;

/// Brings a protected volume to what was committed: applies its images up to the end, and then sets back what
/// transactions without outcome changed. After an `Err` redo from the restart point still reaches all that was received.
fn take_over_volume<D: Disk, G: Gate>(
    alloc: Global,
    volume: &mut Volume<D>,
    vol: VolNo,
    audit: &KeptAudit<'_>,
    gate: &G,
) -> Result<(), VolFault>
    requires rising { RiseFrom 0 (entries_of audit.now) }
    requires in_use { D.tells → InUse D.files volume.old }
    ensures ok { D.tells → OnOk result (InUse D.files volume.new) }
    ensures taken { OnOk result (TakesOver audit.now vol volume.old volume.new) }
    ensures err { D.tells → OnErr result (StaysTaking D.files audit.now vol volume.old volume.new) }
    ensures cause { Causes (ending result) (D.counts (disk_of volume.old)) (D.counts (disk_of volume.new)) }
    ensures sound { D.tells → WhereKept audit.now vol volume.old (λ layout trail b. NotDamaged result) }
    ensures damaged { IfErr result (IsTooFar D.tells audit.now.upto volume.old) }
{
    applied_fits();
    undone_shows_committed();
    undo_keeps_fit();
    gate.before_apply(vol);
    let at = volume.restart_point();
    if audit.upto < at {
        return Err(VolFault::Damaged {
            file: volume.file_number(),
            at: 0,
        });
    }
    redo_part(alloc, volume, vol, audit.part.as_slice(), audit.upto)?;
    let undo = undo_of(alloc, audit.part.as_slice(), vol, &audit.ended)?;
    undo_volume(volume, &undo, audit.low)
}

/// A protected volume out of its place, which is taken over by a worker, and what came of that: want of memory, as long
/// as no worker has run.
#[derive(Drop)]
pub(crate) struct TakingOver<'a, D: Disk, G: Gate> {
    pub(crate) alloc: Global,
    pub(crate) volume: Volume<D>,
    pub(crate) vol: VolNo,
    pub(crate) audit: &'a KeptAudit<'a>,
    pub(crate) gate: &'a G,
    pub(crate) answer: Result<(), VolFault>,
}

impl<'a, D: Disk, G: Gate> Worker for TakingOver<'a, D, G> {
    type Out = TakingOver<'a, D, G>;

    ghost ready = { λ w. MayTake D.tells D.files w.audit.now w.answer w.volume };

    ghost works = { λ w out. HasTaken D.tells D.files D.counts w.audit.now w.vol out.answer w.volume out.volume };

    fn work(self) -> TakingOver<'a, D, G> {
        let TakingOver {
            alloc,
            mut volume,
            vol,
            audit,
            gate,
            answer: _,
        } = self;
        let answer = take_over_volume(alloc, &mut volume, vol, audit, gate);
        TakingOver {
            alloc,
            volume,
            vol,
            audit,
            gate,
            answer,
        }
    }
}

/// Nothing is done beside the workers.
#[derive(Drop)]
pub(crate) struct Nothing;

impl Worker for Nothing {
    type Out = ();

    ghost ready = { λ w. Unit {0} };

    ghost works = { λ w out. Unit {0} };

    fn work(self) {}
}
