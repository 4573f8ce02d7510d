//! The volumes of a backup that is taken over, beside each other.
ghost use Rattle.std.specs.Prelude.{◌≡◌, ◌≤◌, [], All, length, vec_capacity, Result, Ok, Err, IfErr, OnOk, OnErr};
ghost use Rattle.std.specs.List.{AllZip};
ghost use Rattle.rdf_types.specs.Entries.{RiseFrom};
ghost use Rattle.rdf_gatelog.specs.declared.fault.LogFault.TheVariants.{NoMemory};
ghost use Rattle.node_faults.specs.Faults.{IsSound};
ghost use Rattle.rdf_backup.specs.Damage.{IsWrong};
ghost use Rattle.rdf_backup.specs.Walks.{KeepsVolumesBeside, MayWalk};
ghost use Rattle.rdf_backup.specs.Parting.{Parted};
ghost use Rattle.rdf_backup.specs.Taking.{taken, entries_of, AreShown, AreLeft, AreInUse, MayTake, HasTaken, HaveTaken, WhereTaking};

use crate::audit::KeptAudit;
use crate::parting::{room, take_first};
use crate::returning::{Returning, put_back};
use crate::taking::{Nothing, TakingOver};
use node_faults::NodeFault;
use rdf_disk::Disk;
use rdf_model::laws::fits_taken;
use rdf_ports::Gate;
use rdf_types::layout::Layout;
use rdf_types::records::VolNo;
use rdf_volume::{VolFault, Volume};
use std::alloc::Global;
use std::sync::Wait;
use std::thread::Threads;
use updater_pool::{NotRun, run_beside};

/// The workers, and the volumes that are set apart, both in rising order of disks.
type Lists<'a, D, G> = (Vec<TakingOver<'a, D, G>>, Vec<Volume<D>>);

/// Takes the volumes out of their places: those that are flagged for workers, and the others, which are set apart.
fn take_out<'a, D: Disk, G: Gate>(
    alloc: Global,
    volumes: &mut Vec<Volume<D>>,
    flags: &[bool],
    audit: &'a KeptAudit<'a>,
    gate: &'a G,
    lists: Lists<'a, D, G>,
) -> Lists<'a, D, G>
    requires sized { (length volumes.old.items ≡ length flags.now) × (length flags.now ≤ 16) }
    requires empty { (lists.0.items ≡ []) × (lists.1.items ≡ []) }
    requires room { (length flags.now ≤ vec_capacity lists.0) × (length flags.now ≤ vec_capacity lists.1) }
    ensures parted { Parted (λ n volume w. (w.volume ≡ volume) × (w.vol ≡ n) × (w.audit.now ≡ audit.now) × (w.answer ≡ Err NoMemory)) 0
        flags.now volumes.old.items result.0.items result.1.items }
    ensures emptied { (volumes.new.items ≡ []) × (vec_capacity volumes.new ≡ vec_capacity volumes.old) }
{
    let (mut workers, mut apart) = lists;
    for (number, flag) in flags.iter().enumerate() {
        let volume = take_first(volumes);
        if *flag {
            workers.push_reserved(TakingOver {
                alloc,
                volume,
                vol: VolNo(number as u8),
                audit,
                gate,
                answer: Err(VolFault::NoMemory),
            });
            continue;
        }
        apart.push_reserved(volume);
    }
    (workers, apart)
}

/// Runs the workers beside each other. Where there is no memory for that, none has run.
fn run<'a, R: Threads + Wait + Sync, D: Disk + Drop + Send, G: Gate + Sync>(
    rt: &R,
    alloc: Global,
    workers: Vec<TakingOver<'a, D, G>>,
) -> Vec<TakingOver<'a, D, G>>
    requires ready { All (λ w. MayTake D.tells D.files w.audit.now w.answer w.volume) workers.items }
    ensures ran { AllZip (λ w out. HasTaken D.tells D.files D.counts w.audit.now w.vol out.answer w.volume out.volume) workers.entry.items result.items }
{
    match run_beside(rt, alloc, workers, Nothing) {
        Ok((ended, ())) => ended,
        Err(NotRun { workers, here: _ }) => workers,
    }
}

impl<'a, D: Disk, G: Gate> Returning<D> for TakingOver<'a, D, G> {
    ghost volume_of = { λ w. w.volume };

    ghost answer_of = { λ w. w.answer };

    fn parts(self) -> (Volume<D>, Result<(), VolFault>) {
        let TakingOver { volume, answer, .. } = self;
        (volume, answer)
    }
}

/// Works the volumes that are flagged beside each other, and puts all of them back in their places.
fn work_beside<'a, R: Threads + Wait + Sync, D: Disk + Drop + Send, G: Gate + Sync>(
    rt: &R,
    alloc: Global,
    volumes: &mut Vec<Volume<D>>,
    flags: &[bool],
    audit: &'a KeptAudit<'a>,
    gate: &'a G,
    lists: Lists<'a, D, G>,
) -> Result<(), NodeFault>
    requires sized { length volumes.old.items ≡ length flags.now }
    requires ready { MayWalk D.tells D.files (entries_of audit.now) volumes.old.items }
    requires empty { (lists.0.items ≡ []) × (lists.1.items ≡ []) }
    requires room { (length flags.now ≤ vec_capacity lists.0) × (length flags.now ≤ vec_capacity lists.1) }
    ensures { HaveTaken D.tells D.files D.counts audit.now flags.now result volumes.old.items volumes.new.items }
{
    let (workers, apart) = take_out(alloc, volumes, flags, audit, gate, lists);
    let ended = run(rt, alloc, workers);
    put_back(volumes, flags, ended, apart, Ok(()))
}

/// Takes over the protected volumes beside each other, each in a thread of its own. After the call each volume stands in
/// its place again.
pub(crate) fn take_over_volumes<R: Threads + Wait + Sync, D: Disk + Drop + Send, G: Gate + Sync>(
    rt: &R,
    alloc: Global,
    volumes: &mut Vec<Volume<D>>,
    layout: &Layout,
    audit: &KeptAudit<'_>,
    gate: &G,
) -> Result<(), NodeFault>
    requires sized { length volumes.old.items ≡ layout.now.volumes }
    requires rising { RiseFrom 0 (entries_of audit.now) }
    requires in_use { D.tells → AreInUse D.files volumes.old.items }
    ensures keeps { KeepsVolumesBeside D.counts result volumes.old.items volumes.new.items }
    ensures ok { D.tells → OnOk result (AreInUse D.files volumes.new.items) }
    ensures taken { OnOk result (WhereTaking audit.now layout.now volumes.old.items (λ trail b. AreShown layout.now trail (taken b) volumes.new.items)) }
    ensures err { D.tells → OnErr result (WhereTaking audit.now layout.now volumes.old.items
        (λ trail b. AreLeft D.files layout.now trail b volumes.new.items)) }
    ensures sound { D.tells → WhereTaking audit.now layout.now volumes.old.items (λ trail b. IsSound result) }
    ensures damaged { IfErr result (IsWrong D.tells layout.now audit.now.upto volumes.old.items) }
{
    fits_taken();
    let flags = layout.protect.flags();
    let lists = room(alloc, flags.len())?;
    work_beside(rt, alloc, volumes, flags, audit, gate, lists)
}
