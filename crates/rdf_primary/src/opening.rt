//! How the disks of a primary are opened: blank ones, and those of a primary that was down.
ghost use Rattle.std.specs.Prelude.{◌≡◌, ◌+◌, ◌≤◌, [], false, None, length, map, ◌++◌, IfOk, IfErr, MatchResult, vec_len, vec_capacity};
ghost use Rattle.rdf_disk.specs.Outcomes.{Durably};
ghost use Rattle.rdf_gatelog.specs.LogCauses.{ending_of_fault};
ghost use Rattle.audit_trail.specs.Flaws.{NotDamage};
ghost use Rattle.audit_trail.specs.InUse.{trail_of, disk_of as trail_disk};
ghost use Rattle.rdf_volume.specs.Views.{disk_of};
ghost use Rattle.tmf_core.specs.Stores.{Shows, StandsWithin};
ghost use Rattle.node_faults.specs.Openings.{Rises};
ghost use Rattle.node_disks.specs.Formatting.{IsBlank, IsNotNew};
ghost use Rattle.node_disks.specs.Opening.{IsNotWhole};
ghost use Rattle.rdf_primary.specs.Opening.{IsNewTrail, IsOldTrail, IsShutTrail, IsBehind, IsOldVolume, IsShutVolume, IsJoined};

use audit_trail::AuditTrail;
use node_disks::{NewVolumes, NotOpened, Opener, Opening, handed_back};
use node_faults::Shut;
use rdf_disk::Disk;
use rdf_gatelog::LogFault;
use rdf_types::records::VolNo;
use rdf_volume::Volume;
use std::alloc::Global;
use tmf_core::Tmf;
use tmf_recovery::laws::redo_shows;
use tmf_recovery::redo;

/// A blank disk becomes an empty trail.
pub struct NewTrail;

impl<D: Disk> Opener<D> for NewTrail {
    type Open = AuditTrail<D>;

    ghost disk_of = { λ trail. trail_disk trail };

    ghost ready = { λ o n disk. D.tells → IsBlank (D.files disk) };

    ghost opens = { λ o n. IsNewTrail D.tells D.files D.counts };

    ghost fails = { λ o n. IsNotNew D.counts };

    fn open(&self, alloc: Global, _place: u8, disk: D) -> Result<AuditTrail<D>, NotOpened<D>> {
        match AuditTrail::format(alloc, disk) {
            Ok(trail) => Ok(trail),
            Err(shut) => Err(NotOpened {
                disk: shut.disk,
                fault: shut.fault,
            }),
        }
    }

    fn close(&self, one: AuditTrail<D>) -> D {
        one.close()
    }
}

/// The trail's disk is turned on, and the trail opened.
pub struct OldTrail;

impl<D: Disk> Opener<D> for OldTrail {
    type Open = AuditTrail<D>;

    ghost disk_of = { λ trail. trail_disk trail };

    ghost ready = { λ o n disk. Unit {0} };

    ghost opens = { λ o n. IsOldTrail D.tells D.files D.counts };

    ghost fails = { λ o n. IsShutTrail D.tells D.files D.counts };

    fn open(&self, alloc: Global, _place: u8, disk: D) -> Result<AuditTrail<D>, NotOpened<D>> {
        open_trail(alloc, disk)
    }

    fn close(&self, one: AuditTrail<D>) -> D {
        one.close()
    }
}

/// The disk is turned on, and the trail opened.
fn open_trail<D: Disk>(alloc: Global, mut disk: D) -> Result<AuditTrail<D>, NotOpened<D>>
    ensures { MatchResult result (IsOldTrail D.tells D.files D.counts disk) (λ shut. IsShutTrail D.tells D.files D.counts disk shut.disk shut.fault) }
{
    match disk.restart() {
        Ok(()) => match AuditTrail::mount(alloc, disk) {
            Ok(trail) => Ok(trail),
            Err(shut) => Err(NotOpened {
                disk: shut.disk,
                fault: shut.fault,
            }),
        },
        Err(fault) => Err(NotOpened {
            disk,
            fault: LogFault::from(fault),
        }),
    }
}

/// A volume's disk is turned on, the volume opened and brought to the end of the trail.
#[derive(Drop)]
pub struct OldVolumes<'a, D: Disk> {
    pub trail: &'a AuditTrail<D>,
}

impl<'a, D: Disk> Opener<D> for OldVolumes<'a, D> {
    type Open = Volume<D>;

    ghost disk_of = { λ volume. disk_of volume };

    ghost ready = { λ o n disk. D.tells → Durably (D.files disk) (StandsWithin n (trail_of o.trail.now)) };

    ghost opens = { λ o n. IsOldVolume D.tells D.files D.counts (trail_of o.trail.now) n };

    ghost fails = { λ o n. IsShutVolume D.tells D.files D.counts (trail_of o.trail.now) n };

    fn open(&self, alloc: Global, place: u8, disk: D) -> Result<Volume<D>, NotOpened<D>> {
        open_volume(alloc, self.trail, disk, VolNo(place))
    }

    fn close(&self, one: Volume<D>) -> D {
        one.close()
    }
}

/// The disk is turned on, the volume opened and brought to the trail's end.
fn open_volume<D: Disk>(
    alloc: Global,
    trail: &AuditTrail<D>,
    mut disk: D,
    vol: VolNo,
) -> Result<Volume<D>, NotOpened<D>>
    requires stood { D.tells → Durably (D.files disk) (StandsWithin vol (trail_of trail.now)) }
    ensures { MatchResult result (IsOldVolume D.tells D.files D.counts (trail_of trail.now) vol disk)
        (λ shut. IsShutVolume D.tells D.files D.counts (trail_of trail.now) vol disk shut.disk shut.fault) }
{
    match disk.restart() {
        Ok(()) => match Volume::mount(alloc, disk) {
            Ok(volume) => caught_up(alloc, trail, volume, vol),
            Err(shut) => Err(NotOpened {
                disk: shut.disk,
                fault: shut.fault,
            }),
        },
        Err(fault) => Err(NotOpened {
            disk,
            fault: LogFault::from(fault),
        }),
    }
}

/// A volume that is open is brought to the trail's end.
fn caught_up<D: Disk>(
    alloc: Global,
    trail: &AuditTrail<D>,
    mut volume: Volume<D>,
    vol: VolNo,
) -> Result<Volume<D>, NotOpened<D>>
    requires behind { D.tells → IsBehind D.files (trail_of trail.now) vol volume }
    ensures shows { D.tells → IfOk result (Shows D.files (trail_of trail.now) vol) }
    ensures keeps { D.tells → IfErr result (λ shut. Durably (D.files shut.disk) (StandsWithin vol (trail_of trail.now))) }
    ensures counts { IfOk result (λ new. D.counts (disk_of new) ≡ D.counts (disk_of volume)) }
    ensures cause { (D.counts (disk_of volume)).off ≡ false
        → IfErr result (λ shut. Rises (ending_of_fault shut.fault) (D.counts (disk_of volume)) (D.counts shut.disk)) }
    ensures sound { IfErr result (λ shut. NotDamage shut.fault) }
{
    redo_shows();
    match redo(alloc, trail, &mut volume, vol) {
        Ok(()) => Ok(volume),
        Err(fault) => Err(NotOpened {
            disk: volume.close(),
            fault,
        }),
    }
}

/// The transactions over a trail and volumes, where all disks are open.
pub fn joined<D: Disk + Drop>(
    alloc: Global,
    trail: AuditTrail<D>,
    opening: Opening<D, Volume<D>>,
    room: Vec<D>,
) -> Result<Tmf<D>, Shut<D>>
    requires empty { vec_len room ≡ 0 }
    requires roomy { length opening.opened.items + length opening.left.items + 1 ≤ vec_capacity room }
    requires none_left { opening.fault ≡ None → opening.left.items ≡ [] }
    ensures ok { IfOk result (IsJoined D.tells D.files trail opening) }
    ensures err { IfErr result (IsNotWhole (trail_disk trail) (map (λ volume. disk_of volume) opening.opened.items ++ opening.left.items) opening.fault) }
{
    match opening.fault {
        Some(fault) => Err(Shut {
            disks: handed_back(&NewVolumes, trail.close(), opening, room),
            fault,
        }),
        None => join_open(alloc, trail, opening, room),
    }
}

/// The same where no disk had a fault. Only memory may be wanting.
fn join_open<D: Disk + Drop>(
    alloc: Global,
    trail: AuditTrail<D>,
    opening: Opening<D, Volume<D>>,
    room: Vec<D>,
) -> Result<Tmf<D>, Shut<D>>
    requires no_fault { opening.fault ≡ None }
    requires empty { vec_len room ≡ 0 }
    requires roomy { length opening.opened.items + length opening.left.items + 1 ≤ vec_capacity room }
    requires none_left { opening.fault ≡ None → opening.left.items ≡ [] }
    ensures ok { IfOk result (IsJoined D.tells D.files trail opening) }
    ensures err { IfErr result (IsNotWhole (trail_disk trail) (map (λ volume. disk_of volume) opening.opened.items ++ opening.left.items) opening.fault) }
{
    let Opening { opened, .. } = opening;
    Tmf::join(alloc, trail, opened, room)
}
