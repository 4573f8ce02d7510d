//! What a session of a backup begins with.
ghost use Rattle.std.specs.Prelude.{◌≡◌, ◌≤◌, [], length, vec_capacity, IfOk, IsTrue};
ghost use Rattle.rdf_types.specs.Entries.{Rises};
ghost use Rattle.rdf_volume.specs.Views.{restart_of};
ghost use Rattle.rdf_backup.specs.Parting.{AllFlagged};

use crate::backup::Backup;
use crate::parting::room;
use crate::purging::least_point;
use crate::seating::Lists;
use node_faults::NodeFault;
use rdf_disk::Disk;
use rdf_types::layout::Protection;
use rdf_types::records::{Pos, Stamped};
use rdf_volume::Volume;

/// What a session begins with: which volumes take part, the entries from the one position to the other, and room for the
/// volumes on their way.
#[derive(Drop)]
pub(crate) struct Opening<D: Disk> {
    pub(crate) protection: Protection,
    pub(crate) start: Pos,
    pub(crate) part: Vec<Stamped>,
    pub(crate) end: Pos,
    pub(crate) lists: Lists<D>,
}

/// Whether the positions of the entries rise strictly, from the one position to below the other.
fn rises_between(part: &[Stamped], start: Pos, end: Pos) -> bool
    ensures { IsTrue result → Rises start part.now end }
{
    let mut next: u128 = start as u128;
    for entry in part {
        let pos = entry.pos as u128;
        if pos < next {
            return false;
        }
        next = pos + 1;
    }
    next <= end as u128
}

/// Whether a volume that takes part stands at a position from the one to the other.
fn lies_between(flag: bool, point: Pos, start: Pos, end: Pos) -> bool
    ensures { IsTrue result → IsTrue flag → (start ≤ point) × (point ≤ end) }
{
    !flag || (start <= point && point <= end)
}

/// Whether each volume that takes part does.
fn all_between<D: Disk>(flags: &[bool], volumes: &[Volume<D>], start: Pos, end: Pos) -> bool
    requires many { length flags.now ≡ length volumes.now }
    ensures { IsTrue result → AllFlagged (λ v. (start ≤ restart_of v) × (restart_of v ≤ end)) flags.now volumes.now }
{
    for (number, volume) in volumes.iter().enumerate() {
        if !lies_between(flags[number], volume.restart_point(), start, end) {
            return false;
        }
    }
    true
}

/// Whether the entries and the volumes are in order.
fn in_order<D: Disk>(
    flags: &[bool],
    volumes: &[Volume<D>],
    part: &[Stamped],
    start: Pos,
    end: Pos,
) -> bool
    requires many { length flags.now ≡ length volumes.now }
    ensures rises { IsTrue result → Rises start part.now end }
    ensures between { IsTrue result → AllFlagged (λ v. (start ≤ restart_of v) × (restart_of v ≤ end)) flags.now volumes.now }
{
    if !rises_between(part, start, end) {
        return false;
    }
    all_between(flags, volumes, start, end)
}

impl<D: Disk + Drop> Backup<D> {
    ghost use Rattle.rdf_types.specs.declared.records.Phase.TheVariants as phase;
    ghost use Rattle.rdf_backup.specs.States.{value_of};
    ghost use Rattle.rdf_backup.specs.Sessions.{MayBegin};

    /// What a session of it begins with. The only error over disks that tell is want of memory.
    pub(crate) fn opening(&self) -> Result<Opening<D>, NodeFault>
        requires running { (value_of self.now).phase ≡ phase.Running }
        ensures begins { IfOk result (λ o. MayBegin D.tells D.files self.now o.protection o.start o.part.items o.end) }
        ensures empty { IfOk result (λ o. (o.lists.0.items ≡ []) × (o.lists.1.items ≡ [])) }
        ensures room { IfOk result (λ o. (length o.protection ≤ vec_capacity o.lists.0) × (length o.protection ≤ vec_capacity o.lists.1)) }
    {
        let protection = self.trails.memory.layout.protect.try_clone()?;
        let flags = protection.flags();
        let end = self.trails.received();
        let start = least_point(flags, self.volumes.as_slice(), end);
        let part = self.part_since(start)?;
        if !in_order(flags, self.volumes.as_slice(), part.as_slice(), start, end) {
            return Err(NodeFault::Damaged {
                disk: 0,
                file: self.trails.first_file(),
                at: 0,
            });
        }
        let lists = room(self.trails.alloc(), flags.len())?;
        Ok(Opening {
            protection,
            start,
            part,
            end,
            lists,
        })
    }
}
