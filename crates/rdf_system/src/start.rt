//! How the system starts over racks.
ghost use Rattle.std.specs.Prelude.{◌≡◌, length, IfOk, IfErr};
ghost use Rattle.rdf_types.specs.declared.records.Node.{Node};
ghost use Rattle.rdf_disk.specs.Counts.Ending.{Fine};
ghost use Rattle.node_disks.specs.Cuts.{Each};
ghost use Rattle.rdf_system.specs.Place.{HasRoom, IsFull, AtEach, disk_at};
ghost use Rattle.rdf_system.specs.Shelved.{IsKept, disks_on};
ghost use Rattle.rdf_system.specs.States.{disk_of, disks_of_node};
ghost use Rattle.rdf_system.specs.Starting.{AreBack, AreBlank, AreReady, Came, HasStarted, IsNotStarted};

use crate::fault::{NotStarted, StartFault};
use crate::looks::first_refused;
use crate::racks::Racks;
use crate::ready::{front_ready, site_ready};
use crate::session::SessionState;
use crate::shelves::{Shelves, not_started, shelved};
use crate::site::{Front, Site};
use crate::system::System;
use by_node::ByNode;
use rdf_disk::Disk;
use rdf_types::layout::Layout;
use rdf_types::records::Node;
use senders::Senders;
use std::alloc::{AllocError, Global};

/// What a system keeps beside its disks: room to hand back those of each node, and the layout.
#[derive(Drop)]
pub(crate) struct Kept<D> {
    pub(crate) a: Vec<D>,
    pub(crate) b: Vec<D>,
    pub(crate) c: Vec<D>,
    pub(crate) layout: Layout,
}

/// Room to hand all disks back, and the layout.
fn kept_for<D: Drop>(alloc: Global, layout: &Layout) -> Result<Kept<D>, AllocError>
    ensures { IfOk result (IsKept layout.now) }
{
    let a = Vec::with_capacity(alloc, 17)?;
    let b = Vec::with_capacity(alloc, 17)?;
    let c = Vec::with_capacity(alloc, 17)?;
    let layout = layout.try_clone()?;
    Ok(Kept { a, b, c, layout })
}

/// Makes the used disks of each node ready, which are blank: those of the primary, and then those of the backups.
fn make_ready<D: Disk + Drop>(
    alloc: Global,
    shelves: Shelves<D>,
    kept: Kept<D>,
    layout: &Layout,
) -> Result<System<D>, NotStarted<D>>
    requires many { (node : Node) → length (disks_on shelves node) ≡ 17 }
    requires shelf { HasRoom 2 shelves.shelf }
    requires kept { IsKept layout.now kept }
    requires ready { (node : Node) → AreReady D.tells D.files D.counts layout.now node (disks_on shelves node) }
    ensures started { IfOk result (HasStarted D.tells D.files D.counts layout.now) }
    ensures came { IfOk result (λ sys. (node : Node) →
        Each (Came D.counts layout.now (λ of i. Fine) node) (disks_on shelves node) (disks_of_node sys node)) }
    ensures back { IfErr result (λ no. AreBack D.counts layout.now (disks_on shelves) no.fault no.racks) }
{
    let Shelves { a, b, c, shelf } = shelves;
    let front = match front_ready(alloc, a, kept.a, layout) {
        Ok(front) => front,
        Err(no) => {
            let a = no.disks;
            return Err(not_started(Shelves { a, b, c, shelf }, no.fault));
        }
    };
    let b = match site_ready(alloc, Node::B, b, kept.b, layout) {
        Ok(site) => site,
        Err(no) => {
            let a = front.close();
            let b = no.disks;
            return Err(not_started(Shelves { a, b, c, shelf }, no.fault));
        }
    };
    match site_ready(alloc, Node::C, c, kept.c, layout) {
        Ok(c) => Ok(System {
            primary: front.node,
            sites: ByNode::new(front.site, b, c),
            senders: Senders::new(alloc),
            shelf,
            layout: kept.layout,
            session: SessionState::Closed,
        }),
        Err(no) => {
            let a = front.close();
            let b = b.close();
            let c = no.disks;
            Err(not_started(Shelves { a, b, c, shelf }, no.fault))
        }
    }
}

impl<D: Disk + Drop> System<D> {
    /// Looks at each disk that is to be used, in the order of node and number, until one is refused, and then makes them ready: an empty audit trail, image trails that have received nothing, and volumes without rows.
    /// After an `Err` the racks come back with each disk in its place. Where a disk is not blank no disk was changed: all are looked at before the first is made ready.
    pub fn start(
        alloc: Global,
        racks: Racks<D>,
        layout: &Layout,
    ) -> Result<System<D>, NotStarted<D>>
        requires full { IsFull racks }
        ensures started { IfOk result (HasStarted D.tells D.files D.counts layout.now) }
        ensures came { IfOk result (λ sys. AtEach (Came D.counts layout.now (λ node i. Fine)) (disk_at racks) (disk_of sys)) }
        ensures blank { D.tells → IfOk result (λ sys. AreBlank D.files layout.now (disk_at racks)) }
        ensures back { IfErr result (λ no. IsNotStarted D.tells D.files D.counts layout.now racks no.fault no.racks) }
    {
        let Ok(kept) = kept_for(alloc, layout) else {
            return Err(NotStarted {
                racks,
                fault: StartFault::NoMemory,
            });
        };
        let mut shelves = shelved(racks);
        if let Some(fault) = first_refused(&mut shelves, layout) {
            return Err(not_started(shelves, fault));
        }
        make_ready(alloc, shelves, kept, layout)
    }
}
