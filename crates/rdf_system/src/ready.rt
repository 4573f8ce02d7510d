//! A node over blank disks, and the disks beside it.
ghost use Rattle.std.specs.Prelude.{◌≡◌, ◌++◌, [], true, length, Some, IfOk, IfErr};
ghost use Rattle.rdf_types.specs.declared.records.Node.{Node};
ghost use Rattle.rdf_types.specs.declared.records.Node.TheVariants.{A};
ghost use Rattle.rdf_disk.specs.Counts.Ending.{Fine};
ghost use Rattle.rdf_core.specs.declared.events.Standing.TheVariants.{Up};
ghost use Rattle.rdf_core.specs.Allowed.{is_backup};
ghost use Rattle.rdf_core.specs.Sessions.{is_backup_node};
ghost use Rattle.rdf_core.specs.State.{blank_primary, blank_backup};
ghost use Rattle.node_faults.specs.Openings.{IsNoDamage};
ghost use Rattle.node_disks.specs.Cuts.{Each};
ghost use Rattle.primary_node.specs.Moves.{standing_at};
ghost use Rattle.primary_node.specs.Nodes.{IsAt, MayServe as PrimaryMayServe};
ghost use Rattle.rdf_system.specs.Moves.{phase_in};
ghost use Rattle.rdf_system.specs.Place.{HasRoom};
ghost use Rattle.rdf_system.specs.Shelved.{IsWholeFront, front_disks};
ghost use Rattle.rdf_system.specs.States.{IsAtSite, IsWholeSite, SiteMayServe, site_disks};
ghost use Rattle.rdf_system.specs.Stances.{fresh_at};
ghost use Rattle.rdf_system.specs.Starting.{AreHandedBack, ArePicked, AreReady, Came, start_fault};

use crate::fault::StartFault;
use crate::looks::has_backup;
use crate::site::{Front, Site, together};
use backup_node::BackupNode;
use node_faults::NodeFault;
use primary_node::PrimaryNode;
use rdf_disk::Disk;
use rdf_types::layout::Layout;
use rdf_types::records::Node;
use std::alloc::Global;

/// The disks of a node that were not made ready, in their order, and why.
#[derive(Drop)]
pub(crate) struct Unready<D> {
    pub(crate) disks: Vec<D>,
    pub(crate) fault: StartFault,
}

/// A fault of the node's disks while they are made ready. None of them is damaged.
fn not_ready(node: Node, fault: NodeFault) -> StartFault
    requires sound { IsNoDamage (Some fault) }
    ensures { result ≡ start_fault node fault }
{
    match fault {
        NodeFault::Stopped { disk } => StartFault::Stopped { node, disk },
        NodeFault::Failed { disk } => StartFault::Failed { node, disk },
        NodeFault::NoMemory => StartFault::NoMemory,
        NodeFault::Damaged { .. } => unreachable!(),
    }
}

/// The primary's node over its own disks, which are blank.
fn front_over<D: Disk + Drop>(
    alloc: Global,
    own: Vec<D>,
    spare: Vec<D>,
    room: Vec<D>,
    layout: &Layout,
) -> Result<Front<D>, Unready<D>>
    requires { ArePicked D.tells D.files D.counts layout.now own.items spare.items room }
    ensures at { D.tells → IfOk result (λ front. IsAt D.files layout.now blank_primary front.node) }
    ensures serves { IfOk result (λ front. PrimaryMayServe D.tells D.files D.counts front.node) }
    ensures standing { IfOk result (λ front. standing_at front.node ≡ Up) }
    ensures whole { IfOk result (IsWholeFront layout.now) }
    ensures came { IfOk result (λ front. Each (Came D.counts layout.now (λ node i. Fine) A) (own.items ++ spare.items) (front_disks front)) }
    ensures back { IfErr result (λ no. AreHandedBack D.counts layout.now A no.fault (own.items ++ spare.items) no.disks.items) }
{
    match PrimaryNode::format(alloc, own, layout) {
        Ok(node) => Ok(Front {
            node,
            site: Site {
                node: None,
                spare,
                room,
            },
        }),
        Err(shut) => Err(Unready {
            disks: together(shut.disks, spare, room),
            fault: not_ready(Node::A, shut.fault),
        }),
    }
}

/// The primary's node over those of its disks that it uses, which are blank.
pub(crate) fn front_ready<D: Disk + Drop>(
    alloc: Global,
    mut disks: Vec<D>,
    room: Vec<D>,
    layout: &Layout,
) -> Result<Front<D>, Unready<D>>
    requires many { length disks.items ≡ 17 }
    requires room { HasRoom 17 room }
    requires ready { AreReady D.tells D.files D.counts layout.now A disks.items }
    ensures at { D.tells → IfOk result (λ front. IsAt D.files layout.now blank_primary front.node) }
    ensures serves { IfOk result (λ front. PrimaryMayServe D.tells D.files D.counts front.node) }
    ensures standing { IfOk result (λ front. standing_at front.node ≡ Up) }
    ensures whole { IfOk result (IsWholeFront layout.now) }
    ensures came { IfOk result (λ front. Each (Came D.counts layout.now (λ node i. Fine) A) disks.items (front_disks front)) }
    ensures back { IfErr result (λ no. AreHandedBack D.counts layout.now A no.fault disks.items no.disks.items) }
{
    match disks.split_off(layout.volumes as usize + 1) {
        Ok(spare) => front_over(alloc, disks, spare, room, layout),
        Err(_) => Err(Unready {
            disks,
            fault: StartFault::NoMemory,
        }),
    }
}

/// A backup's node over its own disks, which are blank.
fn site_over<D: Disk + Drop>(
    alloc: Global,
    name: Node,
    own: Vec<D>,
    spare: Vec<D>,
    room: Vec<D>,
    layout: &Layout,
) -> Result<Site<D>, Unready<D>>
    requires placed { is_backup layout.now name ≡ true }
    requires own { ArePicked D.tells D.files D.counts layout.now own.items spare.items room }
    ensures at { D.tells → IfOk result (IsAtSite D.files layout.now [] (blank_backup layout.now)) }
    ensures serves { IfOk result (SiteMayServe D.tells D.files D.counts) }
    ensures phase { IfOk result (λ site. phase_in site.node ≡ fresh_at layout.now name) }
    ensures whole { IfOk result (IsWholeSite layout.now name) }
    ensures came { IfOk result (λ site. Each (Came D.counts layout.now (λ node i. Fine) name) (own.items ++ spare.items) (site_disks site)) }
    ensures back { IfErr result (λ no. AreHandedBack D.counts layout.now name no.fault (own.items ++ spare.items) no.disks.items) }
{
    match BackupNode::format(alloc, own, layout, name) {
        Ok(node) => Ok(Site {
            node: Some(node),
            spare,
            room,
        }),
        Err(shut) => Err(Unready {
            disks: together(shut.disks, spare, room),
            fault: not_ready(name, shut.fault),
        }),
    }
}

/// A backup's node over those of its disks that it uses, which are blank. Where the layout does not have the backup there is no node.
pub(crate) fn site_ready<D: Disk + Drop>(
    alloc: Global,
    name: Node,
    mut disks: Vec<D>,
    room: Vec<D>,
    layout: &Layout,
) -> Result<Site<D>, Unready<D>>
    requires many { length disks.items ≡ 17 }
    requires room { HasRoom 17 room }
    requires ready { AreReady D.tells D.files D.counts layout.now name disks.items }
    requires backup { is_backup_node name ≡ true }
    ensures at { D.tells → IfOk result (IsAtSite D.files layout.now [] (blank_backup layout.now)) }
    ensures serves { IfOk result (SiteMayServe D.tells D.files D.counts) }
    ensures phase { IfOk result (λ site. phase_in site.node ≡ fresh_at layout.now name) }
    ensures whole { IfOk result (IsWholeSite layout.now name) }
    ensures came { IfOk result (λ site. Each (Came D.counts layout.now (λ node i. Fine) name) disks.items (site_disks site)) }
    ensures back { IfErr result (λ no. AreHandedBack D.counts layout.now name no.fault disks.items no.disks.items) }
{
    if !has_backup(layout, name) {
        return Ok(Site {
            node: None,
            spare: disks,
            room,
        });
    }
    match disks.split_off(layout.volumes as usize + 1) {
        Ok(spare) => site_over(alloc, name, disks, spare, room, layout),
        Err(_) => Err(Unready {
            disks,
            fault: StartFault::NoMemory,
        }),
    }
}
