//! The disks of the nodes.
ghost use Rattle.std.specs.Prelude.{◌≡◌, ℕ, Ok, Some, length, slice_get, IfOk};
ghost use Rattle.rdf_types.specs.declared.records.Node.{Node as AnyNode};
ghost use Rattle.rdf_system.specs.Place.{IsFull, disk_at};

use rdf_disk::MemDisk;
use rdf_types::records::Node;
use std::alloc::{AllocError, Global};

/// The disks of the primary, and of each backup, by number: disk 0 for audit, disk 1 + v for volume v.
#[derive(Debug, Drop)]
pub struct Racks<D> {
    pub primary: Vec<D>,
    pub backups: Vec<Vec<D>>,
}

/// A primary and two backups, each with a disk for audit and 16 for volumes. The closure makes the disk of a node that has a
/// number, and is called once for each.
pub fn full_racks<D: Drop, F: Fn(Node, u8) -> Result<D, AllocError> + Drop>(
    alloc: Global,
    disk: F,
) -> Result<Racks<D>, AllocError>
    requires { F.IsAlwaysCallable disk }
    ensures full { IfOk result IsFull }
    ensures made { IfOk result (λ racks. (node : AnyNode) (i : ℕ) (d : D) → disk_at racks node i ≡ Some d → F.post disk node i (Ok d)) }
{
    let primary = full_rack(alloc, &disk, Node::A)?;
    let mut backups = Vec::new(alloc);
    backups.push(full_rack(alloc, &disk, Node::B)?)?;
    backups.push(full_rack(alloc, &disk, Node::C)?)?;
    Ok(Racks { primary, backups })
}

#[tactic(auto, using(crate::proofs::RackLaws::holds_more))]
fn full_rack<D: Drop, F: Fn(Node, u8) -> Result<D, AllocError>>(
    alloc: Global,
    disk: &F,
    node: Node,
) -> Result<Vec<D>, AllocError>
    requires { F.IsAlwaysCallable disk.now }
    ensures many { IfOk result (λ disks. length disks.items ≡ 17) }
    ensures made { IfOk result (λ disks. (i : ℕ) (d : D) → slice_get disks.items i ≡ Some d → F.post disk.now node i (Ok d)) }
{
    let mut disks = Vec::new(alloc);
    for number in 0..17u8 {
        disks.push(disk(node, number)?)?;
    }
    Ok(disks)
}

/// Full racks of disks that are blank and in memory.
pub fn blank_racks(alloc: Global) -> Result<Racks<MemDisk>, AllocError>
    ensures { IfOk result IsFull }
{
    full_racks(alloc, |_, _| Ok(MemDisk::blank(alloc, Vec::new(alloc))))
}
