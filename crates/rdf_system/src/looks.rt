//! The looks at the disks that are to be used.
ghost use Rattle.std.specs.Prelude.{◌≡◌, ◌<◌, true, length};
ghost use Rattle.rdf_types.specs.declared.records.Node.{Node};
ghost use Rattle.rdf_core.specs.Allowed.{is_backup, is_node};
ghost use Rattle.rdf_system.specs.Shelved.{disks_on};
ghost use Rattle.rdf_system.specs.Starting.{IsLooked, AreLooked, AreAllLooked};

use crate::fault::StartFault;
use crate::shelves::Shelves;
use rdf_disk::{Disk, DiskFault};
use rdf_types::layout::Layout;
use rdf_types::records::Node;

/// Whether the layout has the backup.
pub(crate) fn has_backup(layout: &Layout, name: Node) -> bool
    ensures { result ≡ is_backup layout.now name }
{
    match name {
        Node::A => false,
        Node::B => true,
        Node::C => layout.backups >= 2,
    }
}

/// Why the disk of the node with that number can't be used: it is off or has a file, or it can't be looked at.
fn refused<D: Disk>(disk: &mut D, node: Node, number: u8) -> Option<StartFault>
    ensures { IsLooked D.tells D.files D.counts node number result disk.old disk.new }
{
    if disk.is_off() {
        return Some(StartFault::Stopped { node, disk: number });
    }
    match disk.span() {
        Ok((_, above)) => {
            if above == 0 {
                return None;
            }
            Some(StartFault::NotBlank { node, disk: number })
        }
        Err(DiskFault::Stopped) => Some(StartFault::Stopped { node, disk: number }),
        Err(DiskFault::Failed) => Some(StartFault::Failed { node, disk: number }),
        Err(DiskFault::NoMemory) => Some(StartFault::NoMemory),
    }
}

/// Looks at the node's disks in their order, up to the last volume's, until one is refused.
fn first_refused_of<D: Disk>(disks: &mut Vec<D>, node: Node, layout: &Layout) -> Option<StartFault>
    requires placed { is_node layout.now node ≡ true }
    requires there { layout.now.volumes < length disks.old.items }
    ensures { AreLooked D.tells D.files D.counts layout.now node result disks.old.items disks.new.items }
{
    for number in 0..layout.volumes + 1 {
        if let Some(fault) = refused(&mut disks[number as usize], node, number) {
            return Some(fault);
        }
    }
    None
}

/// Looks at the disks of all nodes in their order, until one is refused.
pub(crate) fn first_refused<D: Disk>(
    shelves: &mut Shelves<D>,
    layout: &Layout,
) -> Option<StartFault>
    requires many { (node : Node) → length (disks_on shelves.old node) ≡ 17 }
    ensures looked { AreAllLooked D.tells D.files D.counts layout.now result (disks_on shelves.old) (disks_on shelves.new) }
    ensures shelf { shelves.new.shelf ≡ shelves.old.shelf }
{
    if let Some(fault) = first_refused_of(&mut shelves.a, Node::A, layout) {
        return Some(fault);
    }
    if let Some(fault) = first_refused_of(&mut shelves.b, Node::B, layout) {
        return Some(fault);
    }
    if !has_backup(layout, Node::C) {
        return None;
    }
    first_refused_of(&mut shelves.c, Node::C, layout)
}
