//! Cuts of all disks of a node.
ghost use Rattle.node_disks.specs.Cuts.{AreCut};

use rdf_disk::Disk;

/// Turns each disk off.
pub fn cut_all<D: Disk>(disks: &mut Vec<D>)
    ensures { AreCut D.tells D.files D.counts disks.old.items disks.new.items }
{
    for disk in disks.iter_mut() {
        disk.cut();
    }
}
