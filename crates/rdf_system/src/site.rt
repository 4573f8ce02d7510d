//! The place of a node: the node over the disks that it uses, and the disks beside them.
ghost use Rattle.std.specs.Prelude.{◌≡◌, ◌+◌, ◌≤◌, ◌++◌, [], None, length, vec_capacity};
ghost use Rattle.rdf_system.specs.Place.{HasRoom};
ghost use Rattle.rdf_system.specs.Shelved.{AreShut, front_disks};

use backup_node::BackupNode;
use node_disks::cut_all;
use primary_node::PrimaryNode;
use rdf_disk::Disk;

/// The primary's node, and its place, where no backup's node stands.
#[derive(Drop)]
pub(crate) struct Front<D: Disk> {
    pub(crate) node: PrimaryNode<D>,
    pub(crate) site: Site<D>,
}

/// The place of a node: the node of a backup, where the plan uses it, and the disks beside it, or beside the primary's.
#[derive(Drop)]
pub struct Site<D: Disk> {
    pub(crate) node: Option<BackupNode<D>>,
    pub(crate) spare: Vec<D>,
    pub(crate) room: Vec<D>,
}

/// The disks of two lists, in a list that has room for them.
pub(crate) fn together<D: Drop>(first: Vec<D>, rest: Vec<D>, mut room: Vec<D>) -> Vec<D>
    requires empty { room.items ≡ [] }
    requires roomy { length first.items + length rest.items ≤ vec_capacity room }
    ensures { result.items ≡ first.items ++ rest.items }
{
    for disk in first {
        room.push_reserved(disk);
    }
    with_rest(rest, room)
}

/// The disks behind those that are there.
fn with_rest<D: Drop>(rest: Vec<D>, mut room: Vec<D>) -> Vec<D>
    requires roomy { length rest.items + length room.items ≤ vec_capacity room }
    ensures { result.items ≡ room.items ++ rest.items }
{
    for disk in rest {
        room.push_reserved(disk);
    }
    room
}

/// Cuts the disks of a node, and puts those beside it behind them.
pub(crate) fn shut_together<D: Disk + Drop>(mut own: Vec<D>, spare: Vec<D>, room: Vec<D>) -> Vec<D>
    requires many { length own.items + length spare.items ≡ 17 }
    requires room { HasRoom 17 room }
    ensures { AreShut D.tells D.files D.counts own.items spare.items result.items }
{
    cut_all(&mut own);
    together(own, spare, room)
}

impl<D: Disk + Drop> Front<D> {
    /// Hands all disks back, in their order.
    pub(crate) fn close(self) -> Vec<D>
        requires many { length (front_disks self) ≡ 17 }
        requires alone { self.site.node ≡ None }
        requires room { HasRoom 17 self.site.room }
        ensures { result.items ≡ front_disks self }
    {
        let Front { node, site } = self;
        let Site {
            node: _,
            spare,
            room,
        } = site;
        together(node.close(), spare, room)
    }
}

impl<D: Disk + Drop> Site<D> {
    ghost use Rattle.rdf_system.specs.States.{node_disks, site_disks};

    /// Hands all disks back, in their order.
    pub(crate) fn close(self) -> Vec<D>
        requires many { length (site_disks self) ≡ 17 }
        requires room { HasRoom 17 self.room }
        ensures { result.items ≡ site_disks self }
    {
        let Site { node, spare, room } = self;
        match node {
            Some(node) => together(node.close(), spare, room),
            None => spare,
        }
    }

    /// Cuts the disks of the node, and hands all disks back, in their order.
    pub(crate) fn shut(self) -> Vec<D>
        requires many { length (site_disks self) ≡ 17 }
        requires room { HasRoom 17 self.room }
        ensures { AreShut D.tells D.files D.counts (node_disks self.node) self.spare.items result.items }
    {
        let Site { node, spare, room } = self;
        match node {
            Some(node) => shut_together(node.close(), spare, room),
            None => spare,
        }
    }
}
