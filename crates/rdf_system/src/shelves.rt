//! The disks of the nodes, out of the racks.
ghost use Rattle.std.specs.Prelude.{◌≡◌, length};
ghost use Rattle.rdf_types.specs.declared.records.Node.{Node};
ghost use Rattle.rdf_system.specs.Place.{HasRoom, IsFull, disks_in};
ghost use Rattle.rdf_system.specs.Shelved.{disks_on};

use crate::fault::{NotStarted, StartFault};
use crate::racks::Racks;

/// The disks of each node in a list of its own, and the emptied list in which those of the backups go back.
#[derive(Drop)]
pub(crate) struct Shelves<D> {
    pub(crate) a: Vec<D>,
    pub(crate) b: Vec<D>,
    pub(crate) c: Vec<D>,
    pub(crate) shelf: Vec<Vec<D>>,
}

/// The disks out of the racks.
pub(crate) fn shelved<D: Drop>(racks: Racks<D>) -> Shelves<D>
    requires full { IsFull racks }
    ensures places { (node : Node) → disks_on result node ≡ disks_in racks node }
    ensures many { (node : Node) → length (disks_on result node) ≡ 17 }
    ensures shelf { HasRoom 2 result.shelf }
{
    let Racks {
        primary,
        mut backups,
    } = racks;
    let Some(c) = backups.pop() else {
        unreachable!();
    };
    let Some(b) = backups.pop() else {
        unreachable!();
    };
    Shelves {
        a: primary,
        b,
        c,
        shelf: backups,
    }
}

/// The racks again.
pub(crate) fn racks_of<D: Drop>(shelves: Shelves<D>) -> Racks<D>
    requires shelf { HasRoom 2 shelves.shelf }
    ensures places { (node : Node) → disks_in result node ≡ disks_on shelves node }
    ensures full { ((node : Node) → length (disks_on shelves node) ≡ 17) → IsFull result }
{
    let Shelves { a, b, c, mut shelf } = shelves;
    shelf.push_reserved(b);
    shelf.push_reserved(c);
    Racks {
        primary: a,
        backups: shelf,
    }
}

/// Why there is no system, and the racks as they came back.
pub(crate) fn not_started<D: Drop>(shelves: Shelves<D>, fault: StartFault) -> NotStarted<D>
    requires shelf { HasRoom 2 shelves.shelf }
    ensures places { (node : Node) → disks_in result.racks node ≡ disks_on shelves node }
    ensures full { ((node : Node) → length (disks_on shelves node) ≡ 17) → IsFull result.racks }
    ensures fault { result.fault ≡ fault }
{
    NotStarted {
        racks: racks_of(shelves),
        fault,
    }
}
