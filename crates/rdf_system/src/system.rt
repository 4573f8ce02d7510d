//! The system: the nodes over their disks.
use crate::racks::Racks;
use crate::session::SessionState;
use crate::shelves::{Shelves, racks_of};
use crate::site::{Site, shut_together, together};
use backup_node::laws::nodes_stand;
use by_node::ByNode;
use primary_node::PrimaryNode;
use rdf_disk::Disk;
use rdf_types::layout::Layout;
use senders::Senders;

/// The nodes over their disks, each with the disks beside it that the plan does not use, and the sender's side of the backups.
/// At the place of the primary stands no backup's node.
#[derive(Drop)]
pub struct System<D: Disk> {
    pub(crate) primary: PrimaryNode<D>,
    pub(crate) sites: ByNode<Site<D>>,
    pub(crate) senders: Senders,
    pub(crate) shelf: Vec<Vec<D>>,
    pub(crate) layout: Layout,
    pub(crate) session: SessionState,
}

impl<D: Disk + Drop> System<D> {
    ghost use Rattle.std.specs.Prelude.{◌≡◌, ℕ};
    ghost use Rattle.rdf_types.specs.declared.layout.Layout.{Layout};
    ghost use Rattle.rdf_types.specs.declared.records.Node.{Node};
    ghost use Rattle.rdf_core.specs.State.{State};
    ghost use Rattle.rdf_system.specs.Place.{IsFull, AtEach, disk_at};
    ghost use Rattle.rdf_system.specs.States.{disk_of, layout_of, WasCut, MayServe, IsAtState, DisksStandFor, RacksStandFor};

    /// A law: the disks of a system stand for the state that it is at.
    pub fn stands(&self)
        requires serves { MayServe D.tells D.files D.counts self.now }
        ensures { D.tells → (layout : Layout) (s : State) → IsAtState D.files layout s self.now → DisksStandFor D.files layout s self.now }
    {
        self.primary.stands();
        nodes_stand::<D>();
    }

    /// Hands all disks back, each in its place. Those of a node that is not up are off.
    pub fn close(self) -> Racks<D>
        requires serves { MayServe D.tells D.files D.counts self }
        ensures places { (node : Node) (i : ℕ) → disk_at result node i ≡ disk_of self node i }
        ensures full { IsFull result }
        ensures stands { D.tells → (layout : Layout) (s : State) → IsAtState D.files layout s self → RacksStandFor D.files layout s result }
        ensures keeps { D.tells → (layout : Layout) (s : State) → DisksStandFor D.files layout s self → RacksStandFor D.files layout s result }
    {
        self.stands();
        let System {
            primary,
            sites,
            shelf,
            ..
        } = self;
        let (a, b, c) = sites.split();
        let Site {
            node: _,
            spare,
            room,
        } = a;
        racks_of(Shelves {
            a: together(primary.close(), spare, room),
            b: b.close(),
            c: c.close(),
            shelf,
        })
    }

    /// Cuts each disk that is used, and hands all disks back, each in its place.
    pub fn shut(self) -> Racks<D>
        requires serves { MayServe D.tells D.files D.counts self }
        ensures places { AtEach (WasCut D.counts (layout_of self)) (disk_of self) (disk_at result) }
        ensures full { IsFull result }
        ensures keeps { D.tells → (layout : Layout) (s : State) → DisksStandFor D.files layout s self → RacksStandFor D.files layout s result }
    {
        let System {
            primary,
            sites,
            shelf,
            ..
        } = self;
        let (a, b, c) = sites.split();
        let Site {
            node: _,
            spare,
            room,
        } = a;
        racks_of(Shelves {
            a: shut_together(primary.close(), spare, room),
            b: b.shut(),
            c: c.shut(),
            shelf,
        })
    }
}
