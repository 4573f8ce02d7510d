//! The node of the primary.
ghost use Rattle.std.specs.Prelude.{◌≡◌, None, Some, MatchOption};
ghost use Rattle.primary_node.specs.Cuts.{AreCut};
ghost use Rattle.primary_node.specs.Nodes.{disks_at, IsAt, IsUpAt, MayRun, MayServe};
ghost use Rattle.rdf_types.specs.declared.layout.Layout.{Layout};
ghost use Rattle.rdf_core.specs.Primary.{Primary as State};
ghost use Rattle.rdf_primary.specs.States.{disks_in};
ghost use Rattle.primary_node.specs.Moves.{standing_at};
ghost use Rattle.rdf_core.specs.declared.events.Standing.TheVariants.{Up};

use audit_trail::AuditTrail;
use node_disks::cut_all;
use rdf_disk::Disk;
use rdf_primary::Primary;
use rdf_types::layout::Layout;
use std::alloc::Global;

/// The primary's node: up, down or lost. Disk 0 has the audit trail, and disk 1 + v the volume v.
///
/// While it is up the primary has its disks. Else they are off, and stand here.
#[derive(Drop)]
pub struct PrimaryNode<D: Disk> {
    pub(crate) primary: Option<Primary<D>>,
    pub(crate) disks: Vec<D>,
    pub(crate) lost: bool,
    pub(crate) volumes: u8,
}

impl<D: Disk> PrimaryNode<D> {
    /// The node of a primary that is up, with the layout's volumes. Its disks are on.
    pub fn up(alloc: Global, primary: Primary<D>, layout: &Layout) -> PrimaryNode<D>
        requires runs { MayRun D.tells D.files D.counts layout.now.volumes primary }
        ensures serves { MayServe D.tells D.files D.counts result }
        ensures sized { result.volumes ≡ layout.now.volumes }
        ensures at { (layout : Layout) (a : State) → IsUpAt layout a primary → IsAt D.files layout a result }
        ensures disks { disks_at result ≡ disks_in primary }
        ensures standing { standing_at result ≡ Up }
    {
        PrimaryNode {
            primary: Some(primary),
            disks: Vec::new(alloc),
            lost: false,
            volumes: layout.volumes,
        }
    }

    /// Whether the node is lost.
    pub fn is_lost(&self) -> bool
        ensures { result ≡ self.now.lost }
    {
        self.lost
    }

    /// The audit trail, while the node is up.
    pub fn trail(&self) -> Option<&AuditTrail<D>>
        ensures { MatchOption self.now.primary (result ≡ None) (λ p. MatchOption result ⊥ (λ trail. trail.now ≡ p.tmf.store.trail)) }
    {
        match &self.primary {
            Some(primary) => Some(primary.trail()),
            None => None,
        }
    }
}

impl<D: Disk> PrimaryNode<D> {
    ghost use Rattle.rdf_primary.specs.Standing.{PrimaryStandsFor};

    /// A law: the disks of a node stand for the state that it is at.
    pub fn stands(&self)
        requires serves { MayServe D.tells D.files D.counts self.now }
        ensures { D.tells → (layout : Layout) (a : State) → IsAt D.files layout a self.now → PrimaryStandsFor D.files layout a (disks_at self.now) }
    {}
}

impl<D: Disk + Drop> PrimaryNode<D> {
    /// The primary goes down, and its disks are cut.
    pub(crate) fn fall(&mut self, primary: Primary<D>)
        ensures off { self.new.primary ≡ None }
        ensures lost { self.new.lost ≡ self.old.lost }
        ensures volumes { self.new.volumes ≡ self.old.volumes }
        ensures cut { AreCut D.tells D.files D.counts (disks_in primary) self.new.disks.items }
    {
        let mut disks = primary.close();
        cut_all(&mut disks);
        self.primary = None;
        self.disks = disks;
    }

    /// Hands the disks back, in their order. They are off where the node is not up.
    pub fn close(self) -> Vec<D>
        ensures { result.items ≡ disks_at self }
    {
        let PrimaryNode { primary, disks, .. } = self;
        match primary {
            Some(primary) => primary.close(),
            None => disks,
        }
    }
}
