//! The node of a backup.
ghost use Rattle.std.specs.Prelude.{◌≡◌, ◌++◌, List, true, false, None, Some, MatchOption, is_some};
ghost use Rattle.rdf_types.specs.declared.layout.Layout.{Layout};
ghost use Rattle.rdf_types.specs.declared.records.Record.{Record};
ghost use Rattle.rdf_model.specs.Contents.{nothing};
ghost use Rattle.rdf_model.specs.Legal.{Legal};
ghost use Rattle.node_disks.specs.Cuts.{AreCut};
ghost use Rattle.backup_node.specs.Moves.{phase_at};
ghost use Rattle.backup_node.specs.Nodes.{disks_at, IsAt, IsLaid, IsUpAt, MayRun, MayServe};
ghost use Rattle.rdf_core.specs.Backup.{Backup as State};
ghost use Rattle.rdf_backup.specs.States.{disks_in, layout_of, value_of};
ghost use Rattle.rdf_backup.specs.Standing.{BackupStandsFor};

use node_disks::cut_all;
use rdf_backup::Backup;
use rdf_disk::Disk;
use rdf_types::records::{Node, Pos};
use std::alloc::Global;

/// A backup's node: up or down. Disk 0 has the image trails, and disk 1 + v the volume v.
///
/// While it is up the backup has its disks. Else they are off, and stand here.
#[derive(Drop)]
pub struct BackupNode<D: Disk> {
    pub(crate) backup: Option<Backup<D>>,
    pub(crate) disks: Vec<D>,
    pub(crate) name: Node,
    pub(crate) volumes: u8,
}

impl<D: Disk> BackupNode<D> {
    /// The node of a backup that is up, with so many volumes. Its disks are on.
    pub(crate) fn up(alloc: Global, backup: Backup<D>, name: Node, volumes: u8) -> BackupNode<D>
        requires runs { MayRun D.tells D.files D.counts volumes backup }
        ensures serves { MayServe D.tells D.files D.counts result }
        ensures sized { result.volumes ≡ volumes }
        ensures named { result.name ≡ name }
        ensures at { (layout : Layout) (trail : List Record) (b : State) → IsUpAt D.files layout trail b backup → IsAt D.files layout trail b result }
        ensures disks { disks_at result ≡ disks_in backup }
        ensures phase { phase_at result ≡ Some (value_of backup).phase }
        ensures laid { IsLaid (layout_of backup) result }
    {
        BackupNode {
            backup: Some(backup),
            disks: Vec::new(alloc),
            name,
            volumes,
        }
    }

    /// Whether it is up.
    pub fn is_up(&self) -> bool
        ensures up { result ≡ is_some self.now.backup }
        ensures at { D.tells → (layout : Layout) (trail : List Record) (b : State) → IsAt D.files layout trail b self.now → result ≡ b.up }
    {
        self.backup.is_some()
    }

    /// How far it has received, while it is up.
    pub fn received(&self) -> Option<Pos>
        ensures up { is_some result ≡ is_some self.now.backup }
        ensures at { D.tells → (layout : Layout) (trail : List Record) (b : State) → IsAt D.files layout trail b self.now →
            MatchOption result (b.up ≡ false) (λ n. (b.up ≡ true) × (n ≡ b.received)) }
    {
        match &self.backup {
            Some(backup) => Some(backup.received()),
            None => None,
        }
    }

    /// A law: the disks of a node stand for the state that it is at.
    pub fn stands(&self)
        ensures { D.tells → (layout : Layout) (trail : List Record) (b : State) → IsAt D.files layout trail b self.now →
            BackupStandsFor D.files layout trail b (disks_at self.now) }
    {}

    /// A law: a node that is at a state over a trail is at it over a longer one that is legal.
    pub fn longer(&self)
        ensures { D.tells → (layout : Layout) (trail more : List Record) (b : State) → Legal nothing (trail ++ more) →
            IsAt D.files layout trail b self.now → IsAt D.files layout (trail ++ more) b self.now }
    {}
}

impl<D: Disk + Drop> BackupNode<D> {
    /// The backup goes down, and its disks are cut.
    pub(crate) fn fall(&mut self, backup: Backup<D>)
        ensures off { self.new.backup ≡ None }
        ensures named { self.new.name ≡ self.old.name }
        ensures sized { self.new.volumes ≡ self.old.volumes }
        ensures cut { AreCut D.tells D.files D.counts (disks_in backup) self.new.disks.items }
    {
        let mut disks = backup.close();
        cut_all(&mut disks);
        self.backup = None;
        self.disks = disks;
    }

    /// Hands the disks back, in their order. They are off where the node is down.
    pub fn close(self) -> Vec<D>
        ensures { result.items ≡ disks_at self }
    {
        let BackupNode { backup, disks, .. } = self;
        match backup {
            Some(backup) => backup.close(),
            None => disks,
        }
    }
}
