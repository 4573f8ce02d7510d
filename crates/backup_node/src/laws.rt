//! Laws of the nodes of backups, also of those that no memory holds, as the node that an open session shows.
ghost use Rattle.std.specs.Prelude.{◌++◌, List};
ghost use Rattle.rdf_types.specs.declared.layout.Layout.{Layout};
ghost use Rattle.rdf_types.specs.declared.records.Record.{Record};
ghost use Rattle.rdf_model.specs.Contents.{nothing};
ghost use Rattle.rdf_model.specs.Legal.{Legal};
ghost use Rattle.rdf_core.specs.Backup.{Backup as State};
ghost use Rattle.rdf_backup.specs.Sessions.{Open as AnyOpen, IsFed};
ghost use Rattle.rdf_backup.specs.Standing.{BackupStandsFor};
ghost use Rattle.backup_node.specs.declared.node.BackupNode.{BackupNode as AnyNode};
ghost use Rattle.backup_node.specs.Nodes.{disks_at, IsAt};
ghost use Rattle.backup_node.specs.Open.{in_open};

use rdf_disk::Disk;

/// The disks of a node stand for the state that it is at.
pub fn nodes_stand<D: Disk>()
    ensures { (n : AnyNode D D.Disk) (layout : Layout) (trail : List Record) (b : State) →
        IsAt D.files layout trail b n → BackupStandsFor D.files layout trail b (disks_at n) }
{}

/// A node that is at a state over a trail is at it over a longer one that is legal.
pub fn nodes_go_on<D: Disk>()
    ensures { (n : AnyNode D D.Disk) (layout : Layout) (trail more : List Record) (b : State) → Legal nothing (trail ++ more) →
        IsAt D.files layout trail b n → IsAt D.files layout (trail ++ more) b n }
{}

/// The updaters of an open session that are fed with a trail are fed with a longer one.
pub fn sessions_go_on<D: Disk>()
    ensures { (o : AnyOpen D D.Disk) (n : AnyNode D D.Disk) (layout : Layout) (trail more : List Record) (b : State) →
        IsAt D.files layout trail b (in_open o n) → IsFed trail o → IsFed (trail ++ more) o }
{}
