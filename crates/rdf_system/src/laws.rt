//! A law on what is told of disks that stopped.
ghost use Rattle.std.specs.Prelude.{◌≡◌, ◌⊎◌, ℕ, Ok};
ghost use Rattle.rdf_types.specs.declared.records.Node.{Node};
ghost use Rattle.plan_lang.specs.declared.lines.Line.{Line};
ghost use Rattle.plan_lang.specs.declared.lines.Line.TheVariants as lines;
ghost use Rattle.node_faults.specs.declared.NodeFault.TheVariants as fault;
ghost use Rattle.rdf_core.specs.declared.replies.Reply.TheVariants.{Stopped};
ghost use Rattle.rdf_system.specs.declared.system.System.{System as AnySystem};
ghost use Rattle.rdf_system.specs.Kinds.{IsReplied};
ghost use Rattle.rdf_system.specs.Lines.{ReplyCaused, FailsBy};

use rdf_disk::Disk;

/// A law: a reply that a node stopped comes where a disk of it stopped in the line, or at the end of a session.
pub fn stops_have_causes<D: Disk>()
    ensures { (l : Line) (node : Node) (old new : AnySystem D D.Disk) → IsReplied l (Ok (Stopped node)) old new →
        ReplyCaused D.counts l (Stopped node) old new →
        (l ≡ lines.End) ⊎ ((disk : ℕ) × FailsBy D.counts l node (fault.Stopped disk) old new) }
{}
