//! The primary's node over blank disks.
ghost use Rattle.std.specs.Prelude.{◌≡◌, ◌+◌, suc, length, None, Some, IfOk, IfErr, MatchResult};
ghost use Rattle.std.specs.List.{AllByRecursion};

use crate::node::PrimaryNode;
use node_faults::Shut;
use rdf_disk::Disk;
use rdf_primary::Primary;
use rdf_types::layout::Layout;
use std::alloc::Global;

impl<D: Disk + Drop> PrimaryNode<D> {
    ghost use Rattle.node_disks.specs.Formatting.{IsBlank};
    ghost use Rattle.rdf_core.specs.State.{blank_primary};
    ghost use Rattle.rdf_core.specs.declared.events.Standing.TheVariants.{Up};
    ghost use Rattle.node_faults.specs.Faults.{IsNamed};
    ghost use Rattle.node_faults.specs.Openings.{AreCaused, IsNoDamage, AreOn};
    ghost use Rattle.primary_node.specs.Moves.{standing_at};
    ghost use Rattle.primary_node.specs.Nodes.{disks_at, IsAt, MayServe};

    /// The node of a primary with an empty trail and volumes without rows, over disks without files that are on.
    ///
    /// After an `Err` the disks come back in their order.
    pub fn format(alloc: Global, disks: Vec<D>, layout: &Layout) -> Result<PrimaryNode<D>, Shut<D>>
        requires many { length disks.items ≡ layout.now.volumes + 1 }
        requires blank { D.tells → AllByRecursion (λ d. IsBlank (D.files d)) disks.items }
        requires on { AreOn D.counts disks.items }
        ensures at { D.tells → IfOk result (IsAt D.files layout.now blank_primary) }
        ensures serves { IfOk result (MayServe D.tells D.files D.counts) }
        ensures standing { IfOk result (λ node. standing_at node ≡ Up) }
        ensures sized { IfOk result (λ node. node.volumes ≡ layout.now.volumes) }
        ensures cause { MatchResult result (λ node. AreCaused D.counts None disks.items (disks_at node))
            (λ shut. AreCaused D.counts (Some shut.fault) disks.items shut.disks.items) }
        ensures named { IfErr result (λ shut. IsNamed (suc layout.now.volumes) shut.fault) }
        ensures sound { IfErr result (λ shut. IsNoDamage (Some shut.fault)) }
    {
        match Primary::format(alloc, disks, layout) {
            Ok(primary) => Ok(PrimaryNode::up(alloc, primary, layout)),
            Err(shut) => Err(shut),
        }
    }
}
