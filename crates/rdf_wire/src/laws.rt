//! The laws of the wire.
ghost use Rattle.std.specs.Prelude.{◌≡◌, ◌≢◌, ◌<◌, ℕ, List, Some, length, slice_get};
ghost use Rattle.rdf_types.specs.declared.records.Node.{Node};
ghost use Rattle.rdf_wire.specs.Posted.{Posted, with_message};
ghost use Rattle.by_node.specs.Each.{at};

/// A message stands under the number that it was sent with, whatever is sent afterwards.
pub fn messages_stay()
    ensures last { (posted : Posted) (node : Node) (bytes : List ℕ) →
        slice_get (at (with_message node bytes posted) node) (length (at posted node)) ≡ Some bytes }
    ensures others { (posted : Posted) (node : Node) (bytes : List ℕ) (k : ℕ) → k < length (at posted node) →
        slice_get (at (with_message node bytes posted) node) k ≡ slice_get (at posted node) k }
    ensures nodes { (posted : Posted) (node other : Node) (bytes : List ℕ) → node ≢ other →
        at (with_message node bytes posted) other ≡ at posted other }
{}
