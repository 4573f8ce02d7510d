//! The laws of a base and its index.
ghost use Rattle.std.specs.Prelude.{◌≡◌, ℕ, List, length, true};
ghost use Rattle.rdf_types.specs.declared.records.Row.{Row};
ghost use Rattle.rdf_codec.specs.declared.index_entries.IndexEntry.{IndexEntry};
ghost use Rattle.keyed_blocks.specs.Bases.{block_rows, rises};
ghost use Rattle.keyed_blocks.specs.Indexes.{Indexes, joined};

/// An index has an entry for each block of rows, and the rows of all blocks rise.
pub fn index_covers()
    ensures many { (index : List IndexEntry) (rows : List Row) (payloads : List (List ℕ)) (i : Indexes index rows payloads) →
        length index ≡ length (block_rows i.blocks) }
    ensures all { (index : List IndexEntry) (rows : List Row) (payloads : List (List ℕ)) (i : Indexes index rows payloads) →
        joined (block_rows i.blocks) ≡ rows }
    ensures rise { (index : List IndexEntry) (rows : List Row) (payloads : List (List ℕ)) → Indexes index rows payloads → rises rows ≡ true }
{}
