//! The laws of rows that pass an overlay.
ghost use Rattle.std.specs.Prelude.{◌≡◌, List, ◌++◌, map, true};
ghost use Rattle.std.specs.List.Sorted.{IsStrictlySortedBy};
ghost use Rattle.rdf_types.specs.declared.records.Row.{Row};
ghost use Rattle.rdf_types.specs.Places.{row_cmp};
ghost use Rattle.rdf_model.specs.Rows.{list_of, row_map, row_place};
ghost use Rattle.rdf_model.specs.Volumes.{Rows};
ghost use Rattle.keyed_overlay.specs.Overlays.{Laid, overlaid};
ghost use Rattle.keyed_overlay.specs.Merging.{HasPassed, passed, behind, rises};

/// What came out, with what the rows that follow come out as and what is then still to come, is what the overlay makes of all rows.
pub fn merged_upto()
    ensures { (laid : Laid) (before out to_come more : List Row) → HasPassed laid before out to_come → rises (before ++ more) ≡ true →
        out ++ passed laid to_come more ++ behind to_come more ≡ list_of (overlaid (row_map (before ++ more)) laid) }
{}

/// What came out so far rises, as long as the rows before do, whatever follows them.
pub fn passed_rises()
    ensures { (laid : Laid) (before out to_come more : List Row) → HasPassed laid before out to_come → rises (before ++ more) ≡ true → rises out ≡ true }
{}

/// The rows of a map rise.
pub fn list_rises()
    ensures { (rows : Rows) → rises (list_of rows) ≡ true }
{}

/// Rows rise exactly where their places rise strictly.
pub fn rises_places()
    ensures if_so { (rows : List Row) → IsStrictlySortedBy row_cmp (map row_place rows) → rises rows ≡ true }
    ensures then_so { (rows : List Row) → rises rows ≡ true → IsStrictlySortedBy row_cmp (map row_place rows) }
{}
