//! The laws of going through the rows in order.
ghost use Rattle.std.specs.Prelude.{◌≡◌, ℕ, List, ◌∷◌};
ghost use Rattle.std.specs.FinMap.{FinMap, entries};
ghost use Rattle.rdf_types.specs.Places.{row_cmp};
ghost use Rattle.keyed_files.specs.RowsAbove.{rows_above};

/// The rows above the first one are all the others.
pub fn rows_after_first()
    ensures { (rows : FinMap row_cmp (List ℕ)) (e : (List ℕ × List ℕ) × List ℕ) (rest : List ((List ℕ × List ℕ) × List ℕ)) →
        entries rows ≡ e ∷ rest → rows_above rows e.0 ≡ rest }
{}

/// The rows above the next one are the others above the place.
pub fn rows_after_next()
    ensures { (rows : FinMap row_cmp (List ℕ)) (place : List ℕ × List ℕ) (e : (List ℕ × List ℕ) × List ℕ) (rest : List ((List ℕ × List ℕ) × List ℕ)) →
        rows_above rows place ≡ e ∷ rest → rows_above rows e.0 ≡ rest }
{}
