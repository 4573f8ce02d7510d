//! What is noted on a board.

/// A note on what stands on a board, at a place of its own.
pub trait Note {
    ghost use Rattle.std.specs.Prelude.{ℕ, List, ◌++◌};
    ghost use Rattle.rdf_types.specs.declared.records.Stamped.{Stamped};
    ghost use Rattle.rdf_types.specs.Entries.{Rises};

    // That a note fits the one that stood first in its place, and entries up to an end. The present note stands last.
    ghost fits: { Self → List Stamped → ℕ → Self → Type 0 };

    // The first note fits itself.
    ghost begins: { (first : Self) (entries : List Stamped) (end : ℕ) → fits first entries end first };

    // A note fits longer entries as well.
    ghost lasts: { (first now : Self) (entries more : List Stamped) (end upto : ℕ) → fits first entries end now →
        Rises end more upto → fits first (entries ++ more) upto now };
}
