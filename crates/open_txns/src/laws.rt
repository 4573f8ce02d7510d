//! What notes one after another leave, where no record of a transaction follows its outcome.
ghost use Rattle.std.specs.Prelude.{◌≡◌, ℕ, Bool, false, List, [], ◌∷◌, ◌++◌, length};
ghost use Rattle.std.specs.FinSet.{len};
ghost use Rattle.rdf_model.specs.Contents.{Contents};
ghost use Rattle.rdf_model.specs.Legal.{Legal};
ghost use Rattle.rdf_model.specs.Trail.{is_ended, is_open, open_in, txn_of};
ghost use Rattle.rdf_model.specs.Window.{records, low_from, part};
ghost use Rattle.rdf_types.specs.declared.records.Record.{Record};
ghost use Rattle.rdf_types.specs.declared.records.Stamped.{Stamped};
ghost use Rattle.open_txns.specs.Noted.{noted, has_txn, low_of, all_noted, open_txns, ProperAfter};

/// The notes leave the open transactions of all that was noted, in the order of their first images.
pub fn noted_are_open()
    ensures { (notes : List Stamped) → ProperAfter [] notes → all_noted notes ≡ open_txns notes }
{}

/// They are the transactions with an image and no outcome among the notes.
pub fn open_ones()
    ensures { (notes : List Stamped) (t : ℕ) → ProperAfter [] notes → has_txn (all_noted notes) t ≡ is_open t (records notes) }
{}

/// The low position is that of the first image by a transaction without outcome among the notes, or the end.
pub fn low_of_notes()
    ensures { (notes : List Stamped) (end : ℕ) → ProperAfter [] notes → low_of (all_noted notes) end ≡ low_from notes end }
{}

/// There are as many as the set of the transactions with an image and no outcome has.
pub fn count_of_notes()
    ensures { (notes : List Stamped) → ProperAfter [] notes → length (all_noted notes) ≡ len (open_in (records notes)) }
{}

/// The notes of a legal trail, or of the part of it that a backup keeps, are such notes.
pub fn legal_is_proper()
    ensures { (base : Contents) (protects : ℕ → Bool) (trail : List Record) (start : ℕ) → Legal base trail →
        ProperAfter [] (part protects start trail) }
{}

/// One more note of a transaction without outcome keeps them so.
pub fn next_is_proper()
    ensures { (notes : List Stamped) (s : Stamped) → ProperAfter [] notes → is_ended (txn_of s.rec) (records notes) ≡ false →
        ProperAfter [] (notes ++ s ∷ []) }
{}

/// What one more note leaves is what that note makes of what the earlier ones left.
pub fn next_note()
    ensures { (notes : List Stamped) (s : Stamped) → all_noted (notes ++ s ∷ []) ≡ noted (all_noted notes) s.pos s.rec }
{}
