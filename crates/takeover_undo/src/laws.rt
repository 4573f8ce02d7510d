//! What the undo of a part makes of a volume.
ghost use Rattle.std.specs.Prelude.{◌≤◌, ℕ, Bool, List, take, IsTrue};
ghost use Rattle.rdf_types.specs.declared.records.Change.{Change};
ghost use Rattle.rdf_types.specs.declared.records.Record.{Record};
ghost use Rattle.rdf_model.specs.Contents.{nothing};
ghost use Rattle.rdf_model.specs.Trail.{raw, committed};
ghost use Rattle.rdf_model.specs.Legal.{Legal};
ghost use Rattle.rdf_model.specs.Volumes.{Rows, AreOn, shown};
ghost use Rattle.rdf_model.specs.Window.{low, part, Fits};
ghost use Rattle.rdf_volume.specs.Changes.{changed};
ghost use Rattle.takeover_undo.specs.Undo.{IsUndo};

use rdf_model::laws::{fits_undo, half_undone_first, half_undone_next, settling, window};
use rdf_volume::laws::change_sets;

/// A protected volume that shows what stands after a legal trail shows the committed contents once the undo is set that is
/// read from a part that begins at the low position or before it.
pub fn undone_shows_committed()
    ensures { (protects : ℕ → Bool) (vol : ℕ) (trail : List Record) (start : ℕ) (rows : Rows) (changes : List Change) → IsTrue (protects vol) →
        Legal nothing trail → start ≤ low protects trail → IsUndo vol (part protects start trail) changes → AreOn vol (raw nothing trail) rows →
        AreOn vol (committed nothing trail) (changed rows changes) }
{
    settling();
    window();
    change_sets();
}

/// Where only some first ones of the changes were set, the volume fits the trail from the low position on.
pub fn undo_keeps_fit()
    ensures { (protects : ℕ → Bool) (vol : ℕ) (trail : List Record) (start : ℕ) (rows : Rows) (changes : List Change) (count : ℕ) →
        IsTrue (protects vol) → Legal nothing trail → start ≤ low protects trail → IsUndo vol (part protects start trail) changes → AreOn vol (raw nothing trail) rows →
        Fits vol trail (low protects trail) (shown (changed rows (take count changes))) }
{
    window();
    change_sets();
    fits_undo();
    half_undone_first();
    half_undone_next();
}
