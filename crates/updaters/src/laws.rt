//! What the images of a part of a trail make of a volume.
ghost use Rattle.std.specs.Prelude.{◌≡◌, ◌≤◌, ℕ, Bool, List, length, take, filter, IsTrue};
ghost use Rattle.rdf_types.specs.declared.records.Record.{Record};
ghost use Rattle.rdf_types.specs.declared.records.Stamped.{Stamped};
ghost use Rattle.rdf_model.specs.Contents.{nothing};
ghost use Rattle.rdf_model.specs.Trail.{raw};
ghost use Rattle.rdf_model.specs.Volumes.{Rows, AreOn, shown};
ghost use Rattle.rdf_model.specs.Window.{part, records, is_image_on, Fits};
ghost use Rattle.rdf_volume.specs.Changes.{changes_on};
ghost use Rattle.rdf_types.specs.Entries.{RiseFrom, since};
ghost use Rattle.updaters.specs.Applied.{applied, changes_by};

use rdf_model::laws::fits_redo;
use rdf_volume::laws::images_change;

/// The positions of a part of a trail rise strictly.
pub fn part_rises()
    ensures { (protects : ℕ → Bool) (start : ℕ) (trail : List Record) → RiseFrom 0 (part protects start trail) }
{}

/// A protected volume that shows the raw contents of a prefix shows those of a longer one, where the images of a part
/// that begins no later are applied.
pub fn applied_shows()
    ensures { (protects : ℕ → Bool) (vol : ℕ) (trail : List Record) (start p q : ℕ) (rows : Rows) → IsTrue (protects vol) →
        start ≤ p → p ≤ q → AreOn vol (raw nothing (take p trail)) rows →
        AreOn vol (raw nothing (take q trail)) (applied vol (since p (part protects start trail)) q rows) }
{
    images_change();
}

/// What fits a trail from a position on fits it from a later one, where the images of a part that begins no later are applied.
pub fn applied_fits()
    ensures { (protects : ℕ → Bool) (vol : ℕ) (trail : List Record) (start p q : ℕ) (rows : Rows) → IsTrue (protects vol) →
        start ≤ p → p ≤ q → q ≤ length trail → Fits vol trail p (shown rows) →
        Fits vol trail q (shown (applied vol (since p (part protects start trail)) q rows)) }
{
    images_change();
    fits_redo();
}

/// The images of a volume alone, in a step, make what all entries between make of it.
pub fn step_applies()
    ensures { (vol : ℕ) (entries : List Stamped) → changes_by (filter (λ s. is_image_on vol s.rec) entries) ≡ changes_on vol (records entries) }
{}
