//! What redo is.
ghost use Rattle.std.specs.Prelude.{◌≡◌, ◌≤◌, ℕ, [], List, take, drop};
ghost use Rattle.rdf_types.specs.declared.records.Record.{Record};
ghost use Rattle.rdf_model.specs.Contents.{nothing};
ghost use Rattle.rdf_model.specs.Trail.{raw};
ghost use Rattle.rdf_model.specs.Volumes.{Rows, AreOn};
ghost use Rattle.rdf_volume.specs.Changes.{changes_on};
ghost use Rattle.tmf_recovery.specs.Redone.{redone};

use rdf_volume::laws::images_change;

/// Redo brings a volume from the raw contents of one prefix to those of a longer one.
pub fn redo_shows()
    ensures { (vol : ℕ) (trail : List Record) (p q : ℕ) (rows : Rows) → p ≤ q → AreOn vol (raw nothing (take p trail)) rows →
        AreOn vol (raw nothing (take q trail)) (redone vol trail p q rows) }
{
    images_change();
}

/// Where no image of the volume is left, a prefix shows what the whole trail shows.
pub fn nothing_left_shows()
    ensures { (vol : ℕ) (trail : List Record) (q : ℕ) (rows : Rows) → changes_on vol (drop q trail) ≡ [] →
        AreOn vol (raw nothing (take q trail)) rows → AreOn vol (raw nothing trail) rows }
{
    images_change();
}
