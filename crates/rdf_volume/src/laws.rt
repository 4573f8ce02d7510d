//! The laws of a volume's definitions.
ghost use Rattle.std.specs.Prelude.{ℕ, List};
ghost use Rattle.rdf_types.specs.declared.records.Change.{Change};
ghost use Rattle.rdf_types.specs.declared.records.Record.{Record};
ghost use Rattle.rdf_disk.specs.Files.{Contents};
ghost use Rattle.rdf_disk.specs.Outcomes.{Durably};
ghost use Rattle.rdf_model.specs.Contents.{Contents as Values, with_value, place};
ghost use Rattle.rdf_model.specs.Trail.{raw};
ghost use Rattle.rdf_model.specs.Volumes.{Rows, AreOn};
ghost use Rattle.rdf_volume.specs.Changes.{changed, changes_on, with_change};
ghost use Rattle.rdf_volume.specs.Flaws.{IsFlaw};
ghost use Rattle.rdf_volume.specs.Standing.{StandsFor};
ghost use Rattle.rdf_volume.specs.Views.{rows_of, restart_of, disk_of, InUse};
ghost use Rattle.rdf_volume.specs.declared.volume.Volume.{Volume};

use rdf_disk::Disk;

/// The disk of a volume in use durably stands for what the volume shows.
pub fn in_use_stands<D: Disk>()
    ensures { (v : Volume D) → InUse D.files v → Durably (D.files (disk_of v)) (StandsFor (rows_of v) (restart_of v)) }
{}

/// What stands for something has no flaw.
pub fn standing_has_no_flaw()
    ensures { (c : Contents) (rows : Rows) (restart file at : ℕ) → StandsFor rows restart c → IsFlaw c file at → ⊥ }
{}

/// A change of a volume's rows is the change of the place that they show.
pub fn change_sets()
    ensures { (vol : ℕ) (files : Values) (rows : Rows) (c : Change) → AreOn vol files rows →
        AreOn vol (with_value files (place vol c.file c.key) c.after) (with_change rows c) }
{}

/// A batch of a volume's images in order is what these images make of the contents.
pub fn images_change()
    ensures { (vol : ℕ) (files : Values) (rows : Rows) (trail : List Record) → AreOn vol files rows →
        AreOn vol (raw files trail) (changed rows (changes_on vol trail)) }
{}
