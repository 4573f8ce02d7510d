//! What the words of this crate say of a disk.
ghost use Rattle.std.specs.Prelude.{◌≡◌, ℕ, List};
ghost use Rattle.std.specs.List.{AllByRecursion};
ghost use Rattle.rdf_types.specs.declared.records.Record.{Record};
ghost use Rattle.rdf_codec.specs.Spelling.{IsRecord};
ghost use Rattle.rdf_disk.specs.Files.{Disk, Contents};
ghost use Rattle.rdf_disk.specs.Outcomes.{Durably};
ghost use Rattle.rdf_gatelog.specs.Log.{IsAtRest};
ghost use Rattle.audit_trail.specs.Spelled.{spellings, Spells, IsAlone};
ghost use Rattle.audit_trail.specs.Flaws.{IsFlaw};

use rdf_codec::laws::none_begins_another;

/// Contents spell one trail at most.
pub fn one_trail()
    ensures { (trail other : List Record) (contents : Contents) → Spells trail contents → Spells other contents → trail ≡ other }
{
    none_begins_another();
}

/// A disk with no file but that of a trail in use spells the trail durably.
pub fn in_use_is_durable()
    ensures { (end : ℕ) (trail : List Record) (disk : Disk) → IsAtRest 0 end (spellings trail) disk → AllByRecursion IsRecord trail → IsAlone disk →
        Durably disk (Spells trail) }
{}

/// What spells a trail is not damaged anywhere.
pub fn spelled_is_whole()
    ensures { (trail : List Record) (contents : Contents) (file at : ℕ) → Spells trail contents → IsFlaw contents file at → ⊥ }
{}
