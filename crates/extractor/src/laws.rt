//! A law of what is sent.
ghost use Rattle.std.specs.Prelude.{ℕ, Bool, List, ◌<◌, ◌≤◌, ◌+◌, length};
ghost use Rattle.rdf_types.specs.declared.records.Record.{Record};
ghost use Rattle.rdf_codec.specs.Ships.{HasShipSpelling};
ghost use Rattle.extractor.specs.Extract.{extract};

/// The part of a trail on 1 to 64 positions has a spelling.
pub fn parts_are_spelled()
    ensures { (protects : ℕ → Bool) (trail : List Record) (from to : ℕ) → from < to → to ≤ from + 64 → to ≤ length trail →
        HasShipSpelling (extract protects trail from to) }
{}
