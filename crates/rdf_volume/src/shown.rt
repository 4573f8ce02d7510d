//! The rows that a volume shows, as its contracts see them. They exist only in proofs.
ghost use Rattle.std.specs.Prelude.{◌≡◌};
ghost use Rattle.std.specs.FinMap.{empty};
ghost use base.Fml.{ftrue};
ghost use Rattle.rdf_model.specs.Volumes.{Rows};
ghost use Rattle.rdf_volume.specs.Changes.{with_change, with_row};
ghost use Rattle.rdf_volume.specs.ShownRows.{rows_code};

use rdf_types::records::{Change, Row};
use std::marker::Model;

/// The value at each file and key.
#[derive(Drop)]
pub struct Shown {
    ghost rows: { Rows } by { rows_code },
}

impl Model for Shown {
    ghost also_owns = { λ _. ftrue };
}

impl Shown {
    /// No rows.
    pub fn none() -> Shown
        ensures { result.rows ≡ empty }
    {
        Shown {}
    }

    /// These rows with one row more.
    pub fn with(&self, _row: &Row) -> Shown
        ensures { result.rows ≡ with_row self.now.rows _row.now }
    {
        Shown {}
    }

    /// These rows after one change.
    pub fn after(&self, _change: &Change) -> Shown
        ensures { result.rows ≡ with_change self.now.rows _change.now }
    {
        Shown {}
    }
}

unsafe impl Send for Shown {}
