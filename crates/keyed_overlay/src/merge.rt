//! The set rows of an overlay among rows from below, block by block in order.
ghost use Rattle.std.specs.Prelude.{◌≡◌, ◌<◌, List, [], ◌∷◌, ◌++◌, IfOk, OnOk, IfSome, OnSome, IfNone, true};
ghost use Rattle.rdf_types.specs.declared.records.Row.{Row};
ghost use Rattle.rdf_model.specs.Rows.{list_of, row_map, row_place};
ghost use Rattle.keyed_overlay.specs.Overlays.{overlaid};
ghost use Rattle.keyed_overlay.specs.Merging.{HasPassed, passed, behind, is_above, rows_upto, rows_from, untouched, rises};
ghost use Rattle.std.specs.VecDeque.{deque_len};

use crate::overlay::Overlay;
use rdf_types::records::Row;
use std::alloc::{AllocError, Global};
use std::collections::VecDeque;
use std::marker::Model;

/// The set rows of an overlay that are still to come, while rows from below pass in order. After an `Err` of `pass` it is of no use.
#[derive(Drop)]
pub struct Merge<'a> {
    alloc: Global,
    overlay: &'a Overlay,
    to_come: VecDeque<Row>,
}

impl<'a> Model for Merge<'a> {
    ghost use Rattle.keyed_overlay.specs.Merging.{Merging, coded_merging};

    ghost Value = { Merging };

    ghost coded = { coded_merging };

    ghost view = { λ a. record { laid = a.overlay.now; to_come = a.to_come.items } };
}

impl<'a> Merge<'a> {
    pub(crate) fn of(overlay: &'a Overlay, alloc: Global, rows: Vec<Row>) -> Merge<'a>
        ensures laid { result.laid ≡ overlay.now }
        ensures to_come { result.to_come ≡ rows.items }
    {
        Merge {
            alloc,
            overlay,
            to_come: VecDeque::from_vec(rows),
        }
    }

    /// The rows of the next block from below whose places were not changed, and among them the set rows up to its last place.
    pub fn pass(&mut self, block: Vec<Row>) -> Result<Vec<Row>, AllocError>
        ensures laid { OnOk result (self.new.laid ≡ self.old.laid) }
        ensures rows { IfOk result (λ rows. rows.items ≡ passed self.old.laid self.old.to_come block.items) }
        ensures to_come { OnOk result (self.new.to_come ≡ behind self.old.to_come block.items) }
        ensures goes { IfOk result (λ rows. (before out : List Row) → HasPassed self.old.laid before out self.old.to_come
            → HasPassed self.old.laid (before ++ block.items) (out ++ rows.items) self.new.to_come) }
    {
        let mut rows = Vec::new(self.alloc);
        for row in block {
            self.pass_row(row, &mut rows)?;
        }
        Ok(rows)
    }

    /// The set rows behind all blocks. What all passes gave, with these behind it, is what the overlay makes of the rows below.
    pub fn rest(self) -> Vec<Row>
        ensures rows { result.items ≡ self.entry.to_come }
        ensures all { (base out : List Row) → HasPassed self.entry.laid base out self.entry.to_come → rises base ≡ true
            → out ++ result.items ≡ list_of (overlaid (row_map base) self.entry.laid) }
    {
        self.to_come.into_vec()
    }

    // The set rows up to the row's place, and behind them the row, if its place was not changed.
    fn pass_row(&mut self, row: Row, rows: &mut Vec<Row>) -> Result<(), AllocError>
        ensures laid { OnOk result (self.new.laid ≡ self.old.laid) }
        ensures rows { OnOk result (rows.new.items ≡ rows.old.items ++ (rows_upto (row_place row) self.old.to_come ++ untouched self.old.laid row)) }
        ensures to_come { OnOk result (self.new.to_come ≡ rows_from (row_place row) self.old.to_come) }
    {
        give_upto(&mut self.to_come, &row, rows)?;
        if self.overlay.touches(&row.file, &row.key) {
            return Ok(());
        }
        rows.push(row)?;
        Ok(())
    }
}

// Gives the rows up to the first one above the place of that row.
fn give_upto(to_come: &mut VecDeque<Row>, row: &Row, rows: &mut Vec<Row>) -> Result<(), AllocError>
    ensures rows { OnOk result (rows.new.items ≡ rows.old.items ++ rows_upto (row_place row.now) to_come.old.items) }
    ensures to_come { OnOk result (to_come.new.items ≡ rows_from (row_place row.now) to_come.old.items) }
{
    while let Some(next) = next_upto(to_come, row) {
        rows.push(next)?;
    }
    Ok(())
}

// Takes out the next row, unless it stands above the place of that row.
fn next_upto(to_come: &mut VecDeque<Row>, row: &Row) -> Option<Row>
    ensures some { IfSome result (λ next. rows_upto (row_place row.now) to_come.old.items ≡ next ∷ rows_upto (row_place row.now) to_come.new.items) }
    ensures none { IfNone result (rows_upto (row_place row.now) to_come.old.items ≡ []) }
    ensures same { rows_from (row_place row.now) to_come.new.items ≡ rows_from (row_place row.now) to_come.old.items }
    ensures stays { IfNone result (rows_from (row_place row.now) to_come.new.items ≡ to_come.new.items) }
    ensures fewer { OnSome result (deque_len to_come.new < deque_len to_come.old) }
{
    let next = to_come.front()?;
    if stands_above(next, row) {
        return None;
    }
    to_come.pop_front()
}

// Whether one row stands above the place of another.
fn stands_above(row: &Row, other: &Row) -> bool
    ensures { result ≡ is_above (row_place other.now) row.now }
{
    (&other.file, &other.key) < (&row.file, &row.key)
}
