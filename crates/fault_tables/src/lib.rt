//! What tests of stops share: tables of the stops that a disk meets, at each call of a step, with each tear, and again in the restart after it; and
//! disks of which no contract knows what they hold.
#![tactic(auto)]

mod untold;

ghost use Rattle.std.specs.Prelude.{◌≡◌, ◌<◌, ◌↔◌, ◌++◌, Contains, OnOk, IfOk};
ghost use Rattle.fault_tables.specs.declared.Row.{Row};
ghost use Rattle.fault_tables.specs.declared.Stop.{Stop};
ghost use Rattle.fault_tables.specs.Tables.{IsWithin, rows_of};

use rdf_disk::Tear;
use std::alloc::{AllocError, Global};
pub use untold::Untold;

/// A stop of a disk: after so many more counted calls the next one stops, and what is pending is left as the tear says.
#[derive(Clone, Copy, Debug, PartialEq, Eq)]
pub struct Stop {
    pub calls: u32,
    pub tear: Tear,
}

/// A row of a table: a stop in the step that is tried, and perhaps one in the restart that follows.
#[derive(Clone, Copy, Debug, PartialEq, Eq)]
pub struct Row {
    pub step: Stop,
    pub restart: Option<Stop>,
}

/// Each stop after fewer than so many calls, with each tear.
pub fn stops(alloc: Global, limit: u32) -> Result<Vec<Stop>, AllocError>
    ensures { IfOk result (λ table. (stop : Stop) → Contains table.items stop ↔ (stop.calls < limit)) }
{
    let mut table = Vec::new(alloc);
    for calls in 0..limit {
        table.push(Stop {
            calls,
            tear: Tear::Lose,
        })?;
        table.push(Stop {
            calls,
            tear: Tear::Keep,
        })?;
        table.push(Stop {
            calls,
            tear: Tear::Mix,
        })?;
    }
    Ok(table)
}

/// Adds the rows of one stop in the step.
fn add_rows(table: &mut Vec<Row>, step: Stop, again: &[Stop]) -> Result<(), AllocError>
    ensures { OnOk result (table.new.items ≡ table.old.items ++ rows_of step again.now) }
{
    table.push(Row {
        step,
        restart: None,
    })?;
    for stop in again {
        table.push(Row {
            step,
            restart: Some(*stop),
        })?;
    }
    Ok(())
}

/// The table of a step of at most so many calls, and of a restart of at most so many: each stop in the step with each
/// tear, alone and with each stop in the restart. A stop past the last call of a step waits for the next call.
pub fn rows(alloc: Global, step_limit: u32, restart_limit: u32) -> Result<Vec<Row>, AllocError>
    ensures { IfOk result (λ table. (row : Row) → Contains table.items row ↔ IsWithin step_limit restart_limit row) }
{
    let first = stops(alloc, step_limit)?;
    let again = stops(alloc, restart_limit)?;
    let mut table = Vec::new(alloc);
    for step in &first {
        add_rows(&mut table, *step, &again)?;
    }
    Ok(table)
}
