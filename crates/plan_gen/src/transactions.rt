//! The transactions of generated plans.
ghost use Rattle.std.specs.Prelude.{◌≡◌, ◌<◌, ◌∷◌, ◌++◌, [], decimal, IfOk, OnOk};
ghost use Rattle.plan_lang.specs.declared.lines.Line.TheVariants as line;
ghost use Rattle.plan_gen.specs.Drawing.{later};
ghost use Rattle.plan_gen.specs.Generated.{own_row, shared_row, change_of, change, changes, changed, outcome, transaction, behind_transaction};

use crate::draws::Draws;
use crate::rows::{decimal_value, own_row, shared_row};
use plan_lang::lines::{Line, Lines};
use rdf_types::records::TxnId;
use std::alloc::{AllocError, Global};

/// Adds a transaction: it inserts a row of its own, changes up to three that all share, and ends.
pub fn put_transaction(
    alloc: Global,
    txn: u32,
    draws: &mut Draws,
    lines: &mut Lines,
) -> Result<(), AllocError>
    ensures lines { OnOk result (lines.new ≡ lines.old ++ transaction txn draws.old) }
    ensures draws { OnOk result (draws.new ≡ behind_transaction draws.old) }
{
    let vol = draws.draw(8);
    put_own_row(alloc, txn, vol as u8, lines)?;
    let count = draws.draw(4);
    put_changes(alloc, count, txn, draws, lines)?;
    lines.push(outcome(txn, draws))
}

/// Adds the beginning of a transaction, and the insert of its own row.
pub fn put_own_row(alloc: Global, txn: u32, vol: u8, lines: &mut Lines) -> Result<(), AllocError>
    requires { vol < 16 }
    ensures { OnOk result (lines.new ≡ lines.old ++ line.Begin txn ∷ line.Insert txn (own_row vol txn) (decimal txn) ∷ []) }
{
    let key = own_row(alloc, vol, txn)?;
    let value = decimal_value(alloc, txn)?;
    let txn = TxnId(txn);
    lines.push(Line::Begin { txn })?;
    lines.push(Line::Insert { txn, key, value })
}

fn put_changes(
    alloc: Global,
    count: u32,
    txn: u32,
    draws: &mut Draws,
    lines: &mut Lines,
) -> Result<(), AllocError>
    ensures lines { OnOk result (lines.new ≡ lines.old ++ changes count txn draws.old) }
    ensures draws { OnOk result (draws.new ≡ changed count draws.old) }
{
    for _ in 0..count {
        let line = change(alloc, txn, draws)?;
        lines.push(line)?;
    }
    Ok(())
}

fn change(alloc: Global, txn: u32, draws: &mut Draws) -> Result<Line, AllocError>
    ensures line { IfOk result (λ made. made ≡ change txn draws.old) }
    ensures draws { draws.new ≡ later 4 draws.old }
{
    let kind = draws.draw(4);
    let vol = draws.draw(8);
    let number = draws.draw(100);
    let value = draws.draw(1_000);
    change_of(alloc, kind, txn, vol as u8, number, value)
}

// Two of the four kinds are inserts.
fn change_of(
    alloc: Global,
    kind: u32,
    txn: u32,
    vol: u8,
    number: u32,
    value: u32,
) -> Result<Line, AllocError>
    requires { vol < 16 }
    ensures { IfOk result (λ made. made ≡ change_of kind txn (shared_row vol number) value) }
{
    let key = shared_row(alloc, vol, number)?;
    let value = decimal_value(alloc, value)?;
    let txn = TxnId(txn);
    if kind < 2 {
        Ok(Line::Insert { txn, key, value })
    } else if kind == 2 {
        Ok(Line::Update { txn, key, value })
    } else {
        Ok(Line::Delete { txn, key })
    }
}

// One of eight transactions aborts.
fn outcome(txn: u32, draws: &mut Draws) -> Line
    ensures line { result ≡ outcome txn draws.old }
    ensures draws { draws.new ≡ later 1 draws.old }
{
    let txn = TxnId(txn);
    if draws.draw(8) == 0 {
        Line::Abort { txn }
    } else {
        Line::Commit { txn }
    }
}
