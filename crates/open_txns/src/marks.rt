//! The marks of transactions, in the order of first images, as a map finds them.
ghost use Rattle.std.specs.Prelude.{◌≡◌, ◌≤◌, ◌==◌, ◌∷◌, ◌++◌, [], None, Some, false, filter, is_some, length, MatchOption, OnOk, OnErr};
ghost use Rattle.std.specs.Map.{lookup, remove_entry};
ghost use Rattle.open_txns.specs.Marks.{open_marks, first_open, IsOpenAt};
ghost use Rattle.open_txns.specs.Noted.{has_txn};

use indexmap::IndexMap;
use rdf_types::records::{Pos, TxnId};
use std::alloc::AllocError;

/// Each transaction that was noted, with the position of its first image while it is open.
pub type Marks = IndexMap<TxnId, Option<Pos>>;

/// The place of the mark of an open transaction.
pub fn place_of(marks: &Marks, txn: TxnId) -> Option<usize>
    ensures { MatchOption result (has_txn (open_marks marks.now.entries) txn ≡ false) (IsOpenAt txn marks.now.entries) }
{
    let at = marks.get_index_of(&txn)?;
    if marks[at].is_some() { Some(at) } else { None }
}

/// The place of the first open transaction, where those before `from` have ended.
pub fn first_open_from(marks: &Marks, from: usize) -> usize
    requires { from ≤ first_open marks.now.entries }
    ensures { result ≡ first_open marks.now.entries }
{
    for at in from..marks.len() {
        if marks[at].is_some() {
            return at;
        }
    }
    marks.len()
}

/// Ends a transaction, and answers whether it was open.
pub fn end_mark(marks: &mut Marks, txn: TxnId) -> bool
    ensures ended { result ≡ has_txn (open_marks marks.old.entries) txn }
    ensures marks { open_marks marks.new.entries ≡ remove_entry (λ k. txn == k) (open_marks marks.old.entries) }
    ensures later { first_open marks.old.entries ≤ first_open marks.new.entries }
    ensures len { length marks.new.entries ≡ length marks.old.entries }
    ensures same { result ≡ false → marks.new.entries ≡ marks.old.entries }
{
    match place_of(marks, txn) {
        Some(at) => {
            marks[at] = None;
            true
        }
        None => false,
    }
}

/// Adds the mark of a transaction that has none.
pub fn add_mark(marks: &mut Marks, txn: TxnId, pos: Pos) -> Result<(), AllocError>
    requires { lookup (λ k. txn == k) marks.old.entries ≡ None }
    ensures ok { OnOk result (marks.new.entries ≡ marks.old.entries ++ (txn, Some pos) ∷ []) }
    ensures err { OnErr result (marks.new.entries ≡ marks.old.entries) }
{
    let _ = marks.insert(txn, Some(pos))?;
    Ok(())
}

/// Drops the marks of transactions that have ended.
pub fn sweep(marks: &mut Marks)
    ensures { marks.new.entries ≡ filter (λ mark. is_some mark.1) marks.old.entries }
{
    marks.retain(
        |_txn: &TxnId, mark: &mut Option<Pos>| -> bool
            ensures { (result ≡ is_some mark.old) × (mark.new ≡ mark.old) }
        { mark.is_some() },
    );
}
