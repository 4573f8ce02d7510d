//! The transactions that have an image and no outcome, in the order of their first images.
#![tactic(auto)]

ghost use Rattle.std.specs.Prelude.{◌≡◌, ◌==◌, ◌∷◌, ◌++◌, [], false, length, min, if◌then◌else◌, OnOk, OnErr};
ghost use Rattle.std.specs.Map.{remove_entry};
ghost use Rattle.open_txns.specs.Noted.{noted, has_txn, low_of};

pub mod laws;
mod marks;

use crate::marks::{Marks, add_mark, end_mark, first_open_from, place_of, sweep};
use indexmap::IndexMap;
use rdf_types::records::{Pos, Record, TxnId};
use std::alloc::{AllocError, Global};
use std::marker::Model;

/// The open transactions, each with the position of its first image, in the order of these.
///
/// A transaction that ends leaves its mark in the map, without a position, so that nothing moves. Marks of ended
/// transactions are dropped together once they are more than half of all.
#[derive(Drop)]
pub struct OpenTxns {
    marks: Marks,
    /// The place of the first open transaction, or the number of marks.
    head: usize,
    /// How many marks are of transactions that have ended.
    ended: usize,
}

impl Model for OpenTxns {
    ghost use Rattle.std.specs.Prelude.{◌≡◌, ◌+◌, ℕ, List, length};
    ghost use Rattle.open_txns.specs.Marks.{open_marks, first_open};

    ghost Value = { List (ℕ × ℕ) };

    ghost view = { λ a. open_marks a.marks.entries };

    ghost invariant = { λ a. (a.head ≡ first_open a.marks.entries) × (a.ended + length (open_marks a.marks.entries) ≡ length a.marks.entries) };
}

impl OpenTxns {
    /// No transaction.
    pub fn new(alloc: Global) -> OpenTxns
        ensures { result ≡ [] }
    {
        OpenTxns {
            marks: IndexMap::new(alloc),
            head: 0,
            ended: 0,
        }
    }

    /// Notes a record that stands at a position: an image opens its transaction, an outcome closes it. The laws speak of
    /// notes whose positions rise and in which no record of a transaction follows its outcome. Want of memory leaves all
    /// as it was.
    pub fn note(&mut self, pos: Pos, rec: &Record) -> Result<(), AllocError>
        ensures ok { OnOk result (self.new ≡ noted self.old pos rec.now) }
        ensures err { OnErr result (self.new ≡ self.old) }
    {
        match rec {
            Record::Image { txn, .. } => self.open(*txn, pos),
            Record::Commit { txn } => {
                self.close(*txn);
                Ok(())
            }
            Record::Abort { txn } => {
                self.close(*txn);
                Ok(())
            }
        }
    }

    fn open(&mut self, txn: TxnId, pos: Pos) -> Result<(), AllocError>
        ensures ok { OnOk result (self.new ≡ (if has_txn self.old txn then self.old else self.old ++ (txn, pos) ∷ [])) }
        ensures err { OnErr result (self.new ≡ self.old) }
    {
        if self.is_open(txn) {
            Ok(())
        } else if self.marks.contains_key(&txn) {
            self.open_again(txn, pos)
        } else {
            add_mark(&mut self.marks, txn, pos)
        }
    }

    /// Opens a transaction that has ended before.
    fn open_again(&mut self, txn: TxnId, pos: Pos) -> Result<(), AllocError>
        requires { has_txn self.old txn ≡ false }
        ensures ok { OnOk result (self.new ≡ self.old ++ (txn, pos) ∷ []) }
        ensures err { OnErr result (self.new ≡ self.old) }
    {
        sweep(&mut self.marks);
        self.head = 0;
        self.ended = 0;
        add_mark(&mut self.marks, txn, pos)
    }

    fn close(&mut self, txn: TxnId)
        ensures { self.new ≡ remove_entry (λ k. txn == k) self.old }
    {
        let held = self.marks.len();
        if !end_mark(&mut self.marks, txn) {
            return;
        }
        self.ended += 1;
        if self.ended > held / 2 {
            sweep(&mut self.marks);
            self.head = 0;
            self.ended = 0;
        } else {
            self.head = first_open_from(&self.marks, self.head);
        }
    }

    /// The position of the first image of the earliest open transaction, or `end`, which is above every noted position.
    pub fn low(&self, end: Pos) -> Pos
        ensures { result ≡ low_of self.now end }
    {
        if self.head < self.marks.len() {
            self.marks[self.head].unwrap_or(end)
        } else {
            end
        }
    }

    /// Whether the transaction has an image and no outcome.
    pub fn is_open(&self, txn: TxnId) -> bool
        ensures { result ≡ has_txn self.now txn }
    {
        place_of(&self.marks, txn).is_some()
    }

    /// How many transactions are open. The count stands still at 4,294,967,295.
    pub fn count(&self) -> u32
        ensures { result ≡ min (length self.now) u32.MAX }
    {
        let open = self.marks.len() - self.ended;
        if open < u32::MAX as usize {
            open as u32
        } else {
            u32::MAX
        }
    }
}
