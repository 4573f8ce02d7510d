//! The lists of volumes that a run was answered.
ghost use Rattle.std.specs.Prelude.{◌≡◌, ◌≢◌, ℕ, None, [], ◌∷◌, ◌++◌, reverse, find, OnOk, OnErr};
ghost use Rattle.std.specs.Option.{option_map};
ghost use Rattle.rdf_types.specs.declared.records.Node.TheVariants.{B, C};
ghost use Rattle.rdf_core.specs.declared.replies.Reply.TheVariants.{Done, Number};
ghost use Rattle.load_summary.specs.Summary.{list_in, list_rows, lists_of, is_list_of, last_list, same_rows, are_same, lists_equal};

use crate::answers::is_same;
use plan_lang::lines::Line;
use rdf_core::replies::{Reply, RowList};
use rdf_types::records::{Node, Row, VolNo};
use std::alloc::{AllocError, Global};
use std::marker::Model;

/// A list of a volume.
#[derive(Debug, Drop)]
pub struct Listed {
    /// Whose volume it is.
    pub node: Node,
    /// Which volume.
    pub vol: VolNo,
    /// Its rows, where the line was answered `ok`.
    pub rows: Option<RowList>,
}

impl Listed {
    fn is_of(&self, node: Node, vol: u8) -> bool
        ensures { result ≡ is_list_of node vol self.now }
    {
        is_same(self.node, node) && self.vol.number() == vol
    }

    fn shown(&self) -> Option<&[Row]>
        ensures { option_map (λ rows. rows.now) result ≡ self.now.rows }
    {
        match &self.rows {
            Some(rows) => Some(rows.rows()),
            None => None,
        }
    }
}

/// Lists in the order of their lines.
#[derive(Debug, Drop)]
pub struct Lists {
    lists: Vec<Listed>,
}

impl Model for Lists {
    ghost use Rattle.std.specs.Prelude.{List};
    ghost use Rattle.load_summary.specs.declared.lists.Listed.{Listed};

    ghost Value = { List Listed };

    ghost view = { λ a. a.lists.items };
}

// The volumes that the generated plan lists.
const VOLUMES: [u8; 8] = [0, 1, 2, 3, 4, 5, 6, 7];

impl Lists {
    /// No list yet.
    pub fn new(alloc: Global) -> Lists
        ensures { result ≡ [] }
    {
        Lists {
            lists: Vec::new(alloc),
        }
    }

    /// Keeps the rows where the line lists a volume. An `Err` changes nothing, and never comes where the reply is that the line is done, or a number.
    pub fn note(&mut self, line: &Line, reply: Reply) -> Result<(), AllocError>
        ensures ok { OnOk result (self.new ≡ self.old ++ lists_of ((line.now, reply) ∷ [])) }
        ensures err { OnErr result (self.new ≡ self.old) }
        ensures done { OnErr result (reply ≢ Done) }
        ensures number { (n : ℕ) → OnErr result (reply ≢ Number n) }
    {
        match list_in(line, reply) {
            Some(list) => self.push(list),
            None => Ok(()),
        }
    }

    fn push(&mut self, list: Listed) -> Result<(), AllocError>
        ensures ok { OnOk result (self.new ≡ self.old ++ list ∷ []) }
        ensures err { OnErr result (self.new ≡ self.old) }
    {
        self.lists.push(list)?;
        Ok(())
    }

    // The rows of the last list of the volume, where that one was answered `ok`.
    fn last(&self, node: Node, vol: u8) -> Option<&[Row]>
        ensures { option_map (λ rows. rows.now) result ≡ last_list node vol self.now }
    {
        match self.last_of(node, vol) {
            Some(list) => list.shown(),
            None => None,
        }
    }

    fn last_of(&self, node: Node, vol: u8) -> Option<&Listed>
        ensures { option_map (λ list. list.now) result ≡ find (is_list_of node vol) (reverse self.now) }
    {
        self.lists.iter().rev().find(|list| list.is_of(node, vol))
    }

    fn are_same(&self, vol: u8) -> bool
        ensures { result ≡ are_same (last_list B vol self.now) (last_list C vol self.now) }
    {
        let Some(b) = self.last(Node::B, vol) else {
            return false;
        };
        let Some(c) = self.last(Node::C, vol) else {
            return false;
        };
        are_same_rows(b, c)
    }

    /// Whether each volume of both backups was listed, and the last lists of each volume have the same rows.
    pub fn are_equal(&self) -> bool
        ensures { result ≡ lists_equal self.now }
    {
        VOLUMES.iter().all(|vol| self.are_same(*vol))
    }
}

fn are_same_rows(some: &[Row], others: &[Row]) -> bool
    ensures { result ≡ same_rows some.now others.now }
{
    some == others
}

fn list_in(line: &Line, reply: Reply) -> Option<Listed>
    ensures value { result ≡ list_in line.now reply }
    ensures none { reply ≡ Done → result ≡ None }
    ensures number { (n : ℕ) → reply ≡ Number n → result ≡ None }
{
    match line {
        Line::List { node, vol } => list_of(*node, *vol, reply),
        _ => None,
    }
}

fn list_of(node: Node, vol: VolNo, reply: Reply) -> Option<Listed>
    ensures value { result ≡ option_map (λ rows. record { node = node; vol = vol; rows = rows }) (list_rows reply) }
    ensures none { reply ≡ Done → result ≡ None }
    ensures number { (n : ℕ) → reply ≡ Number n → result ≡ None }
{
    match reply {
        Reply::Rows { rows, .. } => Some(Listed {
            node,
            vol,
            rows: Some(rows),
        }),
        Reply::No { .. } => Some(Listed {
            node,
            vol,
            rows: None,
        }),
        Reply::Stopped { .. } => Some(Listed {
            node,
            vol,
            rows: None,
        }),
        _ => None,
    }
}
