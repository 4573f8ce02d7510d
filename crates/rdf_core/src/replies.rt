//! What lines are answered.
ghost use Rattle.std.specs.Prelude.{◌≡◌};

use rdf_types::names::Value;
use rdf_types::records::{Node, Phase, Pos, Row, TxnId};
use std::marker::Model;

/// Why a line was refused, in the order in which the formats list the words.
#[derive(Clone, Copy, Debug, PartialEq, Eq)]
pub enum NoWhy {
    /// The primary is lost.
    Lost,
    /// The node is down.
    Down,
    /// The node is up.
    Up,
    /// The primary is not lost.
    PrimaryUp,
    /// The backup has not begun to take over.
    Running,
    /// A takeover of the backup has begun and has not ended.
    Taking,
    /// The backup has taken over.
    Taken,
    /// The transaction's number is used.
    Used,
    /// The transaction is not active.
    Txn,
    /// There is no such volume.
    Volume,
    /// Another transaction has the record.
    Locked { by: TxnId },
    /// A value stands there.
    Exists,
    /// No value stands there.
    Missing,
    /// No such message was sent.
    Message,
    /// The message begins above the received prefix.
    Gap { received: Pos },
    /// The records from this position on are no longer kept.
    Purged { first: Pos },
}

/// A volume of a backup; its number is its place in the list.
#[derive(Clone, Copy, Debug, PartialEq, Eq)]
pub struct VolInfo {
    /// The image trail that the volume is assigned to.
    pub trail: u8,
    /// Whether the backup has a copy of the volume.
    pub protect: bool,
    /// The volume's restart point, 0 where it is not protected.
    pub at: Pos,
}

/// Rows in the order of file and key.
#[derive(Debug, Drop)]
pub struct RowList {
    rows: Vec<Row>,
}

impl Model for RowList {
    ghost use Rattle.std.specs.Prelude.{List};
    ghost use Rattle.rdf_types.specs.declared.records.Row.{Row};

    ghost Value = { List Row };

    ghost view = { λ a. a.rows.items };
}

impl RowList {
    /// These rows.
    pub fn new(rows: Vec<Row>) -> RowList
        ensures { result ≡ rows.items }
    {
        RowList { rows }
    }

    /// The rows in order.
    pub fn rows(&self) -> &[Row]
        ensures { result.now ≡ self.now }
    {
        &self.rows
    }
}

/// The volumes of a backup, by their numbers.
#[derive(Debug, Drop)]
pub struct VolInfos {
    volumes: Vec<VolInfo>,
}

impl Model for VolInfos {
    ghost use Rattle.std.specs.Prelude.{List};
    ghost use Rattle.rdf_core.specs.declared.replies.VolInfo.{VolInfo};

    ghost Value = { List VolInfo };

    ghost view = { λ a. a.volumes.items };
}

impl VolInfos {
    /// These volumes.
    pub fn new(volumes: Vec<VolInfo>) -> VolInfos
        ensures { result ≡ volumes.items }
    {
        VolInfos { volumes }
    }

    /// The volumes in order.
    pub fn volumes(&self) -> &[VolInfo]
        ensures { result.now ≡ self.now }
    {
        &self.volumes
    }
}

/// The answer to a line.
#[derive(Debug, Drop)]
pub enum Reply {
    /// The line is done.
    Done,
    /// It is done, with one number: a length, a position or a count.
    Number {
        n: u64,
    },
    /// What a transaction read.
    Got {
        value: Value,
    },
    /// Message `k` was put on the wire, with the records from `from` to before `to`.
    Sent {
        k: u32,
        from: Pos,
        to: Pos,
    },
    /// Nothing was left to send.
    NoneSent,
    /// What a volume showed that had come up to `at`.
    Holds {
        at: Pos,
        value: Value,
    },
    /// A volume that had come up to `at` showed nothing there.
    Absent {
        at: Pos,
    },
    /// The rows of a volume.
    Rows {
        at: Pos,
        rows: RowList,
    },
    /// The volumes of a backup.
    Info {
        volumes: VolInfos,
    },
    /// The primary is up.
    PrimaryUp {
        len: Pos,
        active: u32,
    },
    /// The node is down.
    NodeDown,
    /// The primary is lost.
    NodeLost,
    /// The backup is up.
    BackupUp {
        phase: Phase,
        received: Pos,
        kept: Pos,
        generations: u32,
        unended: u32,
    },
    /// A disk of the node stopped.
    Stopped {
        node: Node,
    },
    /// The line was refused, and changed nothing.
    No {
        why: NoWhy,
    },
}
