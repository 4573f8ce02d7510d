//! The lines of a plan, and plans.
ghost use Rattle.std.specs.Prelude.{◌≡◌, [], ◌∷◌, ◌++◌, OnOk, OnErr};

use rdf_disk::Tear;
use rdf_types::layout::Layout;
use rdf_types::names::Value;
use rdf_types::records::{Node, RecKey, TxnId, VolNo};
use std::alloc::{AllocError, Global};
use std::marker::Model;

/// One line of a plan after its header: a command to the system.
#[derive(Debug, Drop)]
pub enum Line {
    /// A transaction begins on the primary.
    Begin {
        txn: TxnId,
    },
    /// It adds a row.
    Insert {
        txn: TxnId,
        key: RecKey,
        value: Value,
    },
    /// It changes a row's value.
    Update {
        txn: TxnId,
        key: RecKey,
        value: Value,
    },
    /// It removes a row.
    Delete {
        txn: TxnId,
        key: RecKey,
    },
    /// It reads a row.
    Get {
        txn: TxnId,
        key: RecKey,
    },
    /// Its changes stay.
    Commit {
        txn: TxnId,
    },
    /// Its changes are backed out.
    Abort {
        txn: TxnId,
    },
    /// The extractor puts a message of at most so many records on the wire to a backup.
    Send {
        node: Node,
        most: u32,
    },
    /// The extractor goes back to what the backup has acknowledged.
    Rewind {
        node: Node,
    },
    /// The backup's acknowledgement reaches the extractor.
    Ack {
        node: Node,
    },
    /// The message of that number on the wire reaches the backup.
    Deliver {
        node: Node,
        k: u32,
    },
    /// The primary is lost for good.
    Lose,
    /// The updaters of a backup run until the line `end`.
    Session {
        node: Node,
    },
    /// A row is read at a backup in its session.
    Read {
        node: Node,
        key: RecKey,
    },
    /// A backup drops generations of its image trails that are no longer needed.
    Purge {
        node: Node,
    },
    /// The session ends once its updaters have caught up.
    End,
    /// A backup takes over.
    Takeover {
        node: Node,
    },
    /// The backup `node` gets the audit that it lacks from the backup `from`.
    CopyAudit {
        node: Node,
        from: Node,
    },
    /// The rows of a volume are listed.
    List {
        node: Node,
        vol: VolNo,
    },
    /// How far each volume of a backup is.
    Info {
        node: Node,
    },
    /// How a node stands.
    Status {
        node: Node,
    },
    /// A disk of a node is given a fuse: it stops at the counted call after so many.
    Fuse {
        node: Node,
        disk: u8,
        calls: u32,
        tear: Tear,
    },
    /// A node's power is cut.
    Cut {
        node: Node,
    },
    /// A node that is down comes up again.
    Restart {
        node: Node,
    },
}

/// The lines behind a plan's header, in their order.
#[derive(Debug, Drop)]
pub struct Lines {
    lines: Vec<Line>,
}

impl Model for Lines {
    ghost use Rattle.std.specs.Prelude.{List};
    ghost use Rattle.plan_lang.specs.declared.lines.Line.{Line};

    ghost Value = { List Line };

    ghost view = { λ a. a.lines.items };
}

impl Lines {
    /// No line yet.
    pub fn new(alloc: Global) -> Lines
        ensures { result ≡ [] }
    {
        Lines {
            lines: Vec::new(alloc),
        }
    }

    /// Adds a line at the end. An `Err` changes nothing.
    pub fn push(&mut self, line: Line) -> Result<(), AllocError>
        ensures ok { OnOk result (self.new ≡ self.old ++ line ∷ []) }
        ensures err { OnErr result (self.new ≡ self.old) }
    {
        self.lines.push(line)?;
        Ok(())
    }

    /// The lines in order.
    pub fn all(&self) -> &[Line]
        ensures { result.now ≡ self.now }
    {
        &self.lines
    }
}

/// A system's layout, and the lines to perform on it.
#[derive(Debug, Drop)]
pub struct Plan {
    /// How many backups and volumes there are, and how each backup keeps its audit.
    pub layout: Layout,
    /// What is done, line by line.
    pub lines: Lines,
}
