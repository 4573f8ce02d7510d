//! Nodes, volumes, transactions, and the records of an audit trail.
ghost use Rattle.std.specs.Prelude.{◌≡◌, ◌<◌, IfOk, option_copied};

use crate::names::{FileName, Key, Value};
use std::alloc::AllocError;
use std::fmt;
use std::marker::Model;

/// A machine of the system. In triple contingency, by the RDF System Management Manual, one primary
/// feeds two backups.
#[derive(Clone, Copy, Debug, PartialEq, Eq)]
pub enum Node {
    /// The primary, where transactions run.
    A,
    /// The first backup.
    B,
    /// The second backup, in a system with two.
    C,
}

impl fmt::Display for Node {
    ghost use Rattle.std.specs.Prelude.{Some};
    ghost use Rattle.rdf_types.specs.Saying.{node_text};

    ghost output = { λ node. Some (node_text node) };

    fn fmt<W: fmt::Write>(&self, f: &mut fmt::Formatter<W>) -> fmt::Result {
        match *self {
            Node::A => f.write_str("a"),
            Node::B => f.write_str("b"),
            Node::C => f.write_str("c"),
        }
    }
}

/// A volume's number, 0 to 15. A system has the volumes from 0 on; a volume has the same number on
/// each node.
#[derive(Clone, Copy, Debug, PartialEq, Eq, PartialOrd, Ord)]
pub struct VolNo(pub u8);

impl Model for VolNo {
    ghost use Rattle.std.specs.Prelude.{ℕ, ◌<◌};

    ghost Value = { ℕ };

    ghost view = { λ a. a.0 };

    ghost invariant = { λ a. a.0 < 16 };

    ghost inverse = { λ n. record { 0 = n } };
}

impl VolNo {
    /// The number, 0 to 15.
    pub fn number(self) -> u8
        ensures value { result ≡ self }
        ensures limit { result < 16 }
    {
        self.0
    }
}

/// A transaction's number, any of 32 bits. The one who begins the transaction chooses it.
#[derive(Clone, Copy, Debug, PartialEq, Eq, PartialOrd, Ord, Hash)]
pub struct TxnId(pub u32);

impl Model for TxnId {
    ghost use Rattle.std.specs.Prelude.{ℕ};

    ghost Value = { ℕ };

    ghost view = { λ a. a.0 };

    ghost inverse = { λ n. record { 0 = n } };
}

/// A position in the audit trail: the index of a record, from 0 on. As an end it is the position
/// behind the last record that is meant.
pub type Pos = u64;

/// How far a backup is on its way to take over from a lost primary.
#[derive(Clone, Copy, Debug, PartialEq, Eq)]
pub enum Phase {
    /// It receives audit, and updaters apply it: each volume shows every image before its restart
    /// point, committed or not.
    Running,
    /// A takeover has begun and has not ended. From here on nothing is received from the primary.
    Taking,
    /// A takeover has ended: each protected volume shows the transactions that were committed among
    /// the records before `upto`. Another takeover, after more audit was copied from the other
    /// backup, goes through `Taking` again.
    Taken { upto: Pos },
}

/// A record of the audit trail.
#[derive(Debug, Drop, PartialEq, Eq)]
pub enum Record {
    /// A transaction set a place from the before image to the after image; `None` is an absent
    /// row, so an insert has no before image and a delete no after image. Backout adds an image for
    /// each place that it sets back to the transaction's first before image.
    Image {
        txn: TxnId,
        vol: VolNo,
        file: FileName,
        key: Key,
        before: Option<Value>,
        after: Option<Value>,
    },
    /// The outcome of a transaction whose changes stay.
    Commit {
        txn: TxnId,
    },
    /// The outcome of a transaction whose changes have been backed out.
    Abort {
        txn: TxnId,
    },
}

/// A record of the audit trail with its position there.
#[derive(Debug, Drop, PartialEq, Eq)]
pub struct Stamped {
    /// Where the record stands in the primary's trail.
    pub pos: Pos,
    /// The record.
    pub rec: Record,
}

/// The place of a row: a volume, a file there and a key in it. Places are ordered by volume, then
/// file, then key.
#[derive(Debug, Drop, PartialEq, Eq, PartialOrd, Ord)]
pub struct RecKey {
    /// The volume.
    pub vol: VolNo,
    /// The file on the volume.
    pub file: FileName,
    /// The key in the file.
    pub key: Key,
}

/// A row of a volume: the value that stands at a key of a file.
#[derive(Debug, Drop, PartialEq, Eq)]
pub struct Row {
    /// The file on the volume.
    pub file: FileName,
    /// The key in the file.
    pub key: Key,
    /// What stands there.
    pub value: Value,
}

/// A change of a volume: what the place of a file and a key is set to.
#[derive(Debug, Drop, PartialEq, Eq)]
pub struct Change {
    /// The file on the volume.
    pub file: FileName,
    /// The key in the file.
    pub key: Key,
    /// What stands there afterwards; `None` removes the row.
    pub after: Option<Value>,
}

impl Record {
    /// An equal record; the only error is want of memory.
    pub fn try_clone(&self) -> Result<Record, AllocError>
        ensures { IfOk result (λ record_. record_ ≡ self.now) }
    {
        match self {
            Record::Image {
                txn,
                vol,
                file,
                key,
                before,
                after,
            } => {
                let file = file.try_clone()?;
                let key = key.try_clone()?;
                let before = copy_of(before.as_ref())?;
                let after = copy_of(after.as_ref())?;
                Ok(Record::Image {
                    txn: *txn,
                    vol: *vol,
                    file,
                    key,
                    before,
                    after,
                })
            }
            Record::Commit { txn } => Ok(Record::Commit { txn: *txn }),
            Record::Abort { txn } => Ok(Record::Abort { txn: *txn }),
        }
    }
}

/// An equal value, where there is one; the only error is want of memory.
pub fn copy_of(value: Option<&Value>) -> Result<Option<Value>, AllocError>
    ensures { IfOk result (λ copy. copy ≡ option_copied value.entry) }
{
    match value {
        None => Ok(None),
        Some(value) => Ok(Some(value.try_clone()?)),
    }
}

impl RecKey {
    /// An equal place; the only error is want of memory.
    pub fn try_clone(&self) -> Result<RecKey, AllocError>
        ensures { IfOk result (λ place. place ≡ self.now) }
    {
        let file = self.file.try_clone()?;
        let key = self.key.try_clone()?;
        Ok(RecKey {
            vol: self.vol,
            file,
            key,
        })
    }
}

impl Clone for RecKey {
    ghost is_clone = { λ x y. y ≡ x };

    fn clone(&self) -> Result<RecKey, AllocError> {
        self.try_clone()
    }
}

impl Stamped {
    /// An equal record at the same position; the only error is want of memory.
    pub fn try_clone(&self) -> Result<Stamped, AllocError>
        ensures { IfOk result (λ stamped. stamped ≡ self.now) }
    {
        let rec = self.rec.try_clone()?;
        Ok(Stamped { pos: self.pos, rec })
    }
}

impl Row {
    /// An equal row; the only error is want of memory.
    pub fn try_clone(&self) -> Result<Row, AllocError>
        ensures { IfOk result (λ row. row ≡ self.now) }
    {
        let file = self.file.try_clone()?;
        let key = self.key.try_clone()?;
        let value = self.value.try_clone()?;
        Ok(Row { file, key, value })
    }
}

impl Change {
    /// An equal change; the only error is want of memory.
    pub fn try_clone(&self) -> Result<Change, AllocError>
        ensures { IfOk result (λ change. change ≡ self.now) }
    {
        let file = self.file.try_clone()?;
        let key = self.key.try_clone()?;
        let after = copy_of(self.after.as_ref())?;
        Ok(Change { file, key, after })
    }
}
