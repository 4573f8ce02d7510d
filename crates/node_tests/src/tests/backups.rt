//! The gate of a backup, and what its tests share.
ghost use Rattle.std.specs.Prelude.{◌≡◌, ◌≤◌, IfOk, IfSome, length};
ghost use Rattle.rdf_codec.specs.declared.ships.Ship.{Ship as AnyShip};
ghost use Rattle.rdf_wire.specs.Shipping.{IsSent};

use super::fixtures::two_volumes;
use fault_tables::Untold;
use node_faults::Shut;
use rdf_backup::Backup;
use rdf_codec::entries::Entries;
use rdf_codec::messages::{Message, write_message};
use rdf_codec::ships::Ship;
use rdf_core::replies::Reply;
use rdf_ports::Gate;
use rdf_types::names::{FileName, Key, NameFault, Value};
use rdf_types::records::{Pos, Record, Stamped, TxnId, VolNo};
use std::alloc::{AllocError, Global};
use std::sync::atomic::{AtomicU64, Ordering};
use std::test::Fail;

/// Three disks without files.
fn blank_disks(alloc: Global) -> Result<Vec<Untold>, AllocError>
    ensures { IfOk result (λ disks. length disks.items ≡ 3) }
{
    let mut disks = Vec::new(alloc);
    disks.push(Untold::blank(alloc))?;
    disks.push(Untold::blank(alloc))?;
    disks.push(Untold::blank(alloc))?;
    Ok(disks)
}

/// A backup over such disks.
fn blank_backup(alloc: Global) -> Result<Backup<Untold>, Fail> {
    match Backup::format(alloc, blank_disks(alloc)?, &two_volumes(alloc)?) {
        Ok(backup) => Ok(backup),
        Err(Shut { disks: _, fault }) => Err(fault)?,
    }
}

/// The image of an insert of transaction 1 at a key.
fn image(alloc: Global, vol: VolNo, key: &[u8]) -> Result<Record, NameFault> {
    let file = FileName::read(alloc, b"f")?;
    let key = Key::read(alloc, key)?;
    let value = Value::read(alloc, b"1")?;
    Ok(Record::Image {
        txn: TxnId(1),
        vol,
        file,
        key,
        before: None,
        after: Some(value),
    })
}

/// The message of two records, from a position on.
fn message(alloc: Global, from: Pos, first: Record, second: Record) -> Result<Vec<u8>, AllocError>
    requires low { from ≤ 100 }
    ensures { IfOk result (λ bytes. (ship : AnyShip) × IsSent bytes.items ship) }
{
    let mut part = Vec::new(alloc);
    part.push(Stamped {
        pos: from,
        rec: first,
    })?;
    part.push(Stamped {
        pos: from + 1,
        rec: second,
    })?;
    let ship = Ship {
        from,
        to: from + 2,
        part: Entries::new(part),
    };
    let mut bytes = Vec::new(alloc);
    write_message(&Message::Ship { ship }, &mut bytes)?;
    Ok(bytes)
}

/// Whether a message is answered by that number.
fn takes(backup: &mut Backup<Untold>, bytes: &[u8], want: u64) -> Result<bool, Fail>
    requires { (ship : AnyShip) × IsSent bytes.now ship }
{
    match &backup.deliver(bytes)? {
        Reply::Number { n } => Ok(*n == want),
        _ => Ok(false),
    }
}

/// Two messages: an image on each volume, and another one on the first volume with their commit. None for want of memory.
fn two_messages(alloc: Global) -> Option<(Vec<u8>, Vec<u8>)>
    ensures first { IfSome result (λ messages. (ship : AnyShip) × IsSent messages.0.items ship) }
    ensures second { IfSome result (λ messages. (ship : AnyShip) × IsSent messages.1.items ship) }
{
    let one = image(alloc, VolNo(0), b"k1").ok()?;
    let other = image(alloc, VolNo(1), b"k1").ok()?;
    let last = image(alloc, VolNo(0), b"k2").ok()?;
    let Ok(first) = message(alloc, 0, one, other) else {
        return None;
    };
    let Ok(second) = message(alloc, 2, last, Record::Commit { txn: TxnId(1) }) else {
        return None;
    };
    Some((first, second))
}

/// Whether it takes the messages up to 2 and up to 4.
fn take_both(backup: &mut Backup<Untold>, first: &[u8], second: &[u8]) -> Result<bool, Fail>
    requires first { (ship : AnyShip) × IsSent first.now ship }
    requires second { (ship : AnyShip) × IsSent second.now ship }
{
    if !takes(backup, first, 2)? {
        return Ok(false);
    }
    takes(backup, second, 4)
}

/// A backup that was sent an image on each volume, another one on the first volume, and their commit.
pub(crate) fn sent_images(alloc: Global) -> Result<Backup<Untold>, Fail> {
    let mut backup = blank_backup(alloc)?;
    match two_messages(alloc) {
        Some((first, second)) => {
            if take_both(&mut backup, &first, &second)? {
                Ok(backup)
            } else {
                Err(Fail::new("a message was not taken"))
            }
        }
        None => Err(Fail::new("no memory")),
    }
}

/// Counts how often it was passed for each of two volumes, which may come at the same time.
#[derive(Drop)]
pub(crate) struct Passes {
    pub(crate) first: AtomicU64,
    pub(crate) second: AtomicU64,
}

impl Gate for Passes {
    fn before_apply(&self, vol: VolNo) {
        let passed = if vol == VolNo(0) {
            &self.first
        } else {
            &self.second
        };
        passed.fetch_add(1, Ordering::SeqCst);
    }
}

/// A gate that was passed for none yet.
pub(crate) fn fresh() -> Passes {
    Passes {
        first: AtomicU64::new(0),
        second: AtomicU64::new(0),
    }
}

/// Once for each volume that is taken over.
#[test]
fn gate_before_each_volume(rt: HostRuntime) -> Result<(), Fail> {
    let alloc = rt.alloc();
    let mut backup = sent_images(alloc)?;
    let gate = fresh();
    let _reply = backup.takeover(&rt, &gate)?;
    assert!(rt; gate.first.load(Ordering::SeqCst) == 1);
    assert!(rt; gate.second.load(Ordering::SeqCst) == 1);
    Ok(())
}
