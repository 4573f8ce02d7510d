//! A table of calls of locks and of the order of refusals, and a node that goes down.
ghost use Rattle.std.specs.Prelude.{◌≡◌, false, IfOk};
ghost use Rattle.tmf_core.specs.States.{is_down};

use super::fixtures::empty_volume;
use audit_trail::AuditTrail;
use fault_tables::Untold;
use node_faults::NodeFault;
use rdf_disk::Tear;
use rdf_types::names::{FileName, Key, NameFault, Value};
use rdf_types::records::{Pos, RecKey, TxnId, VolNo};
use std::alloc::Global;
use std::test::Fail;
use tmf_core::{Tmf, TmfFault};

#[derive(Clone, Copy)]
enum Call {
    Begin,
    Insert,
    Update,
    Delete,
    Read,
    Commit,
    Abort,
}

#[derive(Clone, Copy)]
enum Answer {
    Done,
    At(Pos),
    Shows(u8),
    No(TmfFault),
}

// A call of a transaction, the volume and the key of one byte, the value of one byte, and the answer.
fn calls() -> [(Call, TxnId, VolNo, u8, u8, Answer); 20] {
    [
        (Call::Begin, TxnId(1), VolNo(0), b'k', b'0', Answer::Done),
        (Call::Insert, TxnId(1), VolNo(0), b'k', b'1', Answer::At(1)),
        (Call::Begin, TxnId(2), VolNo(0), b'k', b'0', Answer::Done),
        (
            Call::Update,
            TxnId(2),
            VolNo(0),
            b'k',
            b'2',
            Answer::No(TmfFault::Locked { by: TxnId(1) }),
        ),
        (
            Call::Read,
            TxnId(2),
            VolNo(0),
            b'k',
            b'0',
            Answer::No(TmfFault::Locked { by: TxnId(1) }),
        ),
        (
            Call::Insert,
            TxnId(1),
            VolNo(0),
            b'k',
            b'3',
            Answer::No(TmfFault::Exists),
        ),
        (
            Call::Delete,
            TxnId(2),
            VolNo(0),
            b'z',
            b'0',
            Answer::No(TmfFault::Missing),
        ),
        (
            Call::Begin,
            TxnId(1),
            VolNo(0),
            b'k',
            b'0',
            Answer::No(TmfFault::TxnUsed),
        ),
        (
            Call::Commit,
            TxnId(9),
            VolNo(0),
            b'k',
            b'0',
            Answer::No(TmfFault::NoTxn),
        ),
        (
            Call::Insert,
            TxnId(1),
            VolNo(2),
            b'k',
            b'1',
            Answer::No(TmfFault::NoVolume),
        ),
        (Call::Commit, TxnId(1), VolNo(0), b'k', b'0', Answer::At(2)),
        (Call::Update, TxnId(2), VolNo(0), b'k', b'2', Answer::At(3)),
        (
            Call::Read,
            TxnId(2),
            VolNo(0),
            b'k',
            b'0',
            Answer::Shows(b'2'),
        ),
        (Call::Abort, TxnId(2), VolNo(0), b'k', b'0', Answer::At(5)),
        (
            Call::Begin,
            TxnId(2),
            VolNo(0),
            b'k',
            b'0',
            Answer::No(TmfFault::TxnUsed),
        ),
        (Call::Begin, TxnId(3), VolNo(0), b'k', b'0', Answer::Done),
        (Call::Commit, TxnId(3), VolNo(0), b'k', b'0', Answer::At(5)),
        (Call::Begin, TxnId(3), VolNo(0), b'k', b'0', Answer::Done),
        (
            Call::Read,
            TxnId(3),
            VolNo(0),
            b'k',
            b'0',
            Answer::Shows(b'1'),
        ),
        (Call::Delete, TxnId(3), VolNo(0), b'k', b'0', Answer::At(6)),
    ]
}

/// The transactions of a node with two volumes, none of which has a row.
fn blank_node(alloc: Global) -> Result<Tmf<Untold>, Fail>
    ensures { IfOk result (λ tmf. is_down tmf ≡ false) }
{
    let room = Vec::with_capacity(alloc, 3)?;
    let mut volumes = Vec::new(alloc);
    volumes.push(empty_volume(alloc)?)?;
    volumes.push(empty_volume(alloc)?)?;
    match AuditTrail::format(alloc, Untold::blank(alloc)) {
        Ok(trail) => match Tmf::join(alloc, trail, volumes, room) {
            Ok(tmf) => Ok(tmf),
            Err(_) => Err("no memory")?,
        },
        Err(shut) => Err(shut.fault)?,
    }
}

fn place(alloc: Global, vol: VolNo, key: u8) -> Result<RecKey, NameFault> {
    let file = FileName::read(alloc, b"f")?;
    let key = Key::read(alloc, &[key])?;
    Ok(RecKey { vol, file, key })
}

fn is_at(found: Result<Pos, TmfFault>, answer: Answer) -> bool {
    match (found, answer) {
        (Ok(found), Answer::At(pos)) => found == pos,
        (Err(found), Answer::No(fault)) => found == fault,
        _ => false,
    }
}

fn is_done(found: Result<(), TmfFault>, answer: Answer) -> bool {
    match (found, answer) {
        (Ok(()), Answer::Done) => true,
        (Err(found), Answer::No(fault)) => found == fault,
        _ => false,
    }
}

fn is_shown(found: Result<Value, TmfFault>, answer: Answer) -> bool {
    match (found, answer) {
        (Ok(found), Answer::Shows(byte)) => found.bytes() == [byte].as_slice(),
        (Err(found), Answer::No(fault)) => found == fault,
        _ => false,
    }
}

/// Whether a call is answered so.
fn is_answered(
    tmf: &mut Tmf<Untold>,
    call: Call,
    txn: TxnId,
    key: &RecKey,
    value: &Value,
    answer: Answer,
) -> bool {
    match call {
        Call::Begin => is_done(tmf.begin(txn), answer),
        Call::Insert => is_at(tmf.insert(txn, key, value), answer),
        Call::Update => is_at(tmf.update(txn, key, value), answer),
        Call::Delete => is_at(tmf.delete(txn, key), answer),
        Call::Read => is_shown(tmf.read(txn, key), answer),
        Call::Commit => is_at(tmf.commit(txn), answer),
        Call::Abort => is_at(tmf.abort(txn), answer),
    }
}

/// How many of the calls in the table are answered as it says, up to the first one that is not.
fn answered(alloc: Global, tmf: &mut Tmf<Untold>) -> Result<usize, NameFault> {
    let calls = calls();
    for (i, (call, txn, vol, key, value, answer)) in calls.iter().enumerate() {
        let key = place(alloc, *vol, *key)?;
        let value = Value::read(alloc, &[*value])?;
        if !is_answered(tmf, *call, *txn, &key, &value, *answer) {
            return Ok(i);
        }
    }
    Ok(calls.len())
}

#[test]
fn locks_and_order_of_refusals(rt: HostRuntime) -> Result<(), Fail> {
    let alloc = rt.alloc();
    let mut tmf = blank_node(alloc)?;
    assert_eq!(rt; answered(alloc, &mut tmf)?, 20);
    assert_eq!(rt; tmf.active(), 1);
    assert!(rt; is_at(tmf.abort(TxnId(3)), Answer::At(8)));
    assert_eq!(rt; tmf.active(), 0);
    assert_eq!(rt; tmf.trail().len(), 8);
    match tmf.scan(VolNo(0)) {
        Ok(rows) => {
            assert_eq!(rt; rows.len(), 1);
            assert_eq!(rt; rows[0].value.bytes(), b"1".as_slice());
        }
        Err(_) => assert!(rt; false),
    }
    assert!(rt; tmf.scan(VolNo(2)).is_err());
    assert_eq!(rt; tmf.close().len(), 3);
    Ok(())
}

#[test]
fn down_after_a_stop(rt: HostRuntime) -> Result<(), Fail> {
    let alloc = rt.alloc();
    let mut tmf = blank_node(alloc)?;
    let key = place(alloc, VolNo(1), b'k')?;
    let value = Value::read(alloc, b"1")?;
    tmf.fuse(0, 0, Tear::Lose);
    assert!(rt; is_done(tmf.begin(TxnId(1)), Answer::Done));
    let stopped = NodeFault::Stopped { disk: 0 };
    assert!(rt;
        is_at(
            tmf.insert(TxnId(1), &key, &value),
            Answer::No(TmfFault::Node { fault: stopped })
        )
    );
    assert!(rt; is_done(tmf.begin(TxnId(2)), Answer::No(TmfFault::Down)));
    assert!(rt; is_at(tmf.commit(TxnId(1)), Answer::No(TmfFault::Down)));
    assert!(rt; is_shown(tmf.read(TxnId(1), &key), Answer::No(TmfFault::Down)));
    assert_eq!(rt; tmf.close().len(), 3);
    Ok(())
}
