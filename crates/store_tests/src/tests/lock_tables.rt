use rdf_types::names::{FileName, Key, NameFault};
use rdf_types::records::{RecKey, TxnId, VolNo};
use record_locks::{LockFault, LockTable};
use std::alloc::Global;
use std::test::Fail;

// A try to lock the key `k` of a file on volume 0: the transaction, the file, and the owner that
// stands in its way, or 0.
fn tries() -> &'static [(u32, &'static [u8], u32)] {
    &[
        (1, b"f", 0),
        (2, b"f", 1),
        (1, b"f", 0),
        (2, b"g", 0),
        (1, b"g", 2),
        (1, b"h", 0),
        (3, b"h", 1),
    ]
}

fn place(alloc: Global, file: &[u8]) -> Result<RecKey, NameFault> {
    let file = FileName::read(alloc, file)?;
    let key = Key::read(alloc, b"k")?;
    Ok(RecKey {
        vol: VolNo(0),
        file,
        key,
    })
}

// Whether a try to lock is answered so.
fn is_answered(
    alloc: Global,
    locks: &mut LockTable,
    txn: u32,
    file: &[u8],
    by: u32,
) -> Result<bool, NameFault> {
    let at = place(alloc, file)?;
    let expected = if by == 0 {
        Ok(())
    } else {
        Err(LockFault::Held { by: TxnId(by) })
    };
    Ok(locks.try_lock(TxnId(txn), &at) == expected)
}

fn is_owner(
    alloc: Global,
    locks: &LockTable,
    file: &[u8],
    txn: Option<TxnId>,
) -> Result<bool, NameFault> {
    let at = place(alloc, file)?;
    Ok(locks.owner(&at) == txn)
}

fn are_answered(alloc: Global, locks: &mut LockTable) -> Result<bool, NameFault> {
    for (txn, file, by) in tries() {
        if !is_answered(alloc, locks, *txn, file, *by)? {
            return Ok(false);
        }
    }
    Ok(true)
}

// Whether transaction 1 has two locks, gives them back at once, and leaves those of transaction 2.
fn are_released(alloc: Global, locks: &mut LockTable) -> Result<bool, NameFault> {
    let held = is_owner(alloc, locks, b"h", Some(TxnId(1)))?;
    let released = locks.release_all(TxnId(1)) == 2 && locks.release_all(TxnId(1)) == 0;
    let free = is_owner(alloc, locks, b"f", None)?;
    Ok(held && released && free && is_owner(alloc, locks, b"g", Some(TxnId(2)))?)
}

// Whether transaction 2 gets the lock that is free, and then has two.
fn is_taken(alloc: Global, locks: &mut LockTable) -> Result<bool, NameFault> {
    Ok(is_answered(alloc, locks, 2, b"f", 0)? && locks.release_all(TxnId(2)) == 2)
}

#[test]
fn one_owner_for_each_record(rt: HostRuntime) -> Result<(), Fail> {
    let mut locks = LockTable::new(rt.alloc());
    assert!(rt; are_answered(rt.alloc(), &mut locks)?);
    assert!(rt; are_released(rt.alloc(), &mut locks)?);
    assert!(rt; is_taken(rt.alloc(), &mut locks)?);
    Ok(())
}
