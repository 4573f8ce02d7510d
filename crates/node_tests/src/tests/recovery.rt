//! Redo of a volume.
use super::fixtures::empty_volume;
use audit_trail::AuditTrail;
use fault_tables::Untold;
use rdf_types::names::{FileName, Key, Value};
use rdf_types::records::{Record, TxnId, VolNo};
use std::alloc::Global;
use std::test::Fail;
use tmf_recovery::redo;

/// An image of a key of one file.
fn image(
    alloc: Global,
    txn: u32,
    vol: VolNo,
    key: &[u8],
    after: Option<&[u8]>,
) -> Result<Record, Fail> {
    let after = match after {
        None => None,
        Some(bytes) => Some(Value::read(alloc, bytes)?),
    };
    Ok(Record::Image {
        txn: TxnId(txn),
        vol,
        file: FileName::read(alloc, b"f")?,
        key: Key::read(alloc, key)?,
        before: None,
        after,
    })
}

/// Transaction 7 commits; 5 and 3 have no outcome, and 3 has its image on another volume.
fn append_all(alloc: Global, trail: &mut AuditTrail<Untold>) -> Result<(), Fail> {
    trail.append(&image(alloc, 7, VolNo(0), b"k1", Some(b"1"))?)?;
    trail.append(&image(alloc, 5, VolNo(0), b"k2", Some(b"2"))?)?;
    trail.append(&image(alloc, 3, VolNo(1), b"k1", Some(b"9"))?)?;
    trail.append(&Record::Commit { txn: TxnId(7) })?;
    trail.append(&image(alloc, 5, VolNo(0), b"k2", None)?)?;
    Ok(())
}

fn recorded(alloc: Global) -> Result<AuditTrail<Untold>, Fail> {
    match AuditTrail::format(alloc, Untold::blank(alloc)) {
        Ok(mut trail) => {
            append_all(alloc, &mut trail)?;
            Ok(trail)
        }
        Err(shut) => Err(shut.fault)?,
    }
}

#[test]
fn redone_to_the_end(rt: HostRuntime) -> Result<(), Fail> {
    let alloc = rt.alloc();
    let trail = recorded(alloc)?;
    let mut volume = empty_volume(alloc)?;
    redo(alloc, &trail, &mut volume, VolNo(0))?;
    assert_eq!(rt; volume.restart_point(), 5);
    let rows = volume.scan()?;
    assert_eq!(rt; rows.len(), 1);
    assert_eq!(rt; rows[0].value, Value::read(alloc, b"1")?);
    redo(alloc, &trail, &mut volume, VolNo(0))?;
    assert_eq!(rt; volume.batches(), 1);
    Ok(())
}
