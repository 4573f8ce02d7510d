//! A step of a volume on a disk in memory.
ghost use Rattle.std.specs.Prelude.{◌≡◌, IfOk};

use super::fixtures::empty_volume;
use rdf_types::names::{FileName, Key, Value};
use rdf_types::records::{Pos, Record, Row, Stamped, TxnId, VolNo};
use std::alloc::Global;
use std::test::Fail;
use updaters::step;

/// An image of the key `k` of file `f` on volume 3.
fn image(alloc: Global, pos: Pos, value: &[u8]) -> Result<Stamped, Fail>
    ensures { IfOk result (λ s. s.pos ≡ pos) }
{
    let file = FileName::read(alloc, b"f")?;
    let key = Key::read(alloc, b"k")?;
    let value = Value::read(alloc, value)?;
    Ok(Stamped {
        pos,
        rec: Record::Image {
            txn: TxnId(1),
            vol: VolNo(3),
            file,
            key,
            before: None,
            after: Some(value),
        },
    })
}

fn has(row: &Row, key: &[u8], value: &[u8]) -> bool {
    row.key.bytes() == key && row.value.bytes() == value
}

#[test]
fn a_step_applies_its_images(rt: HostRuntime) -> Result<(), Fail> {
    let alloc = rt.alloc();
    let mut volume = empty_volume(alloc)?;
    let first = image(alloc, 2, b"1")?;
    let second = image(alloc, 5, b"2")?;
    step(alloc, &mut volume, &[first, second], 7)?;
    assert_eq!(rt; volume.restart_point(), 7);
    let rows = volume.scan()?;
    assert_eq!(rt; rows.len(), 1);
    assert!(rt; has(&rows[0], b"k", b"2"));
    Ok(())
}
