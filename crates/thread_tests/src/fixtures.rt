//! What several of the tests begin with.
ghost use Rattle.std.specs.Prelude.{◌≡◌, length, IfOk};
ghost use Rattle.rdf_types.specs.Entries.{Rises};
ghost use Rattle.rdf_volume.specs.Views.{restart_of, InUse};

use rdf_disk::{Disk, MemDisk, Tear};
use rdf_types::names::{FileName, Key, Value};
use rdf_types::records::{Pos, Record, Stamped, TxnId, VolNo};
use rdf_volume::Volume;
use std::alloc::Global;
use std::test::Fail;

/// An image that sets the key `k` of the file `f` to the value.
pub(crate) fn image(alloc: Global, pos: Pos, vol: VolNo, value: &[u8]) -> Result<Stamped, Fail>
    ensures { IfOk result (λ s. s.pos ≡ pos) }
{
    let file = FileName::read(alloc, b"f")?;
    let key = Key::read(alloc, b"k")?;
    let after = Some(Value::read(alloc, value)?);
    let rec = Record::Image {
        txn: TxnId(1),
        vol,
        file,
        key,
        before: None,
        after,
    };
    Ok(Stamped { pos, rec })
}

/// Two images of volume 0 and one of volume 1.
pub(crate) fn images(alloc: Global) -> Result<Vec<Stamped>, Fail>
    ensures { IfOk result (λ part. Rises 0 part.items 4 × (length part.items ≡ 3)) }
{
    let mut part = Vec::new(alloc);
    part.push(image(alloc, 0, VolNo(0), b"1")?)?;
    part.push(image(alloc, 1, VolNo(1), b"3")?)?;
    part.push(image(alloc, 2, VolNo(0), b"2")?)?;
    Ok(part)
}

/// A volume without rows, whose disk stops after so many calls, or not at all.
pub(crate) fn formatted(alloc: Global, fuse: Option<u32>) -> Result<Volume<MemDisk>, Fail>
    ensures start { IfOk result (λ volume. restart_of volume ≡ 0) }
    ensures in_use { IfOk result (λ volume. InUse ⟦<MemDisk as Disk>⟧.files volume) }
{
    match Volume::format(alloc, MemDisk::blank(alloc, Vec::new(alloc))) {
        Ok(volume) => Ok(with_fuse(volume, fuse)),
        Err(shut) => Err(shut.fault)?,
    }
}

/// The volume, whose disk stops after so many calls, or not at all.
fn with_fuse(mut volume: Volume<MemDisk>, fuse: Option<u32>) -> Volume<MemDisk>
    requires { InUse ⟦<MemDisk as Disk>⟧.files volume }
    ensures restart { restart_of result ≡ restart_of volume }
    ensures in_use { InUse ⟦<MemDisk as Disk>⟧.files result }
{
    let Some(calls) = fuse else {
        return volume;
    };
    volume.fuse(calls, Tear::Keep);
    volume
}
