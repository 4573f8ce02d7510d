//! Bases of an older form, which have no index, and bases whose index is out of place.
use crate::tests::fixtures::{Place, change};
use crate::tests::spelled_blocks::{Entry, end_block, index_block, rows_block};
use fault_tables::Untold;
use rdf_gatelog::{Addition, LogFault, additions, logs};
use rdf_types::records::{Change, Row};
use rdf_volume::Volume;
use std::alloc::{AllocError, Global};
use std::test::Fail;

/// The rows of the base's blocks. Its gates stand at 0, 20, 40 and, behind the blocks of rows, at 54.
const FIRST: [Place; 2] = [(b"f", b"a", b"1"), (b"f", b"c", b"2")];

const SECOND: [Place; 2] = [(b"f", b"e", b"3"), (b"g", b"a", b"4")];

const THIRD: [Place; 1] = [(b"g", b"c", b"5")];

/// What look-ups find in the base: each row, and nothing in front of them, between them and behind them.
const OF_BASE: [Place; 11] = [
    (b"a", b"a", b""),
    (b"f", b"a", b"1"),
    (b"f", b"b", b""),
    (b"f", b"c", b"2"),
    (b"f", b"d", b""),
    (b"f", b"e", b"3"),
    (b"g", b"a", b"4"),
    (b"g", b"b", b""),
    (b"g", b"c", b"5"),
    (b"g", b"d", b""),
    (b"h", b"a", b""),
];

/// What they find after the batch.
const AFTER_BATCH: [Place; 9] = [
    (b"a", b"a", b""),
    (b"f", b"a", b"1"),
    (b"f", b"b", b"6"),
    (b"f", b"c", b"7"),
    (b"f", b"d", b""),
    (b"f", b"e", b"3"),
    (b"g", b"a", b""),
    (b"g", b"c", b"5"),
    (b"h", b"a", b"8"),
];

/// The blocks of rows, without an end.
fn blocks_of_rows(alloc: Global) -> Result<Vec<Vec<u8>>, AllocError> {
    let mut blocks = Vec::new(alloc);
    blocks.push(rows_block(alloc, &FIRST)?)?;
    blocks.push(rows_block(alloc, &SECOND)?)?;
    blocks.push(rows_block(alloc, &THIRD)?)?;
    Ok(blocks)
}

/// Adds a block of 1 to 65,536 bytes.
fn push(addition: &mut Addition, disk: &mut Untold, payload: &[u8]) -> Result<(), Fail> {
    if payload.is_empty() || payload.len() > 65_536 {
        return Err(Fail::new("no payload"));
    }
    additions::push(addition, disk, payload)?;
    Ok(())
}

/// Adds the last block, also of 1 to 65,536 bytes, and makes all of them count.
fn finish(addition: Addition, disk: &mut Untold, payload: &[u8]) -> Result<(), Fail> {
    if payload.is_empty() || payload.len() > 65_536 {
        return Err(Fail::new("no payload"));
    }
    additions::finish(addition, disk, payload)?;
    Ok(())
}

/// A disk whose file 0 has these blocks, and an end of five rows in three blocks, with restart point 4.
fn disk_of(alloc: Global, blocks: &[Vec<u8>]) -> Result<Untold, Fail> {
    let mut disk = Untold::blank(alloc);
    let log = logs::create(alloc, &mut disk, 0)?;
    let mut addition = additions::begin(log);
    for block in blocks {
        push(&mut addition, &mut disk, block)?;
    }
    let end = end_block(alloc, 4, 5, 3)?;
    finish(addition, &mut disk, &end)?;
    Ok(disk)
}

fn mounted(alloc: Global, disk: Untold) -> Result<Volume<Untold>, LogFault> {
    match Volume::mount(alloc, disk) {
        Ok(volume) => Ok(volume),
        Err(shut) => Err(shut.fault),
    }
}

/// Gives the volume up, and opens that of its disk.
fn again(alloc: Global, volume: Volume<Untold>) -> Result<Volume<Untold>, LogFault> {
    mounted(alloc, volume.close())
}

fn finds(alloc: Global, volume: &mut Volume<Untold>, place: &Place) -> Result<bool, Fail> {
    let wanted = change(alloc, place.0, place.1, place.2)?;
    let found = volume.get(&wanted.file, &wanted.key)?;
    Ok(found == wanted.after)
}

/// Whether look-ups find all of this.
fn finds_all(alloc: Global, volume: &mut Volume<Untold>, places: &[Place]) -> Result<bool, Fail> {
    for place in places {
        if !finds(alloc, volume, place)? {
            return Ok(false);
        }
    }
    Ok(true)
}

/// The files, keys and values of rows, with a space after each.
fn text_of(alloc: Global, rows: &[Row]) -> Result<Vec<u8>, AllocError> {
    let mut text = Vec::new(alloc);
    for row in rows {
        for word in [row.file.bytes(), row.key.bytes(), row.value.bytes()] {
            text.extend_from_slice(word)?;
            text.push(b' ')?;
        }
    }
    Ok(text)
}

/// Whether all rows of the volume are these.
fn shows(alloc: Global, volume: &mut Volume<Untold>, text: &[u8]) -> Result<bool, Fail> {
    let rows = volume.scan()?;
    Ok(text_of(alloc, &rows)?.as_slice() == text)
}

/// Whether the volume is that of the base alone.
fn is_of_base(alloc: Global, volume: &mut Volume<Untold>) -> Result<bool, Fail> {
    let finds = finds_all(alloc, volume, &OF_BASE)?;
    let shows = shows(alloc, volume, b"f a 1 f c 2 f e 3 g a 4 g c 5 ")?;
    Ok(finds && shows && volume.restart_point() == 4)
}

/// Whether the volume is that of the base and the batch.
fn is_changed(alloc: Global, volume: &mut Volume<Untold>) -> Result<bool, Fail> {
    let finds = finds_all(alloc, volume, &AFTER_BATCH)?;
    let shows = shows(alloc, volume, b"f a 1 f b 6 f c 7 f e 3 g c 5 h a 8 ")?;
    Ok(finds && shows && volume.restart_point() == 9)
}

/// An insert into a block, a change, a removal and an insert behind all rows.
const BATCH: [Place; 4] = [
    (b"f", b"c", b"7"),
    (b"g", b"a", b""),
    (b"h", b"a", b"8"),
    (b"f", b"b", b"6"),
];

fn batch(alloc: Global) -> Result<Vec<Change>, Fail> {
    let mut batch = Vec::new(alloc);
    for (file, key, value) in &BATCH {
        batch.push(change(alloc, file, key, value)?)?;
    }
    Ok(batch)
}

/// The volume of a base without an index.
fn without_index(alloc: Global) -> Result<Volume<Untold>, Fail> {
    let blocks = blocks_of_rows(alloc)?;
    Ok(mounted(alloc, disk_of(alloc, &blocks)?)?)
}

/// The same, and the batch behind the base.
fn with_batch(alloc: Global) -> Result<Volume<Untold>, Fail> {
    let mut volume = without_index(alloc)?;
    let batch = batch(alloc)?;
    if batch.len() > 64 {
        return Err(Fail::new("more changes than a volume takes at once"));
    }
    volume.apply(&batch, 9)?;
    Ok(volume)
}

#[test]
fn base_without_an_index_mounts(rt: HostRuntime) -> Result<(), Fail> {
    let mut volume = without_index(rt.alloc())?;
    assert!(rt; is_of_base(rt.alloc(), &mut volume)?);
    Ok(())
}

#[test]
fn batch_behind_a_base_without_an_index(rt: HostRuntime) -> Result<(), Fail> {
    let mut volume = with_batch(rt.alloc())?;
    assert!(rt; is_changed(rt.alloc(), &mut volume)?);
    let mut volume = again(rt.alloc(), volume)?;
    assert!(rt; volume.batches() == 1);
    assert!(rt; is_changed(rt.alloc(), &mut volume)?);
    Ok(())
}

#[test]
fn base_without_an_index_is_written_anew(rt: HostRuntime) -> Result<(), Fail> {
    let mut volume = again(rt.alloc(), with_batch(rt.alloc())?)?;
    volume.checkpoint_from(1)?;
    assert!(rt; volume.file_number() == 1);
    assert!(rt; is_changed(rt.alloc(), &mut volume)?);
    let mut volume = again(rt.alloc(), volume)?;
    assert!(rt; volume.batches() == 0);
    assert!(rt; is_changed(rt.alloc(), &mut volume)?);
    Ok(())
}

/// The base with an index whose second entry is this.
fn indexed(alloc: Global, second: Entry<'_>) -> Result<Untold, Fail> {
    let mut blocks = blocks_of_rows(alloc)?;
    let index = index_block(alloc, &[(0, b"f", b"a"), second, (40, b"g", b"c")])?;
    blocks.push(index)?;
    disk_of(alloc, &blocks)
}

/// Whether the base with that entry opens, and is as without an index.
fn opens(alloc: Global, second: Entry<'_>) -> Result<bool, Fail> {
    let mut volume = mounted(alloc, indexed(alloc, second)?)?;
    is_of_base(alloc, &mut volume)
}

/// Whether the base with that entry is damaged at the gate of its index.
fn is_damaged(alloc: Global, second: Entry<'_>) -> Result<bool, Fail> {
    let fault = mounted(alloc, indexed(alloc, second)?).err();
    Ok(fault == Some(LogFault::Damaged { file: 0, at: 54 }))
}

#[test]
fn index_out_of_place_is_damage(rt: HostRuntime) -> Result<(), Fail> {
    let alloc = rt.alloc();
    assert!(rt; opens(alloc, (20, b"f", b"e"))?);
    assert!(rt; is_damaged(alloc, (19, b"f", b"e"))?);
    assert!(rt; is_damaged(alloc, (40, b"f", b"e"))?);
    assert!(rt; is_damaged(alloc, (20, b"g", b"e"))?);
    assert!(rt; is_damaged(alloc, (20, b"f", b"f"))?);
    Ok(())
}
