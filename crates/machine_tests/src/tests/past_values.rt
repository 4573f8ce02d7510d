ghost use Rattle.rdf_machine.specs.Index.{IsIndexOf};

use rdf_machine::index::TrailIndex;
use rdf_model::files::Files;
use rdf_model::plain::raw_of;
use rdf_types::names::{FileName, Key, NameFault, Value};
use rdf_types::records::{Pos, RecKey, Record, TxnId, VolNo};
use std::alloc::{AllocError, Global};
use std::test::Fail;

fn place(alloc: Global, vol: u8, key: &[u8]) -> Result<RecKey, NameFault> {
    let file = FileName::read(alloc, b"f")?;
    let key = Key::read(alloc, key)?;
    Ok(RecKey {
        vol: VolNo(vol % 16),
        file,
        key,
    })
}

// An image that leaves the value, or none where it is empty.
fn image(alloc: Global, vol: u8, key: &[u8], after: &[u8]) -> Result<Record, NameFault> {
    let place = place(alloc, vol, key)?;
    let after = if_any(alloc, after)?;
    Ok(Record::Image {
        txn: TxnId(1),
        vol: place.vol,
        file: place.file,
        key: place.key,
        before: None,
        after,
    })
}

fn if_any(alloc: Global, after: &[u8]) -> Result<Option<Value>, NameFault> {
    if after.len() == 0 {
        return Ok(None);
    }
    Ok(Some(Value::read(alloc, after)?))
}

// Images of three places, and outcomes between them.
const IMAGES: &[(u8, &[u8], &[u8])] = &[
    (0, b"k", b"1"),
    (0, b"j", b"2"),
    (1, b"k", b"3"),
    (0, b"k", b"4"),
    (0, b"k", b""),
    (1, b"k", b"5"),
    (0, b"k", b"6"),
];

fn trail_of(alloc: Global) -> Result<Vec<Record>, Fail> {
    let mut trail = Vec::new(alloc);
    for (vol, key, after) in IMAGES {
        trail.push(image(alloc, *vol, key, after)?)?;
        trail.push(Record::Commit { txn: TxnId(1) })?;
    }
    Ok(trail)
}

fn is_same(found: &Option<Value>, wanted: Option<&Value>) -> bool {
    match (found, wanted) {
        (None, None) => true,
        (Some(found), Some(wanted)) => found == wanted,
        _ => false,
    }
}

// The records before the position.
fn first_of(trail: &[Record], upto: Pos) -> &[Record] {
    if upto < trail.len() as u64 {
        &trail[..upto as usize]
    } else {
        trail
    }
}

// Whether the index finds what the plain program shows.
fn agrees(
    alloc: Global,
    index: &mut TrailIndex,
    trail: &[Record],
    upto: Pos,
    key: &RecKey,
) -> Result<bool, AllocError>
    requires { IsIndexOf trail.now index.old }
    ensures { IsIndexOf trail.now index.new }
{
    let plain = raw_of(&Files::new(alloc), first_of(trail, upto))?;
    let found = index.value_at(trail, upto, key)?;
    Ok(is_same(&found, plain.get(key)))
}

const LENGTHS: &[Pos] = &[5, 0, 1, 2, 3, 4, 9, 6, 7, 8, 20, 12, 13, 14];

// How many values at a place are found as the plain program shows them.
fn count_agreed(
    alloc: Global,
    index: &mut TrailIndex,
    trail: &[Record],
    key: &RecKey,
) -> Result<u32, AllocError>
    requires { IsIndexOf trail.now index.old }
    ensures { IsIndexOf trail.now index.new }
{
    let mut count: u32 = 0;
    for upto in LENGTHS {
        if agrees(alloc, index, trail, *upto, key)? {
            count = count.saturating_add(1);
        }
    }
    Ok(count)
}

#[test]
fn values_as_the_plain_program_shows_them(rt: HostRuntime) -> Result<(), Fail> {
    let trail = trail_of(rt.alloc())?;
    for (vol, key) in [(0, b"k"), (0, b"j"), (1, b"k"), (1, b"z")] {
        let key = place(rt.alloc(), vol, key)?;
        let mut index = TrailIndex::new(rt.alloc());
        let count = count_agreed(rt.alloc(), &mut index, &trail, &key)?;
        assert_eq!(rt; count, 14);
    }
    Ok(())
}

// Images of one place that leave `a` and `b` in turn.
fn turns(alloc: Global, count: u32) -> Result<Vec<Record>, Fail> {
    let mut trail = Vec::new(alloc);
    for turn in 0..count {
        let after = if turn % 2 == 0 { b"a" } else { b"b" };
        trail.push(image(alloc, 0, b"k", after)?)?;
    }
    Ok(trail)
}

fn is_value(found: &Option<Value>, wanted: &[u8]) -> bool {
    match found {
        None => false,
        Some(value) => value.bytes() == wanted,
    }
}

// How many of the values are the ones that the turns left.
fn count_right(
    index: &mut TrailIndex,
    trail: &[Record],
    key: &RecKey,
    count: u64,
) -> Result<u32, AllocError>
    requires { IsIndexOf trail.now index.old }
{
    let mut right: u32 = 0;
    for upto in 1..count {
        let wanted = if upto % 2 == 1 { b"a" } else { b"b" };
        let found = index.value_at(trail, upto, key)?;
        if is_value(&found, wanted) {
            right = right.saturating_add(1);
        }
    }
    Ok(right)
}

// As many values of the past as there are records.
#[test]
fn many_values(rt: HostRuntime) -> Result<(), Fail> {
    let trail = turns(rt.alloc(), 20_000)?;
    let key = place(rt.alloc(), 0, b"k")?;
    let mut index = TrailIndex::new(rt.alloc());
    let right = count_right(&mut index, &trail, &key, 20_001)?;
    assert_eq!(rt; right, 20_000);
    Ok(())
}
