//! The disks of a node, opened one after the other: the first one, and then those of the volumes.
ghost use Rattle.std.specs.Prelude.{◌≡◌, ◌+◌, ◌<◌, ◌≤◌, ℕ, List, [], ◌∷◌, ◌++◌, length, map, slice_get, IfSome, None, IfOk, IfErr, MatchResult, vec_len, vec_capacity};
ghost use Rattle.rdf_gatelog.specs.declared.fault.LogFault.{LogFault as AnyFault};
ghost use Rattle.node_disks.specs.Opening.{AreOpened, HasBegun, HasNotBegun, IsRoom};

use node_faults::{NodeFault, Shut, at_disk};
use rdf_disk::Disk;
use rdf_gatelog::LogFault;
use std::alloc::{AllocError, Global};

/// A disk that could not be opened, and why.
#[derive(Drop)]
pub struct NotOpened<D: Disk> {
    pub disk: D,
    pub fault: LogFault,
}

/// How a disk is opened.
pub trait Opener<D: Disk> {
    /// What a disk is once it is open.
    type Open;

    // The disk below what is open.
    ghost disk_of: { Self.Open → D };

    // What a disk is opened from, by its place among those that are opened so.
    ghost ready: { Self → ℕ → D → Type 0 };

    // How a disk goes with what it was opened as.
    ghost opens: { Self → ℕ → D → Self.Open → Type 0 };

    // How a disk goes with the one that comes back, and with the fault.
    ghost fails: { Self → ℕ → D → D → AnyFault → Type 0 };

    /// Opens the disk of that place.
    fn open(&self, alloc: Global, place: u8, disk: D) -> Result<Self::Open, NotOpened<D>>
        requires few { place < 16 }
        requires ready { ready self.now place disk }
        ensures { MatchResult result (λ one. opens self.now place disk one) (λ shut. fails self.now place disk shut.disk shut.fault) };

    /// Hands the disk back.
    fn close(&self, one: Self::Open) -> D
        ensures { result ≡ disk_of one };
}

/// What is open, the disks that are not once one could not be opened, and why that was.
#[derive(Drop)]
pub struct Opening<D: Disk, V> {
    pub opened: Vec<V>,
    pub left: Vec<D>,
    pub fault: Option<NodeFault>,
}

/// Lists with room for all disks of a node, and for as many that are open.
#[derive(Drop)]
pub struct Rooms<D: Disk, V> {
    pub room: Vec<D>,
    pub opened: Vec<V>,
    pub left: Vec<D>,
}

/// A node's first disk is open, and the others are not yet.
#[derive(Drop)]
pub struct Begun<D: Disk, F, V> {
    pub first: F,
    pub rest: Vec<D>,
    pub rooms: Rooms<D, V>,
}

/// Room for so many disks.
fn room_for<D: Disk + Drop, V: Drop>(alloc: Global, many: usize) -> Result<Rooms<D, V>, AllocError>
    ensures { IfOk result (IsRoom many) }
{
    let room = Vec::with_capacity(alloc, many)?;
    let opened = Vec::with_capacity(alloc, many)?;
    let left = Vec::with_capacity(alloc, many)?;
    Ok(Rooms { room, opened, left })
}

/// Opens the first of a node's disks. After an `Err` all disks come back in their order.
pub fn begin<D: Disk + Drop, F: Opener<D>, V: Drop>(
    opener: &F,
    alloc: Global,
    mut disks: Vec<D>,
) -> Result<Begun<D, F::Open, V>, Shut<D>>
where
    F::Open: Drop,
    requires some { 0 < length disks.items }
    requires ready { IfSome (slice_get disks.items 0) (F.ready opener.now 0) }
    ensures ok { IfOk result (HasBegun (F.opens opener.now 0) disks.items) }
    ensures err { IfErr result (HasNotBegun (F.fails opener.now 0) disks.items) }
{
    let Ok(rooms) = room_for(alloc, disks.len()) else {
        return Err(Shut {
            disks,
            fault: NodeFault::NoMemory,
        });
    };
    let first = disks.remove(0);
    match opener.open(alloc, 0, first) {
        Ok(first) => Ok(Begun {
            first,
            rest: disks,
            rooms,
        }),
        Err(shut) => {
            let Rooms { room, .. } = rooms;
            Err(Shut {
                disks: with_first(shut.disk, disks, room),
                fault: at_disk(0, shut.fault),
            })
        }
    }
}

/// The next disk is opened, unless an earlier one had a fault.
fn open_next<D: Disk, O: Opener<D>>(
    opener: &O,
    alloc: Global,
    opening: &mut Opening<D, O::Open>,
    disk: D,
)
    requires few { length opening.old.opened.items < 16 }
    requires room { vec_len opening.old.opened < vec_capacity opening.old.opened }
    requires more_room { vec_len opening.old.left < vec_capacity opening.old.left }
    requires ready { opening.old.fault ≡ None → O.ready opener.now (length opening.old.opened.items) disk }
    ensures opens { (disks : List D)
        → AreOpened (O.opens opener.now) (O.fails opener.now) 0 disks opening.old.opened.items opening.old.left.items opening.old.fault
        → AreOpened (O.opens opener.now) (O.fails opener.now) 0 (disks ++ disk ∷ []) opening.new.opened.items opening.new.left.items opening.new.fault }
    ensures many { length opening.new.opened.items + length opening.new.left.items ≡ length opening.old.opened.items + length opening.old.left.items + 1 }
    ensures capacity { vec_capacity opening.new.opened ≡ vec_capacity opening.old.opened }
    ensures more_capacity { vec_capacity opening.new.left ≡ vec_capacity opening.old.left }
{
    match opening.fault {
        Some(_) => opening.left.push_reserved(disk),
        None => {
            let place = opening.opened.len() as u8;
            match opener.open(alloc, place, disk) {
                Ok(one) => opening.opened.push_reserved(one),
                Err(shut) => {
                    opening.fault = Some(at_disk(place + 1, shut.fault));
                    opening.left.push_reserved(shut.disk);
                }
            }
        }
    }
}

/// Opens the disks behind the first one, in their order, up to the first that can't be opened.
pub fn open_rest<D: Disk + Drop, O: Opener<D>>(
    opener: &O,
    alloc: Global,
    disks: Vec<D>,
    opened: Vec<O::Open>,
    left: Vec<D>,
) -> Opening<D, O::Open>
where
    O::Open: Drop,
    requires few { length disks.items ≤ 16 }
    requires none_yet { (opened.items ≡ []) × (left.items ≡ []) }
    requires room { (length disks.items ≤ vec_capacity opened) × (length disks.items ≤ vec_capacity left) }
    requires ready { (v : ℕ) → IfSome (slice_get disks.items v) (O.ready opener.now v) }
    ensures opens { AreOpened (O.opens opener.now) (O.fails opener.now) 0 disks.items result.opened.items result.left.items result.fault }
    ensures many { length result.opened.items + length result.left.items ≡ length disks.items }
    ensures all { result.fault ≡ None → (result.left.items ≡ []) × (length result.opened.items ≡ length disks.items) }
{
    let mut opening = Opening {
        opened,
        left,
        fault: None,
    };
    for disk in disks {
        open_next(opener, alloc, &mut opening, disk);
    }
    opening
}

/// The first disk, those below what is open, and those that are left, in a list that has room for them.
pub fn handed_back<D: Disk + Drop, O: Opener<D>>(
    opener: &O,
    first: D,
    opening: Opening<D, O::Open>,
    mut room: Vec<D>,
) -> Vec<D>
where
    O::Open: Drop,
    requires empty { vec_len room ≡ 0 }
    requires roomy { length opening.opened.items + length opening.left.items + 1 ≤ vec_capacity room }
    ensures { result.items ≡ first ∷ map O.disk_of opening.opened.items ++ opening.left.items }
{
    let Opening { opened, left, .. } = opening;
    room.push_reserved(first);
    for one in opened {
        room.push_reserved(opener.close(one));
    }
    with_rest(left, room)
}

/// The disks behind those that are there.
fn with_rest<D: Disk + Drop>(left: Vec<D>, mut room: Vec<D>) -> Vec<D>
    requires roomy { vec_len left + vec_len room ≤ vec_capacity room }
    ensures { result.items ≡ room.items ++ left.items }
{
    for disk in left {
        room.push_reserved(disk);
    }
    room
}

/// A first disk and those behind it, in a list that has room for them.
pub fn with_first<D: Disk + Drop>(first: D, left: Vec<D>, mut room: Vec<D>) -> Vec<D>
    requires empty { vec_len room ≡ 0 }
    requires roomy { vec_len left + 1 ≤ vec_capacity room }
    ensures { result.items ≡ first ∷ left.items }
{
    room.push_reserved(first);
    with_rest(left, room)
}
