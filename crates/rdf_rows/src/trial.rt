//! One run over disks in memory, or over folders in memory that may lose power.
ghost use Rattle.std.specs.Prelude.{◌≡◌, length, IfOk};
ghost use Rattle.rdf_system.specs.Place.{IsFull};

use crate::row::{Gift, GivenDisk, Over, Place};
use memory_folder::{Loss, Supply};
use powered_disk::PoweredDisk;
use rdf_disk::{Disk, MemDisk};
use rdf_ports::{MemSink, MemSource, NoGate};
use rdf_run::{Ended, Racks, Status, run_rdf};
use rdf_types::records::Node;
use std::alloc::{AllocError, Global};
use std::sync::Wait;
use std::thread::Threads;

/// How many bytes a folder takes or gives in one call at most.
const PIECE: usize = 64;

/// What a run is made with: the words, the plan's text, and the calls at which the source and the sink fail.
#[derive(Drop)]
pub struct Given<'a> {
    pub words: &'a [String],
    pub plan: &'a [u8],
    pub reads: &'a [u64],
    pub writes: &'a [u64],
}

/// The racks of a run.
#[derive(Drop)]
pub enum AnyRacks {
    Memory(Racks<MemDisk>),
    Folders(Racks<PoweredDisk>),
}

/// How a run ended, what was written, and the disks.
#[derive(Drop)]
pub struct Trial {
    pub status: Status,
    pub written: Vec<u8>,
    pub racks: AnyRacks,
}

/// Performs a run over blank racks but for these disks.
pub fn perform<R: Threads + Wait + Sync>(
    rt: &R,
    alloc: Global,
    given: &Given<'_>,
    over: Over,
    disks: &[GivenDisk],
) -> Result<Trial, AllocError> {
    match over {
        Over::Memory => {
            let racks = racks_with::<MemDisk>(alloc, disks, Loss::Lose)?;
            let (status, written, racks) = perform_over(rt, alloc, given, racks)?;
            let racks = AnyRacks::Memory(racks);
            Ok(Trial {
                status,
                written,
                racks,
            })
        }
        Over::Folders(loss) => {
            let racks = racks_with::<PoweredDisk>(alloc, disks, loss)?;
            let (status, written, racks) = perform_over(rt, alloc, given, racks)?;
            let racks = AnyRacks::Folders(racks);
            Ok(Trial {
                status,
                written,
                racks,
            })
        }
    }
}

fn perform_over<R: Threads + Wait + Sync, D: Disk + Drop + Send>(
    rt: &R,
    alloc: Global,
    given: &Given<'_>,
    racks: Racks<D>,
) -> Result<(Status, Vec<u8>, Racks<D>), AllocError>
    requires { IsFull racks }
{
    let bytes = Vec::from_slice(alloc, given.plan)?;
    let mut source = MemSource::new(bytes, Vec::from_slice(alloc, given.reads)?);
    let mut sink = MemSink::new(alloc, Vec::from_slice(alloc, given.writes)?);
    let Ended { status, racks } = run_rdf(
        rt,
        alloc,
        given.words,
        &mut source,
        &mut sink,
        racks,
        &NoGate,
    );
    let written = Vec::from_slice(alloc, sink.written())?;
    Ok((status, written, racks))
}

/// A disk that rows are performed over.
trait RowDisk: Disk + Drop + Send {
    /// A disk without files, which fails at its calls of these numbers. One over a folder counts the
    /// calls of the system, has its node's power, and loses it in this way.
    fn blank_with(
        alloc: Global,
        supply: &Supply,
        fails: Vec<u64>,
        loss: Loss,
    ) -> Result<Self, AllocError>;
}

impl RowDisk for MemDisk {
    fn blank_with(
        alloc: Global,
        _supply: &Supply,
        fails: Vec<u64>,
        _loss: Loss,
    ) -> Result<MemDisk, AllocError> {
        Ok(MemDisk::blank(alloc, fails))
    }
}

impl RowDisk for PoweredDisk {
    fn blank_with(
        alloc: Global,
        supply: &Supply,
        fails: Vec<u64>,
        loss: Loss,
    ) -> Result<PoweredDisk, AllocError> {
        PoweredDisk::blank(alloc, supply.beside()?, fails, PIECE, loss)
    }
}

/// Blank racks but for these disks.
fn racks_with<D: RowDisk>(
    alloc: Global,
    disks: &[GivenDisk],
    loss: Loss,
) -> Result<Racks<D>, AllocError>
    ensures { IfOk result IsFull }
{
    let primary = disks_of(alloc, Node::A, disks, loss)?;
    let mut backups = Vec::new(alloc);
    backups.push(disks_of(alloc, Node::B, disks, loss)?)?;
    backups.push(disks_of(alloc, Node::C, disks, loss)?)?;
    Ok(Racks { primary, backups })
}

fn disks_of<D: RowDisk>(
    alloc: Global,
    node: Node,
    given: &[GivenDisk],
    loss: Loss,
) -> Result<Vec<D>, AllocError>
    ensures { IfOk result (λ disks. length disks.items ≡ 17) }
{
    let supply = Supply::new(alloc)?;
    let mut disks = Vec::new(alloc);
    for disk in 0..17u8 {
        let made = disk_of(alloc, &supply, Place { node, disk }, given, loss)?;
        disks.push(made)?;
    }
    Ok(disks)
}

fn disk_of<D: RowDisk>(
    alloc: Global,
    supply: &Supply,
    place: Place,
    given: &[GivenDisk],
    loss: Loss,
) -> Result<D, AllocError> {
    let mut disk = D::blank_with(alloc, supply, fails_at(alloc, place, given)?, loss)?;
    for one in given {
        if one.place == place {
            give(&mut disk, &one.gift);
        }
    }
    Ok(disk)
}

// The calls at which a disk fails.
fn fails_at(alloc: Global, place: Place, given: &[GivenDisk]) -> Result<Vec<u64>, AllocError> {
    let mut fails = Vec::new(alloc);
    for one in given {
        if let Gift::Fails(calls) = &one.gift {
            if one.place == place {
                fails.extend_from_slice(calls)?;
            }
        }
    }
    Ok(fails)
}

fn give<D: Disk>(disk: &mut D, gift: &Gift) {
    match gift {
        Gift::Fails(_) => (),
        Gift::Fuse { calls, tear } => disk.fuse(*calls, *tear),
        Gift::File => {
            let _ = disk.write(3, 0, b"x");
        }
    }
}

/// The disk at a place.
pub fn disk_at<D>(racks: &mut Racks<D>, place: Place) -> Option<&mut D> {
    let number = usize::from(place.disk);
    match place.node {
        Node::A => racks.primary.get_mut(number),
        Node::B => racks.backups.get_mut(0)?.get_mut(number),
        Node::C => racks.backups.get_mut(1)?.get_mut(number),
    }
}
