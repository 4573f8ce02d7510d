//! The disks of a backup that was down, each turned on and opened.
ghost use Rattle.std.specs.Prelude.{◌≡◌, ◌-◌, false, IfSome, IfOk, IfErr, MatchResult};
ghost use Rattle.rdf_volume.specs.Views.{disk_of};
ghost use Rattle.open_txns.specs.Noted.{all_noted};
ghost use Rattle.image_disks.specs.Spelled.{block_of};
ghost use Rattle.image_disks.specs.Values.{received, kept, merged, listed};
ghost use Rattle.image_trails.specs.Memory.{IsInUse, value_in};
ghost use Rattle.rdf_core.specs.Layouts.{protects};
ghost use Rattle.rdf_backup.specs.Opening.{IsOldTrails, IsShutTrails, IsOldVolume, IsShutVolume};
ghost use Rattle.rdf_backup.specs.Restarting.{is_in_place, IsMisplaced};

use crate::noting::note_since;
use image_trails::ImageTrails;
use node_disks::{NotOpened, Opener};
use open_txns::OpenTxns;
use rdf_disk::Disk;
use rdf_gatelog::LogFault;
use rdf_types::layout::Layout;
use rdf_types::records::Pos;
use rdf_volume::Volume;
use std::alloc::{AllocError, Global};

/// Which positions a backup keeps: those from the first one to below the received one.
#[derive(Clone, Copy, Debug, PartialEq, Eq)]
pub struct Span {
    pub kept: Pos,
    pub received: Pos,
}

/// The disk of the image trails is turned on, and the image trails opened.
#[derive(Drop)]
pub struct OldTrails<'a> {
    pub layout: &'a Layout,
}

impl<'a, D: Disk> Opener<D> for OldTrails<'a> {
    type Open = ImageTrails<D>;

    ghost disk_of = { λ trails. trails.disk };

    ghost ready = { λ o n disk. Unit {0} };

    ghost opens = { λ o n. IsOldTrails D.tells D.files D.counts o.layout.now };

    ghost fails = { λ o n. IsShutTrails D.tells D.files D.counts o.layout.now };

    fn open(&self, alloc: Global, _place: u8, disk: D) -> Result<ImageTrails<D>, NotOpened<D>> {
        open_trails(alloc, disk, self.layout)
    }

    fn close(&self, one: ImageTrails<D>) -> D {
        one.close()
    }
}

/// The disk is turned on, and the image trails opened.
fn open_trails<D: Disk>(
    alloc: Global,
    mut disk: D,
    layout: &Layout,
) -> Result<ImageTrails<D>, NotOpened<D>>
    ensures { MatchResult result (IsOldTrails D.tells D.files D.counts layout.now disk)
        (λ shut. IsShutTrails D.tells D.files D.counts layout.now disk shut.disk shut.fault) }
{
    match disk.restart() {
        Ok(()) => match ImageTrails::mount(alloc, disk, layout) {
            Ok(trails) => Ok(trails),
            Err(shut) => Err(NotOpened {
                disk: shut.disk,
                fault: shut.fault,
            }),
        },
        Err(fault) => Err(NotOpened {
            disk,
            fault: LogFault::from(fault),
        }),
    }
}

/// How many positions lie between, as far as so many entries can be asked for.
fn many_between(from: Pos, upto: Pos) -> Option<u32>
    ensures { IfSome result (λ many. many ≡ upto - from) }
{
    let many = upto.saturating_sub(from);
    if many <= 4_294_967_295 {
        return Some(many as u32);
    }
    None
}

/// The open transactions of what image trails keep.
pub fn open_ones<D: Disk>(alloc: Global, trails: &ImageTrails<D>) -> Result<OpenTxns, AllocError>
    ensures { D.tells → IsInUse block_of trails.now.memory (D.files trails.now.disk)
        → IfOk result (λ txns. txns ≡ all_noted (listed (merged (value_in trails.now.memory)) (kept (value_in trails.now.memory)) (received (value_in trails.now.memory) - kept (value_in trails.now.memory)))) }
{
    let from = trails.kept();
    let Some(most) = many_between(from, trails.received()) else {
        return Err(AllocError);
    };
    let entries = trails.merged(from, most)?;
    let mut txns = OpenTxns::new(alloc);
    note_since(&mut txns, 0, &entries)?;
    Ok(txns)
}

/// A volume's disk is turned on, and the volume opened, whose restart point must be in its place.
#[derive(Drop)]
pub struct OldVolumes<'a> {
    pub layout: &'a Layout,
    pub span: Span,
}

impl<'a, D: Disk> Opener<D> for OldVolumes<'a> {
    type Open = Volume<D>;

    ghost disk_of = { λ volume. disk_of volume };

    ghost ready = { λ o n disk. Unit {0} };

    ghost opens = { λ o. IsOldVolume D.tells D.files D.counts o.layout.now };

    ghost fails = { λ o. IsShutVolume D.tells D.files D.counts o.layout.now o.span.kept o.span.received };

    fn open(&self, alloc: Global, place: u8, disk: D) -> Result<Volume<D>, NotOpened<D>> {
        open_volume(alloc, self.layout, self.span, place, disk)
    }

    fn close(&self, one: Volume<D>) -> D {
        one.close()
    }
}

/// The disk of that volume is turned on, and the volume opened.
fn open_volume<D: Disk>(
    alloc: Global,
    layout: &Layout,
    span: Span,
    vol: u8,
    mut disk: D,
) -> Result<Volume<D>, NotOpened<D>>
    ensures { MatchResult result (IsOldVolume D.tells D.files D.counts layout.now vol disk)
        (λ shut. IsShutVolume D.tells D.files D.counts layout.now span.kept span.received vol disk shut.disk shut.fault) }
{
    match disk.restart() {
        Ok(()) => match Volume::mount(alloc, disk) {
            Ok(volume) => placed(volume, is_protected(layout, vol as usize), span),
            Err(shut) => Err(NotOpened {
                disk: shut.disk,
                fault: shut.fault,
            }),
        },
        Err(fault) => Err(NotOpened {
            disk,
            fault: LogFault::from(fault),
        }),
    }
}

/// A volume that is open, unless its restart point is out of its place.
fn placed<D: Disk>(
    volume: Volume<D>,
    protected: bool,
    span: Span,
) -> Result<Volume<D>, NotOpened<D>>
    ensures ok { IfOk result (λ same. same ≡ volume) }
    ensures err { IfErr result (λ shut. IsMisplaced protected span.kept span.received volume shut.disk shut.fault) }
{
    if stands_in_place(protected, span, volume.restart_point()) {
        return Ok(volume);
    }
    let file = volume.file_number();
    Err(NotOpened {
        disk: volume.close(),
        fault: LogFault::Damaged { file, at: 0 },
    })
}

/// Whether a restart point is where a volume's may be: that of a volume that is protected stands on what is kept, and any other at 0.
fn stands_in_place(protected: bool, span: Span, at: Pos) -> bool
    ensures { result ≡ is_in_place protected span.kept span.received at }
{
    if protected {
        return span.kept <= at && at <= span.received;
    }
    at == 0
}

/// Whether the volume is protected.
fn is_protected(layout: &Layout, vol: usize) -> bool
    ensures { result ≡ protects layout.now vol }
{
    match layout.protect.flags().get(vol) {
        Some(flag) => *flag,
        None => false,
    }
}
