//! A volume's images, a piece at a time.
ghost use Rattle.std.specs.Prelude.{◌≡◌, ◌≤◌, ◌<◌, true, length, take, IfOk};
ghost use Rattle.rdf_model.specs.Window.{is_image_on};
ghost use Rattle.image_board.specs.Entries.{own};

use rdf_types::records::{Pos, Record, Stamped, VolNo};
use std::alloc::{AllocError, Global};

/// Some images of a volume: all those from where they were asked for to below `upto`, and whether the board has, and will
/// have, nothing behind them.
#[derive(Drop)]
pub struct Piece {
    pub images: Vec<Stamped>,
    pub upto: Pos,
    pub ended: bool,
}

/// The first images of the volume, so many at the most, and how many entries they are among.
pub(crate) fn next_images(
    alloc: Global,
    entries: &[Stamped],
    vol: VolNo,
    most: u32,
) -> Result<(Vec<Stamped>, usize), AllocError>
    ensures within { IfOk result (λ found. found.1 ≤ length entries.now) }
    ensures images { IfOk result (λ found. found.0.items ≡ own vol (take found.1 entries.now)) }
    ensures few { IfOk result (λ found. length found.0.items ≤ most) }
    ensures all { IfOk result (λ found. length found.0.items < most → found.1 ≡ length entries.now) }
{
    let mut images = Vec::new(alloc);
    for (i, entry) in entries.iter().enumerate() {
        if images.len() == most as usize {
            return Ok((images, i));
        }
        if is_own(&entry.rec, vol) {
            let rec = entry.rec.try_clone()?;
            images.push(Stamped {
                pos: entry.pos,
                rec,
            })?;
        }
    }
    Ok((images, entries.len()))
}

/// Whether the board is finished and all was gone over.
pub(crate) fn is_over(finished: bool, gone_over: usize, count: usize) -> bool
    ensures yes { result ≡ true → (finished ≡ true) × (gone_over ≡ count) }
    ensures no { finished ≡ true → gone_over ≡ count → result ≡ true }
{
    finished && gone_over == count
}

/// Whether it is an image of a place on the volume.
fn is_own(rec: &Record, vol: VolNo) -> bool
    ensures { result ≡ is_image_on vol rec.now }
{
    match rec {
        Record::Image { vol: on, .. } => *on == vol,
        Record::Commit { .. } => false,
        Record::Abort { .. } => false,
    }
}
