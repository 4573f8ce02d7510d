//! What an updater notes on the board.
use image_board::{Note, Remembered};
use rdf_disk::Disk;
use rdf_types::records::{Pos, VolNo};
use rdf_volume::Volume;

/// A volume as it was seen in a turn on it, which met no fault, with its restart point.
#[derive(Drop)]
pub struct SeenVolume<D: Disk> {
    pub volume: Remembered<Volume<D>>,
    pub point: Pos,
}

/// A note on a volume of a session: as it went into the session, or as its updater last left it, or nothing where that was
/// taken away.
#[derive(Drop)]
pub struct VolumeNote<D: Disk> {
    pub vol: VolNo,
    pub seen: Option<SeenVolume<D>>,
}

impl<D: Disk> Note for VolumeNote<D> {
    ghost use Rattle.updaters.specs.Rising.{Fits};
    ghost use Rattle.updaters.specs.RiseLaws.{fits_itself, fits_later};

    ghost fits = { Fits D.tells D.files D.counts };

    ghost begins = { fits_itself D.tells D.files D.counts };

    ghost lasts = { fits_later D.tells D.files D.counts };
}
