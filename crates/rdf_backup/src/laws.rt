//! What a shipment is of a trail, what image trails keep of it, and what the disks stand for where a session ended by a fault.
ghost use Rattle.rdf_backup.specs.Parts.{PartIsPart, PartIsWhole, KeptIsPart};
ghost use Rattle.rdf_backup.specs.SessionLaws.{EndsRisen, EndsBroken};

use rdf_disk::Disk;

/// The part of a trail on the protected volumes is what image trails take as the trail's part.
pub fn part_is_part()
    ensures { PartIsPart }
{}

/// A shipment that is the trail's part has just the entries of it.
pub fn part_is_whole()
    ensures { PartIsWhole }
{}

/// What image trails keep of a trail that they hold is its part on the kept positions.
pub fn kept_is_part()
    ensures { KeptIsPart }
{}

/// Where a session ended by a fault, and no line of it met one of the image trails' disk, the disks stand for the backup as
/// it was shown, with its volumes risen.
pub fn ends_risen<D: Disk>()
    ensures { EndsRisen D.Disk D.tells D.files D.counts }
{}

/// Where a delivery or a purge of a session was broken off, the disks stand for the backup as it was shown, with its volumes
/// risen, and for some first ones of the line's durable parts then.
pub fn ends_broken<D: Disk>()
    ensures { EndsBroken D.Disk D.tells D.files D.counts }
{}
