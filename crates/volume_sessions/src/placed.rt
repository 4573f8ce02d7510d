//! Volumes on their way into a session and out of it.
use rdf_disk::Disk;
use rdf_types::records::VolNo;
use rdf_volume::{VolFault, Volume};

/// A volume that goes into a session, with its number.
#[derive(Drop)]
pub struct Placed<D: Disk> {
    pub vol: VolNo,
    pub volume: Volume<D>,
}

/// A volume that comes out of a session, and what came of it.
#[derive(Drop)]
pub struct Left<D: Disk> {
    pub volume: Volume<D>,
    pub answer: Result<(), VolFault>,
}

/// There was no memory, and no updater was started: the volumes come back as they were, and what was to be driven.
#[derive(Drop)]
pub struct NotBegun<D: Disk, I> {
    pub volumes: Vec<Placed<D>>,
    pub inside: I,
}
