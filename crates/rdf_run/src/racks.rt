//! How a call ended.
use crate::status::Status;
use rdf_system::Racks;

/// How a call ended, with every disk in its place.
#[derive(Debug, Drop)]
pub struct Ended<D> {
    pub status: Status,
    pub racks: Racks<D>,
}
