//! How far a run over a plan's lines went.
use crate::run_fault::RunFault;
use rdf_disk::Disk;
use rdf_system::System;

/// A system behind lines that were performed on it: whether the run goes on, and then how many were answered with their replies out.
#[derive(Drop)]
pub struct Performed<D: Disk> {
    pub system: System<D>,
    pub answered: usize,
    pub ended: Result<(), RunFault>,
}
