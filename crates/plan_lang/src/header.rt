//! The header of a plan.

/// What the header says. Of the two arrays the first entries count, one for each volume.
#[derive(Clone, Copy)]
pub struct Header {
    pub backups: u8,
    pub volumes: u8,
    pub trails: [u8; 16],
    pub protect: [u8; 16],
    pub extent: u32,
    pub retain: u32,
}
