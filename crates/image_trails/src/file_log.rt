//! The log of one file, as it was opened.
ghost use Rattle.std.specs.Prelude.{◌≡◌, ◌<◌, ◌^◌, length};
ghost use Rattle.rdf_gatelog.specs.Log.{open_blocks, payloads_of};

/// The log of a file: its payloads, and where its blocks end.
#[derive(Drop)]
pub struct FileLog {
    pub end: u64,
    pub payloads: Vec<Vec<u8>>,
    ghost ends_there: { end ≡ length (open_blocks (payloads_of payloads)) },
    ghost small: { end < 2 ^ 64 },
}

/// The logs of a disk's files from a number on, which is that of a master.
#[derive(Drop)]
pub struct DiskFiles {
    pub base: u32,
    pub logs: Vec<Option<FileLog>>,
}
