//! A case as data: a plan, how it is performed, and what must come of it.
use memory_folder::Loss;
use rdf_disk::Tear;
use rdf_types::records::Node;

/// A disk of a node.
#[derive(Clone, Copy, Debug, PartialEq, Eq)]
pub struct Place {
    pub node: Node,
    pub disk: u8,
}

/// A case, or a table of cases.
#[derive(Drop)]
pub struct Row {
    pub setting: Setting,
    pub lines: Vec<PlanLine>,
    pub ending: Ending,
    pub kind: Kind,
    pub table: Table,
}

/// What a run's disks are: in memory, or over folders in memory, which a loss of power leaves so.
#[derive(Clone, Copy, Debug, PartialEq, Eq)]
pub enum Over {
    Memory,
    Folders(Loss),
}

/// What the disks are, and what they are in the row's other turns; the words, the calls at which the source and the sink fail, the disks that differ from blank ones, and how the plan's text ends.
#[derive(Drop)]
pub struct Setting {
    pub over: Over,
    pub turns: Vec<Over>,
    pub words: Vec<String>,
    pub reads: Vec<u64>,
    pub writes: Vec<u64>,
    pub disks: Vec<GivenDisk>,
    pub tail: Tail,
}

/// A disk as it is handed in.
#[derive(Drop)]
pub struct GivenDisk {
    pub place: Place,
    pub gift: Gift,
}

/// What a disk is handed in with: calls that fail, a fuse, or a file.
#[derive(Drop)]
pub enum Gift {
    Fails(Vec<u64>),
    Fuse { calls: u32, tear: Tear },
    File,
}

/// How the plan's text ends: with the end of its last line, without it, or with more bytes in that line, up to so many in all.
#[derive(Clone, Copy, Debug, PartialEq, Eq)]
pub enum Tail {
    Ended,
    Unended,
    Padded(usize),
}

/// A line of the plan, perhaps with a byte behind its text, how often it stands there, and the replies that must come next. In a table of stops at each line, what a restart may answer after a stop in it.
#[derive(Drop)]
pub struct PlanLine {
    pub text: String,
    pub byte: Option<u8>,
    pub times: u32,
    pub replies: Vec<Reply>,
    pub agains: Vec<Again>,
}

/// What must be written next: a line, or one of several lists of lines.
#[derive(Drop)]
pub enum Reply {
    Line(String),
    OneOf(Vec<Branch>),
}

/// Lines that may be written, where the number of a name lies within a range.
#[derive(Drop)]
pub struct Branch {
    pub guard: Option<Guard>,
    pub lines: Vec<String>,
}

/// The name of a number, and the range in which it must lie, as `low-high`.
#[derive(Drop)]
pub struct Guard {
    pub name: String,
    pub range: String,
}

/// The reply to a restart, and then the replies to the line that is given again.
#[derive(Drop)]
pub struct Again {
    pub restart: String,
    pub replies: Vec<Reply>,
}

/// How a run must end: its status, what is said of it, and what files of disks then hold.
#[derive(Drop)]
pub struct Ending {
    pub status: u8,
    pub said: String,
    pub held: Vec<HeldFile>,
}

/// The bytes that a file of a disk must hold.
#[derive(Drop)]
pub struct HeldFile {
    pub place: Place,
    pub file: u32,
    pub bytes: Vec<u8>,
}

/// One run; stops at the line of that number; stops at each line from that number on; each write fails; each call of the listed disks fails.
#[derive(Clone, Copy, Debug, PartialEq, Eq)]
pub enum Kind {
    Single,
    StopsAt(usize),
    StopsFrom(usize),
    EachWrite,
    EachCall,
}

/// The nodes, disks and tears of a table of stops, the disk that has a second fuse, and the replies to a line that a stop cuts off; the disks whose calls fail, and the number of a line that makes some of these calls.
#[derive(Drop)]
pub struct Table {
    pub nodes: Vec<Node>,
    pub disks: Vec<u8>,
    pub second: Option<u8>,
    pub tears: Vec<Tear>,
    pub stopped: Vec<Reply>,
    pub failing: Vec<Place>,
    pub fault: Option<usize>,
}
