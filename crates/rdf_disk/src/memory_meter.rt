//! The counts of a disk in memory, and which of its calls stop or fail.
ghost use Rattle.std.specs.Prelude.{◌≡◌};

use crate::fault::Tear;

/// After that many more counted calls the next one stops.
#[derive(Clone, Copy)]
pub struct Fuse {
    pub left: u32,
    pub tear: Tear,
}

/// What becomes of a counted call.
#[derive(Clone, Copy)]
pub enum Turn {
    Go,
    Fail,
    Stop(Tear),
    Off,
}

/// The counts. `calls` is how many counted calls came while the disk was on, and `fails` has the
/// numbers of those that are to fail.
#[derive(Drop)]
pub struct Meter {
    pub faults: u64,
    pub stops: u64,
    pub fuses: u64,
    pub off: bool,
    pub calls: u64,
    pub fuse: Option<Fuse>,
    pub fails: Vec<u64>,
}

impl Meter {
    ghost use Rattle.rdf_disk.specs.declared.memory_meter.Turn.TheVariants.{Go};
    ghost use Rattle.rdf_disk.specs.MemoryMeters.{turn_of, counted, with_fuse, blank_meter};

    /// Nothing has come yet.
    pub fn new(fails: Vec<u64>) -> Meter
        ensures { result ≡ blank_meter fails }
    {
        Meter {
            faults: 0,
            stops: 0,
            fuses: 0,
            off: false,
            calls: 0,
            fuse: None,
            fails,
        }
    }

    /// What becomes of the next counted call, which isn't counted yet.
    pub fn turn(&self) -> Turn
        ensures { result ≡ turn_of self.now }
    {
        if self.off {
            return Turn::Off;
        }
        if let Some(fuse) = self.fuse {
            if fuse.left == 0 {
                return Turn::Stop(fuse.tear);
            }
        }
        if self.fails.contains(&self.calls) {
            return Turn::Fail;
        }
        Turn::Go
    }

    /// Counts a call.
    pub fn count(&mut self, turn: Turn)
        ensures { self.new ≡ counted turn self.old }
    {
        match turn {
            Turn::Off => {}
            Turn::Go => self.count_one(),
            Turn::Fail => {
                self.count_one();
                self.faults = self.faults.saturating_add(1);
            }
            Turn::Stop(_) => {
                self.count_one();
                self.fuse = None;
                self.stops = self.stops.saturating_add(1);
                self.off = true;
            }
        }
    }

    fn count_one(&mut self)
        ensures { self.new ≡ counted Go self.old }
    {
        self.calls = self.calls.saturating_add(1);
        if let Some(fuse) = self.fuse {
            self.fuse = Some(Fuse {
                left: fuse.left.saturating_sub(1),
                tear: fuse.tear,
            });
        }
    }

    /// Sets a fuse, in the place of an earlier one.
    pub fn set_fuse(&mut self, calls: u32, tear: Tear)
        ensures { self.new ≡ with_fuse calls tear self.old }
    {
        self.fuses = self.fuses.saturating_add(1);
        self.fuse = Some(Fuse { left: calls, tear });
    }
}
