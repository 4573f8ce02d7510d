//! What is printed of each stage.
ghost use Rattle.std.specs.Prelude.{◌≡◌, Ok, IfOk};

use rdf_volume::VolFault;
use std::cell::Cell;
use std::time::Instant;
use std::{fmt, io};

/// Where lines are printed, whether they tell times, and how often the disk was read.
#[derive(Clone, Copy)]
pub struct Report<'a> {
    pub rt: &'a HostRuntime,
    pub times: bool,
    pub reads: &'a Cell<u64>,
}

/// When a stage began, and how often the disk had been read then.
#[derive(Clone, Copy)]
pub struct Begun {
    start: Instant,
    reads: u64,
}

impl<'a> Report<'a> {
    /// A stage that begins now; an error if the system's clock cannot be read.
    pub fn begin(&self) -> io::Result<Begun> {
        let start = Instant::now(self.rt)?;
        Ok(Begun {
            start,
            reads: self.reads.get(),
        })
    }

    /// Prints what a stage took, and gives what came of it.
    pub fn end<T: Drop>(&self, name: &str, begun: Begun, done: Result<T, VolFault>) -> io::Result<T>
        ensures { IfOk result (λ value. done ≡ Ok value) }
    {
        let elapsed = begun.start.elapsed(self.rt)?.as_millis();
        match done {
            Ok(value) => {
                self.line(name, "reads", self.reads.get().saturating_sub(begun.reads))?;
                if self.times {
                    self.line(name, "milliseconds", elapsed)?;
                }
                Ok(value)
            }
            Err(fault) => {
                self.line(name, "fault", fault)?;
                Err(io::Error::other("the volume met a fault"))
            }
        }
    }

    /// Prints one line, as `get reads: 100`.
    pub fn line<T: fmt::Display + Drop>(
        &self,
        stage: &str,
        name: &str,
        value: T,
    ) -> io::Result<()> {
        println!(self.rt; "{stage} {name}: {value}")?;
        Ok(())
    }
}
