//! A checkpoint: all rows as the base of a new file, in place of the old file. Memory holds a block of them at a time.
ghost use Rattle.std.specs.Prelude.{true, ◌<◌, ◌-◌, ◌^◌};
ghost use Rattle.rdf_volume.specs.Calls.{Checkpoints, is_due};
ghost use Rattle.rdf_volume.specs.Views.{batches_of, file_of, InUse};

use crate::next_base::{drop_old, next_base};
use crate::volume::{VolFault, Volume};
use rdf_disk::Disk;

impl<D: Disk> Volume<D> {
    /// Writes all rows into the file with the next number, and removes the old file. After an `Err` the disk durably
    /// stands for the same.
    pub fn checkpoint(&mut self) -> Result<(), VolFault>
        requires numbered { file_of self.old < 2 ^ 32 - 2 }
        requires in_use { D.tells → InUse D.files self.old }
        ensures { Checkpoints D.tells D.files D.counts true self.old result self.new }
    {
        let old = self.log.file();
        let (log, index) = next_base(
            self.alloc,
            &mut self.disk,
            &self.log,
            &self.table,
            self.restart,
        )?;
        drop_old(&mut self.disk, old)?;
        self.log = log;
        self.table.rest_on(self.alloc, index);
        self.batches = 0;
        Ok(())
    }

    /// Writes a volume anew that has had so many batches, unless the numbers of its files are used up.
    pub fn checkpoint_from(&mut self, least: u32) -> Result<(), VolFault>
        requires in_use { D.tells → InUse D.files self.old }
        ensures { Checkpoints D.tells D.files D.counts (is_due least (file_of self.old) (batches_of self.old)) self.old result self.new }
    {
        if self.batches < least || self.log.file() >= u32::MAX - 1 {
            return Ok(());
        }
        self.checkpoint()
    }
}
