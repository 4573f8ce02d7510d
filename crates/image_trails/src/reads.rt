//! What is read of image trails, from memory.
ghost use Rattle.std.specs.Prelude.{◌≡◌, ◌<◌, ◌-◌, ◌^◌, min, take, length, map, slice_get, IfOk};
ghost use Rattle.rdf_types.specs.Entries.{RiseFrom};
ghost use Rattle.image_disks.specs.Values.{received, kept, merged, listed};
ghost use Rattle.image_trails.specs.Trails.{AreInUse, trails_value};

use crate::lending::{copies_of, lend};
use crate::lists::gather;
use crate::trails::ImageTrails;
use rdf_disk::Disk;
use rdf_types::records::{Pos, Stamped};
use std::alloc::AllocError;

impl<D: Disk> ImageTrails<D> {
    /// The entries of one trail from a position on and below the received one, at most so many.
    pub fn records(&self, trail: u8, from: Pos, most: u32) -> Result<Vec<Stamped>, AllocError>
        requires { trail < 4 }
        ensures { D.tells → AreInUse D.files self.now
            → IfOk result (λ entries. entries.items ≡ take most (listed ((trails_value self.now).entry trail) from (received (trails_value self.now) - from))) }
    {
        gather(
            self.alloc,
            &self.memory.entries,
            trail as usize,
            from,
            self.memory.tops[0],
            most,
        )
    }

    /// The entries of all trails from a position on and below the received one, by position, at most so many.
    /// Of two at one position the one of the lower trail alone is among them.
    pub fn merged(&self, from: Pos, most: u32) -> Result<Vec<Stamped>, AllocError>
        ensures { D.tells → AreInUse D.files self.now
            → IfOk result (λ entries. entries.items ≡ take most (listed (merged (trails_value self.now)) from (received (trails_value self.now) - from))) }
    {
        let lent = lend(
            self.alloc,
            &self.memory.entries,
            from,
            self.memory.tops[0],
            most as usize,
        )?;
        copies_of(self.alloc, &lent)
    }

    /// The same entries, all of them, lent where they are in memory.
    pub fn lent(&self, from: Pos) -> Result<Vec<&Stamped>, AllocError>
        ensures rising { IfOk result (λ entries. RiseFrom 0 (map (λ s. s.now) entries.items)) }
        ensures entries { D.tells → AreInUse D.files self.now → IfOk result
            (λ entries. map (λ s. s.now) entries.items ≡ listed (merged (trails_value self.now)) from (received (trails_value self.now) - from)) }
    {
        lend(
            self.alloc,
            &self.memory.entries,
            from,
            self.memory.tops[0],
            usize::MAX,
        )
    }

    /// Where the first generation starts. Nothing below is kept.
    pub fn kept(&self) -> Pos
        ensures { result ≡ kept (trails_value self.now) }
    {
        match self.memory.generations.front() {
            Some(generation) => generation.start,
            None => 0,
        }
    }

    /// Where the second generation starts.
    pub fn second_start(&self) -> Option<Pos>
        ensures { result ≡ slice_get (trails_value self.now).starts 1 }
    {
        match self.memory.generations.get(1) {
            Some(generation) => Some(generation.start),
            None => None,
        }
    }

    /// How many generations there are, or 4,294,967,295 where there are more.
    pub fn generations(&self) -> u32
        ensures { result ≡ min (length (trails_value self.now).starts) (2 ^ 32 - 1) }
    {
        u32::try_from(self.memory.generations.len()).unwrap_or(u32::MAX)
    }
}
