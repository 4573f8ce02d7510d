//! A folder of numbered files, by one call of the system each, and the rules that the system keeps.
ghost use Rattle.std.specs.Prelude.{All, ◌≡◌, ◌≢◌, ◌<◌, ◌≤◌, ◌-◌, ◌^◌, ℕ, [], Bool, false, length, Some, None, Err, IfOk, OnOk, OnErr};
ghost use Rattle.std.specs.Option.{option_map};
ghost use Rattle.rdf_disk.specs.Files.{bytes_of, settled};
ghost use Rattle.rdf_disk.specs.Outcomes.{IsOutcome};
ghost use Rattle.folder_disk.specs.declared.fault.FolderFault.TheVariants.{NotFound, Interrupted};
ghost use Rattle.folder_disk.specs.Names.{Names, Still, ChangesName, AreAll, asked, asked_away, IsAsked, IsAskedAway, Opens, Makes, Fills, Unmakes, Flushes, FlushesData, Enters, lost_by, rested, IsRead, is_wanting, refused_by, missed_by, unfilled_by};

use crate::fault::FolderFault;
use std::alloc::{AllocError, Global};

/// How often a call that a signal interrupts is made, at most.
pub const TRIES: u32 = 64;

/// A folder of numbered files that no other program changes. When the power goes, what `IsLeft` allows
/// is left of each file; within a call, what may be left where that call has failed.
pub trait Folder {
    /// Whether folders of this type tell what they hold. One of the operating system doesn't.
    ghost tells: { Type 0 };

    ghost names: { Self → Names };

    /// Whether a sync was refused. Nothing is told of looks and syncs from then on.
    ghost lost: { Self → Bool };

    /// How many calls the system did not do. One that found no memory is none of them.
    ghost refusals: { Self → ℕ };

    /// The numbers of the files that are there, in any order.
    fn numbers(&mut self, alloc: Global) -> Result<Vec<u32>, FolderFault>
        ensures ok { tells → lost self.old ≡ false → IfOk result (λ all. AreAll all.items (names self.old)) }
        ensures numbered { IfOk result (λ all. All (λ n. n < 2 ^ 32 - 1) all.items) }
        ensures names { tells → Still (names self.old) (names self.new) }
        ensures lost { tells → lost self.new ≡ lost self.old }
        ensures refused { tells → refusals self.new ≡ refused_by result (refusals self.old) };

    /// The length of a file that is there.
    fn len(&mut self, file: u32) -> Result<u64, FolderFault>
        ensures ok { tells → lost self.old ≡ false → IfOk result (λ len. option_map length (names self.old file).file.seen ≡ Some len) }
        ensures none { tells → lost self.old ≡ false → result ≡ Err NotFound → (names self.old file).file.seen ≡ None }
        ensures names { tells → Still (names self.old) (names self.new) }
        ensures lost { tells → lost self.new ≡ lost self.old }
        ensures refused { tells → refusals self.new ≡ missed_by result (refusals self.old) };

    /// One read, of some of what the file has from that place on. One that is interrupted reads nothing.
    fn read(&mut self, file: u32, at: u64, into: &mut [u8]) -> Result<usize, FolderFault>
        ensures ok { tells → lost self.old ≡ false → IfOk result (λ n. IsRead (names self.old file).file.seen at into.old n into.new) }
        ensures none { tells → lost self.old ≡ false → result ≡ Err NotFound → (names self.old file).file.seen ≡ None }
        ensures within { IfOk result (λ n. n ≤ length into.old) }
        ensures kept { tells → result ≡ Err Interrupted → into.new ≡ into.old }
        ensures names { tells → Still (names self.old) (names self.new) }
        ensures lost { tells → lost self.new ≡ lost self.old }
        ensures refused { tells → refusals self.new ≡ refused_by result (refusals self.old) };

    /// Opens a file that is there, for writes and its sync. It stays open until `rest`.
    fn open(&mut self, file: u32) -> Result<(), FolderFault>
        ensures ok { tells → lost self.old ≡ false → Opens result (names self.old file) }
        ensures names { tells → Still (names self.old) (names self.new) }
        ensures lost { tells → lost self.new ≡ lost self.old }
        ensures refused { tells → refusals self.new ≡ missed_by result (refusals self.old) };

    /// Notes that a write is to come, and takes the memory for it. The system is not called.
    fn ask(&mut self, file: u32, at: u64, len: usize) -> Result<(), AllocError>
        requires numbered { file < u32.MAX }
        ensures ok { tells → OnOk result (ChangesName file (names self.old) (names self.new) (asked (names self.old file) at len)) }
        ensures err { tells → OnErr result (Still (names self.old) (names self.new)) }
        ensures lost { tells → lost self.new ≡ lost self.old }
        ensures refused { tells → refusals self.new ≡ refusals self.old };

    /// Opens a file to which a write is to come, and makes it where it is missing. After an `Err` it may be there all the same.
    fn make(&mut self, file: u32) -> Result<(), FolderFault>
        requires numbered { file < u32.MAX }
        requires asked { tells → (names self.old file).file.writes ≢ [] }
        ensures names { tells → Makes result file (names self.old) (names self.new) }
        ensures memory { is_wanting result ≡ false }
        ensures lost { tells → lost self.new ≡ lost self.old }
        ensures refused { tells → refusals self.new ≡ refused_by result (refusals self.old) };

    /// One write, of some first bytes, within a write that was to come. One that writes none of some bytes counts as refused.
    fn write(&mut self, file: u32, at: u64, bytes: &[u8]) -> Result<usize, FolderFault>
        requires numbered { file < u32.MAX }
        requires asked { tells → IsAsked (names self.old file).file.writes at (length bytes.now) }
        requires no_gap { tells → at ≤ length (bytes_of (names self.old file).file.seen) }
        ensures names { tells → Fills result file at bytes.now (names self.old) (names self.new) }
        ensures memory { is_wanting result ≡ false }
        ensures within { IfOk result (λ n. n ≤ length bytes.now) }
        ensures lost { tells → lost self.new ≡ lost self.old }
        ensures refused { tells → refusals self.new ≡ unfilled_by result (length bytes.now) (refusals self.old) };

    /// Notes that a removal is to come, and takes the memory for it. The system is not called.
    fn ask_away(&mut self, file: u32) -> Result<(), AllocError>
        ensures ok { tells → OnOk result (ChangesName file (names self.old) (names self.new) (asked_away (names self.old file))) }
        ensures err { tells → OnErr result (Still (names self.old) (names self.new)) }
        ensures lost { tells → lost self.new ≡ lost self.old }
        ensures refused { tells → refusals self.new ≡ refusals self.old };

    /// Removes a file's entry, and closes the file where it is open.
    fn remove(&mut self, file: u32) -> Result<(), FolderFault>
        requires asked { tells → IsAskedAway (names self.old file).file }
        ensures names { tells → Unmakes result file (names self.old) (names self.new) }
        ensures memory { is_wanting result ≡ false }
        ensures lost { tells → lost self.new ≡ lost self.old }
        ensures refused { tells → refusals self.new ≡ missed_by result (refusals self.old) };

    /// Makes the bytes and the length of an open file durable.
    fn sync_file(&mut self, file: u32) -> Result<(), FolderFault>
        ensures names { tells → Flushes (lost self.old) result file (names self.old) (names self.new) }
        ensures lost { tells → lost self.new ≡ lost_by result (lost self.old) }
        ensures refused { tells → refusals self.new ≡ refused_by result (refusals self.old) };

    /// Makes the bytes of an open file durable where its entry and its length are so already, and nothing of a length.
    fn sync_data(&mut self, file: u32) -> Result<(), FolderFault>
        ensures names { tells → FlushesData (lost self.old) result file (names self.old) (names self.new) }
        ensures lost { tells → lost self.new ≡ lost_by result (lost self.old) }
        ensures refused { tells → refusals self.new ≡ refused_by result (refusals self.old) };

    /// Makes the entries of the folder durable.
    fn sync_entries(&mut self) -> Result<(), FolderFault>
        ensures names { tells → Enters (lost self.old) result (names self.old) (names self.new) }
        ensures lost { tells → lost self.new ≡ lost_by result (lost self.old) }
        ensures refused { tells → refusals self.new ≡ refused_by result (refusals self.old) };

    /// Notes that what is durable is what a read gives, and may close files. The system is not asked to make anything durable.
    fn rest(&mut self)
        ensures names { tells → (m : ℕ) → names self.new m ≡ rested (names self.old m) }
        ensures lost { tells → lost self.new ≡ lost self.old }
        ensures refused { tells → refusals self.new ≡ refusals self.old };

    /// What a read gives is one of what a loss of power may leave.
    ghost sound: { tells → (f : Self) (m : ℕ) → IsOutcome (names f m).file (names f m).file.seen };

    /// File 4,294,967,295 is never there.
    ghost none_last: { tells → (f : Self) → (names f (2 ^ 32 - 1)).file ≡ settled None };
}
