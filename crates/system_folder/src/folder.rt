//! A folder of the operating system. A file that is written or read stays open, as long as few others were opened
//! since, and how long one is that was written is known from there on. A call on a file that is open is one call
//! of the system, or none, and names no path; any other file is looked at and opened before. The first call makes
//! and holds the folder; a sync of the entries also syncs the folders above where one was made; a sync that is
//! refused leaves a mark. The room for paths is taken with the folder, and that for a file that is opened before
//! the write to it is noted.
ghost use Rattle.std.specs.Prelude.{◌≡◌, ◌≤◌, ◌<◌, ◌-◌, ◌^◌, All, length, false, IfOk, IfSome};
ghost use Rattle.std.specs.String.{string_bytes};
ghost use Rattle.folder_disk.specs.Meters.{no_counts};
ghost use Rattle.folder_disk.specs.Names.{is_want};
ghost use Rattle.system_folder.specs.Names.{name_or_here, folder_of};

use crate::opened::{
    Opened, drop_file, forget_len, keep_last, known_len, length_of, place_in, sync_bytes, sync_one,
};
use folder_disk::{Folder, FolderDisk, FolderFault};
use plan_lang::numbers::number_of;
use std::alloc::{AllocError, Global};
use std::fmt::Write as _;
use std::fs::{DirBuilder, DirEntry, File, Files, OpenOptions};
use std::io::{ErrorKind, Write};
use std::os::unix::fs::{DirBuilderExt, FileExt, OpenOptionsExt};
use std::path::Path;
use std::{fs, io};

/// What the file `refused` tells whoever finds it.
const REFUSED: &str =
    "The system refused a sync of this folder: what was written last may be lost or half there.
Copy the folder to another device and go on with the copy, without this file.
";

/// The longest name of an entry, with the slash before it.
const ENTRY: usize = 11;

/// How many files stay open for writes once they are synced, and how many for reads: a log is appended to in
/// one file, and a generation of image trails in four.
const WRITTEN: usize = 6;

const READ: usize = 2;

/// A folder, of which nothing is touched before the first call. From then on it is held: another one
/// over the same folder, of any program, finds each of its calls `Failed`. The end of the process
/// gives it back, a kill too.
#[derive(Drop)]
pub struct DirFolder<R: Files> {
    rt: R,
    name: String,
    /// The path that was named last, in room for the longest.
    path: String,
    held: Option<R::File>,
    /// How many folders above are to be synced too, since an entry may be new there.
    above: usize,
    /// Open for writes. One that was written stays open until `rest`, so that no error of the system in writing it back is lost.
    opened: Vec<Opened<R::File>>,
    /// Open for reads.
    read: Vec<Opened<R::File>>,
}

/// A disk over a folder of the system. It tells nothing of what it holds.
pub type DirDisk<R> = FolderDisk<DirFolder<R>>;

/// The disk over the folder of that name, which it does not touch yet. The first counted call makes
/// the folder where it is missing. An empty name is the folder in which the program runs.
pub fn dir_disk<R: Files<File = File> + AllocGlobal + Clone + Drop>(
    rt: R,
    name: String,
) -> Result<DirDisk<R>, AllocError>
    ensures counts { IfOk result (λ disk. disk.meter ≡ no_counts) }
    ensures named { IfOk result (λ disk. folder_of disk ≡ name_or_here (string_bytes name)) }
{
    let alloc = rt.alloc();
    Ok(FolderDisk::at(alloc, DirFolder::new(rt, name)?))
}

/// What an error on the folder itself says: nothing of what is in it.
fn fault_of_folder(error: io::Error) -> FolderFault {
    match fault_of(error) {
        FolderFault::NotFound => FolderFault::Failed,
        fault => fault,
    }
}

fn fault_of(error: io::Error) -> FolderFault {
    match error.kind() {
        ErrorKind::NotFound => FolderFault::NotFound,
        ErrorKind::Interrupted => FolderFault::Interrupted,
        ErrorKind::OutOfMemory => FolderFault::NoMemory,
        _ => FolderFault::Failed,
    }
}

impl<R: Files<File = File> + AllocGlobal + Clone + Drop> DirFolder<R> {
    /// The folder of that name. An empty name is the folder in which the program runs.
    pub fn new(rt: R, name: String) -> Result<DirFolder<R>, AllocError>
        ensures { IfOk result (λ folder. string_bytes folder.name ≡ name_or_here (string_bytes name)) }
    {
        let alloc = rt.alloc();
        let name = if name.is_empty() {
            String::from_str(alloc, ".")?
        } else {
            name
        };
        let path = String::with_capacity(alloc, name.len().saturating_add(ENTRY))?;
        Ok(DirFolder {
            rt,
            name,
            path,
            held: None,
            above: 1,
            opened: Vec::new(alloc),
            read: Vec::new(alloc),
        })
    }

    /// Finds the folder, and names a file in it. File 4,294,967,295 is never there.
    fn find_file(&mut self, file: u32) -> Result<(), FolderFault> {
        if file == u32::MAX {
            return Err(FolderFault::NotFound);
        }
        self.find().map_err(fault_of_folder)?;
        self.begin_path()?;
        match write!(self.path, "{file}") {
            Ok(()) => Ok(()),
            Err(_) => Err(FolderFault::NoMemory),
        }
    }

    /// Names the file `refused`.
    fn name_mark(&mut self) -> Result<(), FolderFault> {
        self.begin_path()?;
        match self.path.push_str("refused") {
            Ok(()) => Ok(()),
            Err(_) => Err(FolderFault::NoMemory),
        }
    }

    /// Begins the path of an entry, for which there is room.
    fn begin_path(&mut self) -> Result<(), FolderFault> {
        self.path.clear();
        let done = self.path.push_str(self.name.as_str()).is_ok();
        if done && self.path.push('/').is_ok() {
            return Ok(());
        }
        Err(FolderFault::NoMemory)
    }

    /// Makes the folder, and those above it, where they are missing, and holds it. A folder of which a
    /// sync was refused is not taken.
    fn find(&mut self) -> io::Result<()> {
        if self.held.is_some() {
            return Ok(());
        }
        self.above = self.above.max(self.missing()?);
        make_folder(&self.rt, self.name.as_str())?;
        let folder = fs::open(&self.rt, self.name.as_str())?;
        self.take(&folder)?;
        self.held = Some(folder);
        Ok(())
    }

    /// Locks the folder, unless another disk has it, and looks whether a sync of it was refused.
    fn take(&mut self, folder: &File) -> io::Result<()> {
        if self.name_mark().is_err() {
            return Err(io::Error::from(ErrorKind::OutOfMemory));
        }
        if folder.try_lock().is_err() {
            return Err(io::Error::from(ErrorKind::WouldBlock));
        }
        if fs::exists(&self.rt, self.path.as_str())? {
            return Err(io::Error::from(ErrorKind::Unsupported));
        }
        Ok(())
    }

    /// Leaves the file `refused` where a sync was refused, as far as the system still takes it.
    fn marked(&mut self, done: Result<(), FolderFault>) -> Result<(), FolderFault> {
        if done == Err(FolderFault::Refused) {
            let _ = self.mark();
        }
        done
    }

    fn mark(&mut self) -> io::Result<()> {
        if self.name_mark().is_err() {
            return Err(io::Error::from(ErrorKind::OutOfMemory));
        }
        let mut file = making().open(&self.rt, self.path.as_str())?;
        file.write_all(REFUSED.as_bytes())?;
        file.sync_all()?;
        match &self.held {
            Some(folder) => folder.sync_all(),
            None => Ok(()),
        }
    }

    /// How many folders are missing, from this one upwards.
    fn missing(&self) -> io::Result<usize> {
        let mut missing = 0usize;
        for folder in Path::new(self.name.as_str()).ancestors() {
            if folder.as_str().is_empty() || fs::exists(&self.rt, folder)? {
                break;
            }
            missing = missing.saturating_add(1);
        }
        Ok(missing)
    }

    fn all_numbers(&mut self, alloc: Global) -> io::Result<Vec<u32>>
        ensures { IfOk result (λ all. All (λ n. n < 2 ^ 32 - 1) all.items) }
    {
        self.find()?;
        let mut all = Vec::new(alloc);
        for entry in fs::read_dir(&self.rt, self.name.as_str())? {
            if let Some(number) = number_in(&entry)? {
                all.push(number)?;
            }
        }
        Ok(all)
    }

    /// What an error on a file says. A file is missing only where its folder is there.
    fn fault_in(&self, error: io::Error) -> FolderFault {
        let fault = fault_of(error);
        if fault == FolderFault::NotFound
            && !fs::exists(&self.rt, self.name.as_str()).unwrap_or(false)
        {
            return FolderFault::Failed;
        }
        fault
    }

    /// The length of the file that is named. What is no file is refused before it is opened, so that no call waits on a pipe.
    fn regular(&self) -> Result<u64, FolderFault> {
        match fs::metadata(&self.rt, self.path.as_str()) {
            Ok(found) if found.is_file() => Ok(found.len()),
            Ok(_) => Err(FolderFault::Failed),
            Err(error) => Err(self.fault_in(error)),
        }
    }

    /// Opens the file that is named, for writes. How long it is is known, or is looked up.
    fn open_with(
        &mut self,
        file: u32,
        how: &OpenOptions,
        len: Option<u64>,
    ) -> Result<(), FolderFault> {
        if self.opened.reserve(1).is_err() {
            return Err(FolderFault::NoMemory);
        }
        let opened = match how.open(&self.rt, self.path.as_str()) {
            Ok(opened) => opened,
            Err(error) => return Err(self.fault_in(error)),
        };
        let len = len.or_else(|| length_of(&opened));
        self.opened.push_reserved(Opened {
            number: file,
            file: opened,
            len,
        });
        Ok(())
    }

    /// Makes a file and opens it.
    fn make_file(&mut self, file: u32) -> Result<(), FolderFault> {
        self.find_file(file)?;
        self.open_with(file, &making(), None)
    }

    /// Opens a file for reads.
    fn open_to_read(&mut self, file: u32) -> Result<File, FolderFault> {
        self.find_file(file)?;
        match fs::open(&self.rt, self.path.as_str()) {
            Ok(found) => Ok(found),
            Err(error) => Err(self.fault_in(error)),
        }
    }

    /// Keeps a file that was opened for reads, where there is room.
    fn keep_to_read(&mut self, file: u32, found: File) {
        keep_last(&mut self.read, READ - 1);
        if self.read.reserve(1).is_err() {
            return;
        }
        self.read.push_reserved(Opened {
            number: file,
            file: found,
            len: None,
        });
    }

    /// Removes a file's entry, and closes the file where it is open. One that may be there all the same stays open
    /// for its sync, and not beyond it.
    fn remove_file(&mut self, file: u32) -> Result<(), FolderFault> {
        drop_file(&mut self.read, file);
        self.find_file(file)?;
        let done = self.remove_named();
        match done {
            Ok(()) | Err(FolderFault::NotFound) => drop_file(&mut self.opened, file),
            Err(_) => forget_len(&mut self.opened, file),
        }
        done
    }

    fn remove_named(&self) -> Result<(), FolderFault> {
        match fs::remove_file(&self.rt, self.path.as_str()) {
            Ok(()) => Ok(()),
            Err(error) => Err(self.fault_in(error)),
        }
    }

    /// Syncs the folder, and those above it where an entry may be new.
    fn sync_folders(&self) -> Result<(), FolderFault> {
        let name = Path::new(self.name.as_str());
        match &self.held {
            Some(folder) => sync_one(folder)?,
            None => sync_folder(&self.rt, name)?,
        }
        for folder in name.ancestors().skip(1).take(self.above) {
            sync_folder(&self.rt, folder)?;
        }
        Ok(())
    }
}

/// What an error says once a change is noted. The memory for it was taken before, so what the system
/// wants then is its own.
fn late(fault: FolderFault) -> FolderFault
    ensures { is_want result ≡ false }
{
    match fault {
        FolderFault::NotFound => FolderFault::NotFound,
        FolderFault::Interrupted => FolderFault::Interrupted,
        FolderFault::Refused => FolderFault::Refused,
        FolderFault::Failed | FolderFault::NoMemory => FolderFault::Failed,
    }
}

/// How a file is made: for its owner alone.
fn making() -> OpenOptions {
    let mut how = OpenOptions::new();
    how.write(true);
    how.create(true);
    how.mode(0o600);
    how
}

/// Makes a folder, and those above it, where they are missing: for their owner alone.
fn make_folder<R: Files>(rt: &R, name: &str) -> io::Result<()> {
    let mut how = DirBuilder::new();
    how.recursive(true);
    how.mode(0o700);
    how.create(rt, name)
}

/// The number that names an entry. A name that is no text is no number.
fn number_in<R: Files + AllocGlobal>(entry: &io::Result<DirEntry<R>>) -> io::Result<Option<u32>>
    ensures { IfOk result (λ number. IfSome number (λ n. n < 2 ^ 32 - 1)) }
{
    match entry {
        Ok(entry) => Ok(number_of(entry.file_name().as_bytes()).filter(|n| *n < u32::MAX)),
        Err(e) if e.kind() == ErrorKind::InvalidFilename => Ok(None),
        Err(e) => Err(*e),
    }
}

fn sync_folder<R: Files>(rt: &R, folder: Path<'_>) -> Result<(), FolderFault> {
    let opened = match folder.as_str() {
        "" => fs::open(rt, "."),
        name => fs::open(rt, name),
    };
    match opened {
        Ok(file) => sync_one(&file),
        Err(_) => Err(FolderFault::Failed),
    }
}

impl<R: Files<File = File> + AllocGlobal + Clone + Drop> Folder for DirFolder<R> {
    ghost use Rattle.std.specs.Prelude.{None, false, refl};
    ghost use Rattle.rdf_disk.specs.Files.{settled};

    ghost tells = { ⊥ };

    ghost names = { λ _ _. record { file = settled None; dirty = false; moved = false } };

    ghost lost = { λ _. false };

    ghost refusals = { λ _. 0 };

    ghost sound = { λ _ _ _. refl };

    ghost none_last = { λ _ _. refl };

    fn numbers(&mut self, alloc: Global) -> Result<Vec<u32>, FolderFault> {
        self.all_numbers(alloc).map_err(fault_of_folder)
    }

    fn len(&mut self, file: u32) -> Result<u64, FolderFault> {
        if let Some(len) = known_len(&self.opened, file) {
            return Ok(len);
        }
        self.find_file(file)?;
        self.regular()
    }

    fn read(&mut self, file: u32, at: u64, into: &mut [u8]) -> Result<usize, FolderFault> {
        if let Some(place) = place_in(&self.read, file) {
            let answer = self.read[place].file.read_at(into, at);
            return answer.map_err(fault_of_folder);
        }
        let found = self.open_to_read(file)?;
        let answer = found.read_at(into, at);
        self.keep_to_read(file, found);
        answer.map_err(fault_of_folder)
    }

    fn open(&mut self, file: u32) -> Result<(), FolderFault> {
        if known_len(&self.opened, file).is_some() {
            return Ok(());
        }
        self.find_file(file)?;
        let len = self.regular()?;
        let mut how = OpenOptions::new();
        how.write(true);
        self.open_with(file, &how, Some(len))
    }

    fn ask(&mut self, _file: u32, _at: u64, _len: usize) -> Result<(), AllocError> {
        self.opened.reserve(1)
    }

    fn make(&mut self, file: u32) -> Result<(), FolderFault> {
        match self.make_file(file) {
            Ok(()) => Ok(()),
            Err(fault) => Err(late(fault)),
        }
    }

    fn write(&mut self, file: u32, at: u64, bytes: &[u8]) -> Result<usize, FolderFault> {
        match place_in(&self.opened, file) {
            Some(place) => match self.opened[place].write_at(at, bytes) {
                Ok(n) => Ok(n),
                Err(error) => Err(late(fault_of_folder(error))),
            },
            None => Err(FolderFault::Failed),
        }
    }

    fn ask_away(&mut self, _file: u32) -> Result<(), AllocError> {
        Ok(())
    }

    fn remove(&mut self, file: u32) -> Result<(), FolderFault> {
        match self.remove_file(file) {
            Ok(()) => Ok(()),
            Err(fault) => Err(late(fault)),
        }
    }

    fn sync_file(&mut self, file: u32) -> Result<(), FolderFault> {
        match place_in(&self.opened, file) {
            Some(place) => {
                let done = sync_one(&self.opened[place].file);
                self.marked(done)
            }
            None => Err(FolderFault::Failed),
        }
    }

    fn sync_data(&mut self, file: u32) -> Result<(), FolderFault> {
        match place_in(&self.opened, file) {
            Some(place) => {
                let done = sync_bytes(&self.opened[place].file);
                self.marked(done)
            }
            None => Err(FolderFault::Failed),
        }
    }

    fn sync_entries(&mut self) -> Result<(), FolderFault> {
        let done = self.sync_folders();
        self.marked(done)?;
        self.above = 0;
        Ok(())
    }

    fn rest(&mut self) {
        self.opened.retain(|opened| opened.len.is_some());
        keep_last(&mut self.opened, WRITTEN);
    }
}
