//! The program `rdf`: performs the plan on its standard input over disks in memory or over folders, predicts its replies, or performs a generated plan.
#![tactic(auto)]

ghost use Rattle.rdf_system.specs.Place.{IsFull};

#[cfg(test)]
mod tests;

use command_words::{Words, WordsFault, read_words};
use rdf_disk::Disk;
use rdf_folders::folder_racks;
use rdf_ports::{NoGate, StdSink, StdSource};
use rdf_run::{Status, blank_racks, run_rdf};
use rdf_system::Racks;
use std::alloc::AllocError;
use std::env::Env;
use std::process::ExitCode;
use std::sync::Wait;
use std::thread::Threads;
use std::{env, io};

fn main(rt: HostRuntime) -> ExitCode {
    let status = match words(&rt) {
        Ok(words) => run(&rt, &rt, &words).unwrap_or(Status::NoMemory),
        Err(status) => status,
    };
    print_report(&rt, status);
    ExitCode::from(status.number())
}

// What is said of how the call ended. Where standard error cannot be written, the exit status alone tells it.
fn print_report(rt: &impl Eprint, status: Status) {
    if status != Status::Done {
        let _ = rt.eprintln(status);
    }
}

// The words behind the program's name. A word that is no text is none that the program takes.
fn words(rt: &(impl Env + AllocGlobal)) -> Result<Vec<String>, Status> {
    let mut words = Vec::new(rt.alloc());
    let args = env::args(rt).map_err(status_of)?;
    for word in args.skip(1) {
        words.push(word).map_err(|_| Status::NoMemory)?;
    }
    Ok(words)
}

fn status_of(error: io::Error) -> Status {
    match error.kind() {
        io::ErrorKind::InvalidData => Status::BadWords,
        _ => Status::NoMemory,
    }
}

// The runtime comes twice: as what reads, writes and has memory, and as what starts threads. The words choose the disks: folders of a name, or memory. Where there is no memory to read them, nothing is run: they may have named a folder.
fn run<R: Threads + Wait + Sync>(
    rt: &HostRuntime,
    threads: &R,
    words: &[String],
) -> Result<Status, AllocError> {
    match read_words(rt.alloc(), words) {
        Ok(Words::RunDir { dir }) => {
            let racks = folder_racks(rt, dir.as_str())?;
            Ok(run_over(rt, threads, words, racks))
        }
        Err(WordsFault::NoMemory) => Err(AllocError),
        _ => {
            let racks = blank_racks(rt.alloc())?;
            Ok(run_over(rt, threads, words, racks))
        }
    }
}

// The plan comes from standard input, and the replies go to standard output.
fn run_over<R: Threads + Wait + Sync, D: Disk + Drop + Send>(
    rt: &HostRuntime,
    threads: &R,
    words: &[String],
    racks: Racks<D>,
) -> Status
    requires { IsFull racks }
{
    let mut plan = StdSource::new(rt.reader());
    let mut replies = StdSink::new(io::writer(rt));
    let ended = run_rdf(
        threads,
        rt.alloc(),
        words,
        &mut plan,
        &mut replies,
        racks,
        &NoGate,
    );
    ended.status
}
