//! A volume of many rows: it is filled and closed, mounted again, asked for rows at places spread over it, scanned and checkpointed.

mod counted_disk;
mod report;
mod rows;
mod stages;
mod steps;
mod words;

use counted_disk::CountedDisk;
use rdf_disk::MemDisk;
use report::Report;
use std::cell::Cell;
use std::io;
use std::process::ExitCode;
use system_folder::dir_disk;
use words::{Sizes, Stage, Task, read_words};

/// Does what the words behind the first ask for. The code is 1 where a row was not found as it was put, and 2 where the words ask for nothing.
pub fn measure(rt: &HostRuntime) -> io::Result<ExitCode> {
    let Some(task) = read_words(rt)? else {
        rt.eprintln(
            "usage: benches volume ROWS GETS counts|times [FOLDER [fill|mount|gets|scan|checkpoint]]",
        )?;
        return Ok(ExitCode::from(2));
    };
    let whole = run(rt, task)?;
    Ok(ExitCode::from(if whole { 0 } else { 1 }))
}

/// Whether each row was found as it was put.
fn run(rt: &HostRuntime, task: Task) -> io::Result<bool> {
    let reads = Cell::new(0);
    let Task {
        sizes,
        times,
        folder,
        stage,
    } = task;
    let report = Report {
        rt,
        times,
        reads: &reads,
    };
    match folder {
        None => {
            let disk = MemDisk::blank(rt.alloc(), Vec::new(rt.alloc()));
            stages::all(report, sizes, CountedDisk::of(disk, &reads))
        }
        Some(folder) => run_in(report, sizes, folder, stage),
    }
}

fn run_in(
    report: Report<'_>,
    sizes: Sizes,
    folder: String,
    stage: Option<Stage>,
) -> io::Result<bool> {
    let disk = dir_disk(*report.rt, folder)?;
    let disk = CountedDisk::of(disk, report.reads);
    match stage {
        None => stages::all(report, sizes, disk),
        Some(stage) => stages::one(report, sizes, disk, stage),
    }
}
