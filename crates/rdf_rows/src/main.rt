//! Performs each row of the folder that it runs in, and prints a line for each: that all is as wanted, or what differs.
#![tactic(auto)]

mod cursor;
mod faults;
mod held;
mod names;
mod plans;
mod reading;
mod row;
mod setting;
mod single;
mod stops;
mod trial;

use faults::{judge_calls, judge_writes};
use reading::{Reading, read_row};
use row::{Kind, Row};
use single::{Difference, judge_single};
use std::alloc::{AllocError, Global};
use std::process::ExitCode;
use std::rt::Files;
use std::sync::Wait;
use std::thread::Threads;
use std::{fs, io};
use stops::judge_stops;

// The end of the name of a row's file.
const ENDING: &str = ".row";

fn main(rt: HostRuntime) -> io::Result<ExitCode> {
    let mut count = 0u64;
    let mut wrong = 0u64;
    for name in &row_names(&rt)? {
        let text = read_file(&rt, name.as_str())?;
        count = count.saturating_add(1);
        match judge_text(&rt, rt.alloc(), text.as_str())? {
            None => println!(rt; "{name}: ok")?,
            Some(difference) => {
                wrong = wrong.saturating_add(1);
                println!(rt; "{name}: {difference}")?;
            }
        }
    }
    println!(rt; "{count} rows, {wrong} wrong")?;
    Ok(if wrong == 0 {
        ExitCode::SUCCESS
    } else {
        ExitCode::FAILURE
    })
}

// The names of the rows, in order.
fn row_names(rt: &HostRuntime) -> io::Result<Vec<String>> {
    let mut names = Vec::new(rt.alloc());
    for entry in fs::read_dir(rt, ".")? {
        let entry = entry?;
        if let Some(name) = entry.file_name().strip_suffix(ENDING) {
            names.push(String::from_str(rt.alloc(), name)?)?;
        }
    }
    names.sort()?;
    Ok(names)
}

fn read_file(rt: &HostRuntime, name: &str) -> io::Result<String> {
    let path = format!(in rt.alloc(); "{name}{ENDING}")?;
    fs::read_to_string(rt, path.as_str())
}

fn judge_text<R: Threads + Wait + Sync>(
    rt: &R,
    alloc: Global,
    text: &str,
) -> Result<Difference, AllocError> {
    match read_row(alloc, text)? {
        Reading::Whole(mut row) => judge_turns(rt, alloc, &mut row),
        Reading::Bad(line) => {
            let text = format!(in alloc; "line {line} of the row can't be read")?;
            Ok(Some(text))
        }
    }
}

// Over disks in memory, and over folders where the row says so.
fn judge_turns<R: Threads + Wait + Sync>(
    rt: &R,
    alloc: Global,
    row: &mut Row,
) -> Result<Difference, AllocError> {
    if let Some(text) = judge(rt, alloc, row)? {
        return Ok(Some(text));
    }
    let turns = Vec::from_slice(alloc, &row.setting.turns)?;
    for over in &turns {
        row.setting.over = *over;
        if let Some(text) = judge(rt, alloc, row)? {
            let text = format!(in alloc; "over {over:?}: {text}")?;
            return Ok(Some(text));
        }
    }
    Ok(None)
}

fn judge<R: Threads + Wait + Sync>(
    rt: &R,
    alloc: Global,
    row: &Row,
) -> Result<Difference, AllocError> {
    match row.kind {
        Kind::Single => judge_single(rt, alloc, row),
        Kind::StopsAt(_) | Kind::StopsFrom(_) => judge_stops(rt, alloc, row),
        Kind::EachWrite => judge_writes(rt, alloc, row),
        Kind::EachCall => judge_calls(rt, alloc, row),
    }
}
