//! Tables of faults: each write fails, or each call of a disk.
use crate::cursor::Cursor;
use crate::held::unlike;
use crate::names::letter_of;
use crate::plans::add_lines;
use crate::row::{Ending, Gift, GivenDisk, Place, PlanLine, Row};
use crate::single::{Difference, not_done, perform_text, text_of, wrong_end, wrong_replies};
use crate::trial::{Given, Trial, perform};
use rdf_run::Status;
use std::alloc::{AllocError, Global};
use std::sync::Wait;
use std::thread::Threads;

// A disk that still fails at its call of this number has failed the row.
const MOST_CALLS: u64 = 2000;

// How many lines stand before the one in which a call failed, or what differs.
#[derive(Drop)]
enum Fault {
    Behind(usize),
    Differs(String),
}

/// Performs the plan with a sink that fails at each of its replies in turn.
pub fn judge_writes<R: Threads + Wait + Sync>(
    rt: &R,
    alloc: Global,
    row: &Row,
) -> Result<Difference, AllocError> {
    let mut write = 0u64;
    for (at, line) in row.lines.iter().enumerate() {
        if line.replies.is_empty() {
            continue;
        }
        if let Some(text) = judge_write(rt, alloc, row, at, write)? {
            let text = format!(in alloc; "where write {write} fails: {text}")?;
            return Ok(Some(text));
        }
        write = write.saturating_add(1);
    }
    if write == 0 {
        return Ok(Some(String::from_str(alloc, "there is no reply")?));
    }
    Ok(None)
}

// The replies before are written, and the disks hold what they hold after the plan that ends with that line.
fn judge_write<R: Threads + Wait + Sync>(
    rt: &R,
    alloc: Global,
    row: &Row,
    at: usize,
    write: u64,
) -> Result<Difference, AllocError> {
    let mut plan = Vec::new(alloc);
    add_lines(&mut plan, alloc, &row.lines, None)?;
    let mut cut = perform_text(rt, alloc, row, &plan, &[write])?;
    let (before, _) = row.lines.split_at(at.min(row.lines.len()));
    if let Some(text) = wrong_replies(alloc, &cut, before)? {
        return Ok(Some(text));
    }
    let ending = Ending {
        status: 5,
        said: String::from_str(alloc, "rdf: cannot write")?,
        held: Vec::new(alloc),
    };
    if let Some(text) = wrong_end(alloc, &cut, &ending)? {
        return Ok(Some(text));
    }
    let (lines, _) = row
        .lines
        .split_at(at.saturating_add(1).min(row.lines.len()));
    let mut short = Vec::new(alloc);
    add_lines(&mut short, alloc, lines, None)?;
    let mut whole = perform_text(rt, alloc, row, &short, &[])?;
    if let Some(text) = not_done(alloc, &whole)? {
        return Ok(Some(text));
    }
    unlike(alloc, &mut cut.racks, &mut whole.racks)
}

/// Performs the plan with each of the listed disks, which fails at each of its calls in turn.
pub fn judge_calls<R: Threads + Wait + Sync>(
    rt: &R,
    alloc: Global,
    row: &Row,
) -> Result<Difference, AllocError> {
    for place in &row.table.failing {
        if let Some(text) = judge_disk(rt, alloc, row, *place)? {
            let letter = letter_of(place.node);
            let disk = place.disk;
            let text = format!(in alloc; "with disk {disk} of {letter}: {text}")?;
            return Ok(Some(text));
        }
    }
    Ok(None)
}

// Where a later call fails no fewer lines are answered, and some call is one of the marked line.
fn judge_disk<R: Threads + Wait + Sync>(
    rt: &R,
    alloc: Global,
    row: &Row,
    place: Place,
) -> Result<Difference, AllocError> {
    let mut plan = Vec::new(alloc);
    add_lines(&mut plan, alloc, &row.lines, None)?;
    let mut answered = 0usize;
    let mut is_met = row.table.fault.is_none();
    for call in 0..MOST_CALLS {
        let trial = perform_failing(rt, alloc, row, &plan, place, call)?;
        if trial.status == Status::Done && call > 0 {
            return wrong_whole(alloc, &trial, row, is_met);
        }
        match fault_of(alloc, &trial, &row.lines, place)? {
            Fault::Behind(lines) if answered <= lines => {
                answered = lines;
                is_met = is_met || row.table.fault == Some(lines);
            }
            Fault::Behind(_) => return told_at(alloc, call, "a call before it failed later"),
            Fault::Differs(text) => return told_at(alloc, call, text.as_str()),
        }
    }
    Ok(Some(String::from_str(alloc, "a call still fails")?))
}

fn told_at(alloc: Global, call: u64, text: &str) -> Result<Difference, AllocError> {
    let text = format!(in alloc; "where call {call} fails: {text}")?;
    Ok(Some(text))
}

// No call failed any more.
fn wrong_whole(
    alloc: Global,
    trial: &Trial,
    row: &Row,
    is_met: bool,
) -> Result<Difference, AllocError> {
    if is_met {
        return wrong_replies(alloc, trial, &row.lines);
    }
    let text = "no call is one of the marked line";
    Ok(Some(String::from_str(alloc, text)?))
}

fn perform_failing<R: Threads + Wait + Sync>(
    rt: &R,
    alloc: Global,
    row: &Row,
    plan: &[u8],
    place: Place,
    call: u64,
) -> Result<Trial, AllocError> {
    let given = Given {
        words: &row.setting.words,
        plan,
        reads: &row.setting.reads,
        writes: &row.setting.writes,
    };
    let mut calls = Vec::new(alloc);
    calls.push(call)?;
    let failing = GivenDisk {
        place,
        gift: Gift::Fails(calls),
    };
    let disks = vec![in alloc; failing]?;
    perform(rt, alloc, &given, row.setting.over, &disks)
}

// The end names the disk, and the replies to some first lines are written.
fn fault_of(
    alloc: Global,
    trial: &Trial,
    lines: &[PlanLine],
    place: Place,
) -> Result<Fault, AllocError> {
    let letter = letter_of(place.node);
    let disk = place.disk;
    let ending = Ending {
        status: 6,
        said: format!(in alloc; "rdf: device fault at {letter} disk {disk}")?,
        held: Vec::new(alloc),
    };
    if let Some(text) = wrong_end(alloc, trial, &ending)? {
        return Ok(Fault::Differs(text));
    }
    let mut cursor = Cursor::new(alloc, text_of(trial))?;
    for (at, line) in lines.iter().enumerate() {
        if cursor.is_done() && !line.replies.is_empty() {
            return Ok(Fault::Behind(at));
        }
        if !cursor.passes(&line.replies)? {
            return Ok(Fault::Differs(cursor.difference()?));
        }
    }
    Ok(Fault::Differs(String::from_str(alloc, "all replies are written")?))
}
