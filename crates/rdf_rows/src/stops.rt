//! Tables of stops: at one line, or at each line from some line on.
use crate::cursor::Cursor;
use crate::names::{letter_of, word_of};
use crate::plans::{Fuse, Second, add_lines};
use crate::row::{Again, Kind, PlanLine, Row, Table};
use crate::single::{Difference, not_done, perform_text, text_of, wrong_replies};
use crate::trial::Trial;
use rdf_types::records::Node;
use std::alloc::{AllocError, Global};
use std::sync::Wait;
use std::thread::Threads;

// A line that still stops after so many calls has failed.
const MOST_CALLS: u32 = 1000;

// More calls than any line has.
const BEYOND: u32 = 1_000_000;

// The number of calls at which no line stops, or what differs.
#[derive(Drop)]
enum End {
    At(u32),
    Differs(String),
}

// What one fuse came to: a line stopped, and all was as wanted; no line stopped, and all was as wanted; or what differs.
#[derive(Drop)]
enum Tried {
    Stopped,
    Whole,
    Differs(String),
}

/// Performs the plan with each fuse of the table, or with each two fuses.
pub fn judge_stops<R: Threads + Wait + Sync>(
    rt: &R,
    alloc: Global,
    row: &Row,
) -> Result<Difference, AllocError> {
    let fuses = fuses_of(alloc, &row.table)?;
    if fuses.is_empty() {
        return said(alloc, "the table is empty");
    }
    for fuse in &fuses {
        if let Some(text) = judge_fuse(rt, alloc, row, *fuse)? {
            return Ok(Some(text));
        }
    }
    Ok(None)
}

fn said(alloc: Global, text: &str) -> Result<Difference, AllocError> {
    Ok(Some(String::from_str(alloc, text)?))
}

// A fuse for each node, disk and tear, which leaves no call. The second one leaves more than any line has.
fn fuses_of(alloc: Global, table: &Table) -> Result<Vec<Fuse>, AllocError> {
    let mut fuses = Vec::new(alloc);
    for node in &table.nodes {
        for disk in &table.disks {
            add_tears(&mut fuses, table, *node, *disk)?;
        }
    }
    Ok(fuses)
}

fn add_tears(fuses: &mut Vec<Fuse>, table: &Table, node: Node, disk: u8) -> Result<(), AllocError> {
    let second = Second {
        disk: table.second.unwrap_or(disk),
        calls: BEYOND,
    };
    for tear in &table.tears {
        fuses.push(Fuse {
            node,
            disk,
            calls: 0,
            tear: *tear,
            second,
        })?;
    }
    Ok(())
}

// The fuse leaves one call more each time, until no line stops. Where there are two, each does so while the other one stays, and then both are tried at each pair of calls at which each alone stops.
fn judge_fuse<R: Threads + Wait + Sync>(
    rt: &R,
    alloc: Global,
    row: &Row,
    fuse: Fuse,
) -> Result<Difference, AllocError> {
    let end = match end_of(rt, alloc, row, fuse)? {
        End::At(end) => end,
        End::Differs(text) => return Ok(Some(text)),
    };
    if row.table.second.is_none() {
        return Ok(None);
    }
    match end_of(rt, alloc, row, turned(fuse))? {
        End::At(second) => judge_pairs(rt, alloc, row, fuse, end, second),
        End::Differs(text) => Ok(Some(text)),
    }
}

// The two fuses, each in the place of the other.
fn turned(fuse: Fuse) -> Fuse {
    let second = Second {
        disk: fuse.disk,
        calls: fuse.second.calls,
    };
    Fuse {
        disk: fuse.second.disk,
        second,
        ..fuse
    }
}

// The first number of calls at which no line stops.
fn end_of<R: Threads + Wait + Sync>(
    rt: &R,
    alloc: Global,
    row: &Row,
    fuse: Fuse,
) -> Result<End, AllocError> {
    for calls in 0..MOST_CALLS {
        let fuse = Fuse { calls, ..fuse };
        match try_fuse(rt, alloc, row, fuse)? {
            Tried::Stopped => (),
            Tried::Whole if calls > 0 => return Ok(End::At(calls)),
            Tried::Whole => return ends_so(alloc, fuse, "no line stops"),
            Tried::Differs(text) => return ends_so(alloc, fuse, text.as_str()),
        }
    }
    ends_so(alloc, fuse, "a line still stops")
}

fn ends_so(alloc: Global, fuse: Fuse, text: &str) -> Result<End, AllocError> {
    Ok(End::Differs(told_at(alloc, fuse, text)?))
}

// A line stops at each pair of calls below these.
fn judge_pairs<R: Threads + Wait + Sync>(
    rt: &R,
    alloc: Global,
    row: &Row,
    fuse: Fuse,
    end: u32,
    second_end: u32,
) -> Result<Difference, AllocError> {
    for calls in 0..end {
        for second_calls in 0..second_end {
            let second = Second {
                calls: second_calls,
                ..fuse.second
            };
            let fuse = Fuse {
                calls,
                second,
                ..fuse
            };
            if let Some(text) = judge_pair(rt, alloc, row, fuse)? {
                return Ok(Some(text));
            }
        }
    }
    Ok(None)
}

fn judge_pair<R: Threads + Wait + Sync>(
    rt: &R,
    alloc: Global,
    row: &Row,
    fuse: Fuse,
) -> Result<Difference, AllocError> {
    match try_fuse(rt, alloc, row, fuse)? {
        Tried::Stopped => Ok(None),
        Tried::Whole => Ok(Some(told_at(alloc, fuse, "no line stops")?)),
        Tried::Differs(text) => Ok(Some(told_at(alloc, fuse, text.as_str())?)),
    }
}

fn told_at(alloc: Global, fuse: Fuse, text: &str) -> Result<String, AllocError> {
    let node = letter_of(fuse.node);
    let disk = fuse.disk;
    let calls = fuse.calls;
    let tear = word_of(fuse.tear);
    let Second {
        disk: other,
        calls: left,
    } = fuse.second;
    if left == BEYOND {
        return format!(in alloc; "with fuse {node} {disk} {calls} {tear}: {text}");
    }
    format!(in alloc;
        "with fuse {node} {disk} {calls} {tear} and {node} {other} {left} {tear}: {text}"
    )
}

fn try_fuse<R: Threads + Wait + Sync>(
    rt: &R,
    alloc: Global,
    row: &Row,
    fuse: Fuse,
) -> Result<Tried, AllocError> {
    let mut plan = Vec::new(alloc);
    add_lines(&mut plan, alloc, &row.lines, Some(fuse))?;
    let trial = perform_text(rt, alloc, row, &plan, &[])?;
    if let Some(text) = not_done(alloc, &trial)? {
        return Ok(Tried::Differs(text));
    }
    match row.kind {
        Kind::StopsFrom(from) => try_from(rt, alloc, row, fuse, &trial, from),
        Kind::StopsAt(step) => try_at(rt, alloc, row, fuse, &trial, step),
        _ => Ok(Tried::Whole),
    }
}

// The names `disk` and `calls` stand for those of the fuse.
fn cursor_of<'a>(alloc: Global, trial: &'a Trial, fuse: Fuse) -> Result<Cursor<'a>, AllocError> {
    let mut cursor = Cursor::new(alloc, text_of(trial))?;
    cursor.name("disk", u64::from(fuse.disk))?;
    cursor.name("calls", u64::from(fuse.calls))?;
    Ok(cursor)
}

fn differs(cursor: &Cursor<'_>) -> Result<Tried, AllocError> {
    Ok(Tried::Differs(cursor.difference()?))
}

// Where the line of that number is done, the plan that ends with it gets the replies up to there.
fn try_at<R: Threads + Wait + Sync>(
    rt: &R,
    alloc: Global,
    row: &Row,
    fuse: Fuse,
    trial: &Trial,
    step: usize,
) -> Result<Tried, AllocError> {
    let (before, rest) = split(&row.lines, step);
    let (line, after) = split(rest, 1);
    let mut cursor = cursor_of(alloc, trial, fuse)?;
    if !cursor.passes_all(before)? {
        return differs(&cursor);
    }
    let mark = cursor.mark();
    if cursor.passes_all(line)? {
        return try_short(rt, alloc, row, fuse, step);
    }
    cursor.go_back(mark);
    if cursor.passes(&row.table.stopped)? && cursor.passes_all(after)? && cursor.is_done() {
        return Ok(Tried::Stopped);
    }
    differs(&cursor)
}

// The lines before that number, and the others.
fn split(lines: &[PlanLine], at: usize) -> (&[PlanLine], &[PlanLine]) {
    let at = at.min(lines.len());
    (&lines[..at], &lines[at..])
}

fn try_short<R: Threads + Wait + Sync>(
    rt: &R,
    alloc: Global,
    row: &Row,
    fuse: Fuse,
    step: usize,
) -> Result<Tried, AllocError> {
    let (lines, _) = split(&row.lines, step.saturating_add(1));
    let mut plan = Vec::new(alloc);
    add_lines(&mut plan, alloc, lines, Some(fuse))?;
    let trial = perform_text(rt, alloc, row, &plan, &[])?;
    if let Some(text) = not_done(alloc, &trial)? {
        return Ok(Tried::Differs(text));
    }
    match wrong_replies(alloc, &trial, lines)? {
        Some(text) => Ok(Tried::Differs(text)),
        None => Ok(Tried::Whole),
    }
}

// Where a line stops, all is performed once more, with a restart and that line again.
fn try_from<R: Threads + Wait + Sync>(
    rt: &R,
    alloc: Global,
    row: &Row,
    fuse: Fuse,
    trial: &Trial,
    from: usize,
) -> Result<Tried, AllocError> {
    let (before, looped) = split(&row.lines, from);
    let mut cursor = cursor_of(alloc, trial, fuse)?;
    if !cursor.passes_all(before)? {
        return differs(&cursor);
    }
    let mut at = before.len();
    for line in looped {
        let mark = cursor.mark();
        if !cursor.passes(&line.replies)? {
            cursor.go_back(mark);
            return if is_stop(cursor.line(), fuse.node) {
                try_again(rt, alloc, row, fuse, at)
            } else {
                differs(&cursor)
            };
        }
        at = at.saturating_add(1);
    }
    if cursor.is_done() {
        Ok(Tried::Whole)
    } else {
        differs(&cursor)
    }
}

fn is_stop(line: &str, node: Node) -> bool {
    match line.split_once(' ') {
        Some((verb, letter)) => verb == "stopped" && letter == letter_of(node),
        None => false,
    }
}

// The line of that number stops, the node is restarted, and the line is given again.
fn try_again<R: Threads + Wait + Sync>(
    rt: &R,
    alloc: Global,
    row: &Row,
    fuse: Fuse,
    at: usize,
) -> Result<Tried, AllocError> {
    let (before, rest) = split(&row.lines, at);
    let (line, after) = split(rest, 1);
    let letter = letter_of(fuse.node);
    let mut plan = Vec::new(alloc);
    add_lines(&mut plan, alloc, before, Some(fuse))?;
    add_lines(&mut plan, alloc, line, Some(fuse))?;
    plan.extend_from_slice(format!(in alloc; "restart {letter}\n")?.as_bytes())?;
    add_lines(&mut plan, alloc, rest, Some(fuse))?;
    let trial = perform_text(rt, alloc, row, &plan, &[])?;
    if let Some(text) = not_done(alloc, &trial)? {
        return Ok(Tried::Differs(text));
    }
    let mut cursor = cursor_of(alloc, &trial, fuse)?;
    let stopped = format!(in alloc; "stopped {letter}")?;
    let passes = cursor.passes_all(before)?
        && cursor.passes_line(stopped.as_str())?
        && passes_again(&mut cursor, line)?
        && cursor.passes_all(after)?
        && cursor.is_done();
    if passes {
        Ok(Tried::Stopped)
    } else {
        differs(&cursor)
    }
}

fn passes_again(cursor: &mut Cursor<'_>, line: &[PlanLine]) -> Result<bool, AllocError> {
    let Some(line) = line.first() else {
        return Ok(false);
    };
    for again in &line.agains {
        let mark = cursor.mark();
        if passes_one(cursor, again)? {
            return Ok(true);
        }
        cursor.go_back(mark);
    }
    Ok(false)
}

fn passes_one(cursor: &mut Cursor<'_>, again: &Again) -> Result<bool, AllocError> {
    Ok(cursor.passes_line(again.restart.as_str())? && cursor.passes(&again.replies)?)
}
