//! One run against what must come of it.
use crate::cursor::Cursor;
use crate::held::unheld;
use crate::plans::{add_lines, end_plan};
use crate::row::{Ending, PlanLine, Row};
use crate::trial::{Given, Trial, perform};
use std::alloc::{AllocError, Global};
use std::str;
use std::sync::Wait;
use std::thread::Threads;

/// What differs, in words, or None.
pub type Difference = Option<String>;

/// Performs the row's plan once, as the row says.
pub fn judge_single<R: Threads + Wait + Sync>(
    rt: &R,
    alloc: Global,
    row: &Row,
) -> Result<Difference, AllocError> {
    let mut plan = Vec::new(alloc);
    add_lines(&mut plan, alloc, &row.lines, None)?;
    end_plan(&mut plan, row.setting.tail)?;
    let given = Given {
        words: &row.setting.words,
        plan: &plan,
        reads: &row.setting.reads,
        writes: &row.setting.writes,
    };
    let mut trial = perform(rt, alloc, &given, row.setting.over, &row.setting.disks)?;
    if let Some(text) = wrong_replies(alloc, &trial, &row.lines)? {
        return Ok(Some(text));
    }
    if let Some(text) = wrong_end(alloc, &trial, &row.ending)? {
        return Ok(Some(text));
    }
    unheld(alloc, &mut trial.racks, &row.ending.held)
}

/// Performs a plan's text by the row's words over blank racks, with a sink that fails at these calls.
pub fn perform_text<R: Threads + Wait + Sync>(
    rt: &R,
    alloc: Global,
    row: &Row,
    plan: &[u8],
    writes: &[u64],
) -> Result<Trial, AllocError> {
    let given = Given {
        words: &row.setting.words,
        plan,
        reads: &row.setting.reads,
        writes,
    };
    perform(rt, alloc, &given, row.setting.over, &row.setting.disks)
}

/// What was written, as text.
pub fn text_of(trial: &Trial) -> &str {
    str::from_utf8(&trial.written).unwrap_or("what is no text")
}

/// How what was written differs from the replies to these lines, and none besides.
pub fn wrong_replies(
    alloc: Global,
    trial: &Trial,
    lines: &[PlanLine],
) -> Result<Difference, AllocError> {
    let mut cursor = Cursor::new(alloc, text_of(trial))?;
    if cursor.passes_all(lines)? && cursor.is_done() {
        return Ok(None);
    }
    Ok(Some(cursor.difference()?))
}

/// How the end differs from the one that must come.
pub fn wrong_end(alloc: Global, trial: &Trial, ending: &Ending) -> Result<Difference, AllocError> {
    let status = trial.status;
    let number = status.number();
    let said = status.to_string(alloc)?;
    if number == ending.status && said == ending.said {
        return Ok(None);
    }
    let text = format!(in alloc; "it ended with status {number}, and said `{said}`")?;
    Ok(Some(text))
}

/// How the end differs from one in which all was done.
pub fn not_done(alloc: Global, trial: &Trial) -> Result<Difference, AllocError> {
    let ending = Ending {
        status: 0,
        said: String::new(alloc),
        held: Vec::new(alloc),
    };
    wrong_end(alloc, trial, &ending)
}
