//! Rows from their text, as docs/ROWS.md has it.
use crate::row::{
    Again, Branch, Ending, Guard, Kind, Over, PlanLine, Reply, Row, Setting, Table, Tail,
};
use std::alloc::{AllocError, Global};

/// A row, or the number of the first line that is none of a row, counted from 1; of the last one where something is not ended.
#[derive(Drop)]
pub enum Reading {
    Whole(Row),
    Bad(usize),
}

/// Reads a row's text.
pub fn read_row(alloc: Global, text: &str) -> Result<Reading, AllocError> {
    let mut reader = Reader::new(alloc)?;
    let mut number = 0usize;
    for line in text.lines() {
        number = number.saturating_add(1);
        if !reader.add(line)? {
            return Ok(Reading::Bad(number));
        }
    }
    if !reader.is_whole() {
        return Ok(Reading::Bad(number));
    }
    Ok(Reading::Whole(reader.row))
}

// Whose replies come next.
#[derive(Clone, Copy, Debug, PartialEq, Eq)]
enum Whose {
    Line,
    Stopped,
    Again,
}

/// What was read so far: the row, how often the next line of the plan stands there, whose replies come next, and the alternatives that are not ended.
#[derive(Drop)]
pub struct Reader {
    pub alloc: Global,
    pub row: Row,
    times: u32,
    whose: Whose,
    branches: Option<Vec<Branch>>,
}

impl Reader {
    fn new(alloc: Global) -> Result<Reader, AllocError> {
        Ok(Reader {
            alloc,
            row: empty_row(alloc)?,
            times: 1,
            whose: Whose::Line,
            branches: None,
        })
    }

    // Whether the line is one of a row.
    fn add(&mut self, line: &str) -> Result<bool, AllocError> {
        let (mark, rest) = line.split_once(' ').unwrap_or((line, ""));
        match mark {
            "#" => Ok(true),
            ">" => self.add_line(rest),
            "<" => self.add_reply(rest),
            "!" => self.add_said(rest),
            ":" => self.add_words(rest),
            _ => Ok(false),
        }
    }

    // Whether no alternatives are open, and no number of times is left without its line.
    fn is_whole(&self) -> bool {
        self.branches.is_none() && self.times == 1
    }

    // `\xHH` at the end of a plan's line is the byte of that number.
    fn add_line(&mut self, text: &str) -> Result<bool, AllocError> {
        let alloc = self.alloc;
        let (text, byte) = match text.split_once("\\x") {
            None => (text, None),
            Some((text, digits)) => match u8::from_str_radix(digits, 16) {
                Ok(byte) => (text, Some(byte)),
                Err(_) => return Ok(false),
            },
        };
        self.row.lines.push(PlanLine {
            text: String::from_str(alloc, text)?,
            byte,
            times: self.times,
            replies: Vec::new(alloc),
            agains: Vec::new(alloc),
        })?;
        self.times = 1;
        self.whose = Whose::Line;
        Ok(true)
    }

    // Replies before the first line of the plan are those to a line that does not stand there.
    fn add_reply(&mut self, text: &str) -> Result<bool, AllocError> {
        if self.row.lines.is_empty() {
            self.times = 0;
            let _ = self.add_line("")?;
        }
        let text = String::from_str(self.alloc, text)?;
        if let Some(branches) = &mut self.branches {
            return add_to_branch(branches, text);
        }
        self.push_reply(Reply::Line(text))
    }

    fn push_reply(&mut self, reply: Reply) -> Result<bool, AllocError> {
        match self.whose {
            Whose::Stopped => self.row.table.stopped.push(reply)?,
            Whose::Line => match self.row.lines.last_mut() {
                Some(line) => line.replies.push(reply)?,
                None => return Ok(false),
            },
            Whose::Again => return add_to_again(&mut self.row.lines, reply),
        }
        Ok(true)
    }

    fn add_said(&mut self, text: &str) -> Result<bool, AllocError> {
        let said = &mut self.row.ending.said;
        if !said.is_empty() {
            said.push('\n')?;
        }
        said.push_str(text)?;
        Ok(true)
    }

    fn add_words(&mut self, words: &str) -> Result<bool, AllocError> {
        let (verb, rest) = words.split_once(' ').unwrap_or((words, ""));
        let alloc = self.alloc;
        let next = self.row.lines.len();
        match verb {
            "times" => Ok(self.set_times(rest)),
            "either" | "or" => self.add_branch(verb, rest),
            "end" => self.end_branches(),
            "step" => Ok(self.set_kind(Kind::StopsAt(next))),
            "loop" => Ok(self.set_kind(Kind::StopsFrom(next))),
            "stopped" => {
                self.whose = Whose::Stopped;
                Ok(true)
            }
            "again" => self.add_again(rest),
            "fault" => Ok(self.set_fault(next)),
            _ => self.row.set(alloc, verb, rest),
        }
    }

    fn set_times(&mut self, word: &str) -> bool {
        match word.parse::<u32>() {
            Ok(times) => {
                self.times = times;
                true
            }
            Err(_) => false,
        }
    }

    fn set_kind(&mut self, kind: Kind) -> bool {
        self.row.kind = kind;
        true
    }

    fn set_fault(&mut self, line: usize) -> bool {
        self.row.table.fault = Some(line);
        true
    }

    fn add_branch(&mut self, verb: &str, guard: &str) -> Result<bool, AllocError> {
        let branch = Branch {
            guard: guard_of(self.alloc, guard)?,
            lines: Vec::new(self.alloc),
        };
        match &mut self.branches {
            None if verb == "either" => {
                let mut branches = Vec::new(self.alloc);
                branches.push(branch)?;
                self.branches = Some(branches);
                Ok(true)
            }
            Some(branches) if verb == "or" => {
                branches.push(branch)?;
                Ok(true)
            }
            _ => Ok(false),
        }
    }

    fn end_branches(&mut self) -> Result<bool, AllocError> {
        match self.branches.take() {
            Some(branches) => self.push_reply(Reply::OneOf(branches)),
            None => Ok(false),
        }
    }

    fn add_again(&mut self, restart: &str) -> Result<bool, AllocError> {
        let again = Again {
            restart: String::from_str(self.alloc, restart)?,
            replies: Vec::new(self.alloc),
        };
        match self.row.lines.last_mut() {
            Some(line) => line.agains.push(again)?,
            None => return Ok(false),
        }
        self.whose = Whose::Again;
        Ok(true)
    }
}

fn add_to_branch(branches: &mut Vec<Branch>, line: String) -> Result<bool, AllocError> {
    match branches.last_mut() {
        Some(branch) => {
            branch.lines.push(line)?;
            Ok(true)
        }
        None => Ok(false),
    }
}

fn add_to_again(lines: &mut Vec<PlanLine>, reply: Reply) -> Result<bool, AllocError> {
    let Some(line) = lines.last_mut() else {
        return Ok(false);
    };
    let Some(again) = line.agains.last_mut() else {
        return Ok(false);
    };
    again.replies.push(reply)?;
    Ok(true)
}

// A name and a range, or none where there are no words.
fn guard_of(alloc: Global, words: &str) -> Result<Option<Guard>, AllocError> {
    let Some((name, range)) = words.split_once(' ') else {
        return Ok(None);
    };
    Ok(Some(Guard {
        name: String::from_str(alloc, name)?,
        range: String::from_str(alloc, range)?,
    }))
}

// A row without lines: one run, with the word `run`.
fn empty_row(alloc: Global) -> Result<Row, AllocError> {
    let mut words = Vec::new(alloc);
    words.push(String::from_str(alloc, "run")?)?;
    Ok(Row {
        setting: Setting {
            over: Over::Memory,
            turns: Vec::new(alloc),
            words,
            reads: Vec::new(alloc),
            writes: Vec::new(alloc),
            disks: Vec::new(alloc),
            tail: Tail::Ended,
        },
        lines: Vec::new(alloc),
        ending: Ending {
            status: 0,
            said: String::new(alloc),
            held: Vec::new(alloc),
        },
        kind: Kind::Single,
        table: Table {
            nodes: Vec::new(alloc),
            disks: Vec::new(alloc),
            second: None,
            tears: Vec::new(alloc),
            stopped: Vec::new(alloc),
            failing: Vec::new(alloc),
            fault: None,
        },
    })
}
