//! What was written, against the replies of a row.
use crate::row::{Branch, Guard, PlanLine, Reply};
use std::alloc::{AllocError, Global};

/// A name of a row with its number.
#[derive(Drop)]
struct Named {
    name: String,
    number: u64,
}

/// Where a cursor stands: how many lines are passed, and how many names stand for numbers.
#[derive(Clone, Copy, Debug, PartialEq, Eq)]
pub struct Mark {
    at: usize,
    named: usize,
}

/// The lines that were written, how many of them are passed, and the numbers that names stand for.
#[derive(Drop)]
pub struct Cursor<'a> {
    alloc: Global,
    lines: Vec<&'a str>,
    at: usize,
    named: Vec<Named>,
    wanted: Option<String>,
}

impl<'a> Cursor<'a> {
    /// Before the first line of a text.
    pub fn new(alloc: Global, text: &'a str) -> Result<Cursor<'a>, AllocError> {
        let mut lines = Vec::new(alloc);
        for line in text.split('\n') {
            lines.push(line)?;
        }
        Ok(Cursor {
            alloc,
            lines,
            at: 0,
            named: Vec::new(alloc),
            wanted: None,
        })
    }

    /// From here on the name stands for this number.
    pub fn name(&mut self, name: &str, number: u64) -> Result<(), AllocError> {
        let name = String::from_str(self.alloc, name)?;
        self.named.push(Named { name, number })?;
        Ok(())
    }

    /// Whether all lines are passed, and the last one has its end.
    pub fn is_done(&self) -> bool {
        self.at.saturating_add(1) == self.lines.len() && self.line() == ""
    }

    /// The next line, or what stands behind the last end of a line.
    pub fn line(&self) -> &'a str {
        match self.lines.get(self.at) {
            Some(line) => *line,
            None => "",
        }
    }

    /// Passes lines that are as wanted. Where one is not, some of them may be passed.
    pub fn passes(&mut self, replies: &[Reply]) -> Result<bool, AllocError> {
        for reply in replies {
            let fits = match reply {
                Reply::Line(wanted) => self.passes_line(wanted.as_str())?,
                Reply::OneOf(branches) => self.passes_one_of(branches)?,
            };
            if !fits {
                return Ok(false);
            }
        }
        Ok(true)
    }

    /// Passes the replies to lines of a plan. Where one is not as wanted, some of them may be passed.
    pub fn passes_all(&mut self, lines: &[PlanLine]) -> Result<bool, AllocError> {
        for line in lines {
            if !self.passes(&line.replies)? {
                return Ok(false);
            }
        }
        Ok(true)
    }

    /// Passes the next line if it is as wanted.
    pub fn passes_line(&mut self, wanted: &str) -> Result<bool, AllocError> {
        let is_last = self.at.saturating_add(1) >= self.lines.len();
        let fits = !is_last && self.fits(wanted)?;
        if fits {
            self.at = self.at.saturating_add(1);
            self.wanted = None;
        } else {
            self.wanted = Some(String::from_str(self.alloc, wanted)?);
        }
        Ok(fits)
    }

    /// Where it stands.
    pub fn mark(&self) -> Mark {
        Mark {
            at: self.at,
            named: self.named.len(),
        }
    }

    /// Goes back to where it stood.
    pub fn go_back(&mut self, mark: Mark) {
        self.at = mark.at;
        self.named.truncate(mark.named);
    }

    fn passes_one_of(&mut self, branches: &[Branch]) -> Result<bool, AllocError> {
        for branch in branches {
            let mark = self.mark();
            if self.passes_branch(branch)? {
                return Ok(true);
            }
            self.go_back(mark);
        }
        Ok(false)
    }

    fn passes_branch(&mut self, branch: &Branch) -> Result<bool, AllocError> {
        if !self.allows(&branch.guard) {
            return Ok(false);
        }
        for line in &branch.lines {
            if !self.passes_line(line.as_str())? {
                return Ok(false);
            }
        }
        Ok(true)
    }

    fn allows(&self, guard: &Option<Guard>) -> bool {
        match guard {
            None => true,
            Some(guard) => match self.number_of(guard.name.as_str()) {
                Some(number) => self.is_within(number, guard.range.as_str()),
                None => false,
            },
        }
    }

    // Whether the next line has the wanted words, one by one.
    fn fits(&mut self, wanted: &str) -> Result<bool, AllocError> {
        let mut words = self.line().split(' ');
        for part in wanted.split(' ') {
            let Some(word) = words.next() else {
                return Ok(false);
            };
            if !self.fits_word(part, word)? {
                return Ok(false);
            }
        }
        Ok(words.next().is_none())
    }

    fn fits_word(&mut self, wanted: &str, word: &str) -> Result<bool, AllocError> {
        let Some(named) = between_braces(wanted) else {
            return Ok(wanted == word);
        };
        let Some(number) = number_in(word) else {
            return Ok(false);
        };
        let Some((name, range)) = named.split_once(':') else {
            return Ok(self.number_of(named) == Some(number));
        };
        let fits = self.is_within(number, range);
        if fits {
            self.name(name, number)?;
        }
        Ok(fits)
    }

    // A bound is a number or a name.
    fn is_within(&self, number: u64, range: &str) -> bool {
        let Some((low, high)) = range.split_once('-') else {
            return false;
        };
        match (self.bound_of(low), self.bound_of(high)) {
            (Some(low), Some(high)) => low <= number && number <= high,
            _ => false,
        }
    }

    fn bound_of(&self, word: &str) -> Option<u64> {
        match number_in(word) {
            Some(number) => Some(number),
            None => self.number_of(word),
        }
    }

    fn number_of(&self, name: &str) -> Option<u64> {
        for named in &self.named {
            if named.name.as_str() == name {
                return Some(named.number);
            }
        }
        None
    }

    /// What differs: the number of the next line, what it is, and what was wanted there last.
    pub fn difference(&self) -> Result<String, AllocError> {
        let number = self.at.saturating_add(1);
        let line = self.line();
        let got = if number >= self.lines.len() && line.is_empty() {
            "nothing"
        } else {
            line
        };
        match &self.wanted {
            Some(wanted) => {
                let wanted = wanted.as_str();
                format!(in self.alloc; "line {number} is `{got}`, not `{wanted}`")
            }
            None => format!(in self.alloc; "line {number} is `{got}`, and none is wanted"),
        }
    }
}

fn between_braces(word: &str) -> Option<&str> {
    word.strip_prefix('{')?.strip_suffix('}')
}

// A number of decimal digits, with no zero in front.
fn number_in(word: &str) -> Option<u64> {
    if word.starts_with('+') || (word.starts_with('0') && word.len() > 1) {
        return None;
    }
    word.parse::<u64>().ok()
}
