//! A summary, and its text.
ghost use Rattle.std.specs.Prelude.{◌≡◌, ◌∷◌, ◌++◌, decimal, OnOk, OnErr};
ghost use Rattle.load_summary.specs.Summary.{summary_text, counts_text, named_line, taken_line, lists_line};

use std::alloc::{AllocError, Global};

/// How many lines were answered, and how many of the replies have each first word. A number stands still at
/// 18,446,744,073,709,551,615.
#[derive(Clone, Copy, Debug, PartialEq, Eq)]
pub struct Counts {
    /// The lines with replies.
    pub steps: u64,
    /// Replies that begin with `ok`.
    pub done: u64,
    /// Replies that begin with `no`.
    pub refused: u64,
    /// Replies that begin with `stopped`.
    pub stopped: u64,
}

/// What a backup took over and listed.
#[derive(Clone, Copy, Debug, PartialEq, Eq)]
pub struct Taken {
    /// The position up to which its last takeover came, 0 where none ended.
    pub upto: u64,
    /// How many rows its lists have, all together.
    pub rows: u64,
}

/// What the summary of a run says.
#[derive(Clone, Copy, Debug, PartialEq, Eq)]
pub struct Summary {
    /// Its lines and replies.
    pub counts: Counts,
    /// The first backup.
    pub b: Taken,
    /// The second backup.
    pub c: Taken,
    /// Whether both backups list the same rows of each volume.
    pub equal: bool,
}

impl Summary {
    /// Adds the seven lines of the summary. An `Err` changes nothing.
    pub fn text(&self, out: &mut Vec<u8>) -> Result<(), AllocError>
        ensures ok { OnOk result (out.new.items ≡ out.old.items ++ summary_text self.now) }
        ensures err { OnErr result (out.new.items ≡ out.old.items) }
    {
        let mut text = Vec::new(*out.allocator());
        push_summary(*self, &mut text)?;
        out.extend_from_slice(&text)
    }
}

fn push_summary(summary: Summary, text: &mut Vec<u8>) -> Result<(), AllocError>
    ensures { OnOk result (text.new.items ≡ text.old.items ++ summary_text summary) }
{
    push_counts(summary.counts, text)?;
    push_taken(b"b", summary.b, text)?;
    push_taken(b"c", summary.c, text)?;
    push_lists(summary.equal, text)
}

fn push_counts(counts: Counts, text: &mut Vec<u8>) -> Result<(), AllocError>
    ensures { OnOk result (text.new.items ≡ text.old.items ++ counts_text counts) }
{
    push_named(b"steps", counts.steps, text)?;
    push_named(b"ok", counts.done, text)?;
    push_named(b"no", counts.refused, text)?;
    push_named(b"stopped", counts.stopped, text)
}

fn push_named(name: &[u8], n: u64, text: &mut Vec<u8>) -> Result<(), AllocError>
    ensures { OnOk result (text.new.items ≡ text.old.items ++ named_line name.now n) }
{
    push_text(name, text)?;
    push_number(n, text)?;
    push_text(b"\n", text)
}

fn push_taken(name: &[u8], taken: Taken, text: &mut Vec<u8>) -> Result<(), AllocError>
    ensures { OnOk result (text.new.items ≡ text.old.items ++ taken_line name.now taken) }
{
    push_text(name, text)?;
    push_number(taken.upto, text)?;
    push_text(b" rows", text)?;
    push_number(taken.rows, text)?;
    push_text(b"\n", text)
}

fn push_lists(equal: bool, text: &mut Vec<u8>) -> Result<(), AllocError>
    ensures { OnOk result (text.new.items ≡ text.old.items ++ lists_line equal) }
{
    if equal {
        push_text(b"lists equal\n", text)
    } else {
        push_text(b"lists differ\n", text)
    }
}

fn push_text(more: &[u8], text: &mut Vec<u8>) -> Result<(), AllocError>
    ensures { OnOk result (text.new.items ≡ text.old.items ++ more.now) }
{
    text.extend_from_slice(more)
}

// The number behind a space.
fn push_number(n: u64, text: &mut Vec<u8>) -> Result<(), AllocError>
    ensures { OnOk result (text.new.items ≡ text.old.items ++ 32 ∷ decimal n) }
{
    let digits = n.to_string(*text.allocator())?;
    push_text(b" ", text)?;
    push_text(digits.as_bytes(), text)
}
