//! Reading a text line by line.
ghost use Rattle.std.specs.Prelude.{◌≡◌, ◌≢◌, ◌+◌, ◌≤◌, ◌<◌, ◌==◌, ◌∷◌, [], length, false, IfOk};
ghost use Rattle.std.specs.List.{list_all};
ghost use Rattle.plan_lang.specs.LineText.{is_printed};
ghost use Rattle.plan_lang.specs.LineReading.{Gives, words_left};
ghost use Rattle.plan_lang.specs.Words.{lines_in, is_remark};
ghost use Rattle.plan_lang.specs.Grammar.{checked, next_line};
ghost use Rattle.plan_lang.specs.TextShown.{next_of};

use crate::line_words::Words;
use crate::text::{NextLine, Text};
use crate::why::{BadLine, PlanWhy};
use crate::words::split_at_byte;

/// The lines that a plan may have at most.
const MOST_LINES: u32 = 20_000;

/// The next line that is no comment, or the end.
pub fn next_line(text: Text<'_>) -> Result<NextLine<'_>, BadLine>
    ensures value { Gives next_of result (next_line text.entry.number (lines_in text.entry.rest.now)) }
    ensures further { IfOk result (λ x. (length (words_left x.words) == 0) ≡ false → text.entry.number < x.behind.number) }
{
    let mut rest = text.rest;
    let mut number = text.number;
    while !rest.is_empty() {
        let (line, behind) = first_line(rest);
        let words = checked(number, line)?;
        if !words.has_count(0) {
            return Ok(found(number, words, behind));
        }
        rest = behind;
        number += 1;
    }
    Ok(NextLine {
        number,
        words: Words { rest },
        behind: Text { rest, number },
    })
}

// The line of this number, and what stands behind it.
fn found<'a>(number: u32, words: Words<'a>, rest: &'a [u8]) -> NextLine<'a>
    requires { number ≤ 20000 }
    ensures { next_of result ≡ record { number = number; words = words_left words.entry; after = number + 1; behind = lines_in rest.now } }
{
    let number_after = number + 1;
    NextLine {
        number,
        words,
        behind: Text {
            rest,
            number: number_after,
        },
    }
}

// The first line, and what stands behind it.
fn first_line(bytes: &[u8]) -> (&[u8], &[u8])
    requires { bytes.now ≢ [] }
    ensures value { lines_in bytes.now ≡ result.0.now ∷ lines_in result.1.now }
    ensures shorter { length result.1.now < length bytes.now }
{
    match split_at_byte(b'\n', bytes) {
        Some(parts) => parts,
        None => (bytes, b""),
    }
}

// The words of the line of this number, of which a comment has none.
#[tactic(auto, unfolding(crate::specs::Grammar::checked))]
fn checked(number: u32, line: &[u8]) -> Result<Words<'_>, BadLine>
    ensures value { Gives words_left result (checked number line.now) }
    ensures few { IfOk result (λ _. number ≤ 20000) }
{
    if number > MOST_LINES {
        return Err(BadLine {
            line: number,
            why: PlanWhy::TooManyLines,
        });
    }
    if !is_printed(line) {
        return Err(BadLine {
            line: number,
            why: PlanWhy::NotAscii,
        });
    }
    if is_remark(line) {
        Ok(Words { rest: b"" })
    } else {
        Ok(Words { rest: line })
    }
}

fn is_printed(line: &[u8]) -> bool
    ensures { result ≡ list_all is_printed line.now }
{
    line.iter().all(|&b| b >= 32 && b <= 126)
}

fn is_remark(line: &[u8]) -> bool
    ensures { result ≡ is_remark line.now }
{
    match line {
        [b, ..] => *b == b'#',
        [] => false,
    }
}
