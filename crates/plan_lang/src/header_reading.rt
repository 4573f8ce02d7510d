//! Reading the header of a plan.
ghost use Rattle.std.specs.Prelude.{◌≤◌, take, IfOk};
ghost use Rattle.plan_lang.specs.LineReading.{Gives, words_left};
ghost use Rattle.plan_lang.specs.PlanReading.{heading_read};
ghost use Rattle.plan_lang.specs.TextShown.{GivesOf};
ghost use Rattle.plan_lang.specs.Grammar.{named, numbers_at, number_behind, numbers_behind, header_line, setting_line, heading_in};

use crate::header::Header;
use crate::line_words::Words;
use crate::text::Text;
use crate::text_lines::next_line;
use crate::why::{BadLine, PlanWhy};

/// What the header says, and what stands behind it.
#[tactic(auto, unfolding(crate::specs::Grammar::heading_in))]
pub fn header_at(text: Text<'_>) -> Result<(Header, Text<'_>), BadLine>
    ensures value { GivesOf heading_read result text.entry heading_in }
{
    let (_, text) = setting(b"rdfplan", 1, 1, text)?;
    let (backups, text) = setting(b"backups", 1, 2, text)?;
    let (volumes, text) = setting(b"volumes", 1, 16, text)?;
    let (backups, volumes) = (backups as u8, volumes as u8);
    let (trails, text) = digits(b"trail", volumes, 3, text)?;
    let (protect, text) = digits(b"protect", volumes, 1, text)?;
    let (extent, text) = setting(b"extent", 1, 10_000, text)?;
    let (retain, text) = setting(b"retain", 2, 64, text)?;
    let (_, text) = digits(b"go", 0, 0, text)?;
    let header = Header {
        backups,
        volumes,
        trails,
        protect,
        extent,
        retain,
    };
    Ok((header, text))
}

// The number of a line that begins with a name.
#[tactic(auto, unfolding(crate::specs::Grammar::setting_line))]
fn setting<'a>(name: &[u8], from: u32, to: u32, text: Text<'a>) -> Result<(u32, Text<'a>), BadLine>
    ensures value { GivesOf (λ n. n) result text.entry (setting_line name.now from to) }
    ensures low { IfOk result (λ x. from ≤ x.0) }
    ensures high { IfOk result (λ x. x.0 ≤ to) }
{
    let line = next_line(text)?;
    match number_of(name, from, to, line.words) {
        Ok((number, _)) => Ok((number, line.behind)),
        Err(_) => Err(BadLine {
            line: line.number,
            why: PlanWhy::Header,
        }),
    }
}

// The digits of a line that begins with a name, at most 9 each.
#[tactic(auto, unfolding(crate::specs::Grammar::header_line))]
fn digits<'a>(
    name: &[u8],
    count: u8,
    top: u32,
    text: Text<'a>,
) -> Result<([u8; 16], Text<'a>), BadLine>
    requires count { count ≤ 16 }
    requires top { top ≤ 9 }
    ensures { GivesOf (take count) result text.entry (header_line name.now count 0 top) }
{
    let line = next_line(text)?;
    match digits_of(name, count, top, line.words) {
        Ok(digits) => Ok((digits, line.behind)),
        Err(_) => Err(BadLine {
            line: line.number,
            why: PlanWhy::Header,
        }),
    }
}

fn number_of<'a>(
    name: &[u8],
    from: u32,
    to: u32,
    words: Words<'a>,
) -> Result<(u32, Words<'a>), PlanWhy>
    ensures value { Gives (λ x. (x.0, words_left x.1)) result (number_behind name.now from to (words_left words.entry)) }
    ensures low { IfOk result (λ x. from ≤ x.0) }
    ensures high { IfOk result (λ x. x.0 ≤ to) }
{
    let words = behind_name(name, 1, words)?;
    words.number(from, to)
}

fn digits_of(name: &[u8], count: u8, top: u32, words: Words<'_>) -> Result<[u8; 16], PlanWhy>
    requires count { count ≤ 16 }
    requires top { top ≤ 9 }
    ensures { Gives (λ digits. take count digits) result (numbers_behind name.now count 0 top (words_left words.entry)) }
{
    let words = behind_name(name, count, words)?;
    digits_at(count, top, words)
}

// The words behind a name, if there are so many.
#[tactic(auto, unfolding(crate::specs::Grammar::named))]
fn behind_name<'a>(name: &[u8], count: u8, words: Words<'a>) -> Result<Words<'a>, PlanWhy>
    ensures { Gives words_left result (named name.now count (words_left words.entry)) }
{
    let (first, words) = words.next()?;
    if first == name && words.has_count(count as usize) {
        Ok(words)
    } else {
        Err(PlanWhy::Header)
    }
}

fn digits_at(count: u8, top: u32, words: Words<'_>) -> Result<[u8; 16], PlanWhy>
    requires count { count ≤ 16 }
    requires top { top ≤ 9 }
    ensures { Gives (λ digits. take count digits) result (numbers_at 0 top count (words_left words.entry)) }
{
    let mut digits = [0u8; 16];
    let mut words = words;
    for i in 0..count {
        let (digit, behind) = words.number(0, top)?;
        digits[i as usize] = digit as u8;
        words = behind;
    }
    Ok(digits)
}
