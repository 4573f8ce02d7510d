//! Reading plans.
ghost use Rattle.std.specs.Prelude.{◌≡◌, ◌∷◌, ◌++◌, [], ℕ, true, false, Ok, Err, None, map, IfOk, IsOkAnd};
ghost use Rattle.plan_lang.specs.declared.lines.Plan.{Plan as PlanValue};
ghost use Rattle.plan_lang.specs.declared.why.PlanWhy.{PlanWhy as WhyValue};
ghost use Rattle.plan_lang.specs.PlanText.{IsPlan};
ghost use Rattle.plan_lang.specs.LineReading.{Gives, words_left, line_in};
ghost use Rattle.plan_lang.specs.LineShown.{line_of};
ghost use Rattle.plan_lang.specs.PlanReading.{IsHeading, heading_of, heading_read, is_one, placed_or};
ghost use Rattle.plan_lang.specs.Words.{lines_in};
ghost use Rattle.plan_lang.specs.Grammar.{fault_at, since_after, ended, lines_from, plan_in, Reads, IsBad};
ghost use Rattle.plan_lang.specs.PlanShown.{Makes, HaveNoFuse};

use crate::header::Header;
use crate::header_reading::header_at;
use crate::line_at::LineAt;
use crate::line_reading::{line_at, owned_line};
use crate::line_words::Words;
use crate::lines::{Line, Lines, Plan};
use crate::plan_fault::PlanFault;
use crate::session::{goes_in, goes_outside, session_after};
use crate::text::{NextLine, Text};
use crate::text_lines::next_line;
use crate::why::{BadLine, PlanWhy};
use rdf_types::layout::{Layout, Protection, VolumeTrails};
use rdf_types::records::Node;
use std::alloc::{AllocError, Global};

/// The plan that the bytes are, or the first bad line.
pub fn read_plan(alloc: Global, bytes: &[u8]) -> Result<Plan, PlanFault>
    ensures found { IfOk result (λ plan. IsPlan plan × Reads true bytes.now plan) }
    ensures bad { (line : ℕ) (why : WhyValue) → result ≡ Err (PlanFault.Bad line why) → IsBad true bytes.now line why }
    // Want of memory comes only in place of a plan.
    ensures no_memory { result ≡ Err PlanFault.NoMemory → (plan : PlanValue) × IsPlan plan × Reads true bytes.now plan }
{
    plan_of(alloc, true, bytes)
}

/// The same where no disks are, so that no line begins with `fuse`.
pub fn read_plan_for_predict(alloc: Global, bytes: &[u8]) -> Result<Plan, PlanFault>
    ensures found { IfOk result (λ plan. IsPlan plan × Reads false bytes.now plan) }
    ensures no_fuse { IfOk result (λ plan. HaveNoFuse plan.lines) }
    ensures bad { (line : ℕ) (why : WhyValue) → result ≡ Err (PlanFault.Bad line why) → IsBad false bytes.now line why }
    // Want of memory comes only in place of a plan.
    ensures no_memory { result ≡ Err PlanFault.NoMemory → (plan : PlanValue) × IsPlan plan × Reads false bytes.now plan }
{
    plan_of(alloc, false, bytes)
}

#[tactic(auto, unfolding(crate::specs::Grammar::plan_in))]
fn plan_of(alloc: Global, fuses: bool, bytes: &[u8]) -> Result<Plan, PlanFault>
    ensures { Makes (λ plan. (heading_of plan.layout, plan.lines)) result (plan_in fuses bytes.now) }
{
    let text = Text {
        rest: bytes,
        number: 1,
    };
    let (header, text) = header_at(text)?;
    let lines = read_lines(alloc, fuses, header.backups, text)?;
    let layout = layout_of(alloc, header)?;
    Ok(Plan { layout, lines })
}

fn read_lines(alloc: Global, fuses: bool, backups: u8, text: Text<'_>) -> Result<Lines, PlanFault>
    ensures { Makes (λ lines. lines) result (lines_from fuses backups None 0 text.entry.number (lines_in text.entry.rest.now)) }
{
    let mut lines: Result<Lines, AllocError> = Ok(Lines::new(alloc));
    let mut session = None;
    let mut since = 0;
    let mut text = text;
    loop {
        let NextLine {
            number,
            words,
            behind,
        } = next_line(text)?;
        if words.has_count(0) {
            check_ended(session, since)?;
            return Ok(lines?);
        }
        let line = placed_line(fuses, backups, session, number, words)?;
        since = since_after(number, since, &line);
        session = session_after(session, &line);
        lines = with_line(alloc, lines, line);
        text = behind;
    }
}

// At the end no session may be open.
fn check_ended(session: Option<Node>, since: u32) -> Result<(), BadLine>
    ensures { Gives (λ _. []) result (ended session since) }
{
    match session {
        None => Ok(()),
        Some(_) => Err(BadLine {
            line: since,
            why: PlanWhy::SessionOpen,
        }),
    }
}

// Where the session began that is open behind the line of this number.
fn since_after(number: u32, since: u32, line: &LineAt<'_>) -> u32
    ensures { result ≡ since_after number since (line_of line.now) }
{
    match line {
        LineAt::Insert { .. } => since,
        LineAt::Update { .. } => since,
        LineAt::Delete { .. } => since,
        LineAt::Get { .. } => since,
        LineAt::Read { .. } => since,
        LineAt::Plain { line } => since_after_plain(number, since, line),
    }
}

fn since_after_plain(number: u32, since: u32, line: &Line) -> u32
    ensures { result ≡ since_after number since line.now }
{
    match line {
        Line::Session { .. } => number,
        _ => since,
    }
}

// The lines with one more, unless memory ran out before or does so now.
fn with_line(
    alloc: Global,
    lines: Result<Lines, AllocError>,
    line: LineAt<'_>,
) -> Result<Lines, AllocError>
    ensures { IfOk result (λ more. IsOkAnd lines (λ before. more ≡ before ++ line_of line.entry ∷ [])) }
{
    let mut lines = lines?;
    lines.push(owned_line(alloc, line)?)?;
    Ok(lines)
}

// The line of these words, with its number where it is bad.
fn placed_line(
    fuses: bool,
    backups: u8,
    session: Option<Node>,
    number: u32,
    words: Words<'_>,
) -> Result<LineAt<'_>, BadLine>
    ensures { Gives line_of result (fault_at number (placed_or session (line_in fuses backups (words_left words.entry)))) }
{
    match line_in_place(fuses, backups, session, words) {
        Ok(line) => Ok(line),
        Err(why) => Err(BadLine { line: number, why }),
    }
}

// The line of these words, where the session of this node is open, or none.
fn line_in_place(
    fuses: bool,
    backups: u8,
    session: Option<Node>,
    words: Words<'_>,
) -> Result<LineAt<'_>, PlanWhy>
    ensures { Gives line_of result (placed_or session (line_in fuses backups (words_left words.entry))) }
{
    let line = line_at(fuses, backups, words)?;
    match session {
        None => {
            if goes_outside(&line) {
                Ok(line)
            } else {
                Err(PlanWhy::NotInSession)
            }
        }
        Some(of) => {
            if goes_in(of, &line) {
                Ok(line)
            } else {
                Err(PlanWhy::SessionOpen)
            }
        }
    }
}

fn layout_of(alloc: Global, header: Header) -> Result<Layout, AllocError>
    requires { IsHeading (heading_read header) }
    ensures { IfOk result (λ layout. heading_of layout ≡ heading_read header) }
{
    let volumes = header.volumes as usize;
    let trail_of = trails_of(alloc, &header.trails[..volumes])?;
    let protect = protection_of(alloc, &header.protect[..volumes])?;
    Ok(Layout {
        backups: header.backups,
        volumes: header.volumes,
        trail_of,
        protect,
        extent: header.extent,
        retain: header.retain,
    })
}

fn trails_of(alloc: Global, numbers: &[u8]) -> Result<VolumeTrails, AllocError>
    ensures { IfOk result (λ trails. trails ≡ numbers.now) }
{
    let mut trails = VolumeTrails::new(alloc);
    for number in numbers {
        trails.push(*number)?;
    }
    Ok(trails)
}

fn protection_of(alloc: Global, digits: &[u8]) -> Result<Protection, AllocError>
    ensures { IfOk result (λ flags. flags ≡ map is_one digits.now) }
{
    let mut flags = Protection::new(alloc);
    for digit in digits {
        flags.push(*digit == 1)?;
    }
    Ok(flags)
}
