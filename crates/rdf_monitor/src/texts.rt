//! The text of each reply.
ghost use Rattle.std.specs.Prelude.{◌≡◌, [], ◌∷◌, ◌++◌, decimal, codes, IfOk, OnOk, OnErr};
ghost use Rattle.std.specs.List.{flat_map, enumerate_from};
ghost use Rattle.plan_lang.specs.Words.{text_line};
ghost use Rattle.rdf_core.specs.Text.{text, row_line, volume_line, flag as word_of, phase_words, why_words};
ghost use Rattle.rdf_core.specs.declared.replies.Reply.{Reply};
ghost use Rattle.rdf_monitor.specs.Words.{with_words};

use crate::lines::{end_line, push_named, push_number, push_word};
use rdf_core::replies::{NoWhy, Reply, VolInfo};
use rdf_types::records::{Node, Phase, Pos, Row};
use std::alloc::{AllocError, Global};

/// Adds the text of a reply, each of its lines with the byte that ends it. An `Err` changes nothing.
pub fn text_of(reply: &Reply, out: &mut Vec<u8>) -> Result<(), AllocError>
    ensures ok { OnOk result (out.new.items ≡ out.old.items ++ text reply.now) }
    ensures err { OnErr result (out.new.items ≡ out.old.items) }
{
    let text = reply_text(*out.allocator(), reply)?;
    out.extend_from_slice(&text)
}

fn reply_text(alloc: Global, reply: &Reply) -> Result<Vec<u8>, AllocError>
    ensures { IfOk result (λ v. v.items ≡ text reply.now) }
{
    match reply {
        Reply::Done => Vec::from_slice(alloc, b"ok\n"),
        Reply::Number { n } => number_text(alloc, *n),
        Reply::Got { value } => word_text(alloc, value.bytes()),
        Reply::Sent { k, from, to } => sent_text(alloc, *k, *from, *to),
        Reply::NoneSent => word_text(alloc, b"none"),
        Reply::Holds { at, value } => holds_text(alloc, *at, value.bytes()),
        Reply::Absent { at } => absent_text(alloc, *at),
        Reply::Rows { at, rows } => rows_text(alloc, *at, rows.rows()),
        Reply::Info { volumes } => volumes_text(alloc, volumes.volumes()),
        Reply::PrimaryUp { len, active } => primary_text(alloc, *len, *active),
        Reply::NodeDown => word_text(alloc, b"down"),
        Reply::NodeLost => word_text(alloc, b"lost"),
        Reply::BackupUp {
            phase,
            received,
            kept,
            generations,
            unended,
        } => backup_text(alloc, *phase, *received, *kept, *generations, *unended),
        Reply::Stopped { node } => stopped_text(alloc, *node),
        Reply::No { why } => refusal_text(alloc, *why),
    }
}

fn number_text(alloc: Global, n: u64) -> Result<Vec<u8>, AllocError>
    ensures { IfOk result (λ v. v.items ≡ text (Reply.Number n)) }
{
    let mut line = Vec::from_slice(alloc, b"ok")?;
    push_number(&mut line, n)?;
    end_line(&mut line)?;
    Ok(line)
}

fn word_text(alloc: Global, word: &[u8]) -> Result<Vec<u8>, AllocError>
    ensures { IfOk result (λ v. v.items ≡ text_line (codes "ok" ∷ word.now ∷ [])) }
{
    let mut line = Vec::from_slice(alloc, b"ok")?;
    push_word(&mut line, word)?;
    end_line(&mut line)?;
    Ok(line)
}

fn sent_text(alloc: Global, k: u32, from: Pos, to: Pos) -> Result<Vec<u8>, AllocError>
    ensures { IfOk result (λ v. v.items ≡ text (Reply.Sent k from to)) }
{
    let mut line = Vec::from_slice(alloc, b"ok")?;
    push_number(&mut line, u64::from(k))?;
    push_number(&mut line, from)?;
    push_number(&mut line, to)?;
    end_line(&mut line)?;
    Ok(line)
}

fn holds_text(alloc: Global, at: Pos, value: &[u8]) -> Result<Vec<u8>, AllocError>
    ensures { IfOk result (λ v. v.items ≡ text_line (codes "ok" ∷ decimal at ∷ codes "holds" ∷ value.now ∷ [])) }
{
    let mut line = Vec::from_slice(alloc, b"ok")?;
    push_number(&mut line, at)?;
    push_word(&mut line, b"holds")?;
    push_word(&mut line, value)?;
    end_line(&mut line)?;
    Ok(line)
}

fn absent_text(alloc: Global, at: Pos) -> Result<Vec<u8>, AllocError>
    ensures { IfOk result (λ v. v.items ≡ text (Reply.Absent at)) }
{
    let mut line = Vec::from_slice(alloc, b"ok")?;
    push_number(&mut line, at)?;
    push_word(&mut line, b"absent")?;
    end_line(&mut line)?;
    Ok(line)
}

fn rows_text(alloc: Global, at: Pos, rows: &[Row]) -> Result<Vec<u8>, AllocError>
    ensures { IfOk result (λ v. v.items ≡ text (Reply.Rows at rows.now)) }
{
    let mut lines = Vec::from_slice(alloc, b"ok")?;
    push_number(&mut lines, at)?;
    push_number(&mut lines, rows.len() as u64)?;
    end_line(&mut lines)?;
    push_rows(&mut lines, rows)?;
    Ok(lines)
}

fn push_rows(lines: &mut Vec<u8>, rows: &[Row]) -> Result<(), AllocError>
    ensures { OnOk result (lines.new.items ≡ lines.old.items ++ flat_map row_line rows.now) }
{
    for row in rows {
        push_row(lines, row)?;
    }
    Ok(())
}

fn push_row(lines: &mut Vec<u8>, row: &Row) -> Result<(), AllocError>
    ensures { OnOk result (lines.new.items ≡ lines.old.items ++ row_line row.now) }
{
    lines.extend_from_slice(row.file.bytes())?;
    push_word(lines, row.key.bytes())?;
    push_word(lines, row.value.bytes())?;
    end_line(lines)
}

fn volumes_text(alloc: Global, volumes: &[VolInfo]) -> Result<Vec<u8>, AllocError>
    ensures { IfOk result (λ v. v.items ≡ text (Reply.Info volumes.now)) }
{
    let mut lines = Vec::from_slice(alloc, b"ok")?;
    push_number(&mut lines, volumes.len() as u64)?;
    end_line(&mut lines)?;
    push_volumes(&mut lines, volumes)?;
    Ok(lines)
}

fn push_volumes(lines: &mut Vec<u8>, volumes: &[VolInfo]) -> Result<(), AllocError>
    ensures { OnOk result (lines.new.items ≡ lines.old.items ++ flat_map volume_line (enumerate_from 0 volumes.now)) }
{
    for (number, volume) in volumes.iter().enumerate() {
        push_volume(lines, number as u64, volume)?;
    }
    Ok(())
}

fn push_volume(lines: &mut Vec<u8>, number: u64, volume: &VolInfo) -> Result<(), AllocError>
    ensures { OnOk result (lines.new.items ≡ lines.old.items ++ volume_line (number, volume.now)) }
{
    lines.extend_from_slice(b"volume")?;
    push_number(lines, number)?;
    push_named(lines, b"trail", u64::from(volume.trail))?;
    push_word(lines, b"protected")?;
    push_word(lines, flag_word(volume.protect))?;
    push_named(lines, b"at", volume.at)?;
    end_line(lines)?;
    Ok(())
}

fn flag_word(flag: bool) -> &'static [u8]
    ensures { result.now ≡ word_of flag }
{
    if flag { b"1" } else { b"0" }
}

fn primary_text(alloc: Global, len: Pos, active: u32) -> Result<Vec<u8>, AllocError>
    ensures { IfOk result (λ v. v.items ≡ text (Reply.PrimaryUp len active)) }
{
    let mut line = Vec::from_slice(alloc, b"ok up trail")?;
    push_number(&mut line, len)?;
    push_named(&mut line, b"open", u64::from(active))?;
    end_line(&mut line)?;
    Ok(line)
}

fn backup_text(
    alloc: Global,
    phase: Phase,
    received: Pos,
    kept: Pos,
    generations: u32,
    unended: u32,
) -> Result<Vec<u8>, AllocError>
    ensures { IfOk result (λ v. v.items ≡ text (Reply.BackupUp phase received kept generations unended)) }
{
    let mut line = Vec::from_slice(alloc, b"ok up")?;
    push_phase(&mut line, phase)?;
    push_named(&mut line, b"received", received)?;
    push_named(&mut line, b"kept", kept)?;
    push_named(&mut line, b"generations", u64::from(generations))?;
    push_named(&mut line, b"open", u64::from(unended))?;
    end_line(&mut line)?;
    Ok(line)
}

fn push_phase(line: &mut Vec<u8>, phase: Phase) -> Result<(), AllocError>
    ensures { OnOk result (line.new.items ≡ with_words line.old.items (phase_words phase)) }
{
    match phase {
        Phase::Running => push_word(line, b"running"),
        Phase::Taking => push_word(line, b"taking"),
        Phase::Taken { upto } => {
            push_word(line, b"taken")?;
            push_number(line, upto)
        }
    }
}

fn stopped_text(alloc: Global, node: Node) -> Result<Vec<u8>, AllocError>
    ensures { IfOk result (λ v. v.items ≡ text (Reply.Stopped node)) }
{
    match node {
        Node::A => Vec::from_slice(alloc, b"stopped a\n"),
        Node::B => Vec::from_slice(alloc, b"stopped b\n"),
        Node::C => Vec::from_slice(alloc, b"stopped c\n"),
    }
}

fn refusal_text(alloc: Global, why: NoWhy) -> Result<Vec<u8>, AllocError>
    ensures { IfOk result (λ v. v.items ≡ text (Reply.No why)) }
{
    let mut line = Vec::from_slice(alloc, b"no")?;
    push_why(&mut line, why)?;
    end_line(&mut line)?;
    Ok(line)
}

fn push_why(line: &mut Vec<u8>, why: NoWhy) -> Result<(), AllocError>
    ensures { OnOk result (line.new.items ≡ with_words line.old.items (why_words why)) }
{
    match why {
        NoWhy::Lost => push_word(line, b"lost"),
        NoWhy::Down => push_word(line, b"down"),
        NoWhy::Up => push_word(line, b"up"),
        NoWhy::PrimaryUp => push_word(line, b"primary-up"),
        NoWhy::Running => push_word(line, b"running"),
        NoWhy::Taking => push_word(line, b"taking"),
        NoWhy::Taken => push_word(line, b"taken"),
        NoWhy::Used => push_word(line, b"used"),
        NoWhy::Txn => push_word(line, b"txn"),
        NoWhy::Volume => push_word(line, b"volume"),
        NoWhy::Locked { by } => push_named(line, b"locked", u64::from(by.0)),
        NoWhy::Exists => push_word(line, b"exists"),
        NoWhy::Missing => push_word(line, b"missing"),
        NoWhy::Message => push_word(line, b"message"),
        NoWhy::Gap { received } => push_named(line, b"gap", received),
        NoWhy::Purged { first } => push_named(line, b"purged", first),
    }
}
