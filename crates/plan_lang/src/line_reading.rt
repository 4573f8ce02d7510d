//! Reading a line from its words.
ghost use Rattle.std.specs.Prelude.{◌≡◌, ◌≤◌, IfOk};
ghost use Rattle.rdf_types.specs.Limits.{is_text_byte};
ghost use Rattle.plan_lang.specs.declared.lines.Line.TheVariants as line;
ghost use Rattle.plan_lang.specs.LineReading.{Gives, words_left, place_at, number_at, text_at, behind_verb, of_verb, txn_line, change_line, touch_line, backup_line, node_line, shipping_line, read_line, copy_line, list_line, fuse_line, line_in};
ghost use Rattle.plan_lang.specs.LineShown.{place_of, line_of};

use crate::line_at::{LineAt, PlaceAt};
use crate::line_words::Words;
use crate::lines::Line;
use crate::verbs::Verb;
use crate::why::PlanWhy;
use rdf_types::names::{FileName, Key, Value};
use rdf_types::records::{Node, RecKey, TxnId, VolNo};
use std::alloc::{AllocError, Global};

/// The line of these words, or their first fault. It takes no memory.
#[tactic(auto, unfolding(crate::specs::LineReading::line_in))]
pub fn line_at(fuses: bool, backups: u8, words: Words<'_>) -> Result<LineAt<'_>, PlanWhy>
    ensures { Gives line_of result (line_in fuses backups (words_left words.entry)) }
{
    let (first, words) = words.next()?;
    let Some(verb) = Verb::find(fuses, first) else {
        return Err(PlanWhy::Word);
    };
    if words.has_count(verb.count()) {
        behind(backups, verb, words)
    } else {
        Err(PlanWhy::Count)
    }
}

// What stands behind the first word.
fn behind(backups: u8, verb: Verb, words: Words<'_>) -> Result<LineAt<'_>, PlanWhy>
    ensures { Gives line_of result (behind_verb backups verb (words_left words.entry)) }
{
    match verb {
        Verb::Begin => begin(words),
        Verb::Insert => insert(words),
        Verb::Update => update(words),
        Verb::Delete => delete(words),
        Verb::Get => get(words),
        Verb::Commit => commit(words),
        Verb::Abort => abort(words),
        Verb::Send => send(backups, words),
        Verb::Rewind => rewind(backups, words),
        Verb::Ack => ack(backups, words),
        Verb::Deliver => deliver(backups, words),
        Verb::Lose => Ok(LineAt::Plain { line: Line::Lose }),
        Verb::Session => session(backups, words),
        Verb::Read => read(backups, words),
        Verb::Purge => purge(backups, words),
        Verb::End => Ok(LineAt::Plain { line: Line::End }),
        Verb::Takeover => takeover(backups, words),
        Verb::CopyAudit => copy_audit(backups, words),
        Verb::List => list(backups, words),
        Verb::Info => info(backups, words),
        Verb::Status => status(backups, words),
        Verb::Fuse => fuse(backups, words),
        Verb::Cut => cut(backups, words),
        Verb::Restart => restart(backups, words),
    }
}

#[tactic(auto, unfolding(crate::specs::LineReading::txn_line))]
fn begin(words: Words<'_>) -> Result<LineAt<'_>, PlanWhy>
    ensures { Gives line_of result (txn_line line.Begin (words_left words.entry)) }
{
    let (txn, _) = words.number(0, u32::MAX)?;
    let line = Line::Begin { txn: TxnId(txn) };
    Ok(LineAt::Plain { line })
}

#[tactic(auto, unfolding(crate::specs::LineReading::txn_line))]
fn commit(words: Words<'_>) -> Result<LineAt<'_>, PlanWhy>
    ensures { Gives line_of result (txn_line line.Commit (words_left words.entry)) }
{
    let (txn, _) = words.number(0, u32::MAX)?;
    let line = Line::Commit { txn: TxnId(txn) };
    Ok(LineAt::Plain { line })
}

#[tactic(auto, unfolding(crate::specs::LineReading::txn_line))]
fn abort(words: Words<'_>) -> Result<LineAt<'_>, PlanWhy>
    ensures { Gives line_of result (txn_line line.Abort (words_left words.entry)) }
{
    let (txn, _) = words.number(0, u32::MAX)?;
    let line = Line::Abort { txn: TxnId(txn) };
    Ok(LineAt::Plain { line })
}

#[tactic(auto, unfolding(crate::specs::LineReading::change_line))]
fn insert(words: Words<'_>) -> Result<LineAt<'_>, PlanWhy>
    ensures { Gives line_of result (change_line line.Insert (words_left words.entry)) }
{
    let (txn, words) = words.number(0, u32::MAX)?;
    let (place, words) = place(words)?;
    let (value, _) = words.value()?;
    Ok(LineAt::Insert {
        txn: TxnId(txn),
        place,
        value,
    })
}

#[tactic(auto, unfolding(crate::specs::LineReading::change_line))]
fn update(words: Words<'_>) -> Result<LineAt<'_>, PlanWhy>
    ensures { Gives line_of result (change_line line.Update (words_left words.entry)) }
{
    let (txn, words) = words.number(0, u32::MAX)?;
    let (place, words) = place(words)?;
    let (value, _) = words.value()?;
    Ok(LineAt::Update {
        txn: TxnId(txn),
        place,
        value,
    })
}

#[tactic(auto, unfolding(crate::specs::LineReading::touch_line))]
fn delete(words: Words<'_>) -> Result<LineAt<'_>, PlanWhy>
    ensures { Gives line_of result (touch_line line.Delete (words_left words.entry)) }
{
    let (txn, words) = words.number(0, u32::MAX)?;
    let (place, _) = place(words)?;
    Ok(LineAt::Delete {
        txn: TxnId(txn),
        place,
    })
}

#[tactic(auto, unfolding(crate::specs::LineReading::touch_line))]
fn get(words: Words<'_>) -> Result<LineAt<'_>, PlanWhy>
    ensures { Gives line_of result (touch_line line.Get (words_left words.entry)) }
{
    let (txn, words) = words.number(0, u32::MAX)?;
    let (place, _) = place(words)?;
    Ok(LineAt::Get {
        txn: TxnId(txn),
        place,
    })
}

#[tactic(auto, unfolding(crate::specs::LineReading::shipping_line))]
fn send(backups: u8, words: Words<'_>) -> Result<LineAt<'_>, PlanWhy>
    ensures { Gives line_of result (shipping_line backups line.Send 1 64 (words_left words.entry)) }
{
    let (node, words) = words.backup(backups)?;
    let (most, _) = words.number(1, 64)?;
    let line = Line::Send { node, most };
    Ok(LineAt::Plain { line })
}

#[tactic(auto, unfolding(crate::specs::LineReading::shipping_line))]
fn deliver(backups: u8, words: Words<'_>) -> Result<LineAt<'_>, PlanWhy>
    ensures { Gives line_of result (shipping_line backups line.Deliver 0 4294967295 (words_left words.entry)) }
{
    let (node, words) = words.backup(backups)?;
    let (k, _) = words.number(0, u32::MAX)?;
    let line = Line::Deliver { node, k };
    Ok(LineAt::Plain { line })
}

#[tactic(auto, unfolding(crate::specs::LineReading::read_line))]
fn read(backups: u8, words: Words<'_>) -> Result<LineAt<'_>, PlanWhy>
    ensures { Gives line_of result (read_line backups (words_left words.entry)) }
{
    let (node, words) = words.backup(backups)?;
    let (place, _) = place(words)?;
    Ok(LineAt::Read { node, place })
}

#[tactic(auto, unfolding(crate::specs::LineReading::backup_line))]
fn rewind(backups: u8, words: Words<'_>) -> Result<LineAt<'_>, PlanWhy>
    ensures { Gives line_of result (backup_line backups line.Rewind (words_left words.entry)) }
{
    let (node, _) = words.backup(backups)?;
    let line = Line::Rewind { node };
    Ok(LineAt::Plain { line })
}

#[tactic(auto, unfolding(crate::specs::LineReading::backup_line))]
fn ack(backups: u8, words: Words<'_>) -> Result<LineAt<'_>, PlanWhy>
    ensures { Gives line_of result (backup_line backups line.Ack (words_left words.entry)) }
{
    let (node, _) = words.backup(backups)?;
    let line = Line::Ack { node };
    Ok(LineAt::Plain { line })
}

#[tactic(auto, unfolding(crate::specs::LineReading::backup_line))]
fn session(backups: u8, words: Words<'_>) -> Result<LineAt<'_>, PlanWhy>
    ensures { Gives line_of result (backup_line backups line.Session (words_left words.entry)) }
{
    let (node, _) = words.backup(backups)?;
    let line = Line::Session { node };
    Ok(LineAt::Plain { line })
}

#[tactic(auto, unfolding(crate::specs::LineReading::backup_line))]
fn purge(backups: u8, words: Words<'_>) -> Result<LineAt<'_>, PlanWhy>
    ensures { Gives line_of result (backup_line backups line.Purge (words_left words.entry)) }
{
    let (node, _) = words.backup(backups)?;
    let line = Line::Purge { node };
    Ok(LineAt::Plain { line })
}

#[tactic(auto, unfolding(crate::specs::LineReading::backup_line))]
fn takeover(backups: u8, words: Words<'_>) -> Result<LineAt<'_>, PlanWhy>
    ensures { Gives line_of result (backup_line backups line.Takeover (words_left words.entry)) }
{
    let (node, _) = words.backup(backups)?;
    let line = Line::Takeover { node };
    Ok(LineAt::Plain { line })
}

#[tactic(auto, unfolding(crate::specs::LineReading::backup_line))]
fn info(backups: u8, words: Words<'_>) -> Result<LineAt<'_>, PlanWhy>
    ensures { Gives line_of result (backup_line backups line.Info (words_left words.entry)) }
{
    let (node, _) = words.backup(backups)?;
    let line = Line::Info { node };
    Ok(LineAt::Plain { line })
}

#[tactic(auto, unfolding(crate::specs::LineReading::copy_line))]
fn copy_audit(backups: u8, words: Words<'_>) -> Result<LineAt<'_>, PlanWhy>
    ensures { Gives line_of result (copy_line backups (words_left words.entry)) }
{
    let (node, words) = words.backup(backups)?;
    let (from, _) = words.other(backups, node)?;
    let line = Line::CopyAudit { node, from };
    Ok(LineAt::Plain { line })
}

#[tactic(auto, unfolding(crate::specs::LineReading::node_line))]
fn status(backups: u8, words: Words<'_>) -> Result<LineAt<'_>, PlanWhy>
    ensures { Gives line_of result (node_line backups line.Status (words_left words.entry)) }
{
    let (node, _) = words.node(backups)?;
    let line = Line::Status { node };
    Ok(LineAt::Plain { line })
}

#[tactic(auto, unfolding(crate::specs::LineReading::node_line))]
fn cut(backups: u8, words: Words<'_>) -> Result<LineAt<'_>, PlanWhy>
    ensures { Gives line_of result (node_line backups line.Cut (words_left words.entry)) }
{
    let (node, _) = words.node(backups)?;
    let line = Line::Cut { node };
    Ok(LineAt::Plain { line })
}

#[tactic(auto, unfolding(crate::specs::LineReading::node_line))]
fn restart(backups: u8, words: Words<'_>) -> Result<LineAt<'_>, PlanWhy>
    ensures { Gives line_of result (node_line backups line.Restart (words_left words.entry)) }
{
    let (node, _) = words.node(backups)?;
    let line = Line::Restart { node };
    Ok(LineAt::Plain { line })
}

#[tactic(auto, unfolding(crate::specs::LineReading::list_line))]
fn list(backups: u8, words: Words<'_>) -> Result<LineAt<'_>, PlanWhy>
    ensures { Gives line_of result (list_line backups (words_left words.entry)) }
{
    let (node, words) = words.node(backups)?;
    let (vol, _) = words.number(0, 15)?;
    let vol = VolNo(vol as u8);
    let line = Line::List { node, vol };
    Ok(LineAt::Plain { line })
}

#[tactic(auto, unfolding(crate::specs::LineReading::fuse_line))]
fn fuse(backups: u8, words: Words<'_>) -> Result<LineAt<'_>, PlanWhy>
    ensures { Gives line_of result (fuse_line backups (words_left words.entry)) }
{
    let (node, words) = words.node(backups)?;
    let (disk, words) = words.number(0, 16)?;
    let (calls, words) = words.number(0, 1_000_000)?;
    let tear = words.tear()?;
    let line = Line::Fuse {
        node,
        disk: disk as u8,
        calls,
        tear,
    };
    Ok(LineAt::Plain { line })
}

#[tactic(auto, unfolding(crate::specs::LineReading::place_at))]
fn place(words: Words<'_>) -> Result<(PlaceAt<'_>, Words<'_>), PlanWhy>
    ensures { Gives (λ x. (place_of x.0, words_left x.1)) result (place_at (words_left words.entry)) }
{
    let (vol, words) = words.number(0, 15)?;
    let (file, words) = words.file()?;
    let (key, words) = words.key()?;
    let vol = vol as u8;
    Ok((PlaceAt { vol, file, key }, words))
}

/// The line, with texts of its own. Memory is all that it can want.
pub fn owned_line(alloc: Global, line: LineAt<'_>) -> Result<Line, AllocError>
    ensures { IfOk result (λ made. made ≡ line_of line.entry) }
{
    match line {
        LineAt::Insert { txn, place, value } => {
            let key = owned_place(alloc, place)?;
            let value = Value::read(alloc, value).map_err(|_| AllocError)?;
            Ok(Line::Insert { txn, key, value })
        }
        LineAt::Update { txn, place, value } => {
            let key = owned_place(alloc, place)?;
            let value = Value::read(alloc, value).map_err(|_| AllocError)?;
            Ok(Line::Update { txn, key, value })
        }
        LineAt::Delete { txn, place } => {
            let key = owned_place(alloc, place)?;
            Ok(Line::Delete { txn, key })
        }
        LineAt::Get { txn, place } => {
            let key = owned_place(alloc, place)?;
            Ok(Line::Get { txn, key })
        }
        LineAt::Read { node, place } => {
            let key = owned_place(alloc, place)?;
            Ok(Line::Read { node, key })
        }
        LineAt::Plain { line } => Ok(line),
    }
}

fn owned_place(alloc: Global, place: PlaceAt<'_>) -> Result<RecKey, AllocError>
    ensures { IfOk result (λ key. key ≡ place_of place.entry) }
{
    let file = FileName::read(alloc, place.file).map_err(|_| AllocError)?;
    let key = Key::read(alloc, place.key).map_err(|_| AllocError)?;
    Ok(RecKey {
        vol: VolNo(place.vol),
        file,
        key,
    })
}
