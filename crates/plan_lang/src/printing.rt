//! Printing plans.
ghost use Rattle.std.specs.Prelude.{◌≡◌, ◌∷◌, ◌++◌, [], map, decimal, codes, OnOk, OnErr};
ghost use Rattle.std.specs.List.{flat_map};
ghost use Rattle.rdf_types.specs.Saying.{node_text};
ghost use Rattle.plan_lang.specs.Words.{text_line};
ghost use Rattle.plan_lang.specs.LineText.{tear_text, word_text, arguments, line_text, line_words};
ghost use Rattle.plan_lang.specs.PlanText.{flag_text, sizes_words, volumes_words, keeping_words, header_words, plan_text, IsPlan};

use crate::lines::{Line, Plan};
use crate::verbs::Verb;
use itoa::Buffer;
use rdf_disk::Tear;
use rdf_types::layout::Layout;
use rdf_types::records::{Node, RecKey};
use std::alloc::AllocError;

/// Appends the text of the plan. An `Err` leaves `out` as it was.
pub fn print_plan(plan: &Plan, out: &mut Vec<u8>) -> Result<(), AllocError>
    requires { IsPlan plan.now }
    ensures ok { OnOk result (out.new.items ≡ out.old.items ++ plan_text plan.now) }
    ensures err { OnErr result (out.new.items ≡ out.old.items) }
{
    let mut text = Vec::new(*out.allocator());
    put_plan(plan, &mut text)?;
    out.extend_from_slice(&text)
}

fn put_plan(plan: &Plan, out: &mut Vec<u8>) -> Result<(), AllocError>
    ensures { OnOk result (out.new.items ≡ out.old.items ++ plan_text plan.now) }
{
    put_header(&plan.layout, out)?;
    put_lines(plan.lines.all(), out)
}

fn put_header(layout: &Layout, out: &mut Vec<u8>) -> Result<(), AllocError>
    ensures { OnOk result (out.new.items ≡ out.old.items ++ flat_map text_line (header_words layout.now)) }
{
    put_sizes(layout, out)?;
    put_volumes(layout, out)?;
    put_keeping(layout, out)
}

// How many backups and volumes there are.
fn put_sizes(layout: &Layout, out: &mut Vec<u8>) -> Result<(), AllocError>
    ensures { OnOk result (out.new.items ≡ out.old.items ++ flat_map text_line (sizes_words layout.now)) }
{
    out.extend_from_slice(b"rdfplan 1\n")?;
    put_setting(b"backups", u32::from(layout.backups), out)?;
    put_setting(b"volumes", u32::from(layout.volumes), out)
}

// What is set for each volume.
fn put_volumes(layout: &Layout, out: &mut Vec<u8>) -> Result<(), AllocError>
    ensures { OnOk result (out.new.items ≡ out.old.items ++ flat_map text_line (volumes_words layout.now)) }
{
    put_trails(layout.trail_of.numbers(), out)?;
    put_flags(layout.protect.flags(), out)
}

// How the audit is kept, and the end of the header.
fn put_keeping(layout: &Layout, out: &mut Vec<u8>) -> Result<(), AllocError>
    ensures { OnOk result (out.new.items ≡ out.old.items ++ flat_map text_line (keeping_words layout.now)) }
{
    put_setting(b"extent", layout.extent, out)?;
    put_setting(b"retain", layout.retain, out)?;
    out.extend_from_slice(b"go\n")
}

// A line of a name and a number.
fn put_setting(name: &[u8], number: u32, out: &mut Vec<u8>) -> Result<(), AllocError>
    ensures { OnOk result (out.new.items ≡ out.old.items ++ text_line (name.now ∷ decimal number ∷ [])) }
{
    out.extend_from_slice(name)?;
    put_number(number, out)?;
    put_end(out)
}

fn put_trails(trails: &[u8], out: &mut Vec<u8>) -> Result<(), AllocError>
    ensures { OnOk result (out.new.items ≡ out.old.items ++ text_line (codes "trail" ∷ map decimal trails.now)) }
{
    out.extend_from_slice(b"trail")?;
    for trail in trails {
        put_number(u32::from(*trail), out)?;
    }
    put_end(out)
}

fn put_flags(flags: &[bool], out: &mut Vec<u8>) -> Result<(), AllocError>
    ensures { OnOk result (out.new.items ≡ out.old.items ++ text_line (codes "protect" ∷ map flag_text flags.now)) }
{
    out.extend_from_slice(b"protect")?;
    for flag in flags {
        put_flag(*flag, out)?;
    }
    put_end(out)
}

fn put_lines(lines: &[Line], out: &mut Vec<u8>) -> Result<(), AllocError>
    ensures { OnOk result (out.new.items ≡ out.old.items ++ flat_map text_line (map line_words lines.now)) }
{
    for line in lines {
        put_line(line, out)?;
    }
    Ok(())
}

fn put_line(line: &Line, out: &mut Vec<u8>) -> Result<(), AllocError>
    ensures { OnOk result (out.new.items ≡ out.old.items ++ line_text line.now) }
{
    out.extend_from_slice(Verb::of(line).text())?;
    put_arguments(line, out)?;
    put_end(out)
}

// The words behind the first, each with a space in front.
fn put_arguments(line: &Line, out: &mut Vec<u8>) -> Result<(), AllocError>
    ensures { OnOk result (out.new.items ≡ out.old.items ++ flat_map (λ w. 32 ∷ word_text w) (arguments line.now)) }
{
    match line {
        Line::Begin { txn } | Line::Commit { txn } | Line::Abort { txn } => put_number(txn.0, out),
        Line::Insert { txn, key, value } | Line::Update { txn, key, value } => {
            put_number(txn.0, out)?;
            put_place(key, out)?;
            put_text(value.bytes(), out)
        }
        Line::Delete { txn, key } | Line::Get { txn, key } => {
            put_number(txn.0, out)?;
            put_place(key, out)
        }
        Line::Send { node, most: number } | Line::Deliver { node, k: number } => {
            put_node(*node, out)?;
            put_number(*number, out)
        }
        Line::Read { node, key } => {
            put_node(*node, out)?;
            put_place(key, out)
        }
        Line::CopyAudit { node, from } => {
            put_node(*node, out)?;
            put_node(*from, out)
        }
        Line::List { node, vol } => {
            put_node(*node, out)?;
            put_number(u32::from(vol.number()), out)
        }
        Line::Fuse {
            node,
            disk,
            calls,
            tear,
        } => {
            put_node(*node, out)?;
            put_number(u32::from(*disk), out)?;
            put_number(*calls, out)?;
            put_tear(*tear, out)
        }
        Line::Rewind { node }
        | Line::Ack { node }
        | Line::Session { node }
        | Line::Purge { node }
        | Line::Takeover { node }
        | Line::Info { node }
        | Line::Status { node }
        | Line::Cut { node }
        | Line::Restart { node } => put_node(*node, out),
        Line::Lose | Line::End => Ok(()),
    }
}

fn put_place(key: &RecKey, out: &mut Vec<u8>) -> Result<(), AllocError>
    ensures { OnOk result (out.new.items ≡ out.old.items ++ (32 ∷ decimal key.now.vol ++ 32 ∷ key.now.file ++ 32 ∷ key.now.key)) }
{
    put_number(u32::from(key.vol.number()), out)?;
    put_text(key.file.bytes(), out)?;
    put_text(key.key.bytes(), out)
}

fn put_number(number: u32, out: &mut Vec<u8>) -> Result<(), AllocError>
    ensures { OnOk result (out.new.items ≡ out.old.items ++ 32 ∷ decimal number) }
{
    let mut buffer = Buffer::new();
    put_text(buffer.format(number).as_bytes(), out)
}

fn put_node(node: Node, out: &mut Vec<u8>) -> Result<(), AllocError>
    ensures { OnOk result (out.new.items ≡ out.old.items ++ 32 ∷ node_text node) }
{
    match node {
        Node::A => put_text(b"a", out),
        Node::B => put_text(b"b", out),
        Node::C => put_text(b"c", out),
    }
}

fn put_tear(tear: Tear, out: &mut Vec<u8>) -> Result<(), AllocError>
    ensures { OnOk result (out.new.items ≡ out.old.items ++ 32 ∷ tear_text tear) }
{
    match tear {
        Tear::Lose => put_text(b"lose", out),
        Tear::Keep => put_text(b"keep", out),
        Tear::Mix => put_text(b"mix", out),
    }
}

fn put_flag(flag: bool, out: &mut Vec<u8>) -> Result<(), AllocError>
    ensures { OnOk result (out.new.items ≡ out.old.items ++ 32 ∷ flag_text flag) }
{
    if flag {
        put_text(b"1", out)
    } else {
        put_text(b"0", out)
    }
}

// A space and the word.
fn put_text(word: &[u8], out: &mut Vec<u8>) -> Result<(), AllocError>
    ensures { OnOk result (out.new.items ≡ out.old.items ++ 32 ∷ word.now) }
{
    out.push(b' ')?;
    out.extend_from_slice(word)
}

fn put_end(out: &mut Vec<u8>) -> Result<(), AllocError>
    ensures { OnOk result (out.new.items ≡ out.old.items ++ 10 ∷ []) }
{
    out.push(b'\n')?;
    Ok(())
}
