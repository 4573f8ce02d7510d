//! Summaries of runs.
use load_summary::Tally;
use plan_lang::lines::Line;
use rdf_core::replies::{NoWhy, Reply, RowList};
use rdf_types::names::{FileName, Key, Value};
use rdf_types::records::{Node, Row, VolNo};
use std::alloc::{AllocError, Global};
use std::test::Fail;

fn shown(alloc: Global, tally: &Tally) -> Result<Vec<u8>, AllocError> {
    let mut text = Vec::new(alloc);
    tally.text(&mut text)?;
    Ok(text)
}

// On volume 0 one row of that value, and none on the others.
fn rows_of(alloc: Global, vol: u8, value: &[u8]) -> Result<RowList, Fail> {
    let mut rows = Vec::new(alloc);
    if vol == 0 {
        rows.push(Row {
            file: FileName::read(alloc, b"f")?,
            key: Key::read(alloc, b"n1")?,
            value: Value::read(alloc, value)?,
        })?;
    }
    Ok(RowList::new(rows))
}

// The volumes of a node are listed, the last one with that reply.
fn note_lists(
    alloc: Global,
    tally: &mut Tally,
    node: Node,
    value: &[u8],
    last: Reply,
) -> Result<(), Fail> {
    for vol in 0..7u8 {
        let rows = rows_of(alloc, vol, value)?;
        note_list(tally, node, vol, Reply::Rows { at: 3, rows })?;
    }
    note_list(tally, node, 7, last)?;
    Ok(())
}

fn note_list(tally: &mut Tally, node: Node, vol: u8, reply: Reply) -> Result<(), AllocError> {
    let line = Line::List {
        node,
        vol: VolNo(vol % 16),
    };
    tally.note(&line, reply)
}

fn no_rows(alloc: Global) -> Reply {
    Reply::Rows {
        at: 3,
        rows: RowList::new(Vec::new(alloc)),
    }
}

#[test]
fn no_line(rt: HostRuntime) -> Result<(), Fail> {
    let alloc = rt.alloc();
    let tally = Tally::new(alloc);
    let want = b"steps 0\nok 0\nno 0\nstopped 0\nb 0 rows 0\nc 0 rows 0\nlists differ\n";
    assert!(rt; shown(alloc, &tally)?.as_slice() == want.as_slice());
    Ok(())
}

#[test]
fn lists_of_other_rows(rt: HostRuntime) -> Result<(), Fail> {
    let alloc = rt.alloc();
    let mut tally = Tally::new(alloc);
    note_lists(alloc, &mut tally, Node::B, b"1", no_rows(alloc))?;
    note_lists(alloc, &mut tally, Node::C, b"2", no_rows(alloc))?;
    let want = b"steps 16\nok 16\nno 0\nstopped 0\nb 0 rows 1\nc 0 rows 1\nlists differ\n";
    assert!(rt; shown(alloc, &tally)?.as_slice() == want.as_slice());
    Ok(())
}

#[test]
fn list_refused(rt: HostRuntime) -> Result<(), Fail> {
    let alloc = rt.alloc();
    let mut tally = Tally::new(alloc);
    note_lists(alloc, &mut tally, Node::B, b"1", no_rows(alloc))?;
    note_lists(
        alloc,
        &mut tally,
        Node::C,
        b"1",
        Reply::No { why: NoWhy::Down },
    )?;
    let want = b"steps 16\nok 15\nno 1\nstopped 0\nb 0 rows 1\nc 0 rows 1\nlists differ\n";
    assert!(rt; shown(alloc, &tally)?.as_slice() == want.as_slice());
    Ok(())
}

#[test]
fn volume_listed_again(rt: HostRuntime) -> Result<(), Fail> {
    let alloc = rt.alloc();
    let mut tally = Tally::new(alloc);
    note_lists(alloc, &mut tally, Node::B, b"1", no_rows(alloc))?;
    note_lists(alloc, &mut tally, Node::C, b"2", no_rows(alloc))?;
    note_lists(alloc, &mut tally, Node::C, b"1", no_rows(alloc))?;
    let want = b"steps 24\nok 24\nno 0\nstopped 0\nb 0 rows 1\nc 0 rows 2\nlists equal\n";
    assert!(rt; shown(alloc, &tally)?.as_slice() == want.as_slice());
    Ok(())
}

fn note_takeover(tally: &mut Tally, node: Node, reply: Reply) -> Result<(), AllocError> {
    let line = Line::Takeover { node };
    tally.note(&line, reply)
}

// Takeovers of `b` that end twice.
fn note_taken(tally: &mut Tally) -> Result<(), AllocError> {
    note_takeover(
        tally,
        Node::B,
        Reply::No {
            why: NoWhy::PrimaryUp,
        },
    )?;
    note_takeover(tally, Node::B, Reply::Number { n: 4 })?;
    note_takeover(tally, Node::B, Reply::Number { n: 5 })?;
    note_takeover(tally, Node::B, Reply::Stopped { node: Node::B })
}

// Takeovers of `c` of which none ends.
fn note_not_taken(tally: &mut Tally) -> Result<(), AllocError> {
    note_takeover(tally, Node::C, Reply::Stopped { node: Node::C })?;
    note_takeover(tally, Node::C, Reply::No { why: NoWhy::Down })
}

#[test]
fn takeovers_refused_and_stopped(rt: HostRuntime) -> Result<(), Fail> {
    let alloc = rt.alloc();
    let mut tally = Tally::new(alloc);
    note_taken(&mut tally)?;
    note_not_taken(&mut tally)?;
    let want = b"steps 6\nok 2\nno 2\nstopped 2\nb 5 rows 0\nc 0 rows 0\nlists differ\n";
    assert!(rt; shown(alloc, &tally)?.as_slice() == want.as_slice());
    Ok(())
}
