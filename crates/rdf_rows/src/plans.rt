//! Texts of plans from the lines of a row.
use crate::names::{letter_of, word_of};
use crate::row::{PlanLine, Tail};
use rdf_disk::Tear;
use rdf_types::records::Node;
use std::alloc::{AllocError, Global};

/// A fuse of a table: of which disk, after how many calls, and with which tear. And the second one, of another disk of the node, with the same tear.
#[derive(Clone, Copy, Debug, PartialEq, Eq)]
pub struct Fuse {
    pub node: Node,
    pub disk: u8,
    pub calls: u32,
    pub tear: Tear,
    pub second: Second,
}

/// The second fuse of a table, of which disk and after how many calls.
#[derive(Clone, Copy, Debug, PartialEq, Eq)]
pub struct Second {
    pub disk: u8,
    pub calls: u32,
}

/// Adds lines of a row to a plan's text. In a table the words `{node}`, `{disk}`, `{calls}` and `{tear}` are those of its fuse, `{disk2}` and `{calls2}` those of the second one.
pub fn add_lines(
    plan: &mut Vec<u8>,
    alloc: Global,
    lines: &[PlanLine],
    fuse: Option<Fuse>,
) -> Result<(), AllocError> {
    for line in lines {
        let text = match fuse {
            Some(fuse) => with_fuse(alloc, line.text.as_str(), fuse)?,
            None => String::from_str(alloc, line.text.as_str())?,
        };
        for _ in 0..line.times {
            add_line(plan, text.as_str(), line.byte)?;
        }
    }
    Ok(())
}

fn add_line(plan: &mut Vec<u8>, text: &str, byte: Option<u8>) -> Result<(), AllocError> {
    plan.extend_from_slice(text.as_bytes())?;
    if let Some(byte) = byte {
        plan.push(byte)?;
    }
    plan.push(b'\n')?;
    Ok(())
}

fn with_fuse(alloc: Global, text: &str, fuse: Fuse) -> Result<String, AllocError> {
    let mut made = String::new(alloc);
    for word in text.split(' ') {
        if !made.is_empty() {
            made.push(' ')?;
        }
        match word {
            "{node}" => made.push_str(letter_of(fuse.node))?,
            "{disk}" => made.push_str(fuse.disk.to_string(alloc)?.as_str())?,
            "{calls}" => made.push_str(fuse.calls.to_string(alloc)?.as_str())?,
            "{disk2}" => made.push_str(fuse.second.disk.to_string(alloc)?.as_str())?,
            "{calls2}" => made.push_str(fuse.second.calls.to_string(alloc)?.as_str())?,
            "{tear}" => made.push_str(word_of(fuse.tear))?,
            _ => made.push_str(word)?,
        }
    }
    Ok(made)
}

/// Ends a plan's text as the row says.
pub fn end_plan(plan: &mut Vec<u8>, tail: Tail) -> Result<(), AllocError> {
    match tail {
        Tail::Ended => (),
        Tail::Unended => {
            let _ = plan.pop();
        }
        Tail::Padded(many) => {
            let _ = plan.pop();
            let more = many.saturating_sub(plan.len());
            for _ in 0..more {
                plan.push(b'x')?;
            }
        }
    }
    Ok(())
}
