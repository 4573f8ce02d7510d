//! Texts that are read line by line.
ghost use Rattle.std.specs.Prelude.{◌≤◌};

use crate::line_words::Words;

/// What is left of a text, and the number of its next line, which is at most one too many.
#[derive(Drop)]
pub struct Text<'a> {
    pub rest: &'a [u8],
    pub number: u32,
    ghost few: { number ≤ 20001 },
}

/// A line that is no comment, or the end, which has no words.
#[derive(Drop)]
pub struct NextLine<'a> {
    /// The number of the line; at the end that of one more.
    pub number: u32,
    pub words: Words<'a>,
    /// What stands behind the line.
    pub behind: Text<'a>,
}
