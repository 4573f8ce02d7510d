//! The words of a line, read from left to right.
ghost use Rattle.std.specs.Prelude.{◌≡◌, ◌≤◌, ◌==◌, length, IfOk};
ghost use Rattle.std.specs.List.{list_all};
ghost use Rattle.rdf_types.specs.Limits.{is_name_byte, is_text_byte};
ghost use Rattle.plan_lang.specs.LineReading.{Gives, words_left, next, number_at, text_at, node_in, node_at, backup_at, other_at, tear_in, tear_at, is_text};
ghost use Rattle.plan_lang.specs.LineText.{is_node, is_backup, same_node};

use crate::numbers::number_of;
use crate::why::PlanWhy;
use crate::words::split_at_byte;
use rdf_disk::Tear;
use rdf_types::records::Node;

/// The words of a line that are left to read: those between the spaces of what is left of it.
#[derive(Clone, Copy)]
pub struct Words<'a> {
    pub rest: &'a [u8],
}

impl<'a> Words<'a> {
    /// Whether so many words are left.
    pub fn has_count(self, count: usize) -> bool
        ensures { result ≡ (length (words_left self.entry) == count) }
    {
        let mut words = self;
        for _ in 0..count {
            match words.next() {
                Ok((_, rest)) => words = rest,
                Err(_) => return false,
            }
        }
        words.next().is_err()
    }

    /// The next word.
    pub fn next(self) -> Result<(&'a [u8], Words<'a>), PlanWhy>
        ensures { Gives (λ x. (x.0.now, words_left x.1)) result (next (words_left self.entry)) }
    {
        let mut rest = self.rest;
        while let Some((word, behind)) = split_at_byte(b' ', rest) {
            let words = Words { rest: behind };
            if !word.is_empty() {
                return Ok((word, words));
            }
            rest = behind;
        }
        if rest.is_empty() {
            return Err(PlanWhy::Count);
        }
        Ok((rest, Words { rest: b"" }))
    }

    /// A number of the range.
    #[tactic(auto, unfolding(crate::specs::LineReading::number_at))]
    pub fn number(self, from: u32, to: u32) -> Result<(u32, Words<'a>), PlanWhy>
        ensures value { Gives (λ x. (x.0, words_left x.1)) result (number_at from to (words_left self.entry)) }
        ensures low { IfOk result (λ x. from ≤ x.0) }
        ensures high { IfOk result (λ x. x.0 ≤ to) }
    {
        let (word, rest) = self.next()?;
        let Some(number) = number_of(word) else {
            return Err(PlanWhy::Number);
        };
        if from <= number && number <= to {
            Ok((number, rest))
        } else {
            Err(PlanWhy::Number)
        }
    }

    /// The bytes of a file's name.
    #[tactic(auto, unfolding(crate::specs::LineReading::text_at))]
    pub fn file(self) -> Result<(&'a [u8], Words<'a>), PlanWhy>
        ensures { Gives (λ x. (x.0.now, words_left x.1)) result (text_at is_name_byte 16 (words_left self.entry)) }
    {
        let (word, rest) = self.next()?;
        if is_file_name(word) {
            Ok((word, rest))
        } else {
            Err(PlanWhy::Name)
        }
    }

    // The bytes of a key or a value, at most so many.
    #[tactic(auto, unfolding(crate::specs::LineReading::text_at))]
    fn text(self, limit: usize) -> Result<(&'a [u8], Words<'a>), PlanWhy>
        ensures { Gives (λ x. (x.0.now, words_left x.1)) result (text_at is_text_byte limit (words_left self.entry)) }
    {
        let (word, rest) = self.next()?;
        if is_printable(limit, word) {
            Ok((word, rest))
        } else {
            Err(PlanWhy::Name)
        }
    }

    /// The bytes of a key.
    pub fn key(self) -> Result<(&'a [u8], Words<'a>), PlanWhy>
        ensures { Gives (λ x. (x.0.now, words_left x.1)) result (text_at is_text_byte 32 (words_left self.entry)) }
    {
        self.text(32)
    }

    /// The bytes of a value.
    pub fn value(self) -> Result<(&'a [u8], Words<'a>), PlanWhy>
        ensures { Gives (λ x. (x.0.now, words_left x.1)) result (text_at is_text_byte 200 (words_left self.entry)) }
    {
        self.text(200)
    }

    /// A node of a system with so many backups.
    #[tactic(auto, unfolding(crate::specs::LineReading::node_at))]
    pub fn node(self, backups: u8) -> Result<(Node, Words<'a>), PlanWhy>
        ensures { Gives (λ x. (x.0, words_left x.1)) result (node_at backups (words_left self.entry)) }
    {
        let (word, rest) = self.next()?;
        match node_of(word) {
            Some(node) if has_node(backups, node) => Ok((node, rest)),
            _ => Err(PlanWhy::Name),
        }
    }

    /// A backup of a system with so many.
    #[tactic(auto, unfolding(crate::specs::LineReading::backup_at))]
    pub fn backup(self, backups: u8) -> Result<(Node, Words<'a>), PlanWhy>
        ensures { Gives (λ x. (x.0, words_left x.1)) result (backup_at backups (words_left self.entry)) }
    {
        let (word, rest) = self.next()?;
        match node_of(word) {
            Some(node) if has_backup(backups, node) => Ok((node, rest)),
            _ => Err(PlanWhy::Name),
        }
    }

    /// A backup other than the one before it.
    #[tactic(auto, unfolding(crate::specs::LineReading::other_at))]
    pub fn other(self, backups: u8, than: Node) -> Result<(Node, Words<'a>), PlanWhy>
        ensures { Gives (λ x. (x.0, words_left x.1)) result (other_at backups than (words_left self.entry)) }
    {
        let (word, rest) = self.next()?;
        match node_of(word) {
            Some(node) if has_backup(backups, node) && !is_same(than, node) => Ok((node, rest)),
            _ => Err(PlanWhy::Name),
        }
    }

    /// What a stop leaves of the changes since the last sync.
    #[tactic(auto, unfolding(crate::specs::LineReading::tear_at))]
    pub fn tear(self) -> Result<Tear, PlanWhy>
        ensures { Gives (λ x. x) result (tear_at (words_left self.entry)) }
    {
        let (word, _) = self.next()?;
        match tear_of(word) {
            Some(tear) => Ok(tear),
            None => Err(PlanWhy::Name),
        }
    }
}

fn is_file_name(word: &[u8]) -> bool
    ensures { result ≡ is_text is_name_byte 16 word.now }
{
    !word.is_empty() && word.len() <= 16 && has_only_name_bytes(word)
}

fn is_printable(limit: usize, word: &[u8]) -> bool
    ensures { result ≡ is_text is_text_byte limit word.now }
{
    !word.is_empty() && word.len() <= limit && has_only_text_bytes(word)
}

fn has_only_name_bytes(word: &[u8]) -> bool
    ensures { result ≡ list_all is_name_byte word.now }
{
    word.iter()
        .all(|&b| (b >= 97 && b <= 122) || (b >= 48 && b <= 57))
}

fn has_only_text_bytes(word: &[u8]) -> bool
    ensures { result ≡ list_all is_text_byte word.now }
{
    word.iter().all(|&b| b >= 33 && b <= 126)
}

fn node_of(word: &[u8]) -> Option<Node>
    ensures { result ≡ node_in word.now }
{
    if word == b"a".as_slice() {
        return Some(Node::A);
    }
    if word == b"b".as_slice() {
        return Some(Node::B);
    }
    if word == b"c".as_slice() {
        return Some(Node::C);
    }
    None
}

fn has_node(backups: u8, node: Node) -> bool
    ensures { result ≡ is_node backups node }
{
    match node {
        Node::A | Node::B => true,
        Node::C => backups >= 2,
    }
}

fn has_backup(backups: u8, node: Node) -> bool
    ensures { result ≡ is_backup backups node }
{
    match node {
        Node::A => false,
        Node::B => true,
        Node::C => backups >= 2,
    }
}

/// Whether the two are one node.
pub fn is_same(node: Node, other: Node) -> bool
    ensures { result ≡ same_node node other }
{
    match (node, other) {
        (Node::A, Node::A) | (Node::B, Node::B) | (Node::C, Node::C) => true,
        _ => false,
    }
}

fn tear_of(word: &[u8]) -> Option<Tear>
    ensures { result ≡ tear_in word.now }
{
    if word == b"lose".as_slice() {
        return Some(Tear::Lose);
    }
    if word == b"keep".as_slice() {
        return Some(Tear::Keep);
    }
    if word == b"mix".as_slice() {
        return Some(Tear::Mix);
    }
    None
}
