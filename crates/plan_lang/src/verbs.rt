//! The words that lines begin with.
ghost use Rattle.std.specs.Prelude.{◌≡◌};
ghost use Rattle.plan_lang.specs.Verbs.{verb_text, verb_of};
ghost use Rattle.plan_lang.specs.LineReading.{is_known, verb_in, count_behind};

use crate::lines::Line;

/// Which line a line is, by its first word.
#[derive(Clone, Copy)]
pub enum Verb {
    Begin,
    Insert,
    Update,
    Delete,
    Get,
    Commit,
    Abort,
    Send,
    Rewind,
    Ack,
    Deliver,
    Lose,
    Session,
    Read,
    Purge,
    End,
    Takeover,
    CopyAudit,
    List,
    Info,
    Status,
    Fuse,
    Cut,
    Restart,
}

impl Verb {
    /// Each of them.
    pub const ALL: [Verb; 24] = [
        Verb::Begin,
        Verb::Insert,
        Verb::Update,
        Verb::Delete,
        Verb::Get,
        Verb::Commit,
        Verb::Abort,
        Verb::Send,
        Verb::Rewind,
        Verb::Ack,
        Verb::Deliver,
        Verb::Lose,
        Verb::Session,
        Verb::Read,
        Verb::Purge,
        Verb::End,
        Verb::Takeover,
        Verb::CopyAudit,
        Verb::List,
        Verb::Info,
        Verb::Status,
        Verb::Fuse,
        Verb::Cut,
        Verb::Restart,
    ];

    /// The one that is this word, where fuses are known or not.
    pub fn find(fuses: bool, word: &[u8]) -> Option<Verb>
        ensures { result ≡ verb_in fuses word.now }
    {
        Verb::ALL
            .iter()
            .copied()
            .find(|verb| verb.text() == word && verb.is_known(fuses))
    }

    // Whether it begins a line, where fuses are known or not.
    fn is_known(self, fuses: bool) -> bool
        ensures { result ≡ is_known fuses self }
    {
        match self {
            Verb::Fuse => fuses,
            _ => true,
        }
    }

    /// How many words stand behind it.
    pub fn count(self) -> usize
        ensures { result ≡ count_behind self }
    {
        match self {
            Verb::Insert | Verb::Update => 5,
            Verb::Delete | Verb::Get | Verb::Read | Verb::Fuse => 4,
            Verb::Send | Verb::Deliver | Verb::CopyAudit | Verb::List => 2,
            Verb::Lose | Verb::End => 0,
            _ => 1,
        }
    }

    /// The word.
    pub fn text(self) -> &'static [u8]
        ensures { result.now ≡ verb_text self }
    {
        match self {
            Verb::Begin => b"begin",
            Verb::Insert => b"insert",
            Verb::Update => b"update",
            Verb::Delete => b"delete",
            Verb::Get => b"get",
            Verb::Commit => b"commit",
            Verb::Abort => b"abort",
            Verb::Send => b"send",
            Verb::Rewind => b"rewind",
            Verb::Ack => b"ack",
            Verb::Deliver => b"deliver",
            Verb::Lose => b"lose",
            Verb::Session => b"session",
            Verb::Read => b"read",
            Verb::Purge => b"purge",
            Verb::End => b"end",
            Verb::Takeover => b"takeover",
            Verb::CopyAudit => b"copyaudit",
            Verb::List => b"list",
            Verb::Info => b"info",
            Verb::Status => b"status",
            Verb::Fuse => b"fuse",
            Verb::Cut => b"cut",
            Verb::Restart => b"restart",
        }
    }

    /// The first word of the line.
    pub fn of(line: &Line) -> Verb
        ensures { result ≡ verb_of line.now }
    {
        match line {
            Line::Begin { .. } => Verb::Begin,
            Line::Insert { .. } => Verb::Insert,
            Line::Update { .. } => Verb::Update,
            Line::Delete { .. } => Verb::Delete,
            Line::Get { .. } => Verb::Get,
            Line::Commit { .. } => Verb::Commit,
            Line::Abort { .. } => Verb::Abort,
            Line::Send { .. } => Verb::Send,
            Line::Rewind { .. } => Verb::Rewind,
            Line::Ack { .. } => Verb::Ack,
            Line::Deliver { .. } => Verb::Deliver,
            Line::Lose => Verb::Lose,
            Line::Session { .. } => Verb::Session,
            Line::Read { .. } => Verb::Read,
            Line::Purge { .. } => Verb::Purge,
            Line::End => Verb::End,
            Line::Takeover { .. } => Verb::Takeover,
            Line::CopyAudit { .. } => Verb::CopyAudit,
            Line::List { .. } => Verb::List,
            Line::Info { .. } => Verb::Info,
            Line::Status { .. } => Verb::Status,
            Line::Fuse { .. } => Verb::Fuse,
            Line::Cut { .. } => Verb::Cut,
            Line::Restart { .. } => Verb::Restart,
        }
    }
}
