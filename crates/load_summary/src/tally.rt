//! Noting a run line by line.
ghost use Rattle.std.specs.Prelude.{◌≡◌, ◌≢◌, ℕ, [], ◌∷◌, ◌++◌, List, OnOk, OnErr};
ghost use Rattle.plan_lang.specs.declared.lines.Line.{Line};
ghost use Rattle.rdf_core.specs.declared.replies.Reply.{Reply};
ghost use Rattle.rdf_core.specs.declared.replies.Reply.TheVariants.{Done, Number};
ghost use Rattle.load_summary.specs.Summary.{Step, summary, summary_text, counts_of, taken_of};
ghost use Rattle.load_summary.specs.Tallies.{Tallies};

use crate::answers::{added, added_where, is_done, is_refused, is_stopped, rows_in, taken_in};
use crate::lists::Lists;
use crate::summary::{Counts, Summary, Taken};
use plan_lang::lines::Line;
use rdf_core::replies::Reply;
use rdf_types::records::Node;
use std::alloc::{AllocError, Global};

impl Counts {
    fn with(self, reply: &Reply) -> Counts
        ensures { (replies : List Reply) → self ≡ counts_of replies → result ≡ counts_of (replies ++ reply.now ∷ []) }
    {
        Counts {
            steps: added(self.steps, 1),
            done: added_where(self.done, is_done(reply)),
            refused: added_where(self.refused, is_refused(reply)),
            stopped: added_where(self.stopped, is_stopped(reply)),
        }
    }
}

impl Taken {
    fn with(self, node: Node, line: &Line, reply: &Reply) -> Taken
        ensures { (steps : List Step) → self ≡ taken_of node steps → result ≡ taken_of node (steps ++ (line.now, reply.now) ∷ []) }
    {
        Taken {
            upto: taken_in(node, line, reply).unwrap_or(self.upto),
            rows: added(self.rows, rows_in(node, line, reply)),
        }
    }
}

/// What is kept of a run so far.
#[derive(Debug, Drop)]
pub struct Tally {
    counts: Counts,
    b: Taken,
    c: Taken,
    lists: Lists,
}

impl Tally {
    /// No line yet.
    pub fn new(alloc: Global) -> Tally
        ensures { Tallies [] [] result }
    {
        let counts = Counts {
            steps: 0,
            done: 0,
            refused: 0,
            stopped: 0,
        };
        let taken = Taken { upto: 0, rows: 0 };
        Tally {
            counts,
            b: taken,
            c: taken,
            lists: Lists::new(alloc),
        }
    }

    /// One more line of the run with its reply, in constant time. The rows of a list are kept, which takes memory. An `Err` changes nothing, and never comes where the reply is that the line is done, or a number.
    pub fn note(&mut self, line: &Line, reply: Reply) -> Result<(), AllocError>
        ensures ok { OnOk result ((lines : List Line) → (replies : List Reply) → Tallies lines replies self.old →
            Tallies (lines ++ line.now ∷ []) (replies ++ reply ∷ []) self.new) }
        ensures err { OnErr result (self.new ≡ self.old) }
        ensures done { OnErr result (reply ≢ Done) }
        ensures number { (n : ℕ) → OnErr result (reply ≢ Number n) }
    {
        let counts = self.counts.with(&reply);
        let b = self.b.with(Node::B, line, &reply);
        let c = self.c.with(Node::C, line, &reply);
        self.lists.note(line, reply)?;
        self.counts = counts;
        self.b = b;
        self.c = c;
        Ok(())
    }

    /// The summary of the run so far. It compares the rows that both backups listed.
    pub fn summary(&self) -> Summary
        ensures { (lines : List Line) → (replies : List Reply) → Tallies lines replies self.now → result ≡ summary lines replies }
    {
        Summary {
            counts: self.counts,
            b: self.b,
            c: self.c,
            equal: self.lists.are_equal(),
        }
    }

    /// Adds the seven lines of the summary of the run so far. An `Err` changes nothing.
    pub fn text(&self, out: &mut Vec<u8>) -> Result<(), AllocError>
        ensures ok { OnOk result ((lines : List Line) → (replies : List Reply) → Tallies lines replies self.now →
            out.new.items ≡ out.old.items ++ summary_text (summary lines replies)) }
        ensures err { OnErr result (out.new.items ≡ out.old.items) }
    {
        self.summary().text(out)
    }
}
