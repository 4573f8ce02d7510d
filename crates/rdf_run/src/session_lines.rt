//! The lines of an open session, performed while its volumes are updated, each answered before the next one.
ghost use Rattle.std.specs.Prelude.{◌≡◌, None};
ghost use Rattle.rdf_system.specs.Opened.{IsOpenAt, view_of};
ghost use Rattle.rdf_run.specs.Stretches.{AreInSession, Drove, is_end};

use plan_lang::lines::Line;
use rdf_backup::Session;
use rdf_core::laws::{no_point_falls, step_goes_on, volumes_move};
use rdf_disk::Disk;
use rdf_monitor::{AnswerFault, Answering};
use rdf_system::{Broken, OpenSystem, Stretch, open_line};
use std::alloc::Global;
use std::sync::Wait;

/// How the lines of a session came to their end.
#[derive(Clone, Copy, Debug, PartialEq, Eq)]
pub enum Met {
    /// The next line is the one that ends the session.
    End,
    /// The next line was not answered.
    Broken { why: Broken },
    /// The reply to the next line was not written whole.
    Unwritten { fault: AnswerFault },
    /// No session was begun.
    Unbegun,
}

/// Lines to be performed in a session, and where their replies go.
#[derive(Drop)]
pub struct SessionLines<'a, R, A: Answering> {
    pub rt: &'a R,
    pub alloc: Global,
    pub lines: &'a [Line],
    pub out: &'a mut A::Out,
}

/// What came of them: how many have their replies written, and what ended them.
#[derive(Drop)]
pub struct Driven<'a, A: Answering> {
    pub out: &'a mut A::Out,
    pub answered: usize,
    pub met: Met,
}

/// Whether the line ends a session.
fn is_end(line: &Line) -> bool
    ensures { result ≡ is_end line.now }
{
    matches!(line, Line::End)
}

impl<'a, R: Wait, A: Answering, D: Disk + Drop> Stretch<D> for SessionLines<'a, R, A> {
    type Out = Driven<'a, A>;

    ghost Ready = { λ s layout node. AreInSession layout node s.lines.now };

    ghost Drives = { λ s d opened r closed. (r.out.ghost_name ≡ s.out.ghost_name)
        × (IsOpenAt D.tells D.files D.counts opened → opened.session.met ≡ None →
        Drove A.given A.faults D.tells D.files D.counts s.lines.now r.answered r.met s.out.now r.out.now opened closed) };

    fn run(self, session: &mut Session<'_, '_, D>, beside: &mut OpenSystem<D>) -> Driven<'a, A> {
        no_point_falls();
        step_goes_on();
        volumes_move();
        let SessionLines {
            rt,
            alloc,
            lines,
            out,
        } = self;
        let mut answered = 0;
        for line in lines {
            if is_end(line) {
                return Driven {
                    out,
                    answered,
                    met: Met::End,
                };
            }
            match open_line(rt, alloc, session, beside, line) {
                Ok(reply) => match A::take(alloc, out, line, reply) {
                    Ok(()) => answered += 1,
                    Err(fault) => {
                        return Driven {
                            out,
                            answered,
                            met: Met::Unwritten { fault },
                        };
                    }
                },
                Err(why) => {
                    return Driven {
                        out,
                        answered,
                        met: Met::Broken { why },
                    };
                }
            }
        }
        unreachable!()
    }
}
