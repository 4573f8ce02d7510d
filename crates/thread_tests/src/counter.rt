//! A value that counts its turns beside its story.
ghost use Rattle.std.specs.Prelude.{◌≡◌, ◌+◌, ◌^◌, ◌<◌, true, false};
ghost use Rattle.seated_lock.specs.Stories.{Begins};
ghost use Rattle.thread_tests.specs.Passes.{IsStill};

use rdf_types::records::Stamped;
use seated_lock::{Marked, Pass, SeatedLock, Told};
use std::sync::Wait;

/// What was added, up to which number, and how many turns the value has seen.
#[derive(Drop)]
pub struct Counter {
    pub entries: Vec<Stamped>,
    pub number: u64,
    pub turns: u64,
}

impl Told for Counter {
    ghost use Rattle.std.specs.Prelude.{◌≡◌, ◌++◌, false};

    ghost stands = { λ first story c. (c.entries.items ≡ first.entries.items ++ story.entries) × (story.ended ≡ false) };

    ghost reach = { λ c. c.number };

    ghost mark = { ⟦<Counter as Marked>⟧.mark };

    ghost exact = { ⟦<Counter as Marked>⟧.exact };

    fn number(&self) -> u64 {
        self.number
    }
}

/// A turn that adds nothing.
pub fn pause<R: Wait>(rt: &R, lock: &SeatedLock<Counter>, pass: Pass) -> Pass
    requires { pass.lock ≡ lock.now.id }
    ensures { IsStill pass result }
{
    let mut turn = lock.take(rt, pass);
    let value = turn.value();
    value.turns = value.turns.wrapping_add(1);
    lock.give(turn)
}

/// A turn of the writing pass that raises the number.
pub fn raise<R: Wait>(rt: &R, lock: &SeatedLock<Counter>, pass: Pass) -> Pass
    requires lock { (pass.lock ≡ lock.now.id) × (pass.writes ≡ true) }
    requires room { (pass.story.number + 1 < 2 ^ 64) × (pass.story.ended ≡ false) }
    ensures still { IsStill pass result }
    ensures raised { (result.story.number ≡ pass.story.number + 1) × (result.story.ended ≡ false) }
{
    let mut turn = lock.take(rt, pass);
    let value = turn.value();
    value.turns = value.turns.wrapping_add(1);
    value.number += 1;
    lock.give(turn)
}
