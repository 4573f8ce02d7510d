//! What each step tells. These types are for the proofs alone.
use crate::rule::View;
use crate::story::Told;
use atomic_table::{Join, Play, Split};
use std::marker::{Brand, PhantomData};

/// A ticket is drawn: one turn more, and a place in the line.
pub struct Draw;

impl<V> Play<Option<V>, View> for Draw {
    ghost use Rattle.seated_lock.specs.Steps.{drew};

    ghost then = { drew };
}

/// A look at the ticket that is served. Where it is the own one, the value is taken.
pub struct Look;

impl<V: Told> Play<Option<V>, View> for Look {
    ghost use Rattle.seated_lock.specs.Steps.{looked};

    ghost then = { looked V.mark V.stands V.reach };
}

/// A look at the number: the story is seen up to there.
pub struct Learn;

impl<V> Play<Option<V>, View> for Learn {
    ghost use Rattle.seated_lock.specs.Steps.{learned};

    ghost then = { learned };
}

/// The story after a turn. Each call picks it.
pub trait After {
    ghost use Rattle.seated_lock.specs.declared.story.Story.{Story};

    ghost after: { Story };
}

impl After for Brand {
    ghost use Rattle.seated_lock.specs.Stories.{untold};

    ghost after = { untold 0 };
}

/// The number is raised while the value is out, and the story grows to the one that was picked.
pub struct Raise<J: After> {
    marker: PhantomData<J>,
}

impl<V, J: After> Play<Option<V>, View> for Raise<J> {
    ghost use Rattle.seated_lock.specs.Steps.{raised};

    ghost then = { raised J.after };
}

/// The next ticket is served.
pub struct PassOn;

impl<V> Play<Option<V>, View> for PassOn {
    ghost use Rattle.seated_lock.specs.Steps.{passed};

    ghost then = { passed };
}

/// A seat is split from a view, or two views are joined.
pub struct Seats;

impl Split<View> for Seats {
    ghost use Rattle.seated_lock.specs.Steps.{kept_part, given_part};

    ghost left = { kept_part };

    ghost right = { given_part };
}

impl Join<View> for Seats {
    ghost use base.Stored.{coded_ℕ};
    ghost use Rattle.seated_lock.specs.Steps.{joined, spent};

    ghost both = { joined };

    ghost spent = { spent (coded_ℕ.code 0) };
}
