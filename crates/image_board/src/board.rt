//! The board: what is published on it, and what is asked of it.
ghost use Rattle.std.specs.Prelude.{◌≡◌, ◌≤◌, ◌<◌, ◌+◌, ◌++◌, false, length, slice_get, vec_capacity, IfOk, IfSome};
ghost use Rattle.std.specs.List.{AllZip};
ghost use Rattle.rdf_types.specs.Entries.{Rises};
ghost use Rattle.image_board.specs.Boards.{IsPiece, with_part, with_note, closed};

use crate::note::Note;
use crate::pieces::{Piece, is_over, next_images};
use crate::remembered::Remembered;
use rdf_types::entries::{position_at, since};
use rdf_types::records::{Pos, Stamped, VolNo};
use seated_lock::{Marked, Told};
use std::alloc::{AllocError, Global};
use std::marker::Model;
use std::mem::replace;

/// The audit entries that a session has published, in the order of their positions, and the notes on them, each of which
/// fits them all. It stands for its story: the entries that came since it was first shared, up to its end.
#[derive(Drop)]
pub struct Board<N: Note> {
    alloc: Global,
    entries: Vec<Stamped>,
    start: Pos,
    end: Pos,
    finished: bool,
    notes: Vec<N>,
    /// The notes that stood first.
    first: Remembered<Vec<N>>,
}

impl<N: Note> Model for Board<N> {
    ghost use Rattle.std.specs.Prelude.{vec_capacity};
    ghost use Rattle.std.specs.List.{AllZip};
    ghost use Rattle.rdf_types.specs.Entries.{Rises};
    ghost use Rattle.image_board.specs.Boards.{Published};

    ghost Value = { Published N };

    ghost view = { λ b. record {
      start = b.start;
      items = b.entries.items;
      room = vec_capacity b.entries;
      end = b.end;
      finished = b.finished;
      firsts = b.first.value.items;
      notes = b.notes.items;
    } };

    ghost invariant = { λ b. Rises b.start b.entries.items b.end
        × AllZip (λ first now. N.fits first b.entries.items b.end now) b.first.value.items b.notes.items };
}

impl<N: Note> Told for Board<N> {
    ghost use Rattle.image_board.specs.Boards.{Shows};

    ghost stands = { Shows };

    ghost reach = { λ b. b.end };

    ghost mark = { ⟦<Board<N> as Marked>⟧.mark };

    ghost exact = { ⟦<Board<N> as Marked>⟧.exact };

    fn number(&self) -> u64 {
        self.end
    }
}

impl<N: Note> Board<N> {
    /// A board with these entries, which lie from the one position to below the other, and these notes.
    pub fn start(alloc: Global, part: Vec<Stamped>, from: Pos, end: Pos, notes: Vec<N>) -> Board<N>
        requires rises { Rises from part.items end }
        ensures range { (result.start ≡ from) × (result.end ≡ end) }
        ensures items { (result.items ≡ part.items) × (result.finished ≡ false) }
        ensures notes { (result.firsts ≡ notes.items) × (result.notes ≡ notes.items) }
    {
        let first = Remembered::of(&notes);
        Board {
            alloc,
            entries: part,
            start: from,
            end,
            finished: false,
            notes,
            first,
        }
    }

    /// Makes room for so many entries more. An `Err` leaves the board as it is.
    pub fn reserve(&mut self, more: u32) -> Result<(), AllocError>
        ensures same { self.new ≡ record self.old { room = self.new.room } }
        ensures room { IfOk result (λ _. length self.new.items + more ≤ self.new.room) }
    {
        self.entries.reserve(more as usize)
    }

    /// Puts these entries behind the others, in the room that was made for them, and moves the end there.
    pub fn publish(&mut self, part: Vec<Stamped>, end: Pos)
        requires open { self.old.finished ≡ false }
        requires room { length self.old.items + length part.items ≤ self.old.room }
        requires rises { Rises self.old.end part.items end }
        ensures { self.new ≡ with_part self.old part.items end }
    {
        push_all(&mut self.entries, part);
        self.end = end;
    }

    /// Says that nothing more will come.
    pub fn finish(&mut self)
        ensures { self.new ≡ closed self.old }
    {
        self.finished = true;
    }

    /// The notes, in the order of their places.
    pub fn notes(&self) -> &[N]
        ensures same { result.now ≡ self.now.notes }
        ensures fit { AllZip (λ first now. N.fits first self.now.items self.now.end now) self.now.firsts result.now }
    {
        &self.notes
    }

    /// Puts a note in the place of another, which comes back.
    pub fn replace_note(&mut self, place: usize, note: N) -> N
        requires there { place < length self.old.notes }
        requires fits { IfSome (slice_get self.old.firsts place) (λ first. N.fits first self.old.items self.old.end note) }
        ensures put { self.new ≡ with_note self.old place note }
        ensures taken { IfSome (slice_get self.old.firsts place) (λ first. N.fits first self.old.items self.old.end result) }
    {
        replace(&mut self.notes[place], note)
    }

    /// The first images of the volume from the position on, so many at the most. The place is found by search.
    pub fn next_for(&self, vol: VolNo, from: Pos, most: u32) -> Result<Piece, AllocError>
        requires most { 1 ≤ most }
        requires from { (self.now.start ≤ from) × (from ≤ self.now.end) }
        ensures { IfOk result (IsPiece vol from most self.now) }
    {
        let entries = since(&self.entries, from);
        let (images, gone_over) = next_images(self.alloc, entries, vol, most)?;
        let upto = position_at(entries, gone_over, self.end);
        let ended = is_over(self.finished, gone_over, entries.len());
        Ok(Piece {
            images,
            upto,
            ended,
        })
    }
}

/// Puts the entries behind the others, for which there is room.
fn push_all(entries: &mut Vec<Stamped>, part: Vec<Stamped>)
    requires room { length entries.old.items + length part.items ≤ vec_capacity entries.old }
    ensures items { entries.new.items ≡ entries.old.items ++ part.items }
    ensures room { vec_capacity entries.new ≡ vec_capacity entries.old }
{
    for entry in part {
        entries.push_reserved(entry);
    }
}
