//! Lists of positions.
ghost use Rattle.std.specs.Prelude.{◌≡◌, ◌≤◌, [], ◌∷◌, ◌++◌, length, get_or, slice_set, take, drop, min, nat_lt, filter, if◌then◌else◌, IfOk, OnOk, OnErr};
ghost use Rattle.std.specs.List.Sorted.{IsNonDecreasing};
ghost use Rattle.rdf_core.specs.Backup.{last_start};
ghost use Rattle.rdf_core.specs.Layouts.{points_at, least};
ghost use Rattle.backup_machine.specs.Positions.{last_in};

use rdf_types::layout::Layout;
use rdf_types::records::Pos;
use std::alloc::{AllocError, Global};
use std::marker::Model;

/// Positions by number: the restart points of volumes, the starts of generations, or where a place has its images.
#[derive(Drop)]
pub struct Positions {
    at: Vec<Pos>,
}

impl Model for Positions {
    ghost use Rattle.std.specs.Prelude.{List, ℕ};

    ghost Value = { List ℕ };

    ghost view = { λ a. a.at.items };
}

impl Positions {
    /// No position.
    pub fn new(alloc: Global) -> Positions
        ensures { result ≡ [] }
    {
        Positions {
            at: Vec::new(alloc),
        }
    }

    /// The position for each protected volume, and 0 for the others.
    pub fn all_at(alloc: Global, layout: &Layout, pos: Pos) -> Result<Positions, AllocError>
        ensures { IfOk result (λ points. points ≡ points_at layout.now pos) }
    {
        let flags = layout.protect.flags();
        let mut at = Vec::new(alloc);
        for flag in flags {
            at.push(pos_if(*flag, pos))?;
        }
        Ok(Positions { at })
    }

    /// Adds a position at the end.
    pub fn push(&mut self, pos: Pos) -> Result<(), AllocError>
        ensures ok { OnOk result (self.new ≡ self.old ++ pos ∷ []) }
        ensures err { OnErr result (self.new ≡ self.old) }
    {
        self.at.push(pos)?;
        Ok(())
    }

    /// How many there are.
    pub fn len(&self) -> usize
        ensures { result ≡ length self.now }
    {
        self.at.len()
    }

    /// The position with this number, or 0.
    pub fn get(&self, number: usize) -> Pos
        ensures { result ≡ get_or self.now number 0 }
    {
        if number < self.at.len() {
            self.at[number]
        } else {
            0
        }
    }

    /// The last position, or 0.
    pub fn last(&self) -> Pos
        ensures { result ≡ last_start self.now }
    {
        let len = self.at.len();
        if len == 0 {
            return 0;
        }
        self.at[len - 1]
    }

    /// The last position below this one, where they rise.
    pub fn last_below(&self, upto: Pos) -> Option<Pos>
        ensures { IsNonDecreasing self.now → result ≡ last_in (filter (λ p. nat_lt p upto) self.now) }
    {
        let count = self.at.partition_point(|pos| *pos < upto);
        self.at[..count].last().copied()
    }

    /// The positions, in order.
    pub fn all(&self) -> &[Pos]
        ensures { result.now ≡ self.now }
    {
        &self.at
    }

    /// Sets the position with this number, where there is one.
    pub fn set(&mut self, number: usize, pos: Pos)
        ensures { self.new ≡ slice_set self.old number pos }
    {
        if number < self.at.len() {
            self.at[number] = pos;
        }
    }

    /// Leaves so many first ones.
    pub fn keep_first(&mut self, count: usize)
        ensures { self.new ≡ take count self.old }
    {
        self.at.truncate(count);
    }

    /// Drops so many first ones.
    pub fn drop_first(&mut self, count: usize)
        requires { count ≤ length self.old }
        ensures { self.new ≡ drop count self.old }
    {
        let _ = self.at.drain(..count);
    }

    /// Equal positions; the only error is want of memory.
    pub fn try_clone(&self) -> Result<Positions, AllocError>
        ensures { IfOk result (λ copy. copy ≡ self.now) }
    {
        let at = self.at.clone()?;
        Ok(Positions { at })
    }
}

/// The least of the points of protected volumes, and of the end.
pub fn least_of(protect: &[bool], points: &[Pos], end: Pos) -> Pos
    ensures { result ≡ least protect.now points.now end }
{
    let mut low = end;
    let mut left = protect.len();
    while left > 0 {
        left -= 1;
        low = lower(low, protect[left], point_in(points, left));
    }
    low
}

/// The lower one of two positions, where the second counts.
fn lower(low: Pos, counts: bool, point: Pos) -> Pos
    ensures { result ≡ (if counts then min low point else low) }
{
    if counts { low.min(point) } else { low }
}

/// The position, or 0.
fn pos_if(flag: bool, pos: Pos) -> Pos
    ensures { result ≡ (if flag then pos else 0) }
{
    if flag { pos } else { 0 }
}

/// The position with this number, or 0.
pub(crate) fn point_in(points: &[Pos], number: usize) -> Pos
    ensures { result ≡ get_or points.now number 0 }
{
    if number < points.len() {
        points[number]
    } else {
        0
    }
}
