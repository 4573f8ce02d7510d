//! What is kept in memory of an image disk.
ghost use Rattle.std.specs.Prelude.{◌≡◌, ◌<◌, ◌≤◌, ℕ, max, OnOk, IfOk, [], get_or, map, vec_len};
ghost use Rattle.std.specs.VecDeque.{deque_len};

use crate::lists::{Side, leave_all};
use crate::parts::add_to;
use crate::said::Said;
use rdf_types::layout::Layout;
use rdf_types::records::{Phase, Pos, Stamped};
use std::alloc::{AllocError, Global};
use std::collections::VecDeque;

/// A generation that stands: the position where it starts, and the number of its master's file.
#[derive(Clone, Copy)]
pub struct Generation {
    pub(crate) start: Pos,
    pub(crate) master: u32,
    ghost few: { master ≤ 4000000000 },
}

/// What is kept in memory of an image disk. Each list by trail has four places, the master's first.
#[derive(Drop)]
pub struct Memory {
    pub layout: Layout,
    pub(crate) generations: VecDeque<Generation>,
    pub(crate) last: u32,
    pub(crate) phase: Phase,
    pub(crate) tops: Vec<Pos>,
    pub(crate) ends: Vec<u64>,
    pub(crate) entries: Vec<VecDeque<Stamped>>,
    ghost few: { last ≤ 1000000000 },
    ghost by_top: { vec_len tops ≡ 4 },
    ghost by_end: { vec_len ends ≡ 4 },
    ghost by_entry: { vec_len entries ≡ 4 },
}

/// Sets each number of a list.
fn set_all(values: &mut Vec<u64>, value: u64)
    ensures len { vec_len values.new ≡ vec_len values.old }
    ensures each { (t : ℕ) → t < vec_len values.old → get_or values.new.items t 0 ≡ value }
{
    for slot in values.iter_mut() {
        *slot = value;
    }
}

/// Four lists without entries.
fn no_entries(alloc: Global) -> Result<Vec<VecDeque<Stamped>>, AllocError>
    ensures none { IfOk result (λ lists. (t : ℕ) → get_or (map (λ v. v.items) lists.items) t [] ≡ []) }
    ensures four { IfOk result (λ lists. vec_len lists ≡ 4) }
{
    let lists = vec![in alloc;
        VecDeque::new(alloc),
        VecDeque::new(alloc),
        VecDeque::new(alloc),
        VecDeque::new(alloc),
    ]?;
    Ok(lists)
}

impl Memory {
    ghost use Rattle.image_disks.specs.Values.{last_of, received, rolls};
    ghost use Rattle.image_trails.specs.Memory.{plan_of, value_in};
    ghost use Rattle.image_trails.specs.Rolls.{IsFresh, IsEmptyMemory, HasRolled, HasDropped};
    ghost use Rattle.image_trails.specs.Opening.{HasBegun, HasTaken};

    /// Of a disk whose first generation starts at a position.
    pub(crate) fn fresh(alloc: Global, layout: &Layout, start: Pos) -> Result<Memory, AllocError>
        ensures { IfOk result (λ memory. IsFresh layout.now start memory) }
    {
        let layout = layout.try_clone()?;
        let mut generations = VecDeque::new(alloc);
        generations.push_back(Generation { start, master: 0 })?;
        let tops = vec![in alloc; start; 4]?;
        let ends = vec![in alloc; 0u64; 4]?;
        let entries = no_entries(alloc)?;
        Ok(Memory {
            layout,
            generations,
            last: 0,
            phase: Phase::Running,
            tops,
            ends,
            entries,
        })
    }

    /// Of a disk of which nothing was read yet.
    pub(crate) fn empty(alloc: Global, layout: &Layout) -> Result<Memory, AllocError>
        ensures { IfOk result (IsEmptyMemory layout.now) }
    {
        let layout = layout.try_clone()?;
        let tops = vec![in alloc; 0u64; 4]?;
        let ends = vec![in alloc; 0u64; 4]?;
        let entries = no_entries(alloc)?;
        Ok(Memory {
            layout,
            generations: VecDeque::new(alloc),
            last: 0,
            phase: Phase::Running,
            tops,
            ends,
            entries,
        })
    }

    /// A generation more, as its Start says.
    pub(crate) fn begin(&mut self, number: u32, start: Pos, phase: Phase) -> Result<(), AllocError>
        requires few { number ≤ 1000000000 }
        ensures { OnOk result (HasBegun number start phase self.old self.new) }
    {
        let master = 4 * number;
        self.generations.push_back(Generation { start, master })?;
        self.last = number;
        self.phase = phase;
        set_all(&mut self.tops, start);
        set_all(&mut self.ends, 0);
        leave_all(&mut self.entries, Side::Before, start);
        Ok(())
    }

    /// What a trail's file of the last generation says, and where its blocks end.
    pub(crate) fn take(&mut self, trail: u8, said: Said, end: u64) -> Result<(), AllocError>
        requires { trail < 4 }
        ensures { OnOk result (HasTaken trail said end self.old self.new) }
    {
        let Said {
            end: top,
            phase,
            part,
        } = said;
        add_to(&mut self.entries, trail as usize, part)?;
        self.tops[trail as usize] = top;
        self.ends[trail as usize] = end;
        self.phase = phase;
        Ok(())
    }

    /// Where the last generation starts.
    fn last_start(&self) -> Pos
        ensures { result ≡ last_of (value_in self.now).starts }
    {
        match self.generations.back() {
            Some(generation) => generation.start,
            None => 0,
        }
    }

    /// Where the next block of a trail's file begins: at the trail's top, and nowhere before the received position.
    pub(crate) fn next_of(&self, trail: u8) -> Pos
        requires { trail < 4 }
        ensures { result ≡ max (received (value_in self.now)) ((value_in self.now).top trail) }
    {
        self.tops[0].max(self.tops[trail as usize])
    }

    /// Whether the last generation covers as many positions as the layout says, and another one may follow.
    pub(crate) fn is_full(&self) -> bool
        ensures { result ≡ rolls (plan_of self.now.layout) (value_in self.now) }
    {
        let covered = self.tops[0].saturating_sub(self.last_start());
        if covered < self.layout.extent as u64 {
            return false;
        }
        self.last < 1_000_000_000
    }

    /// A generation more behind the last one, whose master's log ends there.
    pub(crate) fn roll(&mut self, end: u64) -> Result<(), AllocError>
        requires few { self.old.last < 1000000000 }
        ensures layout { self.new.layout ≡ self.old.layout }
        ensures rolled { OnOk result (HasRolled self.old self.new end) }
    {
        let received = self.tops[0];
        let master = 4 * self.last + 4;
        self.generations.push_back(Generation {
            start: received,
            master,
        })?;
        self.last += 1;
        set_all(&mut self.tops, received);
        set_all(&mut self.ends, 0);
        self.ends[0] = end;
        leave_all(&mut self.entries, Side::Before, received);
        Ok(())
    }

    /// Without the first generation.
    pub(crate) fn drop_first(&mut self)
        requires two { 2 ≤ deque_len self.old.generations }
        ensures { HasDropped self.old self.new }
    {
        let _ = self.generations.pop_front();
        let start = self.generations[0].start;
        leave_all(&mut self.entries, Side::From, start);
    }
}
