//! The calls that store, mark and drop.
ghost use Rattle.std.specs.Prelude.{◌≡◌, ◌<◌, ◌≤◌, ◌≢◌, length, OnOk, OnErr};
ghost use Rattle.rdf_disk.specs.Counts.{fused};
ghost use Rattle.rdf_codec.specs.Ships.{HasShipSpelling};
ghost use Rattle.image_disks.specs.Blocks.{IsPhaseAt};
ghost use Rattle.image_disks.specs.Values.{Alike, marked, received, written, stored, stages, ready, rolled, dropped};
ghost use Rattle.image_trails.specs.Memory.{shipment};
ghost use Rattle.image_trails.specs.Trails.{trails_layout, trails_plan, trails_value, AreInUse, AreHeld, AreHeldWith, AreUpTo};
ghost use Rattle.image_trails.specs.Trails.{LeavesEither, LeavesOne, LeavesHeld, KeepsHeld, KeepsPhase, StandAt, Stays};

use crate::generations::{begin_generation, drop_generation};
use crate::memory::Memory;
use crate::parts::{add_to, copy_kept, is_used};
use crate::payloads::{mark_payload, ship_payload, start_payload};
use image_disks::{
    drop_holds, mark_means, roll_means, ship_means, standing_is_orderly, store_holds,
};
use rdf_codec::ships::Ship;
use rdf_disk::{Disk, Tear};
use rdf_gatelog::logs::append;
use rdf_gatelog::{LogFault, LogFile};
use rdf_types::layout::Layout;
use rdf_types::records::{Phase, Pos};
use std::alloc::Global;

/// The image trails of a backup, on its disk. After an `Err` of `store`, `mark` or `drop_first` only `close` may be called.
#[derive(Drop)]
pub struct ImageTrails<D: Disk> {
    pub(crate) alloc: Global,
    pub(crate) disk: D,
    pub memory: Memory,
}

impl<D: Disk> ImageTrails<D> {
    /// Makes the phase durable. After an `Err` the disk durably stands for what it stood for, with the phase or without it.
    pub fn mark(&mut self, phase: Phase) -> Result<(), LogFault>
        requires phase { IsPhaseAt (received (trails_value self.old)) phase }
        requires in_use { D.tells → AreInUse D.files self.old }
        ensures ok { D.tells → OnOk result (AreInUse D.files self.new) }
        ensures value { OnOk result (Alike (trails_value self.new) (marked phase (trails_value self.old))) }
        ensures err { D.tells → OnErr result (LeavesEither D.files (marked phase (trails_value self.old)) self.old self.new) }
        ensures held { OnOk result (KeepsHeld (AreHeld self.old) self.old self.new) }
        ensures left { D.tells → OnErr result (LeavesHeld D.files (AreHeld self.old) self.old self.new) }
        ensures stays { Stays D.counts result self.old self.new }
    {
        mark_means();
        let payload = mark_payload(self.alloc, phase)?;
        let mut log = LogFile::at(self.alloc, 4 * self.memory.last, self.memory.ends[0]);
        append(&mut log, &mut self.disk, &payload)?;
        self.memory.ends[0] = log.end();
        self.memory.phase = phase;
        Ok(())
    }

    // One trail's part of a shipment, durably. The secondaries come before the master.
    fn write(&mut self, trail: u8, ship: &Ship) -> Result<(), LogFault>
        requires trail { trail < 4 }
        requires spelled { HasShipSpelling ship.now }
        requires joins { ship.now.from ≤ received (trails_value self.old) }
        requires order { D.tells → trail ≡ 0 → AreUpTo ship.now.to self.old }
        requires in_use { D.tells → AreInUse D.files self.old }
        ensures ok { D.tells → OnOk result (StandAt D.files (written (trails_plan self.old) (shipment ship.now) trail (trails_value self.old)) self.new) }
        ensures err { D.tells → OnErr result
            (LeavesEither D.files (written (trails_plan self.old) (shipment ship.now) trail (trails_value self.old)) self.old self.new) }
        ensures received { OnOk result (trail ≢ 0 → received (trails_value self.new) ≡ received (trails_value self.old)) }
        ensures phase { KeepsPhase result self.old self.new }
        ensures stays { Stays D.counts result self.old self.new }
    {
        standing_is_orderly();
        ship_means();
        let top = self.memory.next_of(trail);
        if !is_used(&self.memory.layout, trail) {
            return Ok(());
        }
        if ship.to <= top {
            return Ok(());
        }
        let part = copy_kept(
            self.alloc,
            &self.memory.layout,
            trail,
            top,
            ship.part.as_slice(),
        )?;
        let payload = ship_payload(self.alloc, top, ship.to, &part)?;
        add_to(&mut self.memory.entries, trail as usize, part)?;
        let file = 4 * self.memory.last + trail as u32;
        let mut log = LogFile::at(self.alloc, file, self.memory.ends[trail as usize]);
        append(&mut log, &mut self.disk, &payload)?;
        self.memory.ends[trail as usize] = log.end();
        self.memory.tops[trail as usize] = ship.to;
        Ok(())
    }

    // Begins a generation behind the last one.
    fn roll(&mut self) -> Result<(), LogFault>
        requires few { self.old.memory.last < 1000000000 }
        requires in_use { D.tells → AreInUse D.files self.old }
        ensures ok { D.tells → OnOk result (StandAt D.files (rolled (trails_value self.old)) self.new) }
        ensures err { D.tells → OnErr result (LeavesEither D.files (rolled (trails_value self.old)) self.old self.new) }
        ensures received { OnOk result (received (trails_value self.new) ≡ received (trails_value self.old)) }
        ensures phase { KeepsPhase result self.old self.new }
        ensures stays { Stays D.counts result self.old self.new }
    {
        roll_means();
        let received = self.memory.tops[0];
        let payload = start_payload(self.alloc, received, self.memory.phase)?;
        let master = 4 * self.memory.last + 4;
        let end = begin_generation(
            self.alloc,
            &mut self.disk,
            &self.memory.layout,
            master,
            &payload,
        )?;
        self.memory.roll(end)?;
        Ok(())
    }

    // Begins a new generation where the last one is long enough.
    fn make_ready(&mut self) -> Result<(), LogFault>
        requires in_use { D.tells → AreInUse D.files self.old }
        ensures ok { D.tells → OnOk result (StandAt D.files (ready (trails_plan self.old) (trails_value self.old)) self.new) }
        ensures err { D.tells → OnErr result (LeavesEither D.files (ready (trails_plan self.old) (trails_value self.old)) self.old self.new) }
        ensures received { OnOk result (received (trails_value self.new) ≡ received (trails_value self.old)) }
        ensures phase { KeepsPhase result self.old self.new }
        ensures stays { Stays D.counts result self.old self.new }
    {
        if !self.memory.is_full() {
            return Ok(());
        }
        self.roll()
    }

    /// Stores the records of a shipment, durably.
    /// After an `Err` the disk durably stands for what it stood for, with some first ones of the store's parts: the new generation, each secondary's block, the master's block.
    pub fn store(&mut self, ship: &Ship) -> Result<(), LogFault>
        requires spelled { HasShipSpelling ship.now }
        requires joins { ship.now.from ≤ received (trails_value self.old) }
        requires some { received (trails_value self.old) < ship.now.to }
        requires in_use { D.tells → AreInUse D.files self.old }
        ensures ok { D.tells → OnOk result (StandAt D.files (stored (trails_plan self.old) (shipment ship.now) (trails_value self.old)) self.new) }
        ensures err { D.tells → OnErr result (LeavesOne D.files (stages (trails_plan self.old) (shipment ship.now) (trails_value self.old)) self.old self.new) }
        ensures held { D.tells → OnOk result (KeepsHeld (AreHeldWith (shipment ship.now) self.old) self.old self.new) }
        ensures left { D.tells → OnErr result (LeavesHeld D.files (AreHeldWith (shipment ship.now) self.old) self.old self.new) }
        ensures phase { KeepsPhase result self.old self.new }
        ensures stays { Stays D.counts result self.old self.new }
    {
        standing_is_orderly();
        store_holds();
        self.make_ready()?;
        self.write(1, ship)?;
        self.write(2, ship)?;
        self.write(3, ship)?;
        self.write(0, ship)?;
        Ok(())
    }

    /// Drops the first generation. After an `Err` the disk durably stands for what it stood for, with that generation or without it.
    pub fn drop_first(&mut self) -> Result<(), LogFault>
        requires two { 2 ≤ length (trails_value self.old).starts }
        requires in_use { D.tells → AreInUse D.files self.old }
        ensures ok { D.tells → OnOk result (StandAt D.files (dropped (trails_value self.old)) self.new) }
        ensures err { D.tells → OnErr result (LeavesEither D.files (dropped (trails_value self.old)) self.old self.new) }
        ensures held { D.tells → OnOk result (KeepsHeld (AreHeld self.old) self.old self.new) }
        ensures left { D.tells → OnErr result (LeavesHeld D.files (AreHeld self.old) self.old self.new) }
        ensures phase { KeepsPhase result self.old self.new }
        ensures stays { Stays D.counts result self.old self.new }
    {
        drop_holds();
        let master = self.memory.generations[0].master;
        drop_generation(&mut self.disk, &self.memory.layout, master)?;
        self.memory.drop_first();
        Ok(())
    }

    /// The layout that they were made by.
    pub fn layout(&self) -> &Layout
        ensures { result.now ≡ trails_layout self.now }
    {
        &self.memory.layout
    }

    /// What gives them memory.
    pub fn alloc(&self) -> Global {
        self.alloc
    }

    /// The positions below this are stored.
    pub fn received(&self) -> Pos
        ensures { result ≡ received (trails_value self.now) }
    {
        self.memory.tops[0]
    }

    /// The phase that was last made durable.
    pub fn phase(&self) -> Phase
        ensures { result ≡ (trails_value self.now).phase }
    {
        self.memory.phase
    }

    /// The number of the first generation's first file.
    pub fn first_file(&self) -> u32 {
        match self.memory.generations.front() {
            Some(generation) => generation.master,
            None => 0,
        }
    }

    /// The disk's own call: after so many more counted calls the next one stops.
    pub fn fuse(&mut self, calls: u32, tear: Tear)
        ensures in_use { D.tells → AreInUse D.files self.old → AreInUse D.files self.new }
        ensures memory { self.new.memory ≡ self.old.memory }
        ensures counts { D.counts self.new.disk ≡ fused (D.counts self.old.disk) }
    {
        self.disk.fuse(calls, tear);
    }

    /// The disk, after any answer.
    pub fn close(self) -> D
        ensures { result ≡ self.disk }
    {
        self.disk
    }
}
