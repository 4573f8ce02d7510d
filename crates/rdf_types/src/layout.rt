//! How many backups and volumes a system has, and how its audit is kept.
ghost use Rattle.std.specs.Prelude.{◌≡◌, ◌≤◌, [], ◌∷◌, ◌++◌, length, IfOk, OnOk, OnErr};
ghost use Rattle.std.specs.List.{AllPass};
ghost use Rattle.rdf_types.specs.Limits.{is_trail};

use std::alloc::{AllocError, Global};
use std::marker::Model;

/// The number of the image trail of each volume, in the order of the volumes. By the RDF System
/// Management Manual a backup has one master image trail, and secondary ones where volumes are
/// assigned to them: 0 is the master, which also holds the outcomes, and 1 to 3 are secondaries.
#[derive(Debug, Drop)]
pub struct VolumeTrails {
    numbers: Vec<u8>,
}

impl Model for VolumeTrails {
    ghost use Rattle.std.specs.Prelude.{List, ℕ};

    ghost Value = { List ℕ };

    ghost view = { λ a. a.numbers.items };
}

impl VolumeTrails {
    /// The trails of no volume yet.
    pub fn new(alloc: Global) -> VolumeTrails
        ensures { result ≡ [] }
    {
        VolumeTrails {
            numbers: Vec::new(alloc),
        }
    }

    /// Adds the trail of the next volume; a layout asks that it is 0 to 3. An `Err` changes nothing.
    pub fn push(&mut self, number: u8) -> Result<(), AllocError>
        ensures ok { OnOk result (self.new ≡ self.old ++ number ∷ []) }
        ensures err { OnErr result (self.new ≡ self.old) }
    {
        self.numbers.push(number)?;
        Ok(())
    }

    /// The trails' numbers; the index is the volume.
    pub fn numbers(&self) -> &[u8]
        ensures { result.now ≡ self.now }
    {
        &self.numbers
    }

    /// A copy with equal numbers; the only error is want of memory.
    pub fn try_clone(&self) -> Result<VolumeTrails, AllocError>
        ensures { IfOk result (λ trails. trails ≡ self.now) }
    {
        let numbers = self.numbers.clone()?;
        Ok(VolumeTrails { numbers })
    }
}

/// Whether each volume is protected, in the order of the volumes. Backups have copies of the
/// protected volumes alone.
#[derive(Debug, Drop)]
pub struct Protection {
    flags: Vec<bool>,
}

impl Model for Protection {
    ghost use Rattle.std.specs.Prelude.{List, Bool};

    ghost Value = { List Bool };

    ghost view = { λ a. a.flags.items };
}

impl Protection {
    /// The flags of no volume yet.
    pub fn new(alloc: Global) -> Protection
        ensures { result ≡ [] }
    {
        Protection {
            flags: Vec::new(alloc),
        }
    }

    /// Adds whether the next volume is protected. An `Err` changes nothing.
    pub fn push(&mut self, flag: bool) -> Result<(), AllocError>
        ensures ok { OnOk result (self.new ≡ self.old ++ flag ∷ []) }
        ensures err { OnErr result (self.new ≡ self.old) }
    {
        self.flags.push(flag)?;
        Ok(())
    }

    /// The flags; the index is the volume.
    pub fn flags(&self) -> &[bool]
        ensures { result.now ≡ self.now }
    {
        &self.flags
    }

    /// A copy with equal flags; the only error is want of memory.
    pub fn try_clone(&self) -> Result<Protection, AllocError>
        ensures { IfOk result (λ protection. protection ≡ self.now) }
    {
        let flags = self.flags.clone()?;
        Ok(Protection { flags })
    }
}

/// How many backups and volumes there are, and how each backup keeps the audit that it receives.
/// It is the same on every node.
#[derive(Debug, Drop)]
pub struct Layout {
    /// How many backups there are: 1 is `b` alone, 2 are `b` and `c`.
    pub backups: u8,
    /// How many volumes each node has, 1 to 16. They are numbered from 0.
    pub volumes: u8,
    /// The image trail of each volume, 0 to 3.
    pub trail_of: VolumeTrails,
    /// Whether each volume is protected.
    pub protect: Protection,
    /// How many positions of the audit trail make a generation of image trails full, 1 to 10,000.
    /// What is stored next then begins a new generation.
    pub extent: u32,
    /// A purge drops generations of image trails only while more than so many stand, 2 to 64.
    pub retain: u32,
    ghost some_backup: { 1 ≤ backups },
    ghost few_backups: { backups ≤ 2 },
    ghost some_volume: { 1 ≤ volumes },
    ghost few_volumes: { volumes ≤ 16 },
    ghost a_trail_each: { length trail_of ≡ volumes },
    ghost few_trails: { AllPass is_trail trail_of },
    ghost a_flag_each: { length protect ≡ volumes },
    ghost some_extent: { 1 ≤ extent },
    ghost small_extent: { extent ≤ 10000 },
    ghost some_retained: { 2 ≤ retain },
    ghost few_retained: { retain ≤ 64 },
}

impl Layout {
    /// An equal layout; the only error is want of memory.
    pub fn try_clone(&self) -> Result<Layout, AllocError>
        ensures { IfOk result (λ layout. layout ≡ self.now) }
    {
        let trail_of = self.trail_of.try_clone()?;
        let protect = self.protect.try_clone()?;
        Ok(Layout {
            backups: self.backups,
            volumes: self.volumes,
            trail_of,
            protect,
            extent: self.extent,
            retain: self.retain,
        })
    }
}
