//! What the disk of a backup's image trails stands for, and laws of it.
#![tactic(auto)]

ghost use Rattle.image_disks.specs.Held.{SecondaryHolds, MasterHolds, RollHolds, DropHolds, StandingIsOrderly, StoreHolds};
ghost use Rattle.image_disks.specs.Flaws.{NoFlaw};
ghost use Rattle.image_disks.specs.Standing.{OneValue};
ghost use Rattle.image_disks.specs.Steps.{MarkMeans, ShipMeans, RollMeans};

/// A secondary's block holds what was held.
pub fn secondary_holds()
    ensures { SecondaryHolds }
{}

/// The master's block holds what was held.
pub fn master_holds()
    ensures { MasterHolds }
{}

/// A new generation holds what was held.
pub fn roll_holds()
    ensures { RollHolds }
{}

/// Dropping the first generation holds what was held.
pub fn drop_holds()
    ensures { DropHolds }
{}

/// What stands on a disk is orderly.
pub fn standing_is_orderly()
    ensures { StandingIsOrderly }
{}

/// Each value that a store passes through holds what was held.
pub fn store_holds()
    ensures { StoreHolds }
{}

/// Contents stand for one value at most.
pub fn one_value()
    ensures { OneValue }
{}

/// Contents that stand for a value have no flaw.
pub fn no_flaw()
    ensures { NoFlaw }
{}

/// With a Mark more on the last master, the disk stands for the value with that phase.
pub fn mark_means()
    ensures { MarkMeans }
{}

/// With a Ship more on one trail, the disk stands for the value with that trail's part of the shipment.
pub fn ship_means()
    ensures { ShipMeans }
{}

/// With a new master's Start, the disk stands for the value with a new generation.
pub fn roll_means()
    ensures { RollMeans }
{}
