//! What a trail keeps of a shipment.
ghost use Rattle.std.specs.Prelude.{◌≡◌, ◌==◌, ◌&&◌, ◌<◌, ◌++◌, false, length, IfOk, OnOk, get_or, slice_set, [], vec_len};
ghost use Rattle.image_disks.specs.Blocks.{keeps, kept_of};
ghost use Rattle.image_trails.specs.Memory.{plan_of, lists_of};

use rdf_types::layout::Layout;
use rdf_types::records::{Pos, Record, Stamped};
use std::alloc::{AllocError, Global};
use std::collections::VecDeque;

/// Whether a trail has files: the master, or a secondary that some volume is assigned to.
pub fn is_used(layout: &Layout, trail: u8) -> bool
    ensures { result ≡ (plan_of layout.now).used trail }
{
    trail == 0 || layout.trail_of.numbers().contains(&trail)
}

/// Whether a volume is protected, and assigned to the trail.
fn is_home(protect: &[bool], trails: &[u8], vol: usize, trail: u8) -> bool
    requires { length protect.now ≡ length trails.now }
    ensures { result ≡ (get_or protect.now vol false && (get_or trails.now vol 0 == trail)) }
{
    vol < protect.len() && protect[vol] && trails[vol] == trail
}

/// Whether a trail keeps a record.
pub fn is_kept_on(layout: &Layout, trail: u8, rec: &Record) -> bool
    ensures { result ≡ keeps (plan_of layout.now) trail rec.now }
{
    match rec {
        Record::Image { vol, .. } => {
            let protect = layout.protect.flags();
            let trails = layout.trail_of.numbers();
            is_home(protect, trails, vol.number() as usize, trail)
        }
        Record::Commit { .. } => trail == 0,
        Record::Abort { .. } => trail == 0,
    }
}

/// A copy of what a trail keeps of a shipment, from a position on.
pub fn copy_kept(
    alloc: Global,
    layout: &Layout,
    trail: u8,
    from: Pos,
    part: &[Stamped],
) -> Result<Vec<Stamped>, AllocError>
    ensures { IfOk result (λ kept. kept.items ≡ kept_of (plan_of layout.now) trail from part.now) }
{
    let mut kept = Vec::new(alloc);
    for entry in part {
        if is_kept_on(layout, trail, &entry.rec) && from <= entry.pos {
            kept.push(entry.try_clone()?)?;
        }
    }
    Ok(kept)
}

/// Adds entries to a trail's list.
pub fn add_to(
    lists: &mut Vec<VecDeque<Stamped>>,
    trail: usize,
    part: Vec<Stamped>,
) -> Result<(), AllocError>
    requires { trail < vec_len lists.old }
    ensures items { OnOk result (lists_of lists.new ≡ slice_set (lists_of lists.old) trail (get_or (lists_of lists.old) trail [] ++ part.items)) }
    ensures len { vec_len lists.new ≡ vec_len lists.old }
{
    let mut part = VecDeque::from(part);
    lists[trail].append(&mut part)
}
