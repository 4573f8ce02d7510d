//! The volumes of a backup on their way back to their places.
ghost use Rattle.std.specs.Prelude.{◌≡◌, ◌≤◌, [], length, map, vec_capacity, Ok};
ghost use Rattle.rdf_backup.specs.FirstFaults.{first_fault};
ghost use Rattle.rdf_backup.specs.Parting.{Fits, merged, spread};

use crate::first_faults::{answer_at, earlier};
use crate::parting::take_first;
use node_faults::NodeFault;
use rdf_disk::Disk;
use rdf_volume::{VolFault, Volume};
use volume_sessions::{Left, Placed};

/// A volume that comes back, and what came of it.
pub(crate) trait Returning<D: Disk> {
    ghost use Rattle.rdf_volume.specs.declared.volume.Volume.{Volume as AnyVolume};
    ghost use Rattle.rdf_backup.specs.FirstFaults.{Answer};

    ghost volume_of: { Self → AnyVolume D };

    ghost answer_of: { Self → Answer };

    /// Takes the two apart.
    fn parts(self) -> (Volume<D>, Result<(), VolFault>)
        ensures volume { result.0 ≡ volume_of self }
        ensures answer { result.1 ≡ answer_of self };
}

impl<D: Disk> Returning<D> for Left<D> {
    ghost volume_of = { λ w. w.volume };

    ghost answer_of = { λ w. w.answer };

    fn parts(self) -> (Volume<D>, Result<(), VolFault>) {
        let Left { volume, answer } = self;
        (volume, answer)
    }
}

impl<D: Disk> Returning<D> for Placed<D> {
    ghost use Rattle.std.specs.Prelude.{Ok};

    ghost volume_of = { λ w. w.volume };

    ghost answer_of = { λ w. Ok tt };

    fn parts(self) -> (Volume<D>, Result<(), VolFault>) {
        let Placed { vol: _, volume } = self;
        (volume, Ok(()))
    }
}

/// Puts the volumes back in their places, in rising order of disks, and answers the first of what was met before and of
/// their faults.
pub(crate) fn put_back<D: Disk + Drop, W: Returning<D> + Drop>(
    volumes: &mut Vec<Volume<D>>,
    flags: &[bool],
    mut ended: Vec<W>,
    mut apart: Vec<Volume<D>>,
    met: Result<(), NodeFault>,
) -> Result<(), NodeFault>
    requires few { length flags.now ≤ 16 }
    requires room { (volumes.old.items ≡ []) × (length flags.now ≤ vec_capacity volumes.old) }
    requires fits { Fits flags.now ended.items apart.items }
    ensures volumes { volumes.new.items ≡ merged flags.now (map (λ w. W.volume_of w) ended.items) apart.items }
    ensures first { result ≡ first_fault 1 met (spread (Ok tt) flags.now (map (λ w. W.answer_of w) ended.items)) }
{
    let mut first = met;
    for (number, flag) in flags.iter().enumerate() {
        if !*flag {
            volumes.push_reserved(take_first(&mut apart));
            continue;
        }
        let (volume, answer) = take_first(&mut ended).parts();
        volumes.push_reserved(volume);
        first = earlier(first, answer_at(number as u8 + 1, answer));
    }
    first
}
