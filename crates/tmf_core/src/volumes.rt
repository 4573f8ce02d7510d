//! The rows of a volume, and fuses of the disks.
ghost use Rattle.std.specs.Prelude.{◌≡◌, ◌≤◌, ◌<◌, [], length, IfOk, OnOk, OnErr};
ghost use Rattle.rdf_model.specs.Contents.{nothing};
ghost use Rattle.rdf_model.specs.Trail.{raw};
ghost use Rattle.tmf_core.specs.Stores.{trail_in, Stored, Left, CausedBy};
ghost use Rattle.node_faults.specs.Faults.{IsSound};
ghost use Rattle.tmf_core.specs.States.{FusedAt};
ghost use Rattle.tmf_core.specs.Answers.{AreRowsOn};

use crate::store::Store;
use audit_trail::laws::in_use_is_durable;
use node_faults::{NodeFault, at_disk};
use rdf_disk::{Disk, Tear};
use rdf_types::records::{Row, VolNo};
use rdf_volume::laws::in_use_stands;

/// All rows of a volume, in the order of file and key.
pub fn rows_on<D: Disk>(store: &mut Store<D>, vol: VolNo) -> Result<Vec<Row>, NodeFault>
    requires there { vol < length store.old.volumes.items }
    requires stored { D.tells → Stored D.files store.old }
    ensures ok { D.tells → OnOk result (Stored D.files store.new × (trail_in store.new ≡ trail_in store.old)) }
    ensures rows { D.tells → IfOk result (λ rows. AreRowsOn vol (raw nothing (trail_in store.old)) rows.items) }
    ensures err { D.tells → OnErr result (Left D.files (trail_in store.old) [] store.new) }
    ensures many { length store.new.volumes.items ≡ length store.old.volumes.items }
    ensures cause { CausedBy D.counts result store.old store.new }
    ensures sound { D.tells → IsSound result }
{
    let number = vol.number();
    let volume = &mut store.volumes[number as usize];
    match volume.scan() {
        Ok(rows) => Ok(rows),
        Err(fault) => {
            in_use_is_durable();
            in_use_stands::<D>();
            Err(at_disk(number + 1, fault))
        }
    }
}

/// After that many more counted calls of the disk the next one stops.
pub fn fuse_disk<D: Disk>(store: &mut Store<D>, disk: u8, calls: u32, tear: Tear)
    requires there { disk ≤ length store.old.volumes.items }
    requires stored { D.tells → Stored D.files store.old }
    ensures stored { D.tells → Stored D.files store.new × (trail_in store.new ≡ trail_in store.old) }
    ensures many { length store.new.volumes.items ≡ length store.old.volumes.items }
    ensures counts { FusedAt D.counts disk store.old store.new }
{
    if disk == 0 {
        store.trail.fuse(calls, tear);
        return;
    }
    let volume = &mut store.volumes[disk as usize - 1];
    volume.fuse(calls, tear);
}
