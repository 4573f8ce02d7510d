//! A backup in use.
ghost use Rattle.std.specs.Prelude.{◌≡◌, ◌+◌, ◌≤◌, length, vec_len, vec_capacity};

use crate::opening::gathered;
use image_trails::ImageTrails;
use open_txns::OpenTxns;
use rdf_disk::{Disk, Tear};
use rdf_types::records::{Phase, Pos};
use rdf_volume::Volume;

/// A backup that is up. Disk 0 has the image trails, and disk 1 + v the volume v.
///
/// After a call ended by a fault of the node only `close` may be called.
#[derive(Drop)]
pub struct Backup<D: Disk> {
    pub(crate) trails: ImageTrails<D>,
    pub(crate) volumes: Vec<Volume<D>>,
    /// The transactions that have an image on a protected volume and no outcome in what was received.
    pub(crate) txns: OpenTxns,
    pub(crate) room: Vec<D>,
    ghost sized: { length volumes.items ≡ trails.memory.layout.volumes },
    ghost empty: { vec_len room ≡ 0 },
    ghost roomy: { vec_len volumes + 1 ≤ vec_capacity room },
}

impl<D: Disk> Backup<D> {
    ghost use Rattle.std.specs.Prelude.{ℕ, List};
    ghost use Rattle.rdf_types.specs.declared.records.Record.{Record};
    ghost use Rattle.image_disks.specs.Values.{received};
    ghost use Rattle.rdf_backup.specs.States.{layout_of, value_of, state_of, MayUse, Serves};
    ghost use Rattle.rdf_backup.specs.Replies.{FusedAt};

    /// The positions of the primary's trail below this one were received.
    pub fn received(&self) -> Pos
        ensures { result ≡ received (value_of self.now) }
    {
        self.trails.received()
    }

    /// How far a takeover of it is.
    pub fn phase(&self) -> Phase
        ensures { result ≡ (value_of self.now).phase }
    {
        self.trails.phase()
    }

    /// After that many more counted calls of the disk the next one stops.
    pub fn fuse(&mut self, disk: u8, calls: u32, tear: Tear)
        requires there { disk ≤ (layout_of self.old).volumes }
        requires usable { D.tells → MayUse D.files self.old }
        ensures usable { D.tells → MayUse D.files self.new }
        ensures serves { D.tells → (trail : List Record) → Serves D.files trail self.old → Serves D.files trail self.new }
        ensures same { (stops : ℕ) → state_of stops self.new ≡ state_of stops self.old }
        ensures phase { (value_of self.new).phase ≡ (value_of self.old).phase }
        ensures laid { layout_of self.new ≡ layout_of self.old }
        ensures counts { FusedAt D.counts disk self.old self.new }
    {
        if disk == 0 {
            self.trails.fuse(calls, tear);
            return;
        }
        let volume = &mut self.volumes[disk as usize - 1];
        volume.fuse(calls, tear);
    }
}

impl<D: Disk + Drop> Backup<D> {
    ghost use Rattle.rdf_backup.specs.States.{disks_in};

    /// Hands the disks back, in their order.
    pub fn close(self) -> Vec<D>
        ensures { result.items ≡ disks_in self }
    {
        let Backup {
            trails,
            volumes,
            room,
            ..
        } = self;
        gathered(trails, volumes, room)
    }
}
