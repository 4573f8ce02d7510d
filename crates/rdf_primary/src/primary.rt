//! A primary in use.
use audit_trail::AuditTrail;
use rdf_disk::{Disk, Tear};
use tmf_core::Tmf;

/// A primary that is up: the transactions over its audit trail and its volumes. Disk 0 is the trail's, and disk 1 + v volume v's.
///
/// After a call ended by a fault of the node only `close` may be called.
#[derive(Drop)]
pub struct Primary<D: Disk> {
    pub(crate) tmf: Tmf<D>,
}

impl<D: Disk> Primary<D> {
    ghost use Rattle.std.specs.Prelude.{◌≡◌, ◌≤◌, ℕ};
    ghost use Rattle.tmf_core.specs.States.{tmf_volumes, FusedAt};
    ghost use Rattle.rdf_primary.specs.States.{state_of, IsUp, IsRunning};
    ghost use Rattle.rdf_primary.specs.Replies.{Stands};

    /// The audit trail.
    pub fn trail(&self) -> &AuditTrail<D>
        ensures { result.now ≡ self.now.tmf.store.trail }
    {
        self.tmf.trail()
    }

    /// After that many more counted calls of the disk the next one stops. The primary is not down yet.
    pub fn fuse(&mut self, disk: u8, calls: u32, tear: Tear)
        requires there { disk ≤ tmf_volumes self.old.tmf }
        requires up { IsUp self.old }
        requires runs { D.tells → IsRunning D.files self.old }
        ensures up { IsUp self.new }
        ensures runs { D.tells → IsRunning D.files self.new }
        ensures same { D.tells → (stops : ℕ) → state_of stops self.new ≡ state_of stops self.old }
        ensures sized { tmf_volumes self.new.tmf ≡ tmf_volumes self.old.tmf }
        ensures stands { D.tells → Stands D.files self.new }
        ensures counts { FusedAt D.counts disk self.old.tmf.store self.new.tmf.store }
    {
        self.tmf.fuse(disk, calls, tear);
    }
}

impl<D: Disk + Drop> Primary<D> {
    ghost use Rattle.std.specs.Prelude.{◌≡◌};
    ghost use Rattle.rdf_primary.specs.States.{disks_in};

    /// Hands the disks back, in their order.
    pub fn close(self) -> Vec<D>
        ensures { result.items ≡ disks_in self }
    {
        self.tmf.close()
    }
}
