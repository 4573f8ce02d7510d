//! The audit trail of a node and its volumes.
ghost use Rattle.std.specs.Prelude.{◌≡◌, ◌<◌, ◌++◌, ◌∷◌, [], length, slice_get, OnOk, OnErr, IfOk, IfSome};
ghost use Rattle.rdf_types.specs.declared.records.Record.{Record};
ghost use Rattle.rdf_types.specs.declared.records.Record.TheVariants.{Image, Commit, Abort};
ghost use Rattle.rdf_model.specs.Contents.{nothing};
ghost use Rattle.rdf_model.specs.Trail.{raw};
ghost use Rattle.rdf_model.specs.Lines.{after_change};
ghost use Rattle.rdf_disk.specs.Outcomes.{Durably};
ghost use Rattle.audit_trail.specs.InUse.{disk_of as trail_disk, IsInUse};
ghost use Rattle.audit_trail.specs.Spelled.{SpellsEither, IsAlone};
ghost use Rattle.rdf_volume.specs.Views.{InUse};
ghost use Rattle.node_faults.specs.Faults.{IsSound};

use crate::images::{change_of, image_of};
use audit_trail::AuditTrail;
use audit_trail::laws::in_use_is_durable;
use node_faults::{NodeFault, at_disk};
use rdf_disk::Disk;
use rdf_types::names::Value;
use rdf_types::records::{Change, RecKey, Record, TxnId, VolNo};
use rdf_volume::Volume;
use rdf_volume::laws::{change_sets, in_use_stands};

/// The audit trail and the volumes, each on a disk of its own. Disk 0 is the trail's, and disk 1 + v volume v's.
#[derive(Drop)]
pub struct Store<D: Disk> {
    pub trail: AuditTrail<D>,
    pub volumes: Vec<Volume<D>>,
}

impl<D: Disk> Store<D> {
    ghost use Rattle.tmf_core.specs.Stores.{Stored, Left, LeftStill, Applied, NotApplied, Looked, trail_in, CausedBy};

    /// What stands at a place of a volume. Whatever the answer, the trail and what each volume shows are as before.
    pub fn value_at(&mut self, key: &RecKey) -> Result<Option<Value>, NodeFault>
        requires there { key.now.vol < length self.old.volumes.items }
        requires stored { D.tells → Stored D.files self.old }
        ensures ok { D.tells → OnOk result (Stored D.files self.new × (trail_in self.new ≡ trail_in self.old)) }
        ensures found { D.tells → IfOk result (λ value. value ≡ raw nothing (trail_in self.old) key.now) }
        ensures err { D.tells → OnErr result (LeftStill D.files (trail_in self.old) self.new) }
        ensures seen { Looked self.old self.new }
        ensures cause { CausedBy D.counts result self.old self.new }
        ensures sound { D.tells → IsSound result }
    {
        let vol = key.vol.number();
        let volume = &mut self.volumes[vol as usize];
        match volume.get(&key.file, &key.key) {
            Ok(value) => Ok(value),
            Err(fault) => {
                in_use_is_durable();
                in_use_stands::<D>();
                Err(at_disk(vol + 1, fault))
            }
        }
    }

    /// Adds a record to the trail.
    fn append(&mut self, rec: &Record) -> Result<(), NodeFault>
        requires in_use { D.tells → IsInUse self.old.trail (D.files (trail_disk self.old.trail)) }
        ensures ok { OnOk result (trail_in self.new ≡ trail_in self.old ++ rec.now ∷ []) }
        ensures in_use { D.tells → OnOk result (IsInUse self.new.trail (D.files (trail_disk self.new.trail))) }
        ensures alone { D.tells → OnOk result (IsAlone (D.files (trail_disk self.old.trail)) → IsAlone (D.files (trail_disk self.new.trail))) }
        ensures err { D.tells → OnErr result (IsAlone (D.files (trail_disk self.old.trail))
            → Durably (D.files (trail_disk self.new.trail)) (SpellsEither (trail_in self.old) rec.now)) }
        ensures volumes { self.new.volumes ≡ self.old.volumes }
        ensures cause { CausedBy D.counts result self.old self.new }
        ensures sound { IsSound result }
    {
        match self.trail.append(rec) {
            Ok(()) => Ok(()),
            Err(fault) => Err(at_disk(0, fault)),
        }
    }

    /// Applies an image to its volume, where it stands in the trail as the last record.
    fn apply(&mut self, vol: VolNo, change: Change) -> Result<(), NodeFault>
        requires there { vol < length self.old.volumes.items }
        requires in_use { D.tells → IfSome (slice_get self.old.volumes.items vol) (λ volume. InUse D.files volume) }
        ensures trail { self.new.trail ≡ self.old.trail }
        ensures many { length self.new.volumes.items ≡ length self.old.volumes.items }
        ensures ok { D.tells → OnOk result (Applied D.files vol change self.old self.new) }
        ensures err { D.tells → OnErr result (NotApplied D.files vol change self.old self.new) }
        ensures cause { CausedBy D.counts result self.old self.new }
        ensures sound { IsSound result }
    {
        let restart = self.trail.len();
        let number = vol.number();
        let volume = &mut self.volumes[number as usize];
        match volume.apply(&[change], restart) {
            Ok(()) => Ok(()),
            Err(fault) => Err(at_disk(number + 1, fault)),
        }
    }

    /// Writes a volume anew that has had 256 batches, unless the numbers of its files are used up.
    fn checkpoint(&mut self, vol: VolNo) -> Result<(), NodeFault>
        requires there { vol < length self.old.volumes.items }
        requires stored { D.tells → Stored D.files self.old }
        ensures ok { D.tells → OnOk result (Stored D.files self.new × (trail_in self.new ≡ trail_in self.old)) }
        ensures err { D.tells → OnErr result (LeftStill D.files (trail_in self.old) self.new) }
        ensures many { length self.new.volumes.items ≡ length self.old.volumes.items }
        ensures cause { CausedBy D.counts result self.old self.new }
        ensures sound { D.tells → IsSound result }
    {
        let number = vol.number();
        let volume = &mut self.volumes[number as usize];
        if volume.batches() < 256 || volume.file_number() >= u32::MAX - 1 {
            return Ok(());
        }
        match volume.checkpoint() {
            Ok(()) => Ok(()),
            Err(fault) => {
                in_use_is_durable();
                in_use_stands::<D>();
                Err(at_disk(number + 1, fault))
            }
        }
    }

    /// Adds the image of a change to the trail, and applies it to its volume with the position behind it as restart point.
    pub fn change(
        &mut self,
        txn: TxnId,
        key: &RecKey,
        before: Option<Value>,
        after: Option<Value>,
    ) -> Result<(), NodeFault>
        requires there { key.now.vol < length self.old.volumes.items }
        requires stored { D.tells → Stored D.files self.old }
        requires reads { D.tells → before ≡ raw nothing (trail_in self.old) key.now }
        ensures ok { D.tells → OnOk result (Stored D.files self.new × (trail_in self.new ≡ after_change (trail_in self.old) txn key.now after)) }
        ensures err { D.tells → OnErr result (Left D.files (trail_in self.old) (Image txn key.now.vol key.now.file key.now.key before after ∷ []) self.new) }
        ensures many { length self.new.volumes.items ≡ length self.old.volumes.items }
        ensures cause { CausedBy D.counts result self.old self.new }
        ensures sound { D.tells → IsSound result }
    {
        in_use_is_durable();
        in_use_stands::<D>();
        change_sets();
        let change = change_of(key, &after)?;
        let rec = image_of(txn, key, before, after)?;
        self.append(&rec)?;
        self.apply(key.vol, change)?;
        self.checkpoint(key.vol)
    }

    /// Adds the commit of a transaction to the trail.
    pub fn commit(&mut self, txn: TxnId) -> Result<(), NodeFault>
        requires stored { D.tells → Stored D.files self.old }
        ensures ok { D.tells → OnOk result (Stored D.files self.new) }
        ensures trail { OnOk result (trail_in self.new ≡ trail_in self.old ++ Commit txn ∷ []) }
        ensures err { D.tells → OnErr result (Left D.files (trail_in self.old) (Commit txn ∷ []) self.new) }
        ensures volumes { self.new.volumes ≡ self.old.volumes }
        ensures cause { CausedBy D.counts result self.old self.new }
        ensures sound { IsSound result }
    {
        in_use_is_durable();
        in_use_stands::<D>();
        self.append(&Record::Commit { txn })
    }

    /// Adds the abort of a transaction to the trail.
    pub fn abort(&mut self, txn: TxnId) -> Result<(), NodeFault>
        requires stored { D.tells → Stored D.files self.old }
        ensures ok { D.tells → OnOk result (Stored D.files self.new) }
        ensures trail { OnOk result (trail_in self.new ≡ trail_in self.old ++ Abort txn ∷ []) }
        ensures err { D.tells → OnErr result (Left D.files (trail_in self.old) (Abort txn ∷ []) self.new) }
        ensures volumes { self.new.volumes ≡ self.old.volumes }
        ensures cause { CausedBy D.counts result self.old self.new }
        ensures sound { IsSound result }
    {
        in_use_is_durable();
        in_use_stands::<D>();
        self.append(&Record::Abort { txn })
    }
}
