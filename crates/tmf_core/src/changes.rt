//! Changes of records, under locks that are held until the transaction ends.
ghost use Rattle.std.specs.Prelude.{◌≡◌, ◌<◌, true, false, Option, Some, None, IfOk, IfSome, option_copied};
ghost use Rattle.rdf_model.specs.Contents.{nothing};
ghost use Rattle.rdf_model.specs.Trail.{raw};
ghost use Rattle.tmf_core.specs.Refusals.{mismatch, IsMismatch};
ghost use Rattle.tmf_core.specs.Answers.{IsPlain};

use crate::fault::TmfFault;
use crate::tmf::Tmf;
use audit_trail::laws::in_use_is_durable;
use node_faults::NodeFault;
use rdf_disk::Disk;
use rdf_model::laws::change_runs;
use rdf_types::names::Value;
use rdf_types::records::{Pos, RecKey, TxnId, copy_of};
use rdf_volume::laws::in_use_stands;

/// Why a place that shows a value, or none, is not what a call needs.
fn mismatch_of(needs: bool, stands: bool) -> Option<TmfFault>
    ensures judged { result ≡ mismatch needs stands }
    ensures plain { IsPlain false result }
    ensures kinds { IfSome result (IsMismatch needs) }
{
    if needs && !stands {
        return Some(TmfFault::Missing);
    }
    if stands && !needs {
        return Some(TmfFault::Exists);
    }
    None
}

impl<D: Disk> Tmf<D> {
    ghost use Rattle.tmf_core.specs.States.{tmf_trail, tmf_volumes, Runs, RunsUnlessDown};
    ghost use Rattle.tmf_core.specs.Refusals.{cannot_use};
    ghost use Rattle.tmf_core.specs.Calls.{Puts, Reads, Changes};

    /// Locks a record for a transaction, notes what it shows, adds the image of the change to the trail, and applies it to
    /// its volume.
    fn put(
        &mut self,
        txn: TxnId,
        key: &RecKey,
        before: Option<Value>,
        after: Option<&Value>,
    ) -> Result<Pos, NodeFault>
        requires there { key.now.vol < tmf_volumes self.old }
        requires runs { D.tells → Runs D.files self.old }
        requires may { D.tells → cannot_use self.old txn key.now ≡ None }
        requires reads { D.tells → before ≡ raw nothing (tmf_trail self.old) key.now }
        ensures { Puts D.tells D.files D.counts txn key.now before (option_copied after.entry) self.old result self.new }
    {
        in_use_is_durable();
        in_use_stands::<D>();
        change_runs();
        let place = key.try_clone()?;
        let found = copy_of(before.as_ref())?;
        let after = copy_of(after)?;
        self.txns.note(txn, place, found)?;
        self.store.change(txn, key, before, after)?;
        Ok(self.store.trail.len())
    }

    /// Changes a record that is there, where the call needs one, or that is not.
    fn write(
        &mut self,
        txn: TxnId,
        key: &RecKey,
        needs: bool,
        after: Option<&Value>,
    ) -> Result<Pos, TmfFault>
        requires runs { D.tells → RunsUnlessDown D.files self.old }
        ensures { Changes D.tells D.files D.counts needs txn key.now (option_copied after.entry) self.old result self.new }
    {
        if let Some(refusal) = self.bar(txn, key) {
            return Err(refusal);
        }
        match self.store.value_at(key) {
            Ok(before) => {
                if let Some(refusal) = mismatch_of(needs, before.is_some()) {
                    return Err(refusal);
                }
                match self.put(txn, key, before, after) {
                    Ok(pos) => Ok(pos),
                    Err(fault) => Err(self.fall(fault)),
                }
            }
            Err(fault) => Err(self.fall(fault)),
        }
    }

    /// Inserts a record. The answer is the trail's length.
    pub fn insert(&mut self, txn: TxnId, key: &RecKey, value: &Value) -> Result<Pos, TmfFault>
        requires runs { D.tells → RunsUnlessDown D.files self.old }
        ensures { Changes D.tells D.files D.counts false txn key.now (Some value.now) self.old result self.new }
    {
        self.write(txn, key, false, Some(value))
    }

    /// Changes a record. The answer is the trail's length.
    pub fn update(&mut self, txn: TxnId, key: &RecKey, value: &Value) -> Result<Pos, TmfFault>
        requires runs { D.tells → RunsUnlessDown D.files self.old }
        ensures { Changes D.tells D.files D.counts true txn key.now (Some value.now) self.old result self.new }
    {
        self.write(txn, key, true, Some(value))
    }

    /// Deletes a record. The answer is the trail's length.
    pub fn delete(&mut self, txn: TxnId, key: &RecKey) -> Result<Pos, TmfFault>
        requires runs { D.tells → RunsUnlessDown D.files self.old }
        ensures { Changes D.tells D.files D.counts true txn key.now None self.old result self.new }
    {
        self.write(txn, key, true, None)
    }

    /// What a record shows. A record that another transaction has changed is not read, whatever it shows.
    pub fn read(&mut self, txn: TxnId, key: &RecKey) -> Result<Value, TmfFault>
        requires runs { D.tells → RunsUnlessDown D.files self.old }
        ensures does { Reads D.tells D.files D.counts txn key.now self.old result self.new }
        ensures reads { D.tells → IfOk result (λ value. raw nothing (tmf_trail self.old) key.now ≡ Some value) }
    {
        if let Some(refusal) = self.bar(txn, key) {
            return Err(refusal);
        }
        match self.store.value_at(key) {
            Ok(Some(value)) => Ok(value),
            Ok(None) => Err(TmfFault::Missing),
            Err(fault) => Err(self.fall(fault)),
        }
    }
}
