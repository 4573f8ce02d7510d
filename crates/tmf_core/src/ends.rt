//! The end of a transaction: its outcome in the trail, and its locks released.
ghost use Rattle.std.specs.Prelude.{◌≡◌, None};
ghost use Rattle.rdf_model.specs.Lines.{after_commit, after_abort};
ghost use Rattle.tmf_core.specs.Ends.{has_changes};

use crate::backout::back_out;
use crate::fault::TmfFault;
use crate::tmf::Tmf;
use active_txns::Found;
use node_faults::NodeFault;
use rdf_disk::Disk;
use rdf_model::laws::{abort_runs, commit_runs};
use rdf_types::records::{Pos, TxnId};

/// Whether a transaction changed a record.
fn has_changes(found: Option<Found>) -> bool
    ensures { result ≡ has_changes found }
{
    match found {
        None => false,
        Some(found) => !found.is_empty(),
    }
}

impl<D: Disk> Tmf<D> {
    ghost use Rattle.tmf_core.specs.States.{tmf_trail, Runs, RunsUnlessDown};
    ghost use Rattle.tmf_core.specs.Refusals.{end_refusal};
    ghost use Rattle.tmf_core.specs.Calls.{Finishes, Ends};

    /// Ends a transaction that is active. Where it changed something, its commit is in the trail before the answer.
    fn finish(&mut self, txn: TxnId) -> Result<Pos, NodeFault>
        requires runs { D.tells → Runs D.files self.old }
        requires active { D.tells → end_refusal self.old txn ≡ None }
        ensures { Finishes D.tells D.files D.counts txn (after_commit (tmf_trail self.old) txn) self.old result self.new }
    {
        commit_runs();
        let changed = has_changes(self.txns.end(txn));
        if !changed {
            return Ok(self.store.trail.len());
        }
        self.store.commit(txn)?;
        Ok(self.store.trail.len())
    }

    /// Commits a transaction. One that changed nothing leaves no record. The answer is the trail's length.
    pub fn commit(&mut self, txn: TxnId) -> Result<Pos, TmfFault>
        requires runs { D.tells → RunsUnlessDown D.files self.old }
        ensures { Ends D.tells D.files D.counts txn (after_commit (tmf_trail self.old) txn) self.old result self.new }
    {
        if let Some(refusal) = self.end_refusal(txn) {
            return Err(refusal);
        }
        match self.finish(txn) {
            Ok(pos) => Ok(pos),
            Err(fault) => Err(self.fall(fault)),
        }
    }

    /// Backs a transaction that is active out. Its abort is in the trail before the answer, where it changed something.
    fn undo(&mut self, txn: TxnId) -> Result<Pos, NodeFault>
        requires runs { D.tells → Runs D.files self.old }
        requires active { D.tells → end_refusal self.old txn ≡ None }
        ensures { Finishes D.tells D.files D.counts txn (after_abort (tmf_trail self.old) txn) self.old result self.new }
    {
        abort_runs();
        let Some(found) = self.txns.end(txn) else {
            return Ok(self.store.trail.len());
        };
        back_out(&mut self.store, txn, found)?;
        Ok(self.store.trail.len())
    }

    /// Aborts a transaction: what it changed is set back, and its abort is in the trail. One that changed nothing leaves no
    /// record. The answer is the trail's length.
    pub fn abort(&mut self, txn: TxnId) -> Result<Pos, TmfFault>
        requires runs { D.tells → RunsUnlessDown D.files self.old }
        ensures { Ends D.tells D.files D.counts txn (after_abort (tmf_trail self.old) txn) self.old result self.new }
    {
        if let Some(refusal) = self.end_refusal(txn) {
            return Err(refusal);
        }
        match self.undo(txn) {
            Ok(pos) => Ok(pos),
            Err(fault) => Err(self.fall(fault)),
        }
    }
}
