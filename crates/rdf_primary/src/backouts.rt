//! The transactions that a stop left without outcome, backed out.
ghost use Rattle.std.specs.Prelude.{◌≡◌, true, false, OnOk, OnErr, IfOk, MatchResult};
ghost use Rattle.std.specs.FinSet as set;
ghost use Rattle.rdf_model.specs.Trail.{open_in};
ghost use Rattle.rdf_model.specs.Lines.{after_abort, after_restart};
ghost use Rattle.node_faults.specs.Faults.{IsSound};
ghost use Rattle.tmf_core.specs.Stores.{CausedBy};
ghost use Rattle.tmf_core.specs.Answers.{node_fault, fault_or_done};
ghost use Rattle.tmf_core.specs.States.{tmf_trail, tmf_active, is_down, Runs, RunsWith};
ghost use Rattle.rdf_primary.specs.Restarting.{IsBackedOut, IsCutOff, LeftTowards};

use crate::primary::Primary;
use node_faults::{NodeFault, Shut};
use rdf_disk::Disk;
use rdf_model::laws::restart_is_legal;
use rdf_types::records::TxnId;
use std::alloc::Global;
use tmf_core::{Tmf, TmfFault};
use tmf_recovery::losers;

/// How a call that was not done ended for the node: a refusal is no fault of it.
fn node_part(fault: TmfFault) -> Result<(), NodeFault>
    ensures { result ≡ fault_or_done (node_fault fault) }
{
    match fault {
        TmfFault::Node { fault } => Err(fault),
        _ => Ok(()),
    }
}

/// An active transaction is backed out.
fn back_out_one<D: Disk>(tmf: &mut Tmf<D>, txn: TxnId) -> Result<(), NodeFault>
    requires up { is_down tmf.old ≡ false }
    requires runs { D.tells → Runs D.files tmf.old }
    requires active { D.tells → set.contains (tmf_active tmf.old) txn ≡ true }
    ensures ok { D.tells → OnOk result (RunsWith D.files (after_abort (tmf_trail tmf.old) txn) (set.remove (tmf_active tmf.old) txn) tmf.new) }
    ensures err { D.tells → OnErr result (LeftTowards D.files (tmf_trail tmf.old) (after_abort (tmf_trail tmf.old) txn) tmf.new.store) }
    ensures up { OnOk result (is_down tmf.new ≡ false) }
    ensures cause { CausedBy D.counts result tmf.old.store tmf.new.store }
    ensures sound { D.tells → IsSound result }
{
    match tmf.abort(txn) {
        Ok(_) => Ok(()),
        Err(fault) => node_part(fault),
    }
}

/// Each transaction without outcome is backed out, by rising number. The answer is how many there were.
pub fn back_out_all<D: Disk>(alloc: Global, tmf: &mut Tmf<D>) -> Result<u64, NodeFault>
    requires up { is_down tmf.old ≡ false }
    requires runs { D.tells → RunsWith D.files (tmf_trail tmf.old) (open_in (tmf_trail tmf.old)) tmf.old }
    ensures ok { D.tells → OnOk result (RunsWith D.files (after_restart (tmf_trail tmf.old)) set.empty tmf.new) }
    ensures says { IfOk result (λ many. many ≡ set.len (open_in (tmf_trail tmf.old))) }
    ensures err { D.tells → OnErr result (LeftTowards D.files (tmf_trail tmf.old) (after_restart (tmf_trail tmf.old)) tmf.new.store) }
    ensures up { OnOk result (is_down tmf.new ≡ false) }
    ensures cause { CausedBy D.counts result tmf.old.store tmf.new.store }
    ensures sound { D.tells → IsSound result }
{
    let lost = losers(alloc, tmf.trail())?;
    let many = lost.len() as u64;
    for txn in lost {
        back_out_one(tmf, txn)?;
    }
    Ok(many)
}

/// A primary over transactions of which those without outcome are active: these are backed out.
pub fn backed_out<D: Disk + Drop>(
    alloc: Global,
    mut tmf: Tmf<D>,
) -> Result<(Primary<D>, u64), Shut<D>>
    requires up { is_down tmf ≡ false }
    requires runs { D.tells → RunsWith D.files (tmf_trail tmf) (open_in (tmf_trail tmf)) tmf }
    ensures { MatchResult result (λ done. IsBackedOut D.tells D.files D.counts tmf done.1 done.0) (IsCutOff D.tells D.files D.counts tmf) }
{
    restart_is_legal();
    match back_out_all(alloc, &mut tmf) {
        Ok(many) => Ok((Primary { tmf }, many)),
        Err(fault) => Err(Shut {
            disks: tmf.close(),
            fault,
        }),
    }
}
