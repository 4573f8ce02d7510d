//! The command that predicts what a plan's lines are answered.
ghost use Rattle.std.specs.Prelude.{◌≡◌, ◌≢◌, ◌⊎◌, ℕ, false};
ghost use Rattle.plan_lang.specs.PlanText.{IsPlan};
ghost use Rattle.plan_lang.specs.declared.why.PlanWhy.{PlanWhy as Why};
ghost use Rattle.plan_lang.specs.Grammar.{IsBad};
ghost use Rattle.rdf_run.specs.Statuses.{SinkAfter, IsBegun, IsUnbegun, IsBadPlan, UsesNoDisk};
ghost use Rattle.rdf_run.specs.Commands.{PredictEnds, PredictsBytes};
ghost use Rattle.rdf_run.specs.Calls.{TakesPlan, Predicts};

use crate::foretelling::predict;
use crate::source::{LIMIT, status_of_read};
use crate::status::Status;
use plan_lang::lines::Plan;
use plan_lang::plan_fault::PlanFault;
use plan_lang::plan_reading::read_plan_for_predict;
use rdf_monitor::AnswerFault;
use rdf_ports::{Sink, Source, read_all};
use std::alloc::Global;

/// Predicts the plan that the bytes are.
fn predict_bytes<K: Sink>(alloc: Global, bytes: &[u8], out: &mut K) -> Status
    ensures predicts { IsBegun result →
        PredictsBytes K.tells result bytes.now (K.written out.old) (K.written out.new) ⊎ ((result ≡ Status.NoMemory) × (out.new ≡ out.old)) }
    ensures unbegun { IsUnbegun result → IsBadPlan result × (out.new ≡ out.old) }
    ensures bad_plan { (line : ℕ) (why : Why) → result ≡ Status.BadPlan line why → IsBad false bytes.now line why }
    ensures sink { SinkAfter result (K.faults out.old) (K.faults out.new) }
    ensures diskless { UsesNoDisk result }
{
    match read_plan_for_predict(alloc, bytes) {
        Ok(plan) => predict_lines(alloc, &plan, out),
        Err(PlanFault::Bad { line, why }) => Status::BadPlan { line, why },
        Err(PlanFault::NoMemory) => Status::NoMemory,
    }
}

/// Predicts a plan.
fn predict_lines<K: Sink>(alloc: Global, plan: &Plan, out: &mut K) -> Status
    requires { IsPlan plan.now }
    ensures predicts { K.tells → PredictEnds result plan.now.layout plan.now.lines (K.written out.old) (K.written out.new) }
    ensures begun { IsBegun result }
    ensures sink { SinkAfter result (K.faults out.old) (K.faults out.new) }
    ensures diskless { UsesNoDisk result }
{
    match predict(alloc, plan, out) {
        Ok(()) => Status::Done,
        Err(AnswerFault::Write) => Status::WriteFault,
        Err(AnswerFault::NoMemory) => Status::NoMemory,
    }
}

/// Reads the plan and predicts it. No disk is touched.
pub fn predict_plan<S: Source, K: Sink>(alloc: Global, plan: &mut S, out: &mut K) -> Status
    ensures known { result ≢ Status.BadWords }
    ensures predicts { IsBegun result → Predicts S.tells S.left K.tells K.written result plan.old plan.new out.old out.new }
    ensures unbegun { IsUnbegun result → out.new ≡ out.old }
    ensures takes { TakesPlan S.tells S.left S.faults false result plan.old plan.new }
    ensures sink { SinkAfter result (K.faults out.old) (K.faults out.new) }
    ensures diskless { UsesNoDisk result }
{
    match read_all(alloc, plan, LIMIT) {
        Ok(bytes) => predict_bytes(alloc, &bytes, out),
        Err(fault) => status_of_read(fault),
    }
}
