//! The command that performs a plan.
ghost use Rattle.std.specs.Prelude.{◌≡◌, ◌≢◌, ◌⊎◌, ℕ, true};
ghost use Rattle.plan_lang.specs.declared.why.PlanWhy.{PlanWhy as Why};
ghost use Rattle.plan_lang.specs.Grammar.{IsBad};
ghost use Rattle.rdf_system.specs.Place.{IsFull, disk_at};
ghost use Rattle.rdf_run.specs.Statuses.{IsBegun, IsUnbegun, IsBadPlan};
ghost use Rattle.rdf_monitor.specs.Output.{texts_out};
ghost use Rattle.rdf_run.specs.Plans.{RunsBytes};
ghost use Rattle.rdf_run.specs.Calls.{TakesPlan, Returns, Runs};

use crate::plans::perform_plan;
use crate::racks::Ended;
use crate::source::{LIMIT, status_of_read};
use crate::status::Status;
use plan_lang::plan_fault::PlanFault;
use plan_lang::plan_reading::read_plan;
use rdf_disk::Disk;
use rdf_monitor::ByText;
use rdf_ports::{Gate, Sink, Source, read_all};
use rdf_system::Racks;
use std::alloc::Global;
use std::sync::Wait;
use std::thread::Threads;

/// Performs the plan that the bytes are.
fn run_bytes<R: Threads + Wait + Sync, K: Sink, D: Disk + Drop + Send, G: Gate + Sync>(
    rt: &R,
    alloc: Global,
    bytes: &[u8],
    out: &mut K,
    racks: Racks<D>,
    gate: &G,
) -> Ended<D>
    requires full { IsFull racks }
    ensures performs { IsBegun result.status →
        RunsBytes (texts_out K.tells (K.written out.old) (K.written out.new)) D.tells D.files D.counts result.status bytes.now racks result.racks
        ⊎ ((result.status ≡ Status.NoMemory) × (out.new ≡ out.old) × (result.racks ≡ racks)) }
    ensures unbegun { IsUnbegun result.status → IsBadPlan result.status × (out.new ≡ out.old) × (result.racks ≡ racks) }
    ensures bad_plan { (line : ℕ) (why : Why) → result.status ≡ Status.BadPlan line why → IsBad true bytes.now line why }
    ensures returns { Returns D.tells D.counts result.status (K.faults out.old) (K.faults out.new) (disk_at racks) (disk_at result.racks) }
{
    match read_plan(alloc, bytes) {
        Ok(plan) => perform_plan::<R, ByText<K>, D, G>(rt, alloc, &plan, out, racks, gate),
        Err(PlanFault::Bad { line, why }) => Ended {
            status: Status::BadPlan { line, why },
            racks,
        },
        Err(PlanFault::NoMemory) => Ended {
            status: Status::NoMemory,
            racks,
        },
    }
}

/// Reads the plan and performs it.
pub fn run_plan<
    R: Threads + Wait + Sync,
    S: Source,
    K: Sink,
    D: Disk + Drop + Send,
    G: Gate + Sync,
>(rt: &R, alloc: Global, plan: &mut S, out: &mut K, racks: Racks<D>, gate: &G) -> Ended<D>
    requires full { IsFull racks }
    ensures known { result.status ≢ Status.BadWords }
    ensures performs { IsBegun result.status →
        Runs S.tells S.left K.tells K.written D.tells D.files D.counts result.status plan.old plan.new out.old out.new racks result.racks }
    ensures unbegun { IsUnbegun result.status → (out.new ≡ out.old) × (result.racks ≡ racks) }
    ensures takes { TakesPlan S.tells S.left S.faults true result.status plan.old plan.new }
    ensures returns { Returns D.tells D.counts result.status (K.faults out.old) (K.faults out.new) (disk_at racks) (disk_at result.racks) }
{
    match read_all(alloc, plan, LIMIT) {
        Ok(bytes) => run_bytes(rt, alloc, &bytes, out, racks, gate),
        Err(fault) => Ended {
            status: status_of_read(fault),
            racks,
        },
    }
}
