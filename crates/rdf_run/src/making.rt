//! The command that performs a generated plan.
ghost use Rattle.std.specs.Prelude.{◌≤◌, List};
ghost use Rattle.plan_lang.specs.declared.lines.Line.{Line};
ghost use Rattle.plan_gen.specs.Generated.{generated_plan};
ghost use Rattle.rdf_core.specs.declared.replies.Reply.{Reply};
ghost use Rattle.load_summary.specs.Tallies.{Tallies};
ghost use Rattle.rdf_system.specs.Place.{IsFull, disk_at};
ghost use Rattle.rdf_run.specs.Statuses.{SinkAfter, IsBegun, UsesNoDisk};
ghost use Rattle.rdf_run.specs.Making.{MakesPlan, SummaryEnds};
ghost use Rattle.rdf_run.specs.Calls.{Returns};

use crate::plans::perform_plan;
use crate::racks::Ended;
use crate::status::Status;
use crate::tallying::ByTally;
use load_summary::Tally;
use plan_gen::plan::make_plan;
use rdf_disk::Disk;
use rdf_ports::{Gate, Sink, write_all};
use rdf_system::Racks;
use std::alloc::Global;
use std::sync::Wait;
use std::thread::Threads;

/// Writes the summary of what was noted.
fn write_summary<K: Sink>(alloc: Global, tally: &Tally, out: &mut K) -> Status
    ensures ends { (lines : List Line) (replies : List Reply) → Tallies lines replies tally.now →
        SummaryEnds result K.tells lines replies (K.written out.old) (K.written out.new) }
    ensures diskless { UsesNoDisk result }
    ensures begun { IsBegun result }
    ensures sink { SinkAfter result (K.faults out.old) (K.faults out.new) }
{
    let mut text = Vec::new(alloc);
    match tally.text(&mut text) {
        Ok(()) => match write_all(out, &text) {
            Ok(()) => Status::Done,
            Err(_) => Status::WriteFault,
        },
        Err(_) => Status::NoMemory,
    }
}

/// Performs the plan that is generated from the seed, of so many transactions, and writes its summary once all lines are answered.
pub fn make<R: Threads + Wait + Sync, K: Sink, D: Disk + Drop + Send, G: Gate + Sync>(
    rt: &R,
    alloc: Global,
    seed: u32,
    txns: u32,
    out: &mut K,
    racks: Racks<D>,
    gate: &G,
) -> Ended<D>
    requires some { 1 ≤ txns }
    requires few { txns ≤ 2000 }
    requires full { IsFull racks }
    ensures makes { MakesPlan K.tells D.tells D.files D.counts
        (generated_plan seed txns) result.status (K.written out.old) (K.written out.new) racks result.racks }
    ensures begun { IsBegun result.status }
    ensures returns { Returns D.tells D.counts result.status (K.faults out.old) (K.faults out.new) (disk_at racks) (disk_at result.racks) }
{
    let plan = match make_plan(alloc, seed, txns) {
        Ok(plan) => plan,
        Err(_) => {
            return Ended {
                status: Status::NoMemory,
                racks,
            };
        }
    };
    let mut tally = Tally::new(alloc);
    let ended = perform_plan::<R, ByTally, D, G>(rt, alloc, &plan, &mut tally, racks, gate);
    match ended.status {
        Status::Done => Ended {
            status: write_summary(alloc, &tally, out),
            racks: ended.racks,
        },
        _ => ended,
    }
}
