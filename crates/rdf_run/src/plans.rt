//! A plan, performed over the racks.
ghost use Rattle.std.specs.Prelude.{◌≡◌, ◌⊎◌, true, false};
ghost use Rattle.plan_lang.specs.PlanText.{IsPlan};
ghost use Rattle.rdf_system.specs.Place.{IsFull, disk_at};
ghost use Rattle.rdf_system.specs.Starting.{HasStarted};
ghost use Rattle.rdf_system.specs.States.{disk_of, RacksStandFor};
ghost use Rattle.rdf_run.specs.Statuses.{NamesUsedDisk};
ghost use Rattle.rdf_run.specs.Plans.{status_of_start, AreOff, AreOffOrSpared, IsRefused, IsPerformed};
ghost use Rattle.rdf_run.specs.Going.{ByStatus, RunEnds};
ghost use Rattle.rdf_run.specs.Judging.{Anyhow};
ghost use Rattle.rdf_run.specs.Calls.{Returns};

use crate::performed::Performed;
use crate::performing::perform_lines;
use crate::racks::Ended;
use crate::run_fault::{RunFault, ended_by};
use crate::status::Status;
use plan_lang::lines::Plan;
use quiet_runs::{no_reply_names_a_stop, replies_tell, unstopped_runs_are_quiet};
use rdf_core::laws::{backups_agree, event_goes_on, first_takeovers_tell};
use rdf_disk::Disk;
use rdf_monitor::Answering;
use rdf_ports::Gate;
use rdf_system::{Racks, StartFault, System};
use std::alloc::Global;
use std::sync::Wait;
use std::thread::Threads;

/// Why the disks were not made ready, as a status.
fn status_of(fault: StartFault) -> Status
    ensures { result ≡ status_of_start fault }
{
    match fault {
        StartFault::NotBlank { node, disk } => Status::NotBlank { node, disk },
        StartFault::Stopped { node, disk } => Status::StoppedEarly { node, disk },
        StartFault::Failed { node, disk } => Status::DeviceFault { node, disk },
        StartFault::NoMemory => Status::NoMemory,
    }
}

/// Whether the sink failed while nothing was met in an open session.
fn is_unmet(fault: RunFault) -> bool
    ensures { result ≡ true → fault ≡ RunFault.Write false }
{
    matches!(fault, RunFault::Write { met: false })
}

/// Performs the plan's lines over a system that has just been started.
fn perform_started<R: Threads + Wait + Sync, A: Answering, D: Disk + Drop + Send, G: Gate + Sync>(
    rt: &R,
    alloc: Global,
    plan: &Plan,
    out: &mut A::Out,
    system: System<D>,
    gate: &G,
) -> Ended<D>
    requires is { IsPlan plan.now }
    requires started { HasStarted D.tells D.files D.counts plan.now.layout system }
    ensures ends { RunEnds result.status (A.given out.old out.new) D.tells D.counts plan.now.layout plan.now.lines
        (disk_of system) (disk_at result.racks)
        (λ s. RacksStandFor D.files plan.now.layout s result.racks) (λ s. RacksStandFor D.files plan.now.layout s result.racks) Anyhow }
    ensures named { NamesUsedDisk plan.now.layout result.status }
    ensures off { ByStatus result.status (Unit {0}) (AreOffOrSpared D.counts plan.now.layout (disk_of system) result.racks)
        (AreOff D.counts plan.now.layout result.racks) }
    ensures returns { Returns D.tells D.counts result.status (A.faults out.old) (A.faults out.new) (disk_of system) (disk_at result.racks) }
    ensures full { IsFull result.racks }
{
    let Performed {
        system,
        answered: _,
        ended,
    } = perform_lines::<R, A, D, G>(rt, alloc, system, plan.lines.all(), out, gate);
    match ended {
        Ok(()) => Ended {
            status: Status::Done,
            racks: system.close(),
        },
        Err(fault) => {
            if is_unmet(fault) {
                return Ended {
                    status: Status::WriteFault,
                    racks: system.close(),
                };
            }
            system.stands();
            Ended {
                status: ended_by(fault),
                racks: system.shut(),
            }
        }
    }
}

/// Performs a plan over the disks that its layout uses, which are to be blank.
pub fn perform_plan<R: Threads + Wait + Sync, A: Answering, D: Disk + Drop + Send, G: Gate + Sync>(
    rt: &R,
    alloc: Global,
    plan: &Plan,
    out: &mut A::Out,
    racks: Racks<D>,
    gate: &G,
) -> Ended<D>
    requires full { IsFull racks }
    requires is { IsPlan plan.now }
    ensures ends { IsRefused (A.given out.old out.new) D.tells D.files D.counts plan.now.layout result.status racks result.racks
        ⊎ IsPerformed (A.given out.old out.new) D.tells D.files D.counts plan.now result.status racks result.racks }
    ensures returns { Returns D.tells D.counts result.status (A.faults out.old) (A.faults out.new) (disk_at racks) (disk_at result.racks) }
{
    backups_agree();
    first_takeovers_tell();
    event_goes_on();
    unstopped_runs_are_quiet();
    no_reply_names_a_stop();
    replies_tell();
    match System::start(alloc, racks, &plan.layout) {
        Ok(system) => perform_started::<R, A, D, G>(rt, alloc, plan, out, system, gate),
        Err(refused) => Ended {
            status: status_of(refused.fault),
            racks: refused.racks,
        },
    }
}
