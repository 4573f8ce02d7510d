//! The lines of a plan, performed one after the other, each answered when its step is durable.
ghost use Rattle.std.specs.Prelude.{◌≡◌, ◌+◌, ◌<◌, ◌^◌, ℕ, true, [], List, length, take, Option, None, Ok, Err, OnOk};
ghost use Rattle.std.specs.List.{AllPass};
ghost use Rattle.rdf_types.specs.declared.layout.Layout.{Layout as LayoutValue};
ghost use Rattle.rdf_types.specs.declared.records.Node.{Node as NodeValue};
ghost use Rattle.plan_lang.specs.declared.lines.Line.{Line as LineValue};
ghost use Rattle.plan_lang.specs.Sessions.{session_after, session_behind, KeepSessions};
ghost use Rattle.rdf_core.specs.declared.replies.Reply.{Reply as ReplyValue};
ghost use Rattle.rdf_core.specs.Allowed.{has_names};
ghost use Rattle.rdf_core.specs.State.{State as StateValue, blank};
ghost use Rattle.rdf_system.specs.Lines.{MayDo};
ghost use Rattle.rdf_system.specs.States.{disk_of, layout_of, MayServe, IsAtState, IsStood, DisksStandFor};
ghost use Rattle.rdf_system.specs.Opened.{MayOpen};
ghost use Rattle.rdf_system.specs.Sessions.{node_of, running_in};
ghost use Rattle.rdf_system.specs.Stances.{stances_of, fresh, IsHeld, StandsAs};
ghost use Rattle.rdf_run.specs.Statuses.{IsSound, NamesUsedDisk};
ghost use Rattle.rdf_run.specs.Returned.{ReturnIn};
ghost use Rattle.rdf_run.specs.RunFaults.{status_in};
ghost use Rattle.rdf_run.specs.Going.{LineEnds, Completes, RunEnds, RunGoes, Keeps, LinesLeave, FitFrom, Went, RanTo};

use crate::driving::perform_session;
use crate::performed::Performed;
use crate::run_fault::{RunFault, of_node};
use plan_lang::lines::Line;
use rdf_core::laws::{no_point_falls, step_goes_on, volumes_move};
use rdf_disk::Disk;
use rdf_monitor::{AnswerFault, Answering};
use rdf_ports::Gate;
use rdf_system::System;
use rdf_types::records::Node;
use std::alloc::Global;
use std::sync::Wait;
use std::thread::Threads;

/// Performs a line and hands out its reply. An `Err` ends the run.
fn perform_line<R: Threads + Wait + Sync, A: Answering, D: Disk + Drop + Send, G: Gate + Sync>(
    rt: &R,
    alloc: Global,
    system: &mut System<D>,
    line: &Line,
    out: &mut A::Out,
    gate: &G,
) -> Result<(), RunFault>
    requires { MayDo D.tells D.files D.counts line.now system.old }
    ensures goes { (layout : LayoutValue) (lines : List LineValue) (replies : List ReplyValue) (start : NodeValue → ℕ → Option D)
        → layout_of system.old ≡ layout → node_of system.old.session ≡ session_behind None lines
        → Went true D.tells D.counts layout lines replies start (disk_of system.old) (RanTo layout lines replies (λ s. IsAtState D.files layout s system.old)) (StandsAs system.old)
        → LineEnds (status_in result) (A.given out.old out.new) D.tells D.counts layout lines replies line.now start (disk_of system.new)
        (λ s. IsAtState D.files layout s system.new) (λ s. DisksStandFor D.files layout s system.new) (StandsAs system.new) }
    ensures keeps { Keeps D.tells D.files D.counts (status_in result) (A.faults out.old) (A.faults out.new) system.old system.new }
    ensures named { NamesUsedDisk (layout_of system.old) (status_in result) }
    ensures disks { ReturnIn D.counts None (status_in result) (disk_of system.old) (disk_of system.new) }
    ensures sound { D.tells → (layout : LayoutValue) (s : StateValue) → IsAtState D.files layout s system.old → IsSound (status_in result) }
    ensures more { OnOk result (node_of system.new.session ≡ session_after (node_of system.old.session) line.now) }
{
    no_point_falls();
    step_goes_on();
    volumes_move();
    let met = system.has_stopped();
    match system.line(rt, alloc, line, gate) {
        Ok(reply) => match A::take(alloc, out, line, reply) {
            Ok(()) => Ok(()),
            Err(AnswerFault::Write) => Err(RunFault::Write { met }),
            Err(AnswerFault::NoMemory) => Err(RunFault::NoMemory),
        },
        Err(fault) => Err(of_node(fault)),
    }
}

/// Performs the line with that number, which is no line of a session over threads, and hands out its reply.
fn perform_one<R: Threads + Wait + Sync, A: Answering, D: Disk + Drop + Send, G: Gate + Sync>(
    rt: &R,
    alloc: Global,
    system: &mut System<D>,
    lines: &[Line],
    at: usize,
    out: &mut A::Out,
    gate: &G,
) -> Result<(), RunFault>
    requires within { at < length lines.now }
    requires fits { FitFrom (layout_of system.old) (node_of system.old.session) lines.now at }
    requires serves { MayServe D.tells D.files D.counts system.old }
    requires idle { running_in system.old.session ≡ None }
    requires held { IsHeld (stances_of system.old) }
    requires stood { D.tells → IsStood D.files system.old }
    ensures goes { (layout : LayoutValue) (from : A.Out) (start : NodeValue → ℕ → Option D) → layout_of system.old ≡ layout →
        Completes (A.given from out.old) D.tells D.counts layout (take at lines.now) start (disk_of system.old) (λ s. IsAtState D.files layout s system.old) (StandsAs system.old) →
        RunGoes (status_in result) (A.given from out.new) D.tells D.counts layout [] lines.now (at + 1) start (disk_of system.new)
        (λ s. IsAtState D.files layout s system.new) (λ s. DisksStandFor D.files layout s system.new) (StandsAs system.new) }
    ensures leaves { LinesLeave D.tells D.files D.counts result (A.faults out.old) (A.faults out.new) system.old system.new }
    ensures more { OnOk result (FitFrom (layout_of system.old) (node_of system.new.session) lines.now (at + 1)) }
{
    match perform_line::<R, A, D, G>(rt, alloc, system, &lines[at], out, gate) {
        Ok(()) => Ok(()),
        Err(fault) => {
            system.stands();
            Err(fault)
        }
    }
}

/// Performs the lines of an open session up to its end, from that number on, and hands out their replies.
fn perform_opened<R: Threads + Wait + Sync, A: Answering, D: Disk + Drop + Send, G: Gate + Sync>(
    rt: &R,
    alloc: Global,
    system: System<D>,
    node: Node,
    lines: &[Line],
    at: usize,
    out: &mut A::Out,
    gate: &G,
) -> Performed<D>
    requires within { at < length lines.now }
    requires few { length lines.now < 2 ^ 64 }
    requires fits { FitFrom (layout_of system) (node_of system.session) lines.now at }
    requires open { MayOpen node system }
    requires serves { MayServe D.tells D.files D.counts system }
    ensures goes { (layout : LayoutValue) (from : A.Out) (start : NodeValue → ℕ → Option D) → layout_of system ≡ layout →
        Completes (A.given from out.old) D.tells D.counts layout (take at lines.now) start (disk_of system) (λ s. IsAtState D.files layout s system) (StandsAs system) →
        RunGoes (status_in result.ended) (A.given from out.new) D.tells D.counts layout [] lines.now result.answered start (disk_of result.system)
        (λ s. IsAtState D.files layout s result.system) (λ s. DisksStandFor D.files layout s result.system) (StandsAs result.system) }
    ensures leaves { LinesLeave D.tells D.files D.counts result.ended (A.faults out.old) (A.faults out.new) system result.system }
    ensures more { OnOk result.ended ((at < result.answered) × FitFrom (layout_of system) (node_of result.system.session) lines.now result.answered) }
{
    let Performed {
        system,
        answered,
        ended,
    } = perform_session::<R, A, D, G>(rt, alloc, system, node, &lines[at..], out, gate);
    if ended.is_err() {
        return Performed {
            system,
            answered: at,
            ended,
        };
    }
    Performed {
        system,
        answered: at + answered,
        ended,
    }
}

/// Performs lines and hands out their replies. An `Err` ends the run before the last reply is out.
pub fn perform_lines<R: Threads + Wait + Sync, A: Answering, D: Disk + Drop + Send, G: Gate + Sync>(
    rt: &R,
    alloc: Global,
    system: System<D>,
    lines: &[Line],
    out: &mut A::Out,
    gate: &G,
) -> Performed<D>
    requires names { AllPass (has_names (layout_of system)) lines.now }
    requires sessions { KeepSessions None lines.now }
    requires closed { node_of system.session ≡ None }
    requires begun { stances_of system ≡ fresh (layout_of system) }
    requires serves { MayServe D.tells D.files D.counts system }
    requires blank { D.tells → IsAtState D.files (layout_of system) (blank (layout_of system)) system }
    ensures ends { RunEnds (status_in result.ended) (A.given out.old out.new) D.tells D.counts (layout_of system) lines.now
        (disk_of system) (disk_of result.system)
        (λ s. IsAtState D.files (layout_of system) s result.system) (λ s. DisksStandFor D.files (layout_of system) s result.system) (StandsAs result.system) }
    ensures leaves { LinesLeave D.tells D.files D.counts result.ended (A.faults out.old) (A.faults out.new) system result.system }
    ensures sound { D.tells → IsSound (status_in result.ended) }
{
    let mut system = system;
    let mut answered = 0;
    while answered < lines.len() {
        match system.opened_on() {
            None => {
                match perform_one::<R, A, D, G>(
                    rt,
                    alloc,
                    &mut system,
                    lines,
                    answered,
                    out,
                    gate,
                ) {
                    Ok(()) => answered += 1,
                    Err(fault) => {
                        return Performed {
                            system,
                            answered,
                            ended: Err(fault),
                        };
                    }
                }
            }
            Some(node) => {
                let Performed {
                    system: now,
                    answered: upto,
                    ended,
                } = perform_opened::<R, A, D, G>(
                    rt, alloc, system, node, lines, answered, out, gate,
                );
                if ended.is_err() {
                    return Performed {
                        system: now,
                        answered: upto,
                        ended,
                    };
                }
                system = now;
                answered = upto;
            }
        }
    }
    Performed {
        system,
        answered,
        ended: Ok(()),
    }
}
