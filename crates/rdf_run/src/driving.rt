//! A session of a plan: its lines over threads, and how it ends.
ghost use Rattle.std.specs.Prelude.{◌≡◌, ◌≢◌, ℕ, true, List, Option, Some, None, IfSome, OnOk, is_some};
ghost use Rattle.rdf_types.specs.declared.layout.Layout.{Layout as LayoutValue};
ghost use Rattle.rdf_types.specs.declared.records.Node.{Node as NodeValue};
ghost use Rattle.node_faults.specs.declared.NodeFault.TheVariants as kinds;
ghost use Rattle.plan_lang.specs.declared.lines.Line.{Line as LineValue};
ghost use Rattle.plan_lang.specs.Sessions.{session_behind};
ghost use Rattle.rdf_core.specs.Allowed.{is_backup};
ghost use Rattle.rdf_system.specs.Opened.{MayOpen};
ghost use Rattle.rdf_system.specs.Sessions.{node_of};
ghost use Rattle.rdf_system.specs.Stances.{StandsAs};
ghost use Rattle.rdf_system.specs.States.{disk_of, layout_of, MayServe, IsAtState, DisksStandFor};
ghost use Rattle.rdf_run.specs.Going.{Completes, RunGoes, Keeps};
ghost use Rattle.rdf_run.specs.Returned.{ReturnIn};
ghost use Rattle.rdf_run.specs.RunFaults.{status_in, Spares};
ghost use Rattle.rdf_run.specs.Statuses.{NamesUsedDisk};
ghost use Rattle.rdf_run.specs.Stretches.{AreInSession, ComesOfSession};
ghost use Rattle.rdf_run.specs.Behind.{first_behind, fault_behind, has_met, GoesBehind};

use crate::performed::Performed;
use crate::run_fault::{RunFault, of_node};
use crate::session_lines::{Driven, Met, SessionLines};
use node_faults::NodeFault;
use plan_lang::lines::Line;
use rdf_core::laws::{no_point_falls, step_goes_on, volumes_move};
use rdf_core::replies::Reply;
use rdf_disk::Disk;
use rdf_monitor::{AnswerFault, Answering};
use rdf_ports::Gate;
use rdf_system::{Broken, InSession, NotInSession, StepFault, System, first_of_both};
use rdf_types::records::Node;
use std::alloc::Global;
use std::sync::Wait;
use std::thread::Threads;

/// A system behind a session, and what is told at its end.
#[derive(Drop)]
struct Closed<D: Disk> {
    system: System<D>,
    told: Result<Reply, NodeFault>,
}

/// Puts what is behind a session into its place.
fn close_into<D: Disk + Drop>(
    place: &mut Option<Closed<D>>,
    system: System<D>,
    told: Result<Reply, NodeFault>,
)
    ensures { place.new ≡ Some (record { system = system; told = told }) }
{
    *place = Some(Closed { system, told });
}

/// Performs lines in a session of the node, up to its end. What is behind it is put into its place; the answer owns no memory,
/// so that what the sink is behind the call is known.
fn drive_lines<'a, R: Threads + Wait + Sync, A: Answering, D: Disk + Drop + Send, G: Gate + Sync>(
    rt: &'a R,
    alloc: Global,
    system: System<D>,
    node: Node,
    lines: &'a [Line],
    out: &'a mut A::Out,
    gate: &G,
    place: &mut Option<Closed<D>>,
) -> Driven<'a, A>
    requires placed { is_backup (layout_of system) node ≡ true }
    requires open { MayOpen node system }
    requires ready { AreInSession (layout_of system) node lines.now }
    requires serves { MayServe D.tells D.files D.counts system }
    ensures same_out { result.out.ghost_name ≡ out.entry.ghost_name }
    ensures there { is_some place.new ≡ true }
    ensures comes { IfSome place.new (λ c. ComesOfSession A.given A.faults D.tells D.files D.counts node
        lines.now result.answered result.met c.told out.old result.out.now system c.system) }
{
    let stretch = SessionLines::<'a, R, A> {
        rt,
        alloc,
        lines,
        out,
    };
    match system.in_session(rt, node, gate, stretch) {
        Ok(ended) => {
            let InSession { system, out, told } = ended;
            close_into(place, system, told);
            out
        }
        Err(unbegun) => {
            let NotInSession { system, stretch } = unbegun;
            let SessionLines { out, .. } = stretch;
            close_into(place, system, Err(NodeFault::NoMemory));
            Driven {
                out,
                answered: 0,
                met: Met::Unbegun,
            }
        }
    }
}

/// Whether something was met in the session: a disk of its node stopped or failed or is damaged, or memory was wanting.
fn has_met(told: &Result<Reply, NodeFault>) -> bool
    ensures { result ≡ has_met told.now }
{
    match told {
        Ok(Reply::Stopped { node: _ }) => true,
        Ok(_) => false,
        Err(_) => true,
    }
}

/// Why the run ends with the session. Where it does not, the next line is answered by what is told at the session's end.
fn fault_behind(met: Met, node: Node, told: &Result<Reply, NodeFault>) -> Option<RunFault>
    requires { (disk : ℕ) → IfSome (first_behind met node told.now) (λ f. f.fault ≢ kinds.Stopped disk) }
    ensures { result ≡ fault_behind met node told.now }
{
    match met {
        Met::End => None,
        Met::Broken { why } => match why {
            Broken::Own { fault: _ } => None,
            Broken::Line { fault } => Some(of_node(first_of_both(fault, node, told))),
        },
        Met::Unwritten {
            fault: AnswerFault::Write,
        } => Some(RunFault::Write { met: has_met(told) }),
        Met::Unwritten {
            fault: AnswerFault::NoMemory,
        } => Some(of_node(first_of_both(
            StepFault {
                node: Node::A,
                fault: NodeFault::NoMemory,
            },
            node,
            told,
        ))),
        Met::Unbegun => Some(RunFault::NoMemory),
    }
}

/// Performs the lines of an open session of the node, from behind its line to its end, each protected volume with an updater
/// of its own beside them, and hands out their replies. At least one line is answered, or the run ends.
///
/// A line of the node that meets something ends the session over threads: it is answered by what is told then, and later
/// lines of the session one by one.
pub fn perform_session<
    R: Threads + Wait + Sync,
    A: Answering,
    D: Disk + Drop + Send,
    G: Gate + Sync,
>(
    rt: &R,
    alloc: Global,
    system: System<D>,
    node: Node,
    lines: &[Line],
    out: &mut A::Out,
    gate: &G,
) -> Performed<D>
    requires open { MayOpen node system }
    requires ready { AreInSession (layout_of system) node lines.now }
    requires serves { MayServe D.tells D.files D.counts system }
    ensures goes { (layout : LayoutValue) (from : A.Out) (before : List LineValue) (start : NodeValue → ℕ → Option D) →
        layout_of system ≡ layout → session_behind None before ≡ Some node →
        Completes (A.given from out.old) D.tells D.counts layout before start (disk_of system) (λ s. IsAtState D.files layout s system) (StandsAs system) →
        RunGoes (status_in result.ended) (A.given from out.new) D.tells D.counts layout before lines.now result.answered start (disk_of result.system)
        (λ s. IsAtState D.files layout s result.system) (λ s. DisksStandFor D.files layout s result.system) (StandsAs result.system) }
    ensures keeps { Keeps D.tells D.files D.counts (status_in result.ended) (A.faults out.old) (A.faults out.new) system result.system }
    ensures named { NamesUsedDisk (layout_of system) (status_in result.ended) }
    ensures disks { ReturnIn D.counts (Some node) (status_in result.ended) (disk_of system) (disk_of result.system) }
    ensures spared { Spares D.counts result.ended (disk_of system) (disk_of result.system) }
    ensures more { OnOk result.ended (GoesBehind node (node_of result.system.session) lines.now result.answered) }
{
    no_point_falls();
    step_goes_on();
    volumes_move();
    let mut place = None;
    let Driven {
        out: _,
        answered,
        met,
    } = drive_lines::<R, A, D, G>(rt, alloc, system, node, lines, out, gate, &mut place);
    let Some(closed) = place else { unreachable!() };
    let Closed { mut system, told } = closed;
    if let Some(fault) = fault_behind(met, node, &told) {
        system.stands();
        return Performed {
            system,
            answered,
            ended: Err(fault),
        };
    }
    let line = &lines[answered];
    let something = has_met(&told);
    system.note_told(line, &told);
    match told {
        Ok(reply) => match A::take(alloc, out, line, reply) {
            Ok(()) => Performed {
                system,
                answered: answered + 1,
                ended: Ok(()),
            },
            Err(AnswerFault::Write) => {
                system.stands();
                Performed {
                    system,
                    answered,
                    ended: Err(RunFault::Write { met: something }),
                }
            }
            Err(AnswerFault::NoMemory) => Performed {
                system,
                answered,
                ended: Err(RunFault::NoMemory),
            },
        },
        Err(fault) => Performed {
            system,
            answered,
            ended: Err(of_node(StepFault { node, fault })),
        },
    }
}
