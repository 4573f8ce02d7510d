//! Predicting what a plan is answered.
ghost use Rattle.std.specs.Prelude.{◌≡◌, [], ◌∷◌, true, None, Err, OnOk};
ghost use Rattle.std.specs.List.{AllPass};
ghost use Rattle.plan_lang.specs.PlanText.{IsPlan};
ghost use Rattle.plan_lang.specs.Sessions.{KeepSessions};
ghost use Rattle.rdf_core.specs.Allowed.{allowed, has_names};
ghost use Rattle.rdf_core.specs.State.{blank};
ghost use Rattle.rdf_monitor.specs.declared.fault.AnswerFault.TheVariants.{Write, NoMemory};
ghost use Rattle.rdf_monitor.specs.Faults.{CountsAnswer};
ghost use Rattle.rdf_monitor.specs.Written.{Wrote, WrotePart};
ghost use Rattle.rdf_run.specs.Predicted.{IsAnswered};
ghost use Rattle.rdf_run.specs.ComingUp.{CanRise};
ghost use Rattle.rdf_run.specs.Writing.{WroteAll, WrotePartly, WroteSome};

use crate::catching_up::catch_up_for;
use crate::laws::predictions_run;
use plan_lang::lines::{Line, Plan};
use rdf_core::laws::positions_sound;
use rdf_machine::machine::Machine;
use rdf_monitor::{AnswerFault, reply_to};
use rdf_ports::Sink;
use rdf_types::layout::Layout;
use std::alloc::Global;

/// Does a line whole, once the volumes that it goes by have caught up, and writes its reply.
fn predict_line<K: Sink>(
    alloc: Global,
    machine: &mut Machine,
    layout: &Layout,
    line: &Line,
    out: &mut K,
) -> Result<(), AnswerFault>
    requires same { machine.old.layout ≡ layout.now }
    requires can { CanRise layout.now machine.old.state machine.old.state.session }
    requires allowed { allowed layout.now machine.old.state.session line.now ≡ true }
    ensures ok { OnOk result (IsAnswered layout.now machine.old.state line.now machine.new.state
        (λ reply. K.tells → Wrote (reply ∷ []) (K.written out.old) (K.written out.new))) }
    ensures part { result ≡ Err AnswerFault.Write → IsAnswered layout.now machine.old.state line.now machine.new.state
        (λ reply. K.tells → WrotePart [] reply (K.written out.old) (K.written out.new)) }
    ensures unwritten { result ≡ Err AnswerFault.NoMemory → out.new ≡ out.old }
    ensures layout { machine.new.layout ≡ machine.old.layout }
    ensures sink { CountsAnswer result (K.faults out.old) (K.faults out.new) }
{
    catch_up_for(machine, layout, line);
    let reply = machine.line(line)?;
    reply_to(alloc, out, &reply)
}

/// Predicts the replies to a plan's lines over the machine's start, and writes each before the next line.
fn predict_lines<K: Sink>(
    alloc: Global,
    machine: &mut Machine,
    layout: &Layout,
    lines: &[Line],
    out: &mut K,
) -> Result<(), AnswerFault>
    requires same { machine.old.layout ≡ layout.now }
    requires blank { machine.old.state ≡ blank layout.now }
    requires names { AllPass (has_names layout.now) lines.now }
    requires sessions { KeepSessions None lines.now }
    ensures ok { K.tells → OnOk result (WroteAll layout.now lines.now (K.written out.old) (K.written out.new)) }
    ensures part { K.tells → result ≡ Err AnswerFault.Write → WrotePartly layout.now lines.now (K.written out.old) (K.written out.new) }
    ensures memory { K.tells → result ≡ Err AnswerFault.NoMemory → WroteSome layout.now lines.now (K.written out.old) (K.written out.new) }
    ensures sink { CountsAnswer result (K.faults out.old) (K.faults out.new) }
{
    predictions_run();
    positions_sound();
    for line in lines {
        match predict_line(alloc, machine, layout, line, out) {
            Ok(()) => {}
            Err(fault) => return Err(fault),
        }
    }
    Ok(())
}

/// Predicts what the plan is answered where no disk stops and the volumes of a session have caught up whenever a line goes by where they stand.
/// Each reply is written before the next line. No disk is touched.
pub fn predict<K: Sink>(alloc: Global, plan: &Plan, out: &mut K) -> Result<(), AnswerFault>
    requires { IsPlan plan.now }
    ensures ok { K.tells → OnOk result (WroteAll plan.now.layout plan.now.lines (K.written out.old) (K.written out.new)) }
    ensures part { K.tells → result ≡ Err AnswerFault.Write → WrotePartly plan.now.layout plan.now.lines (K.written out.old) (K.written out.new) }
    ensures memory { K.tells → result ≡ Err AnswerFault.NoMemory → WroteSome plan.now.layout plan.now.lines (K.written out.old) (K.written out.new) }
    ensures sink { CountsAnswer result (K.faults out.old) (K.faults out.new) }
{
    let mut machine = Machine::new(alloc, &plan.layout)?;
    predict_lines(alloc, &mut machine, &plan.layout, plan.lines.all(), out)
}
