//! The volumes of an open session catch up with what was received.
ghost use Rattle.std.specs.Prelude.{◌≡◌};
ghost use Rattle.rdf_run.specs.Predicted.{before, goes_by_points, risen_in};
ghost use Rattle.rdf_run.specs.ComingUp.{CanRise, ComesUp};

use plan_lang::lines::Line;
use rdf_machine::machine::Machine;
use rdf_types::layout::Layout;
use rdf_types::records::VolNo;

/// A volume of the open session comes up as far as it may.
fn come_up(machine: &mut Machine, vol: VolNo)
    ensures comes { ComesUp machine.old.layout machine.old.state vol machine.new.state }
    ensures layout { machine.new.layout ≡ machine.old.layout }
{
    let Some(upto) = machine.may_rise(vol) else {
        return;
    };
    machine.rise(vol, upto);
}

/// The protected volumes of the open session come up to all that its backup received.
fn catch_up(machine: &mut Machine, layout: &Layout)
    requires same { machine.old.layout ≡ layout.now }
    requires can { CanRise layout.now machine.old.state machine.old.state.session }
    ensures risen { machine.new.state ≡ risen_in layout.now.protect machine.old.state machine.old.state.session }
    ensures layout { machine.new.layout ≡ machine.old.layout }
{
    for number in 0..layout.volumes {
        come_up(machine, VolNo(number));
    }
}

/// Whether the line goes by where the volumes of the open session stand.
fn goes_by_points(line: &Line) -> bool
    ensures { result ≡ goes_by_points line.now }
{
    matches!(line, Line::Read { .. } | Line::Purge { .. } | Line::End)
}

/// Before a line that goes by where the volumes stand, they catch up.
pub fn catch_up_for(machine: &mut Machine, layout: &Layout, line: &Line)
    requires same { machine.old.layout ≡ layout.now }
    requires can { CanRise layout.now machine.old.state machine.old.state.session }
    ensures before { machine.new.state ≡ before layout.now machine.old.state line.now }
    ensures layout { machine.new.layout ≡ machine.old.layout }
{
    if !goes_by_points(line) {
        return;
    }
    catch_up(machine, layout);
}
