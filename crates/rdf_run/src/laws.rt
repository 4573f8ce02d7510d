//! Laws of what is predicted, and of the stops that replies tell of.
ghost use Rattle.std.specs.Prelude.{◌≡◌, ◌≤◌, ℕ, List};
ghost use Rattle.rdf_types.specs.declared.layout.Layout.{Layout};
ghost use Rattle.rdf_types.specs.declared.records.Node.{Node};
ghost use Rattle.plan_lang.specs.declared.lines.Line.{Line};
ghost use Rattle.rdf_core.specs.declared.replies.Reply.{Reply};
ghost use Rattle.rdf_core.specs.Run.{Run};
ghost use Rattle.rdf_core.specs.State.{State, blank};
ghost use Rattle.rdf_run.specs.Predicted.{Foretold};
ghost use Rattle.rdf_run.specs.Rising.{sums_of};
ghost use Rattle.rdf_run.specs.StopsTold.{AreTold, stops_answered, TellsStop};

use rdf_core::laws::{
    no_point_falls, positions_sound, present_points_go, step_goes_on, volumes_move,
};

/// What is predicted is a run of the machine: its choices are choices of a run.
pub fn predictions_run()
    ensures { (layout : Layout) (lines : List Line) (replies : List Reply) (last : State) →
        Foretold layout (blank layout) lines replies last → Run layout lines replies last }
{
    step_goes_on();
    volumes_move();
    no_point_falls();
    present_points_go();
    positions_sound();
}

/// Of each node as many stops of disks are counted as lines that use its disks are answered that it stopped, or more; and none
/// where no reply tells that it stopped.
pub fn stops_are_told()
    ensures sums { (layout : Layout) (lines : List Line) (replies : List Reply) (stops : Node → ℕ → ℕ) → AreTold layout lines replies stops →
        (node : Node) → stops_answered node lines replies ≤ sums_of layout stops node }
    ensures none { (layout : Layout) (lines : List Line) (replies : List Reply) (stops : Node → ℕ → ℕ) → AreTold layout lines replies stops →
        (node : Node) → (TellsStop node replies → ⊥) → (i : ℕ) → stops node i ≡ 0 }
{}
