//! Laws of runs of the machine in which no disk stops: what a run is over disks that stay on.
#![tactic(auto)]

ghost use Rattle.std.specs.Prelude.{◌≡◌, true, List};
ghost use Rattle.rdf_types.specs.declared.layout.Layout.{Layout};
ghost use Rattle.rdf_types.specs.declared.records.Node.{Node};
ghost use Rattle.plan_lang.specs.declared.lines.Line.{Line};
ghost use Rattle.rdf_core.specs.declared.replies.Reply.{Reply};
ghost use Rattle.rdf_core.specs.Backup.{is_taken};
ghost use Rattle.rdf_core.specs.Sessions.{is_backup_node};
ghost use Rattle.by_node.specs.Each.{at};
ghost use Rattle.rdf_core.specs.State.{State};
ghost use Rattle.rdf_core.specs.Run.{Run, RunsFrom};
ghost use Rattle.quiet_runs.specs.Quiet.{QuietFrom, QuietRun, NoneStopped};
ghost use Rattle.quiet_runs.specs.Answers.{EachIsAnswered};
ghost use Rattle.quiet_runs.specs.Told.{NoneNamesStop, is_up_behind, has_taken_over, TakeoversAreOk, CopiesAreOk};

use rdf_core::laws::loss_lasts;

/// A run in which no stop was counted is one in which no line was cut off and no volume's disk stopped.
pub fn unstopped_runs_are_quiet()
    ensures run { (layout : Layout) (lines : List Line) (replies : List Reply) (last : State) →
        Run layout lines replies last → NoneStopped last → QuietRun layout lines replies last }
    ensures from { (layout : Layout) (lines : List Line) (replies : List Reply) (old last : State) →
        RunsFrom layout old lines replies last → NoneStopped last → QuietFrom layout old lines replies last × NoneStopped old }
{}

/// A run in which no disk stops is a run, and counts no stop.
pub fn quiet_runs_are_runs()
    ensures run { (layout : Layout) (lines : List Line) (replies : List Reply) (last : State) →
        QuietRun layout lines replies last → Run layout lines replies last × NoneStopped last }
    ensures from { (layout : Layout) (lines : List Line) (replies : List Reply) (old last : State) →
        QuietFrom layout old lines replies last → NoneStopped old → RunsFrom layout old lines replies last × NoneStopped last }
{}

/// Where no disk stops, a takeover of a backup that is up is answered with what it received once the primary is lost, as it is behind a `lose` that was answered ok; and a copy between two
/// backups that are up and have taken over is answered with how much it copied, or that this is purged.
pub fn each_line_is_answered()
    ensures { (layout : Layout) (lines : List Line) (replies : List Reply) (start last : State) →
        QuietFrom layout start lines replies last → EachIsAnswered layout start lines replies last }
{
    loss_lasts();
}

/// Where no disk stops, the replies tell which backups are up, and a backup of which a takeover was answered ok has taken over. So what takeovers and copies are answered is told by the
/// replies before them.
pub fn replies_tell()
    ensures up { (layout : Layout) (lines : List Line) (replies : List Reply) (last : State) (node : Node) →
        QuietRun layout lines replies last → is_backup_node node ≡ true → (at last.backups node).up ≡ is_up_behind node lines replies }
    ensures taken { (layout : Layout) (lines : List Line) (replies : List Reply) (last : State) (node : Node) →
        QuietRun layout lines replies last → is_backup_node node ≡ true → has_taken_over node lines replies ≡ true → is_taken (at last.backups node).volumes ≡ true }
    ensures takeovers { (layout : Layout) (lines : List Line) (replies : List Reply) (last : State) →
        QuietRun layout lines replies last → TakeoversAreOk lines replies }
    ensures copies { (layout : Layout) (lines : List Line) (replies : List Reply) (last : State) →
        QuietRun layout lines replies last → CopiesAreOk lines replies }
{
    each_line_is_answered();
}

/// Where no disk stops, no reply names a stop.
pub fn no_reply_names_a_stop()
    ensures { (layout : Layout) (lines : List Line) (replies : List Reply) (last : State) →
        QuietRun layout lines replies last → NoneNamesStop replies }
{}
