//! The laws of whole runs.
ghost use Rattle.std.specs.Prelude.{◌≡◌, ◌<◌, ℕ, true, false, List, [], ◌∷◌, ◌++◌, Option, Some, None, IsTrue};
ghost use Rattle.rdf_types.specs.declared.layout.Layout.{Layout};
ghost use Rattle.rdf_types.specs.declared.records.Node.{Node};
ghost use Rattle.rdf_types.specs.declared.records.Node.TheVariants.{A};
ghost use Rattle.plan_lang.specs.declared.lines.Line.{Line};
ghost use Rattle.plan_lang.specs.declared.lines.Line.TheVariants as line;
ghost use Rattle.by_node.specs.Each.{at};
ghost use Rattle.rdf_core.specs.declared.events.Event.{Event};
ghost use Rattle.rdf_core.specs.declared.replies.NoWhy.{NoWhy};
ghost use Rattle.rdf_core.specs.declared.replies.Reply.{Reply};
ghost use Rattle.rdf_core.specs.declared.replies.Reply.TheVariants.{No};
ghost use Rattle.rdf_core.specs.Effects.{IsDone, IsCutOff};
ghost use Rattle.rdf_core.specs.Primary.{Primary, primary_refusal, primary_parts, primary_after, primary_says, primary_fallen};
ghost use Rattle.rdf_core.specs.Backup.{Backup, backup_refusal, backup_parts, backup_after, backup_says, backup_fallen};
ghost use Rattle.rdf_core.specs.Sessions.{Open, Opened, has_halted, is_backup_node, with_cut};
ghost use Rattle.rdf_core.specs.State.{State, blank, with_primary, with_backup, with_session};
ghost use Rattle.rdf_core.specs.Lines.{around, restarted};
ghost use Rattle.rdf_core.specs.Layouts.{protects};
ghost use Rattle.rdf_core.specs.Allowed.{allowed, is_backup};
ghost use Rattle.rdf_core.specs.Step.{Step, PrimaryStep, Goes, after_halt, disks_of, is_for_primary, is_for_backup};
ghost use Rattle.rdf_core.specs.Rising.{VolumesRise};
ghost use Rattle.rdf_core.specs.Run.{Drifts, Run, RunsFrom};
ghost use Rattle.rdf_core.specs.Happens.{Admits, Happens, line_of, points_for, reply_of};
ghost use Rattle.rdf_core.specs.Sound.{AllSound, NoneHasFallen};
ghost use Rattle.rdf_core.specs.Proper.{IsProper};
ghost use Rattle.rdf_core.specs.Losses.{IsLost, has_lost};
ghost use Rattle.rdf_core.specs.Agreement.{first_takeover, takeover_ok, AreRepaired, HadReceived, IsTakenAt};

use rdf_model::laws::{abort_runs, begin_runs, change_runs, commit_runs, restart_runs};

/// All backups agree, however many there are: once each has answered a takeover, the lead has answered one with the greatest of their first numbers, and each other one got a copy
/// from it and took over again, all have exactly the prefix of that number, at the end of every run.
pub fn backups_agree()
    ensures { (layout : Layout) (lines : List Line) (replies : List Reply) (last : State) (lead : Node) (m : ℕ) →
        Run layout lines replies last → AreRepaired layout lead m lines replies → (node : Node) → IsTrue (is_backup layout node) →
        IsTakenAt m (at last.backups node) }
{}

/// An ok to a takeover tells the received prefix that stood as it began, and leaves all of it taken.
pub fn takeover_tells()
    ensures { (layout : Layout) (old : State) (l : Line) (reply : Reply) (new : State) (of : Node) (n : ℕ) →
        Step layout old l reply new → takeover_ok of l reply ≡ Some n → IsTakenAt n (at new.backups of) × ((at old.backups of).received ≡ n) }
{}

/// The number of the first ok to a takeover of a node is what it had received as that takeover began, in every run. So the greater of two such numbers is that of the longer received prefix.
pub fn first_takeovers_tell()
    ensures { (layout : Layout) (lines : List Line) (replies : List Reply) (last : State) (run : Run layout lines replies last) (of : Node) (n : ℕ) →
        first_takeover of lines replies ≡ Some n → HadReceived of n layout (blank layout) lines replies last run }
{}

/// What the primary does for a line on it alone, where a plan may have that line, is a step of the whole.
pub fn primary_lifts()
    ensures { (layout : Layout) (s : State) (l : Line) (reply : Reply) (new : Primary) → IsTrue (allowed layout s.session l) → is_for_primary l ≡ true →
        PrimaryStep layout s.primary l reply new → Step layout s l reply (with_primary s new) }
{}

/// What a restart of the primary does is a step of the whole, in which the extractors forget how far they were; one that a stop cuts off leaves them.
pub fn restart_lifts()
    ensures done { (layout : Layout) (s : State) (reply : Reply) → IsTrue (allowed layout s.session (line.Restart A)) →
        primary_refusal layout s.primary (line.Restart A) ≡ None → primary_says s.primary (line.Restart A) reply → Step layout s (line.Restart A) reply (restarted s (line.Restart A)) }
    ensures refused { (layout : Layout) (s : State) (why : NoWhy) → IsTrue (allowed layout s.session (line.Restart A)) →
        primary_refusal layout s.primary (line.Restart A) ≡ Some why → Step layout s (line.Restart A) (No why) s }
    ensures cut { (layout : Layout) (s : State) (done : ℕ) (reply : Reply) (new : Primary) → IsTrue (allowed layout s.session (line.Restart A)) →
        IsCutOff A primary_fallen s.primary (primary_refusal layout s.primary (line.Restart A)) (primary_parts s.primary (line.Restart A)) done reply new →
        Step layout s (line.Restart A) reply (with_primary s new) }
{}

/// What a backup does for a line on it alone, where a plan may have that line, is a step of the whole.
pub fn backup_lifts()
    ensures { (layout : Layout) (points : List ℕ) (s : State) (node : Node) (l : Line) (reply : Reply) (new : Backup) → IsTrue (allowed layout s.session l) →
        is_backup_node node ≡ true → is_for_backup node l ≡ true → Goes layout s l points →
        IsDone (backup_refusal layout (around points s l) (at s.backups node) l) (λ why. at s.backups node) (backup_after layout (around points s l) (at s.backups node) l)
        (backup_says layout (around points s l) (at s.backups node) l) reply new → Step layout s l reply (with_backup s node new) }
{}

/// In every state of every run each backup's positions are sound: what it received is a prefix of the trail, and what it keeps reaches down to the low position and to
/// each restart point.
pub fn positions_sound()
    ensures { (layout : Layout) (lines : List Line) (replies : List Reply) (last : State) → Run layout lines replies last → AllSound layout last }
{}

/// In every state of every run the trail is legal, and a primary that is up runs over it.
pub fn primary_proper()
    ensures { (layout : Layout) (lines : List Line) (replies : List Reply) (last : State) → Run layout lines replies last → IsProper last.primary }
{
    line_keeps_proper();
}

/// In every run a primary that is lost stays lost, and it is lost once a `lose` was answered ok.
pub fn loss_lasts()
    ensures lost { (layout : Layout) (lines : List Line) (replies : List Reply) (old last : State) →
        RunsFrom layout old lines replies last → IsLost old → IsLost last }
    ensures lose { (layout : Layout) (lines : List Line) (replies : List Reply) (old last : State) →
        RunsFrom layout old lines replies last → has_lost lines replies ≡ true → IsLost last }
{}

/// What a stop leaves of a line on a backup is a step of the whole; in an open session of it the session notes the stop.
pub fn backup_cut_lifts()
    ensures { (layout : Layout) (points : List ℕ) (s : State) (node : Node) (l : Line) (done : ℕ) (reply : Reply) (new : Backup) →
        IsTrue (allowed layout s.session l) → is_backup_node node ≡ true → is_for_backup node l ≡ true → Goes layout s l points →
        disks_of l ≡ Some node → IsCutOff node backup_fallen (at s.backups node) (backup_refusal layout (around points s l) (at s.backups node) l)
        (backup_parts layout (around points s l) (at s.backups node) l) done reply new → Step layout s l reply (with_session (with_backup s node new) (with_cut s.session node)) }
{}

/// In every state of every run no restart point of the open session's backup lies below where it stood at the session's line, or where it was read.
pub fn no_point_falls()
    ensures { (layout : Layout) (lines : List Line) (replies : List Reply) (last : State) →
        Run layout lines replies last → NoneHasFallen layout last last.session }
{}

/// What the machine does with an event that the state admits goes on with the run: its choices are choices of a run.
pub fn event_goes_on()
    ensures { (layout : Layout) (lines : List Line) (replies : List Reply) (s : State) (e : Event) (answer : Option Reply) (new : State) →
        Run layout lines replies s → Admits layout s e → Happens layout s e answer new → Run layout (lines ++ line_of e) (replies ++ reply_of answer) new }
{}

/// A step that may follow a run goes on with it.
pub fn step_goes_on()
    ensures { (layout : Layout) (lines : List Line) (replies : List Reply) (s new : State) (l : Line) (reply : Reply) →
        Run layout lines replies s → Step layout s l reply new → Run layout (lines ++ l ∷ []) (replies ++ reply ∷ []) new }
{}

/// Between two lines of an open session its volumes may rise, each from its restart point up to what was received, and the disk of one of them may then stop. What happens between two lines
/// may happen in parts, and goes on with a run.
pub fn volumes_move()
    ensures rise { VolumesRise }
    ensures stop { (layout : Layout) (s : State) (o : Opened) (vol rise : ℕ) →
        s.session ≡ Open o → IsTrue (protects layout vol) → has_halted o vol ≡ false → is_backup_node o.node ≡ true → 0 < rise → Drifts layout s (after_halt rise s (Open o) vol) }
    ensures join { (layout : Layout) (old mid new : State) → Drifts layout old mid → Drifts layout mid new → Drifts layout old new }
    ensures go_on { (layout : Layout) (lines : List Line) (replies : List Reply) (s new : State) →
        Run layout lines replies s → Drifts layout s new → Run layout lines replies new }
{}

/// Where no point has fallen in the open session, a purge may go by the present restart points.
pub fn present_points_go()
    ensures { (layout : Layout) (s : State) (l : Line) → NoneHasFallen layout s s.session → Goes layout s l (points_for layout s l) }
{}

/// A line that is done on a primary that is proper leaves it so.
pub fn line_keeps_proper()
    ensures { (layout : Layout) (a : Primary) (l : Line) → primary_refusal layout a l ≡ None → IsProper a → IsProper (primary_after a l) }
{
    begin_runs();
    change_runs();
    commit_runs();
    abort_runs();
    restart_runs();
}
