//! The laws of plans and their texts.
ghost use Rattle.std.specs.Prelude.{◌≡◌, ◌↔◌, ◌⊎◌, ◌∷◌, ◌++◌, ℕ, Bool, true, false, List, None, IsTrue};
ghost use Rattle.plan_lang.specs.declared.lines.Line.{Line};
ghost use Rattle.plan_lang.specs.declared.lines.Plan.{Plan};
ghost use Rattle.plan_lang.specs.LineText.{line_text, IsLine, IsPrintedLine};
ghost use Rattle.plan_lang.specs.Sessions.{fits_session, session_behind};
ghost use Rattle.plan_lang.specs.PlanText.{plan_text, IsPlan};
ghost use Rattle.plan_lang.specs.PlanShown.{HaveNoFuse};
ghost use Rattle.plan_lang.specs.declared.why.PlanWhy.{PlanWhy};
ghost use Rattle.plan_lang.specs.Grammar.{Reads, IsBad};
ghost use Rattle.plan_lang.specs.Written.{IsWritten};

/// Bytes are read as a plan exactly where they are written as it.
pub fn read_as_written()
    ensures { (fuses : Bool) (bytes : List ℕ) (plan : Plan) → Reads fuses bytes plan ↔ IsWritten fuses bytes plan }
{}

/// Bytes are written as one plan, or have a first bad line, and not both.
pub fn written_or_bad()
    ensures one { (fuses : Bool) (bytes : List ℕ) (p q : Plan) → IsWritten fuses bytes p → IsWritten fuses bytes q → p ≡ q }
    ensures either { (fuses : Bool) (bytes : List ℕ) →
        ((plan : Plan) × IsWritten fuses bytes plan) ⊎ ((line : ℕ) × (why : PlanWhy) × IsBad fuses bytes line why) }
    ensures not_both { (fuses : Bool) (bytes : List ℕ) (plan : Plan) (line : ℕ) (why : PlanWhy) →
        IsWritten fuses bytes plan → IsBad fuses bytes line why → ⊥ }
{}

/// A printed plan is read as itself.
pub fn printed_plan_reads()
    ensures { (plan : Plan) → IsPlan plan → Reads true (plan_text plan) plan }
{}

/// So it is where no fuses are known, if none of its lines gives one.
pub fn printed_plan_predicts()
    ensures { (plan : Plan) → IsPlan plan → HaveNoFuse plan.lines → Reads false (plan_text plan) plan }
{}

/// The text of a plan tells it: two plans with one text are one.
pub fn text_tells_plan()
    ensures { (p q : Plan) → IsPlan p → IsPlan q → plan_text p ≡ plan_text q → p ≡ q }
{}

/// The text of a line is one line of printable ASCII, and the byte that ends it.
pub fn text_is_printed()
    ensures { (backups : ℕ) (l : Line) → IsLine backups l → IsPrintedLine (line_text l) }
{}

/// Each line of a plan may stand where it does: it is one that the system may have, and the session that the lines
/// before it leave open, or none, lets it through.
pub fn lines_are_allowed()
    ensures { (plan : Plan) (before after : List Line) (l : Line) → IsPlan plan → plan.lines ≡ before ++ l ∷ after →
        IsLine plan.layout.backups l × IsTrue (fits_session (session_behind None before) l) }
{}
