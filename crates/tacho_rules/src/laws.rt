//! Laws about reports and passes. A law is a function without a body: what it ensures is proved for all values of its variables.

ghost use Rattle.std.specs.Prelude.{◌≡◌, ◌≢◌, ◌<◌, ◌≤◌, ℕ, List, [], All, Contains, true, false};
ghost use Rattle.tacho_time.specs.declared.span.Activity.TheVariants.{Rest};
ghost use Rattle.tacho_time.specs.declared.span.Span.{Span as Stretch};
ghost use Rattle.tacho_line.specs.declared.horizon.Horizon.{Horizon as HorizonValue};
ghost use Rattle.tacho_line.specs.Line.{mark_at};
ghost use Rattle.tacho_law.specs.declared.breach.Breach.{Breach as BreachValue};
ghost use Rattle.tacho_law.specs.declared.breach.Kind.{Kind as KindValue};
ghost use Rattle.tacho_law.specs.declared.breach.Kind.TheVariants.{B10};
ghost use Rattle.tacho_law.specs.declared.debt.Debt.{Debt as DebtValue};
ghost use Rattle.tacho_law.specs.Limits.{latest};
ghost use Rattle.tacho_law.specs.Line.{IsBase};
ghost use Rattle.tacho_law.specs.Order.{Agree};
ghost use Rattle.tacho_pass.specs.Kinds.{is_b1, is_b2_to_b5, is_b6_or_b7, is_b8_to_b10};
ghost use Rattle.tacho_driving.specs.Periods.{BreaksDefined};
ghost use Rattle.tacho_driving.specs.Sums.{WeekSumsDefined};
ghost use Rattle.tacho_days.specs.Days.{DaysDefined};
ghost use Rattle.tacho_rests.specs.WeekRests.{WeekRestsDefined};
ghost use Rattle.tacho_rules.specs.Report.{IsReport, examined_line};

use crate::{Breaks, Days, Pass, WeekRests, WeekSums};
pub use tacho_choice::laws::{choices_reach, each_week_has_its_rests};
pub use tacho_law::laws::paid_by_runs;
pub use tacho_rests::laws::examined_line_is_in_weeks;

/// Held spans have one report from a base.
pub fn one_report()
    ensures { (held : List Stretch) (base : ℕ) (horizon other : HorizonValue) (found others : List BreachValue)
        (debts owed : List DebtValue)
        → IsReport held base horizon found debts → IsReport held base other others owed
        → (horizon ≡ other) × (found ≡ others) × (debts ≡ owed) }
{}

/// Held spans have a report from each base.
pub fn each_line_has_a_report()
    ensures { (held : List Stretch) (base : ℕ) → All (λ span. span.past ≤ latest) held → IsBase base → base ≤ latest
        → (horizon : HorizonValue) × (found : List BreachValue) × (debts : List DebtValue)
        × IsReport held base horizon found debts }
{}

/// The mark of each minute determines a report: other spans that hold the same marks have the same report.
pub fn report_by_marks()
    ensures { (held other : List Stretch) (base : ℕ) (horizon : HorizonValue) (found : List BreachValue)
        (debts : List DebtValue)
        → ((m : ℕ) → mark_at held m ≡ mark_at other m)
        → IsReport held base horizon found debts → IsReport other base horizon found debts }
{}

/// If only rest is examined, the report has no breach and no debt.
pub fn rest_alone_is_no_breach()
    ensures { (held : List Stretch) (base : ℕ) (horizon : HorizonValue) (found : List BreachValue)
        (debts : List DebtValue)
        → IsReport held base horizon found debts → ((m : ℕ) → examined_line held base horizon.minute m ≡ Rest)
        → (found ≡ []) × (debts ≡ []) }
{}

/// What is held after the horizon doesn't remove breaches other than those of debts. If more is held from then on, each other breach stays,
/// with the same kind, moment and since. Its amount may change, and a debt may find a payer.
pub fn breaches_stay()
    ensures { (held more : List Stretch) (base : ℕ) (horizon later : HorizonValue) (found others : List BreachValue)
        (debts owed : List DebtValue)
        → IsReport held base horizon found debts → IsReport more base later others owed
        → ((m : ℕ) → base ≤ m → m < horizon.minute → mark_at held m ≡ mark_at more m)
        → horizon.minute ≤ later.minute → base ≤ latest → All (λ span. span.past ≤ latest) more
        → (breach : BreachValue) → Contains found breach → breach.kind ≢ B10
        → (same : BreachValue) × Contains others same × Agree breach same }
{}

/// `Breaks` finds driving without a break, B1 (Article 7 of Regulation (EC) No 561/2006): each such breach once, and no
/// other. It finds no debts.
pub fn breaks_as_defined()
    ensures own { (kind : KindValue) → ⟦<Breaks as Pass>⟧.own kind ≡ is_b1 kind }
    ensures owes { ⟦<Breaks as Pass>⟧.owes ≡ false }
    ensures defined { (own : List BreachValue) (owed : List DebtValue) (base horizon : ℕ) (spans : List Stretch)
        → ⟦<Breaks as Pass>⟧.defined own owed base horizon spans → BreaksDefined own owed base horizon spans }
{}

/// `Days` finds daily rests that are too short, B2 (Article 8(2)), or reduced too often, B3 (Article 8(4)), and days with
/// too much driving, B4, or extended too often in their week, B5 (Article 6(1)): each such breach once, and no other. It
/// finds no debts.
pub fn days_as_defined()
    ensures own { (kind : KindValue) → ⟦<Days as Pass>⟧.own kind ≡ is_b2_to_b5 kind }
    ensures owes { ⟦<Days as Pass>⟧.owes ≡ false }
    ensures defined { (own : List BreachValue) (owed : List DebtValue) (base horizon : ℕ) (spans : List Stretch)
        → ⟦<Days as Pass>⟧.defined own owed base horizon spans → DaysDefined own owed base horizon spans }
{}

/// `WeekSums` finds too much driving in a week, B6, and in two weeks, B7 (Articles 6(2) and 6(3)): each such breach once,
/// and no other. It finds no debts.
pub fn week_sums_as_defined()
    ensures own { (kind : KindValue) → ⟦<WeekSums as Pass>⟧.own kind ≡ is_b6_or_b7 kind }
    ensures owes { ⟦<WeekSums as Pass>⟧.owes ≡ false }
    ensures defined { (own : List BreachValue) (owed : List DebtValue) (base horizon : ℕ) (spans : List Stretch)
        → ⟦<WeekSums as Pass>⟧.defined own owed base horizon spans → WeekSumsDefined own owed base horizon spans }
{}

/// `WeekRests` finds weekly rests that start too late, B8 (Article 8(6)), weeks that lack weekly rests, B9 (Articles 8(6) and 8(9)), and
/// reduced weekly rests that nothing compensates in time, B10 (Article 8(6b)): each such breach once, and no other. It finds every debt,
/// including those that are compensated.
pub fn week_rests_as_defined()
    ensures own { (kind : KindValue) → ⟦<WeekRests as Pass>⟧.own kind ≡ is_b8_to_b10 kind }
    ensures owes { ⟦<WeekRests as Pass>⟧.owes ≡ true }
    ensures defined { (own : List BreachValue) (owed : List DebtValue) (base horizon : ℕ) (spans : List Stretch)
        → ⟦<WeekRests as Pass>⟧.defined own owed base horizon spans → WeekRestsDefined own owed base horizon spans }
{}
