//! Laws about forecasts. A law is a function that does nothing: what it ensures is proved, and holds for everything that it names.

ghost use Rattle.std.specs.Prelude.{◌≡◌, ◌+◌, ◌≤◌, ◌↔◌, ℕ, List};
ghost use Rattle.tacho_time.specs.declared.span.Span.{Span};
ghost use Rattle.tacho_line.specs.Line.{mark_at};
ghost use Rattle.tacho_law.specs.declared.breach.Breach.{Breach};
ghost use Rattle.tacho_law.specs.declared.breach.Kind.{Kind};
ghost use Rattle.tacho_law.specs.declared.debt.Debt.{Debt};
ghost use Rattle.tacho_law.specs.Limits.{latest};
ghost use Rattle.tacho_ahead.specs.declared.limits.Limits.{Limits};
ghost use Rattle.tacho_ahead.specs.declared.used.Used.{Used};
ghost use Rattle.tacho_ahead.specs.Plans.{plan_for, IsReported};
ghost use Rattle.tacho_ahead.specs.Outlook.{IsOutlook};

/// What is held has one forecast from a minute on.
pub fn one_outlook()
    ensures { (held : List Span) (base start : ℕ) (limits limits' : Limits) (used used' : Used) (coming coming' : List Breach)
        (debts debts' : List Debt) → start + 1 ≤ latest → IsOutlook held base start limits used coming debts
        → IsOutlook held base start limits' used' coming' debts'
        → (limits ≡ limits') × (used ≡ used') × (coming ≡ coming') × (debts ≡ debts') }
{}

/// A forecast depends on the marks from the base on alone, and not on what is held before, nor on how minutes are divided into spans.
pub fn outlook_is_by_marks()
    ensures { (held other : List Span) (base start : ℕ) (limits : Limits) (used : Used) (coming : List Breach) (debts : List Debt)
        → ((m : ℕ) → base ≤ m → mark_at held m ≡ mark_at other m) → IsOutlook held base start limits used coming debts
        → IsOutlook other base start limits used coming debts }
{}

/// Once a plan was driven, and what was driven is held, the report has exactly the breaches that the forecast took for reported.
pub fn a_driven_plan_is_reported()
    ensures { (held driven : List Span) (base start x : ℕ) (kind : Kind) (breach : Breach)
        → ((m : ℕ) → base ≤ m → mark_at driven m ≡ mark_at (plan_for kind held start x) m)
        → (IsReported driven base breach ↔ IsReported (plan_for kind held start x) base breach) }
{}
