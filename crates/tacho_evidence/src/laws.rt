//! Laws about evidence. A law is a function without a body: its `ensures` clause is proved, and holds for all values that it names.

ghost use Rattle.std.specs.Prelude.{◌≡◌, ℕ, ◌↔◌, Contains, List};
ghost use Rattle.tacho_time.specs.declared.span.Activity.{Activity as ActivityValue};
ghost use Rattle.tacho_time.specs.declared.span.Span.{Span as Stretch};
ghost use Rattle.tacho_law.specs.declared.run.Run.{Run as RunValue};
ghost use Rattle.tacho_law.specs.declared.breach.Breach.{Breach as BreachValue};
ghost use Rattle.tacho_law.specs.Breaches.{IsB1, IsB2, IsB3, IsB4, IsB5, IsB6, IsB7, IsB8, IsB9, IsB10};
ghost use Rattle.tacho_law.specs.Breaks.{AreCompleteBreaks};
ghost use Rattle.tacho_law.specs.declared.debt.Debt.{Debt as DebtValue};
ghost use Rattle.tacho_law.specs.Debts.{AreDebts};
ghost use Rattle.tacho_law.specs.Weeks.{IsWeeklyRest, Touches};
ghost use Rattle.tacho_law.specs.Driving.{driving, IsDrivingAbove};
ghost use Rattle.tacho_law.specs.Line.{line_of, IsExamined};
ghost use Rattle.tacho_law.specs.Runs.{AreRestRuns};
ghost use Rattle.tacho_evidence.specs.declared.driven.DrivenSpan.{DrivenSpan as DrivenSpanValue};
ghost use Rattle.tacho_evidence.specs.declared.line.EvidenceLine.{EvidenceLine as LineValue};
ghost use Rattle.tacho_evidence.specs.Driven.{total_of, AreDriven, IsAboveByTotals};
ghost use Rattle.tacho_evidence.specs.Evidence.{IsBreakEvidence, IsChoiceEvidence, IsDailyRestEvidence, IsDayEvidence, IsDebtEvidence, IsExtendedEvidence, IsLateEvidence, IsReducedEvidence, IsTwoWeeksEvidence, IsWeekEvidence};
ghost use Rattle.tacho_evidence.specs.OfReport.{AreJudged, IsEvidence};

/// A range has one list of driving spans with their totals.
pub fn one_list_of_driving_spans()
    ensures { (line : ℕ → ActivityValue) (from to : ℕ) (spans others : List DrivenSpanValue)
        → AreDriven line from to spans → AreDriven line from to others → spans ≡ others }
{}

/// The driving in a range is the last total.
pub fn driving_is_the_last_total()
    ensures { (line : ℕ → ActivityValue) (from to : ℕ) (spans : List DrivenSpanValue) → AreDriven line from to spans
        → driving line from to ≡ total_of 0 spans }
{}

/// The first driving minute above a limit, and how many there are, can be read off the totals.
pub fn excess_by_totals()
    ensures { (line : ℕ → ActivityValue) (limit from to moment amount : ℕ) (spans : List DrivenSpanValue)
        → AreDriven line from to spans
        → (IsAboveByTotals limit spans moment amount ↔ IsDrivingAbove line limit from to moment amount) }
{}

/// Each range of a line has a list of driving spans.
pub fn driving_spans_exist()
    ensures { (line : ℕ → ActivityValue) (from to : ℕ) → (spans : List DrivenSpanValue) × AreDriven line from to spans }
{}

/// A breach B1 follows from its evidence, and each B1 has exactly one list of evidence.
pub fn break_evidence()
    ensures sound { (line : ℕ → ActivityValue) (breaks : List RunValue) (breach : BreachValue) (lines : List LineValue)
        → IsBreakEvidence line breaks breach lines → IsB1 line breaks breach }
    ensures whole { (line : ℕ → ActivityValue) (runs : List RunValue) (breaks : List RunValue) (breach : BreachValue) → AreRestRuns line runs → AreCompleteBreaks runs breaks
        → IsB1 line breaks breach → (lines : List LineValue) × IsBreakEvidence line breaks breach lines }
    ensures one { (line : ℕ → ActivityValue) (runs : List RunValue) (breaks : List RunValue) (breach : BreachValue) (lines others : List LineValue)
        → AreRestRuns line runs → AreCompleteBreaks runs breaks
        → IsBreakEvidence line breaks breach lines → IsBreakEvidence line breaks breach others → lines ≡ others }
{}

/// A breach B2 follows from its evidence, and each B2 has exactly one list of evidence.
pub fn daily_rest_evidence()
    ensures sound { (line : ℕ → ActivityValue) (breach : BreachValue) (lines : List LineValue)
        → IsDailyRestEvidence line breach lines → IsB2 line breach }
    ensures whole { (line : ℕ → ActivityValue) (runs : List RunValue) (breach : BreachValue) → AreRestRuns line runs
        → IsB2 line breach → (lines : List LineValue) × IsDailyRestEvidence line breach lines }
    ensures one { (line : ℕ → ActivityValue) (runs : List RunValue) (breach : BreachValue) (lines others : List LineValue)
        → AreRestRuns line runs
        → IsDailyRestEvidence line breach lines → IsDailyRestEvidence line breach others → lines ≡ others }
{}

/// A breach B3 follows from its evidence, and each B3 has exactly one list of evidence.
pub fn reduced_evidence()
    ensures sound { (line : ℕ → ActivityValue) (breach : BreachValue) (lines : List LineValue)
        → IsReducedEvidence line breach lines → IsB3 line breach }
    ensures whole { (line : ℕ → ActivityValue) (breach : BreachValue) → IsB3 line breach → (lines : List LineValue) × IsReducedEvidence line breach lines }
    ensures one { (line : ℕ → ActivityValue) (runs : List RunValue) (breach : BreachValue) (lines others : List LineValue)
        → AreRestRuns line runs
        → IsReducedEvidence line breach lines → IsReducedEvidence line breach others → lines ≡ others }
{}

/// A breach B4 follows from its evidence, and each B4 has exactly one list of evidence.
pub fn day_evidence()
    ensures sound { (line : ℕ → ActivityValue) (breach : BreachValue) (lines : List LineValue)
        → IsDayEvidence line breach lines → IsB4 line breach }
    ensures whole { (line : ℕ → ActivityValue) (runs : List RunValue) (breach : BreachValue) → AreRestRuns line runs
        → IsB4 line breach → (lines : List LineValue) × IsDayEvidence line breach lines }
    ensures one { (line : ℕ → ActivityValue) (runs : List RunValue) (breach : BreachValue) (lines others : List LineValue)
        → AreRestRuns line runs
        → IsDayEvidence line breach lines → IsDayEvidence line breach others → lines ≡ others }
{}

/// A breach B5 follows from its evidence, and each B5 has exactly one list of evidence.
pub fn extended_evidence()
    ensures sound { (line : ℕ → ActivityValue) (breach : BreachValue) (lines : List LineValue)
        → IsExtendedEvidence line breach lines → IsB5 line breach }
    ensures whole { (line : ℕ → ActivityValue) (breach : BreachValue) → IsB5 line breach → (lines : List LineValue) × IsExtendedEvidence line breach lines }
    ensures one { (line : ℕ → ActivityValue) (runs : List RunValue) (breach : BreachValue) (lines others : List LineValue)
        → AreRestRuns line runs
        → IsExtendedEvidence line breach lines → IsExtendedEvidence line breach others → lines ≡ others }
{}

/// A breach B6 follows from its evidence, and each B6 has exactly one list of evidence.
pub fn week_evidence()
    ensures sound { (line : ℕ → ActivityValue) (breach : BreachValue) (lines : List LineValue)
        → IsWeekEvidence line breach lines → IsB6 line breach }
    ensures whole { (line : ℕ → ActivityValue) (breach : BreachValue) → IsB6 line breach → (lines : List LineValue) × IsWeekEvidence line breach lines }
    ensures one { (line : ℕ → ActivityValue) (breach : BreachValue) (lines others : List LineValue)
        → IsWeekEvidence line breach lines → IsWeekEvidence line breach others → lines ≡ others }
{}

/// A breach B7 follows from its evidence, and each B7 has exactly one list of evidence.
pub fn two_weeks_evidence()
    ensures sound { (line : ℕ → ActivityValue) (breach : BreachValue) (lines : List LineValue)
        → IsTwoWeeksEvidence line breach lines → IsB7 line breach }
    ensures whole { (line : ℕ → ActivityValue) (breach : BreachValue) → IsB7 line breach → (lines : List LineValue) × IsTwoWeeksEvidence line breach lines }
    ensures one { (line : ℕ → ActivityValue) (breach : BreachValue) (lines others : List LineValue)
        → IsTwoWeeksEvidence line breach lines → IsTwoWeeksEvidence line breach others → lines ≡ others }
{}

/// A breach B8 follows from its evidence, and each B8 has exactly one list of evidence.
pub fn late_evidence()
    ensures sound { (line : ℕ → ActivityValue) (breach : BreachValue) (lines : List LineValue)
        → IsLateEvidence line breach lines → IsB8 line breach }
    ensures whole { (line : ℕ → ActivityValue) (breach : BreachValue) → IsB8 line breach → (lines : List LineValue) × IsLateEvidence line breach lines }
    ensures one { (line : ℕ → ActivityValue) (runs : List RunValue) (breach : BreachValue) (lines others : List LineValue)
        → AreRestRuns line runs
        → IsLateEvidence line breach lines → IsLateEvidence line breach others → lines ≡ others }
{}

/// A breach B9 follows from its evidence. If each weekly rest has a minute in some week, each B9 has exactly one list of evidence.
pub fn choice_evidence()
    ensures sound { (line : ℕ → ActivityValue) (base horizon : ℕ) (breach : BreachValue) (lines : List LineValue)
        → IsChoiceEvidence line base horizon breach lines → IsB9 line base horizon breach }
    ensures whole { (line : ℕ → ActivityValue) (runs : List RunValue) (base horizon : ℕ) (breach : BreachValue) → AreRestRuns line runs
        → ((rest : RunValue) → IsWeeklyRest line rest → (week : ℕ) × Touches rest week)
        → IsB9 line base horizon breach → (lines : List LineValue) × IsChoiceEvidence line base horizon breach lines }
    ensures one { (line : ℕ → ActivityValue) (base horizon : ℕ) (breach : BreachValue) (lines others : List LineValue)
        → IsChoiceEvidence line base horizon breach lines → IsChoiceEvidence line base horizon breach others → lines ≡ others }
{}

/// A breach B10 follows from its evidence, and each B10 has exactly one list of evidence.
pub fn debt_evidence()
    ensures sound { (line : ℕ → ActivityValue) (horizon : ℕ) (debts : List DebtValue) (breach : BreachValue) (lines : List LineValue)
        → AreDebts line horizon debts → IsDebtEvidence line horizon debts breach lines → IsB10 horizon debts breach }
    ensures whole { (line : ℕ → ActivityValue) (runs : List RunValue) (horizon : ℕ) (debts : List DebtValue) (breach : BreachValue)
        → AreRestRuns line runs → AreDebts line horizon debts
        → IsB10 horizon debts breach → (lines : List LineValue) × IsDebtEvidence line horizon debts breach lines }
    ensures one { (line : ℕ → ActivityValue) (horizon : ℕ) (debts : List DebtValue) (breach : BreachValue) (lines others : List LineValue)
        → AreDebts line horizon debts → IsDebtEvidence line horizon debts breach lines → IsDebtEvidence line horizon debts breach others
        → lines ≡ others }
{}

/// Evidence is always of a breach of the report, and each breach of the report has exactly one list of evidence.
pub fn evidence_of_reports()
    ensures sound { (spans : List Stretch) (base horizon : ℕ) (found : List BreachValue) (debts : List DebtValue) (breach : BreachValue)
        (lines : List LineValue)
        → IsExamined spans base horizon → AreJudged (line_of spans) base horizon found debts
        → IsEvidence (line_of spans) base horizon debts breach lines → Contains found breach }
    ensures whole { (spans : List Stretch) (base horizon : ℕ) (found : List BreachValue) (debts : List DebtValue) (breach : BreachValue)
        → IsExamined spans base horizon → AreJudged (line_of spans) base horizon found debts
        → Contains found breach → (lines : List LineValue) × IsEvidence (line_of spans) base horizon debts breach lines }
    ensures one { (spans : List Stretch) (base horizon : ℕ) (found : List BreachValue) (debts : List DebtValue) (breach : BreachValue)
        (lines others : List LineValue)
        → IsExamined spans base horizon → AreJudged (line_of spans) base horizon found debts
        → IsEvidence (line_of spans) base horizon debts breach lines → IsEvidence (line_of spans) base horizon debts breach others
        → lines ≡ others }
{}
