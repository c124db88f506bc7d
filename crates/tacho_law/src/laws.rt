//! Laws about the rules on driving and rest hours. A law is a function without a body: its `ensures` clause is proved, and holds for all
//! values that it names.

ghost use Rattle.std.specs.Prelude.{◌≡◌, ℕ, ◌<◌, ◌↔◌, List, All, AllPairs, Contains};
ghost use Rattle.tacho_time.specs.declared.span.Activity.{Activity as ActivityValue};
ghost use Rattle.tacho_law.specs.declared.run.Run.{Run as RunValue};
ghost use Rattle.tacho_law.specs.declared.breach.Breach.{Breach as BreachValue};
ghost use Rattle.tacho_law.specs.declared.debt.Debt.{Debt as DebtValue};
ghost use Rattle.tacho_law.specs.Runs.{AreRestRuns, AreRestsOf};
ghost use Rattle.tacho_law.specs.declared.days.DutyDay.{DutyDay as DutyDayValue};
ghost use Rattle.tacho_law.specs.Breaks.{AreCompleteBreaks};
ghost use Rattle.tacho_law.specs.Days.{IsDuty, HasRegularRest, HasReducedRest, IsRegular, IsReduced};
ghost use Rattle.tacho_law.specs.Debts.{AreDebts};
ghost use Rattle.tacho_law.specs.ByRuns.{ArePaidByRuns};
ghost use Rattle.tacho_law.specs.Order.{Earlier};
ghost use Rattle.tacho_law.specs.Breaches.{AreBreakBreaches, AreDayBreaches, AreWeekBreaches, AreRestBreaches};
ghost use Rattle.tacho_law.specs.Limits.{first_part_of_daily_rest};

/// A line has one list of rest runs.
pub fn one_list_of_rest_runs()
    ensures { (line : ℕ → ActivityValue) (runs others : List RunValue) → AreRestRuns line runs
        → AreRestRuns line others → runs ≡ others }
{}

/// A list of runs that aren't empty has one list of complete breaks.
pub fn one_list_of_complete_breaks()
    ensures { (runs breaks others : List RunValue) → All (λ run. run.start < run.past) runs
        → AreCompleteBreaks runs breaks → AreCompleteBreaks runs others → breaks ≡ others }
{}

/// Ordered lists of breaches with the same members are equal.
pub fn one_list_of_breaches()
    ensures { (found others : List BreachValue) → AllPairs Earlier found → AllPairs Earlier others
        → ((breach : BreachValue) → Contains found breach ↔ Contains others breach) → found ≡ others }
{}

/// A line has one list of breaches of the rule on breaks.
pub fn one_list_of_break_breaches()
    ensures { (line : ℕ → ActivityValue) (found others : List BreachValue) → AreBreakBreaches line found
        → AreBreakBreaches line others → found ≡ others }
{}

/// A line has one list of breaches of the rules on days.
pub fn one_list_of_day_breaches()
    ensures { (line : ℕ → ActivityValue) (found others : List BreachValue) → AreDayBreaches line found
        → AreDayBreaches line others → found ≡ others }
{}

/// A line has one list of breaches of the rules on weeks.
pub fn one_list_of_week_breaches()
    ensures { (line : ℕ → ActivityValue) (found others : List BreachValue) → AreWeekBreaches line found
        → AreWeekBreaches line others → found ≡ others }
{}

/// A line has one list of debts, each with its payer.
pub fn one_list_of_debts()
    ensures { (line : ℕ → ActivityValue) (horizon : ℕ) (debts others : List DebtValue)
        → AreDebts line horizon debts → AreDebts line horizon others → debts ≡ others }
{}

/// A line has one list of breaches of the rules on weekly rests.
pub fn one_list_of_rest_breaches()
    ensures { (line : ℕ → ActivityValue) (base horizon : ℕ) (found others : List BreachValue)
        (debts owed : List DebtValue)
        → AreRestBreaches line base horizon found debts → AreRestBreaches line base horizon others owed
        → found ≡ others }
{}

/// Let the rest runs pay debts in order of time: each run pays the unpaid debts that it has room for, starting from the oldest. The payers
/// are then exactly those of the definition, which goes debt by debt.
pub fn paid_by_runs()
    ensures { (line : ℕ → ActivityValue) (horizon : ℕ) (runs : List RunValue) (debts : List DebtValue)
        → AreRestRuns line runs → (ArePaidByRuns line horizon runs debts ↔ AreDebts line horizon debts) }
{}

/// Whether a day's rest is regular or reduced depends only on the rests of three hours or more.
pub fn rest_by_parts()
    ensures regular { (line : ℕ → ActivityValue) (parts : List RunValue) (day : DutyDayValue)
        → AreRestsOf line first_part_of_daily_rest parts → (HasRegularRest parts day ↔ IsRegular line day) }
    ensures reduced { (line : ℕ → ActivityValue) (parts : List RunValue) (day : DutyDayValue)
        → AreRestsOf line first_part_of_daily_rest parts → IsDuty line day
        → (HasReducedRest parts day ↔ IsReduced line day) }
{}
