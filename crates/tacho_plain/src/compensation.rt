ghost use Rattle.std.specs.Prelude.{◌≡◌, ◌<◌, ◌≤◌, ◌↔◌, ℕ, IfOk, IsTrue, MatchOption};
ghost use Rattle.std.specs.Prelude.{None as NoPayer};
ghost use Rattle.tacho_law.specs.declared.run.Run.{Run as RunValue};
ghost use Rattle.tacho_law.specs.declared.debt.Debt.{Debt as DebtValue};
ghost use Rattle.tacho_law.specs.Runs.{IsRestRun, AreRestsOf};
ghost use Rattle.tacho_periods.specs.Rests.{AreInTime};
ghost use Rattle.tacho_law.specs.Line.{Line};
ghost use Rattle.tacho_law.specs.Debts.{CanPay, IsMainRest, Owes, Pays, AreDebts};
ghost use Rattle.tacho_law.specs.Weeks.{week_start};
ghost use Rattle.tacho_law.specs.SoFar.{AreCollected};
ghost use Rattle.tacho_law.specs.Limits.{daily_rest, weekly_rest, latest};
ghost use Rattle.tacho_plain.specs.RestBreaches.{IsLastRun, IsDebtOf};
ghost use Rattle.tacho_law.specs.Breaches.{IsOverdue};

use std::alloc::{AllocError, Global};
use tacho_law::limits::{REGULAR_WEEKLY_REST, WEEKS_TO_PAY};
use tacho_law::{Breach, Debt, Kind, Run};
use tacho_periods::{has_room, is_main, touching};
use tacho_time::{Minute, Week, first_minute, week_of};

/// Returns the debt, without a payer, of the week whose main rest `rest` is, if the rest is too short and the last run starts in a later
/// week (Article 8(6b)). `weekly` are the weekly rests.
fn debt_of(weekly: &[Run], horizon: u32, last: Run, rest: Run) -> Option<Debt>
    requires in_time { AreInTime weekly.now }
    requires in_range { rest.start ≤ latest }
    requires nonempty { rest.start < rest.past }
    requires last { last.start ≤ latest }
    ensures { (line : Line) → AreRestsOf line weekly_rest weekly.now → IsLastRun line last → IsRestRun line rest
        → MatchOption result
        ((w amount : ℕ) → IsMainRest line horizon w rest → Owes line horizon w amount → ⊥)
        (λ debt. IsDebtOf line horizon rest debt) }
{
    let minutes = rest.past - rest.start;
    if minutes >= REGULAR_WEEKLY_REST || !is_main(weekly, horizon, rest) {
        return None;
    }
    let week = week_of(Minute::new(rest.start)).number();
    if last.start < first_minute(Week::new(week + 1)).number() {
        return None;
    }
    Some(Debt {
        week: Week::new(week),
        amount: REGULAR_WEEKLY_REST - minutes,
        deadline: first_minute(Week::new(week + WEEKS_TO_PAY)),
        paid_by: None,
    })
}

/// Returns the first minute of the first rest after a debt's main rest that can pay the debt. `daily` are the rests of nine hours or more,
/// and `earlier` the debts of earlier weeks with their payers.
fn payer_of(
    daily: &[Run],
    weekly: &[Run],
    horizon: u32,
    earlier: &[Debt],
    debt: &Debt,
    main: Run,
) -> Option<Minute>
    requires daily { AreInTime daily.now }
    requires weekly { AreInTime weekly.now }
    requires nonempty { 0 < debt.now.amount }
    requires range { main.past ≤ debt.now.deadline }
    ensures { (line : Line) → AreRestsOf line daily_rest daily.now → AreRestsOf line weekly_rest weekly.now
        → IsMainRest line horizon debt.now.week main
        → MatchOption result
        ((run : RunValue) → CanPay line horizon earlier.now debt.now run → ⊥)
        (λ start. Pays line horizon earlier.now debt.now start) }
{
    for rest in touching(daily, main.past, debt.deadline.number()) {
        if has_room(weekly, horizon, earlier, debt, *rest) {
            return Some(Minute::new(rest.start));
        }
    }
    None
}

/// Returns the debts ordered by week, each with its payer (Article 8(6b)). `daily` are the rests of nine hours or more, `weekly` those of
/// 24, and `last` is the last rest run.
pub(crate) fn debts_of(
    alloc: Global,
    daily: &[Run],
    weekly: &[Run],
    horizon: u32,
    last: Run,
) -> Result<Vec<Debt>, AllocError>
    requires daily { AreInTime daily.now }
    requires weekly { AreInTime weekly.now }
    requires last { last.start ≤ latest }
    requires line { (line : Line) × AreRestsOf line weekly_rest weekly.now × IsLastRun line last }
    ensures { IfOk result (λ debts. (line : Line) → AreRestsOf line daily_rest daily.now
        → AreRestsOf line weekly_rest weekly.now → IsLastRun line last
        → AreDebts line horizon debts.items) }
{
    let mut debts = Vec::new(alloc);
    for main in weekly {
        if let Some(mut debt) = debt_of(weekly, horizon, last, *main) {
            debt.paid_by = payer_of(daily, weekly, horizon, &debts, &debt, *main);
            debts.push(debt)?;
        }
    }
    Ok(debts)
}

/// True if nothing pays a debt and its deadline has been reached.
fn is_overdue(debt: &Debt, horizon: u32) -> bool
    ensures { IsTrue result ↔ ((debt.now.paid_by ≡ NoPayer) × (debt.now.deadline ≤ horizon)) }
{
    debt.paid_by.is_none() && debt.deadline.number() <= horizon
}

/// Finds the breaches of debts that nothing pays and whose deadline has been reached, ordered by week (Article 8(6b)).
pub(crate) fn overdue(
    alloc: Global,
    debts: &[Debt],
    horizon: u32,
) -> Result<Vec<Breach>, AllocError>
    ensures { IfOk result (λ found. (line : Line) → AreDebts line horizon debts.now
        → AreCollected (IsOverdue horizon debts.now) found.items) }
{
    let mut found = Vec::new(alloc);
    for debt in debts {
        if is_overdue(debt, horizon) {
            found.push(Breach {
                kind: Kind::B10,
                moment: debt.deadline,
                since: first_minute(debt.week),
                amount: debt.amount,
            })?;
        }
    }
    Ok(found)
}
