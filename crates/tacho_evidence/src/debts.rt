ghost use Rattle.std.specs.Prelude.{◌≡◌, ◌++◌, ◌<◌, ◌≤◌, ◌∷◌, [], ℕ, AllPairs, Contains, IfOk, List, MatchOption, Some, slice_get};
ghost use Rattle.tacho_law.specs.declared.debt.Debt.{Debt as DebtValue};
ghost use Rattle.tacho_law.specs.declared.run.Run.{Run as RunValue};
ghost use Rattle.tacho_law.specs.Breaches.{IsB10};
ghost use Rattle.tacho_law.specs.Debts.{minutes_before, paid_from, AreDebts, EarlierWeek, IsMainRest};
ghost use Rattle.tacho_law.specs.Exactly.{AreExactly};
ghost use Rattle.tacho_law.specs.Limits.{daily_rest, latest, weekly_rest};
ghost use Rattle.tacho_law.specs.Line.{line_of, IsExamined, Line};
ghost use Rattle.tacho_law.specs.Runs.{AreRestRuns, AreRestsOf, Before, IsRestRun};
ghost use Rattle.tacho_time.specs.Limits.{greatest_week};
ghost use Rattle.tacho_periods.specs.Rests.{AreInTime};
ghost use Rattle.tacho_evidence.specs.declared.line.EvidenceLine.{EvidenceLine as LineValue};
ghost use Rattle.tacho_evidence.specs.Evidence.{AreRooms, IsDebtEvidence};

use crate::line::EvidenceLine;
use std::alloc::{AllocError, Global};
use tacho_law::limits::DAILY_REST;
use tacho_law::{Breach, Debt, Run, known_minutes};
use tacho_periods::{Examined, is_main, kept_minutes, minutes_paid, touching};
use tacho_time::{Week, first_minute, next_week, week_of};

/// Returns how many debts are of earlier weeks than a week: the place of the week's own debt, if it has one.
fn place_of(debts: &[Debt], week: Week) -> usize
    requires { AllPairs EarlierWeek debts.now }
    ensures { (place : ℕ) (debt : DebtValue) → slice_get debts.now place ≡ Some debt → debt.week ≡ week → result ≡ place }
{
    debts.partition_point(|debt| debt.week.number() < week.number())
}

/// Returns the main rest of a week, if it has one (Article 8(6b)). `weekly` are the weekly rests.
fn main_of(weekly: &[Run], horizon: u32, week: Week) -> Option<Run>
    requires in_time { AreInTime weekly.now }
    requires in_range { week < greatest_week }
    ensures { (line : Line) → AreRestsOf line weekly_rest weekly.now
        → MatchOption result
        ((run : RunValue) → IsMainRest line horizon week run → ⊥)
        (λ main. IsMainRest line horizon week main) }
{
    let start = first_minute(week).number();
    let end = first_minute(next_week(week)).number();
    for rest in touching(weekly, start, end) {
        if start <= rest.start && is_main(weekly, horizon, *rest) {
            return Some(*rest);
        }
    }
    None
}

/// Returns the line of a rest: what it has before the deadline and the horizon, and what it keeps for itself and for older debts.
fn room_of(weekly: &[Run], horizon: u32, older: &[Debt], deadline: u32, rest: Run) -> EvidenceLine
    requires in_time { AreInTime weekly.now }
    requires in_range { rest.start ≤ latest }
    requires paid { paid_from rest older.now ≤ latest }
    ensures { (line : Line) → AreRestsOf line weekly_rest weekly.now → IsRestRun line rest
        → AreRooms line horizon older.now deadline (rest ∷ []) (result ∷ []) }
{
    EvidenceLine::Room {
        rest,
        has: known_minutes(rest, horizon.min(deadline)),
        keeps: kept_minutes(weekly, horizon, rest) + minutes_paid(rest, older),
    }
}

/// Appends the line of each rest with nine hours before the horizon.
fn append_rooms(
    lines: &mut Vec<EvidenceLine>,
    weekly: &[Run],
    horizon: u32,
    older: &[Debt],
    deadline: u32,
    rests: &[Run],
) -> Result<(), AllocError>
    requires in_time { AreInTime weekly.now }
    requires rests { AreInTime rests.now }
    requires paid { (run : RunValue) → paid_from run older.now ≤ latest }
    ensures { IfOk result (λ _. (line : Line) → AreRestsOf line weekly_rest weekly.now
        → ((run : RunValue) → Contains rests.now run → IsRestRun line run)
        → (long : List RunValue) × (rooms : List LineValue)
        × AreExactly (λ run. Contains rests.now run × (daily_rest ≤ minutes_before horizon run)) Before long
        × AreRooms line horizon older.now deadline long rooms
        × (lines.new.items ≡ lines.old.items ++ rooms)) }
{
    for rest in rests {
        if known_minutes(*rest, horizon) >= DAILY_REST {
            lines.push(room_of(weekly, horizon, older, deadline, *rest))?;
        }
    }
    Ok(())
}

/// Lists the evidence for a breach B10, from the rest runs and the weekly rests of the examined line and its debts up to its horizon.
pub(crate) fn debt_lines(
    alloc: Global,
    examined: &Examined<'_>,
    runs: &[Run],
    weekly: &[Run],
    debts: &[Debt],
    breach: &Breach,
) -> Result<Vec<EvidenceLine>, AllocError>
    requires examined { IsExamined examined.now.spans.now examined.now.base examined.now.past }
    requires runs { AreRestRuns (line_of examined.now.spans.now) runs.now }
    requires weekly { AreRestsOf (line_of examined.now.spans.now) weekly_rest weekly.now }
    requires debts { AreDebts (line_of examined.now.spans.now) examined.now.past debts.now }
    requires breach { IsB10 examined.now.past debts.now breach.now }
    ensures { IfOk result (λ lines. IsDebtEvidence (line_of examined.now.spans.now) examined.now.past debts.now breach.now lines.items) }
{
    let horizon = examined.past.number();
    let deadline = breach.moment.number();
    let week = week_of(breach.since);
    let older = &debts[..place_of(debts, week)];
    // The week owes what its main rest lacks, so it has one.
    let Some(main) = main_of(weekly, horizon, week) else {
        unreachable!()
    };
    let mut lines = Vec::new(alloc);
    lines.push(EvidenceLine::Owes {
        week: breach.since.number(),
        amount: breach.amount,
        deadline,
    })?;
    lines.push(EvidenceLine::Main(main))?;
    append_rooms(
        &mut lines,
        weekly,
        horizon,
        older,
        deadline,
        touching(runs, main.past, deadline),
    )?;
    Ok(lines)
}
