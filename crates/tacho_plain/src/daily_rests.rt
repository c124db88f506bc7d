ghost use Rattle.std.specs.Prelude.{◌≡◌, ◌+◌, ◌<◌, List, All, AllPairs, IfOk, MatchOption};
ghost use Rattle.tacho_law.specs.declared.run.Run.{Run as RunValue};
ghost use Rattle.tacho_law.specs.Line.{Line};
ghost use Rattle.tacho_law.specs.Runs.{AreRuns, AreRestRuns, AreRestsOf};
ghost use Rattle.tacho_law.specs.Days.{HasPortion, IsReduced, EarlierDay};
ghost use Rattle.tacho_periods.specs.DutyDays.{AreDutyDays};
ghost use Rattle.tacho_law.specs.Order.{AreBreaches};
ghost use Rattle.tacho_law.specs.SoFar.{AreCollected};
ghost use Rattle.tacho_law.specs.Breaches.{IsB2, IsB3};
ghost use Rattle.tacho_law.specs.Limits.{first_part_of_daily_rest, daily_rest, weekly_rest};
ghost use Rattle.tacho_plain.specs.DayBreaches.{IsInTime, AreTheDays, IsRestKind};
ghost use Rattle.tacho_plain.specs.DailyRests.{IsShortRest, IsLastEnd};

use crate::tally::{Tally, counted};
use std::alloc::{AllocError, Global};
use tacho_law::limits::{
    DAILY_REST, FIRST_PART_OF_DAILY_REST, MINUTES_OF_DAY, REDUCED_DAILY_RESTS, WEEKLY_REST,
};
use tacho_law::{Breach, DutyDay, Kind, Run, has_portion};
use tacho_periods::{is_reduced, long_rests};
use tacho_time::Minute;

/// Returns the breach of a day, if its rest is too short (Article 8(2)).
fn short_rest(day: DutyDay) -> Option<Breach>
    requires { IsInTime day }
    ensures { MatchOption result (HasPortion day daily_rest) (λ breach. IsShortRest day breach) }
{
    if has_portion(day, DAILY_REST) {
        return None;
    }
    let end = day.rest.past.min(day.start + MINUTES_OF_DAY);
    Some(Breach {
        kind: Kind::B2,
        moment: Minute::new(day.start + (MINUTES_OF_DAY - DAILY_REST)),
        since: Minute::new(day.start),
        amount: DAILY_REST + day.past - end,
    })
}

/// Finds the breaches of days whose rest is too short, in order of time (Article 8(2)).
fn short_rests(alloc: Global, days: &[DutyDay]) -> Result<Vec<Breach>, AllocError>
    requires { All (λ day. IsInTime day) days.now }
    ensures { IfOk result (λ found. (line : Line) → AreDutyDays line days.now
        → AreBreaches (λ breach. (breach.kind ≡ Kind.B2) × IsB2 line breach) found.items) }
{
    let mut found = Vec::new(alloc);
    for day in days {
        if let Some(breach) = short_rest(*day) {
            found.push(breach)?;
        }
    }
    Ok(found)
}

/// Returns the days whose rest is reduced, in order of time (Article 4(g)). `parts` are the rests of three hours or more.
fn reduced_days(alloc: Global, days: &[DutyDay], parts: &[Run]) -> Result<Vec<DutyDay>, AllocError>
    requires in_time { All (λ day. IsInTime day) days.now }
    requires parts { AreRuns parts.now }
    ensures { IfOk result (λ reduced. (line : Line) → AreDutyDays line days.now
        → AreRestsOf line first_part_of_daily_rest parts.now
        → AreTheDays (IsReduced line) reduced.items) }
{
    let mut reduced = Vec::new(alloc);
    for day in days {
        if is_reduced(*day, parts) {
            reduced.push(*day)?;
        }
    }
    Ok(reduced)
}

/// Returns the end of the last rest that has ended by a minute, if there is one.
fn last_end(rests: &[Run], minute: u32) -> Option<u32>
    requires { AreRuns rests.now }
    ensures { MatchOption result
        (All (λ run. minute < run.past) rests.now)
        (λ ended. IsLastEnd rests.now minute ended) }
{
    let ended = rests.partition_point(|rest| rest.past <= minute);
    if ended == 0 {
        return None;
    }
    Some(rests[ended - 1].past)
}

/// Finds the breaches of the fourth and later reduced rests since the last weekly rest, in order of time (Article 8(4)).
fn often_reduced(
    alloc: Global,
    reduced: &[DutyDay],
    weekly: &[Run],
) -> Result<Vec<Breach>, AllocError>
    requires in_time { All (λ day. IsInTime day) reduced.now }
    requires by_day { AllPairs EarlierDay reduced.now }
    requires weekly { AreRuns weekly.now }
    ensures { IfOk result (λ found. (line : Line) (runs : List RunValue) → AreRestRuns line runs
        → AreRestsOf line weekly_rest weekly.now
        → AreTheDays (IsReduced line) reduced.now
        → AreBreaches (λ breach. (breach.kind ≡ Kind.B3) × IsB3 line breach) found.items) }
{
    let mut found = Vec::new(alloc);
    let mut tally = Tally { key: 0, count: 0 };
    for day in reduced {
        let Some(since) = last_end(weekly, day.start) else {
            continue;
        };
        tally = counted(tally, since);
        if tally.count > REDUCED_DAILY_RESTS {
            found.push(Breach {
                kind: Kind::B3,
                moment: Minute::new(day.past),
                since: Minute::new(since),
                amount: tally.count - REDUCED_DAILY_RESTS,
            })?;
        }
    }
    Ok(found)
}

/// Finds the breaches of the rules on daily rests (Article 8(2) and (4)), in any order.
pub(crate) fn of_rests(
    alloc: Global,
    runs: &[Run],
    days: &[DutyDay],
) -> Result<Vec<Breach>, AllocError>
    requires runs { AreRuns runs.now }
    requires in_time { All (λ day. IsInTime day) days.now }
    requires line { (line : Line) × AreRestRuns line runs.now × AreDutyDays line days.now }
    ensures { IfOk result (λ found. (line : Line) → AreRestRuns line runs.now → AreDutyDays line days.now
        → AreCollected (IsRestKind line) found.items) }
{
    let parts = long_rests(alloc, runs, FIRST_PART_OF_DAILY_REST)?;
    let weekly = long_rests(alloc, runs, WEEKLY_REST)?;
    let reduced = reduced_days(alloc, days, &parts)?;
    let mut found = short_rests(alloc, days)?;
    let mut more = often_reduced(alloc, &reduced, &weekly)?;
    found.append(&mut more)?;
    Ok(found)
}
