ghost use Rattle.std.specs.Prelude.{◌≡◌, ◌<◌, ◌≤◌, All, IfOk, MatchOption};
ghost use Rattle.tacho_law.specs.Line.{line_of, IsExamined};
ghost use Rattle.tacho_law.specs.Driving.{driving};
ghost use Rattle.tacho_periods.specs.DutyDays.{AreDutyDays};
ghost use Rattle.tacho_law.specs.Order.{AreBreaches};
ghost use Rattle.tacho_law.specs.SoFar.{AreCollected};
ghost use Rattle.tacho_law.specs.Breaches.{IsB4, IsB5};
ghost use Rattle.tacho_plain.specs.DayBreaches.{IsInTime, AreTheDays, IsDriveKind};
ghost use Rattle.tacho_plain.specs.DailyDriving.{IsLongDay, IsLongDuty};

use crate::tally::{Tally, counted};
use std::alloc::{AllocError, Global};
use tacho_law::limits::{DRIVING_IN_DAY, DRIVING_IN_EXTENDED_DAY, EXTENDED_DAYS};
use tacho_law::{Breach, DutyDay, Kind};
use tacho_periods::{Examined, Excess, driving_minutes, excess_between};
use tacho_time::{Minute, week_of};

/// Returns the breach of a day, if it has too many driving minutes (Article 6(1)).
fn long_day(examined: &Examined<'_>, day: DutyDay, kind: Kind, limit: u32) -> Option<Breach>
    requires examined { IsExamined examined.now.spans.now examined.now.base examined.now.past }
    requires in_time { IsInTime day }
    ensures { MatchOption result
        (driving (line_of examined.now.spans.now) day.start day.past ≤ limit)
        (λ breach. IsLongDay (line_of examined.now.spans.now) kind limit day breach) }
{
    let Excess { moment, amount } = excess_between(examined, day.start, day.past, limit)?;
    Some(Breach {
        kind,
        moment,
        since: Minute::new(day.start),
        amount,
    })
}

/// Finds the breaches of days with more driving than an extended day may have, in order of time (Article 6(1)).
fn long_days(
    alloc: Global,
    examined: &Examined<'_>,
    days: &[DutyDay],
) -> Result<Vec<Breach>, AllocError>
    requires examined { IsExamined examined.now.spans.now examined.now.base examined.now.past }
    requires in_time { All (λ day. IsInTime day) days.now }
    requires are { AreDutyDays (line_of examined.now.spans.now) days.now }
    ensures { IfOk result (λ found. AreBreaches
        (λ breach. (breach.kind ≡ Kind.B4) × IsB4 (line_of examined.now.spans.now) breach) found.items) }
{
    let mut found = Vec::new(alloc);
    for day in days {
        if let Some(breach) = long_day(examined, *day, Kind::B4, DRIVING_IN_EXTENDED_DAY) {
            found.push(breach)?;
        }
    }
    Ok(found)
}

/// Returns the days with more driving than a day that isn't extended may have, in order of time (Article 6(1)).
fn extended_days(
    alloc: Global,
    examined: &Examined<'_>,
    days: &[DutyDay],
) -> Result<Vec<DutyDay>, AllocError>
    requires examined { IsExamined examined.now.spans.now examined.now.base examined.now.past }
    requires are { AreDutyDays (line_of examined.now.spans.now) days.now }
    ensures { IfOk result (λ extended. AreTheDays (IsLongDuty (line_of examined.now.spans.now)) extended.items) }
{
    let mut extended = Vec::new(alloc);
    for day in days {
        if driving_minutes(examined, day.start, day.past) > DRIVING_IN_DAY {
            extended.push(*day)?;
        }
    }
    Ok(extended)
}

/// Finds the breaches of the third and later extended days of a week, in order of time (Article 6(1)).
fn often_extended(
    alloc: Global,
    examined: &Examined<'_>,
    extended: &[DutyDay],
) -> Result<Vec<Breach>, AllocError>
    requires examined { IsExamined examined.now.spans.now examined.now.base examined.now.past }
    requires in_time { All (λ day. IsInTime day) extended.now }
    requires are { AreTheDays (IsLongDuty (line_of examined.now.spans.now)) extended.now }
    ensures { IfOk result (λ found. AreBreaches
        (λ breach. (breach.kind ≡ Kind.B5) × IsB5 (line_of examined.now.spans.now) breach) found.items) }
{
    let mut found = Vec::new(alloc);
    let mut tally = Tally { key: 0, count: 0 };
    for day in extended {
        tally = counted(tally, week_of(Minute::new(day.start)).number());
        if tally.count > EXTENDED_DAYS {
            if let Some(breach) = long_day(examined, *day, Kind::B5, DRIVING_IN_DAY) {
                found.push(breach)?;
            }
        }
    }
    Ok(found)
}

/// Finds the breaches of the rules on a day's driving (Article 6(1)), in any order.
pub(crate) fn of_driving(
    alloc: Global,
    examined: &Examined<'_>,
    days: &[DutyDay],
) -> Result<Vec<Breach>, AllocError>
    requires examined { IsExamined examined.now.spans.now examined.now.base examined.now.past }
    requires in_time { All (λ day. IsInTime day) days.now }
    requires are { AreDutyDays (line_of examined.now.spans.now) days.now }
    ensures { IfOk result (λ found. AreCollected (IsDriveKind (line_of examined.now.spans.now)) found.items) }
{
    let extended = extended_days(alloc, examined, days)?;
    let mut found = long_days(alloc, examined, days)?;
    let mut more = often_extended(alloc, examined, &extended)?;
    found.append(&mut more)?;
    Ok(found)
}
