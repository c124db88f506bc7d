ghost use Rattle.std.specs.Prelude.{◌+◌, ◌≤◌, ℕ, List, true, OnOk};
ghost use Rattle.tacho_time.specs.declared.span.Span.{Span as SpanValue};
ghost use Rattle.tacho_law.specs.Limits.{latest};
ghost use Rattle.tacho_pass.specs.Found.{Appends};
ghost use Rattle.tacho_pass.specs.Kinds.{is_any};
ghost use Rattle.tacho_rules.specs.Scan.{IsAt};
ghost use Rattle.tacho_ahead.specs.Fed.{EndsAt, IsFedTo, GivesAll, GoesToRest, GoesToWork};
ghost use Rattle.tacho_ahead.specs.Ended.{AreAllFound};

use std::alloc::AllocError;
use tacho_pass::Found;
use tacho_rules::Scan;
use tacho_time::{Activity, Mark, Minute, Span};

/// The rest that ends a plan: five weeks. In them all debts fall due that there may be by then.
const FIVE_WEEKS: u32 = 50_400;

/// A regular daily rest (Article 4(g) of Regulation (EC) 561/2006).
const DAILY_REST: u32 = 660;

/// The daily rest and a minute of work.
const DAILY_REST_AND_WORK: u32 = 661;

/// The daily rest, a minute of work and five weeks of rest.
const ALL: u32 = 51_061;

/// Feeds the minutes of a range with one activity, if there are any.
pub(crate) fn go_on(
    scan: &mut Scan,
    start: u32,
    past: u32,
    activity: Activity,
    found: &mut Found,
) -> Result<(), AllocError>
    requires at { IsAt scan.old start }
    requires forward { start ≤ past }
    requires within { past ≤ latest }
    ensures at { OnOk result (IsAt scan.new past) }
    ensures fed { OnOk result ((plan : List SpanValue) (base : ℕ) → IsFedTo scan.old found.old plan base start
        → GivesAll plan start past activity → IsFedTo scan.new found.new plan base past) }
    ensures appends { Appends is_any true found.old found.new }
{
    if start < past {
        let span = Span {
            start: Minute::new(start),
            past: Minute::new(past),
            mark: Mark {
                activity,
                crew: false,
            },
        };
        scan.feed(span, found)?;
    }
    Ok(())
}

/// Ends a scan at a minute, where what it was fed ends, and adds what is found there.
pub(crate) fn end_at(scan: Scan, minute: Minute, found: &mut Found) -> Result<(), AllocError>
    requires at { IsAt scan minute }
    requires within { minute ≤ latest }
    ensures all { OnOk result ((plan : List SpanValue) (base : ℕ) → IsFedTo scan found.old plan base minute → EndsAt plan minute
        → AreAllFound plan base found.new) }
    ensures appends { Appends is_any true found.old found.new }
{
    scan.end(minute, found)
}

/// Adds what is found if driving goes on to before a minute, and five weeks of rest follow.
pub(crate) fn drive_and_rest(
    scan: &Scan,
    start: u32,
    past: u32,
    found: &mut Found,
) -> Result<(), AllocError>
    requires at { IsAt scan.now start }
    requires forward { start ≤ past }
    requires within { past + 50400 ≤ latest }
    ensures all { OnOk result ((plan : List SpanValue) (base : ℕ) → IsFedTo scan.now found.old plan base start
        → GoesToRest plan start past → AreAllFound plan base found.new) }
    ensures appends { Appends is_any true found.old found.new }
{
    let mut scan = *scan;
    let end = past + FIVE_WEEKS;
    go_on(&mut scan, start, past, Activity::Drive, found)?;
    go_on(&mut scan, past, end, Activity::Rest, found)?;
    end_at(scan, Minute::new(end), found)
}

/// Adds what is found if driving goes on to before a minute, and a daily rest, a minute of work and five weeks of rest follow.
pub(crate) fn drive_and_sleep(
    scan: &Scan,
    start: u32,
    past: u32,
    found: &mut Found,
) -> Result<(), AllocError>
    requires at { IsAt scan.now start }
    requires forward { start ≤ past }
    requires within { past + 51061 ≤ latest }
    ensures all { OnOk result ((plan : List SpanValue) (base : ℕ) → IsFedTo scan.now found.old plan base start
        → GoesToWork plan start past → AreAllFound plan base found.new) }
    ensures appends { Appends is_any true found.old found.new }
{
    let mut scan = *scan;
    let work = past + DAILY_REST;
    let rest = past + DAILY_REST_AND_WORK;
    let end = past + ALL;
    go_on(&mut scan, start, past, Activity::Drive, found)?;
    go_on(&mut scan, past, work, Activity::Rest, found)?;
    go_on(&mut scan, work, rest, Activity::Work, found)?;
    go_on(&mut scan, rest, end, Activity::Rest, found)?;
    end_at(scan, Minute::new(end), found)
}
