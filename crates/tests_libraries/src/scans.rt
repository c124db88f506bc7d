ghost use Rattle.std.specs.Prelude.{◌≡◌, ◌≤◌, ◌+◌, ◌*◌, OnOk};
ghost use Rattle.tacho_law.specs.Line.{IsBase};
ghost use Rattle.tacho_rules.specs.Scan.{IsAt};

use crate::same::assert_same;
use std::alloc::{AllocError, Global};
use std::test::Fail;
use tacho_rules::{Cause, Debt, Found, Horizon, Report, Scan};
use tacho_time::{Activity, Mark, Minute, Span, Week};

/// 2024-03-04 00:00, a Monday's first minute.
const BASE: u32 = 28_491_840;

/// 2024-01-01 00:00, a Monday's first minute.
const YEAR: u32 = 28_401_120;

/// The activities in the hours from a base on.
#[derive(Clone, Copy)]
enum Plan {
    /// The work of the month.
    Month,
    /// An hour of work from six on, from Monday to Friday.
    Office,
}

/// The hours of work of each day from then to 31 March: from one hour to before another.
const MONTH: [(u32, u32); 28] = [
    (6, 18),
    (6, 18),
    (6, 18),
    (6, 18),
    (6, 18),
    (6, 12),
    (18, 22),
    (8, 18),
    (6, 18),
    (6, 18),
    (6, 18),
    (6, 18),
    (0, 0),
    (0, 0),
    (6, 18),
    (6, 18),
    (6, 18),
    (6, 18),
    (6, 18),
    (6, 12),
    (14, 16),
    (6, 18),
    (6, 12),
    (16, 22),
    (8, 18),
    (6, 18),
    (0, 0),
    (15, 17),
];

/// Returns a span of a driver who is alone, in one hour after a base.
fn hour(base: u32, number: u32, activity: Activity) -> Span
    requires base { base ≤ 28491840 }
    requires number { number ≤ 8736 }
    ensures start { result.start ≡ base + 60 * number }
    ensures past { result.past ≡ base + 60 * number + 60 }
{
    Span {
        start: Minute::new(base + 60 * number),
        past: Minute::new(base + 60 * number + 60),
        mark: Mark {
            activity,
            crew: false,
        },
    }
}

/// Returns the activity in an hour after the base.
fn done_in(plan: Plan, number: u32) -> Activity {
    let (from, to) = match plan {
        Plan::Month => MONTH[(number / 24 % 28) as usize],
        Plan::Office if number / 24 % 7 < 5 => (6, 7),
        Plan::Office => (0, 0),
    };
    if from <= number % 24 && number % 24 < to {
        Activity::Work
    } else {
        Activity::Rest
    }
}

/// Feeds a scan the hours of a plan, from one hour after the base to before another.
fn feed_hours(
    scan: &mut Scan,
    found: &mut Found,
    base: u32,
    from: u32,
    to: u32,
    plan: Plan,
) -> Result<(), AllocError>
    requires at { IsAt scan.old (base + 60 * from) }
    requires base { base ≤ 28491840 }
    requires order { from ≤ to }
    requires hours { to ≤ 8736 }
    ensures at { OnOk result (IsAt scan.new (base + 60 * to)) }
{
    for number in from..to {
        scan.feed(hour(base, number, done_in(plan, number)), found)?;
    }
    Ok(())
}

/// Returns a copy of what was found.
fn copy_of(alloc: Global, found: &Found) -> Result<Found, AllocError> {
    Ok(Found {
        breaches: Vec::from_slice(alloc, &found.breaches)?,
        debts: Vec::from_slice(alloc, &found.debts)?,
    })
}

/// Returns two reports of some hours: by a scan, and by a copy of it that is made after three quarters. Each continues with its own
/// `Found`.
fn reports_of(
    alloc: Global,
    base: u32,
    hours: u32,
    plan: Plan,
) -> Result<(Report, Report), AllocError>
    requires monday { IsBase base }
    requires base { base ≤ 28491840 }
    requires hours { hours ≤ 8736 }
{
    let copied = hours / 4 * 3;
    let mut scan = Scan::new(Minute::new(base));
    let mut found = Found::empty(alloc);
    feed_hours(&mut scan, &mut found, base, 0, copied, plan)?;
    let mut copy = scan;
    let mut others = copy_of(alloc, &found)?;
    feed_hours(&mut scan, &mut found, base, copied, hours, plan)?;
    feed_hours(&mut copy, &mut others, base, copied, hours, plan)?;
    let horizon = Horizon {
        minute: Minute::new(base + 60 * hours),
        cause: Cause::Unknown,
    };
    Ok((scan.finish(horizon, found)?, copy.finish(horizon, others)?))
}

/// Returns true if both reports are the same.
fn agree(report: &Report, other: &Report) -> bool {
    report.horizon == other.horizon
        && report.breaches.as_slice() == other.breaches.as_slice()
        && report.debts.as_slice() == other.debts.as_slice()
}

/// A scan asks for memory only to report a breach or a debt (`checks/failing_sheet.py` checks that it asks for none here).
#[test]
fn a_year_of_office_hours_asks_for_no_memory(rt: HostRuntime) -> Result<(), Fail> {
    let (report, other) = reports_of(rt.alloc(), YEAR, 8736, Plan::Office)?;
    assert!(rt; agree(&report, &other));
    assert_same(&rt, report.breaches.len(), 0);
    assert_same(&rt, report.debts.len(), 0);
    Ok(())
}

#[test]
fn a_month_hour_by_hour(rt: HostRuntime) -> Result<(), Fail> {
    let (report, other) = reports_of(rt.alloc(), BASE, 672, Plan::Month)?;
    assert!(rt; agree(&report, &other));
    assert_same(&rt, report.breaches.len(), 0);
    // The first week's main rest is 15 hours short of 45. The rest from the 15th at 18:00 pays. The third week's main rest is 19 hours
    // short, and the rest from the 26th at 12:00 pays.
    let wanted = [
        Debt {
            week: Week::new(2826),
            amount: 900,
            deadline: Minute::new(BASE + 40_320),
            paid_by: Some(Minute::new(BASE + 16_920)),
        },
        Debt {
            week: Week::new(2828),
            amount: 1140,
            deadline: Minute::new(BASE + 60_480),
            paid_by: Some(Minute::new(BASE + 32_400)),
        },
    ];
    assert_same(&rt, report.debts.as_slice(), wanted.as_slice());
    Ok(())
}
