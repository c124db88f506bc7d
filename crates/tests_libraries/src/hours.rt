ghost use Rattle.std.specs.Prelude.{◌≡◌, ◌+◌, ◌≤◌, ◌<◌, All, AllPairs, false};
ghost use Rattle.tacho_law.specs.Line.{Joined};
ghost use Rattle.tacho_law.specs.Runs.{Before};
ghost use Rattle.tacho_periods.specs.Rests.{AreInTime};

use crate::same::assert_same;
use std::alloc::{AllocError, Global};
use std::test::Fail;
use tacho_law::{Breach, DutyDay, FAR, Kind, Run, has_portion, known_minutes, put_in_order};
use tacho_periods::{
    Examined, Excess, complete_breaks, driving_minute, driving_minutes, duty_days, excess_between,
    is_main, is_reduced, is_regular, kept_minutes, long_rests, rest_runs, touching,
};
use tacho_time::{Activity, Mark, Minute, Span};

/// 2024-03-04 00:00, a Monday's first minute.
const BASE: u32 = 28_491_840;

/// 2024-03-05 00:00.
const HORIZON: u32 = 28_493_280;

/// Returns a span of a driver who is alone, in minutes from the base.
fn single(start: u32, past: u32, activity: Activity) -> Span
    requires start { start ≤ 1440 }
    requires past { past ≤ 1440 }
    ensures { result ≡ record { start = 28491840 + start; past = 28491840 + past; mark = record { activity = activity; crew = false } } }
{
    Span {
        start: Minute::new(BASE + start),
        past: Minute::new(BASE + past),
        mark: Mark {
            activity,
            crew: false,
        },
    }
}

/// Returns a day with two times of driving, in which availability is between a rest and work.
fn day() -> [Span; 6]
    ensures joined { Joined result 28491840 28493280 }
    ensures single { All (λ span. span.mark.crew ≡ false) result }
{
    [
        single(0, 360, Activity::Rest),
        single(360, 630, Activity::Drive),
        single(630, 675, Activity::Rest),
        single(675, 700, Activity::Available),
        single(700, 970, Activity::Drive),
        single(970, 1440, Activity::Rest),
    ]
}

/// Returns the rest runs of the day's spans.
fn runs_of_day(alloc: Global, spans: &[Span]) -> Result<Vec<Run>, AllocError>
    requires joined { Joined spans.now 28491840 28493280 }
    requires single { All (λ span. span.mark.crew ≡ false) spans.now }
{
    let examined = Examined {
        spans,
        base: Minute::new(BASE),
        past: Minute::new(HORIZON),
    };
    rest_runs(alloc, &examined)
}

/// Returns how many minutes of the day's spans are driving, from one minute of the day to before another.
fn driven(spans: &[Span], from: u32, to: u32) -> u32
    requires joined { Joined spans.now 28491840 28493280 }
    requires single { All (λ span. span.mark.crew ≡ false) spans.now }
    requires within_day { from ≤ 1440 }
    requires to { to ≤ 1440 }
{
    let (base, past) = (Minute::new(BASE), Minute::new(HORIZON));
    driving_minutes(&Examined { spans, base, past }, BASE + from, BASE + to)
}

/// Returns the k-th driving minute of the day's spans.
fn driven_minute(spans: &[Span], k: u32) -> Option<u32>
    requires joined { Joined spans.now 28491840 28493280 }
    requires single { All (λ span. span.mark.crew ≡ false) spans.now }
    requires first { 0 < k }
{
    let (base, past) = (Minute::new(BASE), Minute::new(HORIZON));
    driving_minute(&Examined { spans, base, past }, BASE, HORIZON, k)
}

#[test]
fn runs_are_as_long_as_they_can_be(rt: HostRuntime) -> Result<(), Fail> {
    let runs = runs_of_day(rt.alloc(), &day())?;
    let expected = [
        Run {
            start: 0,
            past: BASE + 360,
        },
        Run {
            start: BASE + 630,
            past: BASE + 675,
        },
        Run {
            start: BASE + 970,
            past: FAR,
        },
    ];
    assert_same(&rt, runs.as_slice(), expected.as_slice());
    Ok(())
}

#[test]
fn driving_is_counted(rt: HostRuntime) {
    let spans = day();
    assert_same(&rt, driven(&spans, 0, 1440), 540);
    assert_same(&rt, driven(&spans, 629, 701), 2);
    assert_same(&rt, driven(&spans, 630, 700), 0);
    assert_same(&rt, driven(&spans, 800, 700), 0);
    assert_same(&rt, driven_minute(&spans, 1), Some(BASE + 360));
    assert_same(&rt, driven_minute(&spans, 270), Some(BASE + 629));
    assert_same(&rt, driven_minute(&spans, 271), Some(BASE + 700));
    assert_same(&rt, driven_minute(&spans, 541), None);
}

/// Returns the driving of the day's spans above a limit, from one minute of the day to before another: the first such minute, and the
/// number of them.
fn driven_above(spans: &[Span], from: u32, to: u32, limit: u32) -> Option<(u32, u32)>
    requires joined { Joined spans.now 28491840 28493280 }
    requires single { All (λ span. span.mark.crew ≡ false) spans.now }
    requires within_day { from ≤ 1440 }
    requires to { to ≤ 1440 }
{
    let (base, past) = (Minute::new(BASE), Minute::new(HORIZON));
    let Excess { moment, amount } = excess_between(
        &Examined { spans, base, past },
        BASE + from,
        BASE + to,
        limit,
    )?;
    Some((moment.number(), amount))
}

#[test]
fn driving_above_a_limit_is_found(rt: HostRuntime) {
    let spans = day();
    assert_same(&rt, driven_above(&spans, 0, 1440, 540), None);
    assert_same(
        &rt,
        driven_above(&spans, 0, 1440, 539),
        Some((BASE + 969, 1)),
    );
    assert_same(
        &rt,
        driven_above(&spans, 0, 1440, 270),
        Some((BASE + 700, 270)),
    );
    assert_same(
        &rt,
        driven_above(&spans, 629, 701, 0),
        Some((BASE + 629, 2)),
    );
    assert_same(&rt, driven_above(&spans, 0, 1440, u32::MAX), None);
}

#[test]
fn breaks_have_45_minutes_or_15_and_then_30(rt: HostRuntime) -> Result<(), Fail> {
    let runs = [
        Run {
            start: 0,
            past: 100,
        },
        Run {
            start: 110,
            past: 125,
        },
        Run {
            start: 200,
            past: 230,
        },
        Run {
            start: 300,
            past: 344,
        },
        Run {
            start: 400,
            past: 414,
        },
        Run {
            start: 500,
            past: 545,
        },
        Run {
            start: 600,
            past: 630,
        },
    ];
    let breaks = complete_breaks(rt.alloc(), &runs)?;
    let expected = [runs[0], runs[2], runs[5]];
    assert_same(&rt, breaks.as_slice(), expected.as_slice());
    Ok(())
}

/// Returns the runs of two duty days. There is a rest of three hours in the first.
fn two_days() -> [Run; 4]
    ensures some { All (λ run. run.start < run.past) result }
    ensures in_order { AllPairs Before result }
{
    [
        Run {
            start: 0,
            past: 600,
        },
        Run {
            start: 840,
            past: 1020,
        },
        Run {
            start: 1500,
            past: 2040,
        },
        Run {
            start: 2100,
            past: FAR,
        },
    ]
}

#[test]
fn duty_days_lie_between_rests_of_nine_hours(rt: HostRuntime) -> Result<(), Fail> {
    let runs = two_days();
    let days = duty_days(rt.alloc(), &runs)?;
    let expected = [
        DutyDay {
            start: 600,
            past: 1500,
            rest: runs[2],
        },
        DutyDay {
            start: 2040,
            past: 2100,
            rest: runs[3],
        },
    ];
    assert_same(&rt, days.as_slice(), expected.as_slice());
    Ok(())
}

#[test]
fn long_rests_have_so_many_minutes(rt: HostRuntime) -> Result<(), Fail> {
    let runs = two_days();
    assert_same(
        &rt,
        long_rests(rt.alloc(), &runs, 180)?.as_slice(),
        runs.as_slice(),
    );
    let expected = [runs[0], runs[2], runs[3]];
    assert_same(
        &rt,
        long_rests(rt.alloc(), &runs, 181)?.as_slice(),
        expected.as_slice(),
    );
    Ok(())
}

#[test]
fn a_rest_of_three_and_of_nine_hours_is_regular(rt: HostRuntime) {
    let day = DutyDay {
        start: 360,
        past: 1260,
        rest: Run {
            start: 1260,
            past: 1801,
        },
    };
    assert!(rt; has_portion(day, 540));
    assert!(rt; !has_portion(day, 541));
    let within = [Run {
        start: 600,
        past: 780,
    }];
    assert!(rt; is_regular(day, &within));
    assert!(rt; !is_reduced(day, &within));
    let before = [Run {
        start: 180,
        past: 360,
    }];
    assert!(rt; !is_regular(day, &before));
    assert!(rt; is_reduced(day, &before));
}

/// Returns a breach of a kind with these minutes.
fn breach(kind: Kind, moment: u32, since: u32) -> Breach
    requires moment { moment ≤ 1440 }
    requires since { since ≤ 1440 }
    ensures { result ≡ record { kind = kind; moment = moment; since = since; amount = 1 } }
{
    Breach {
        kind,
        moment: Minute::new(moment),
        since: Minute::new(since),
        amount: 1,
    }
}

#[test]
fn breaches_are_in_order(rt: HostRuntime) -> Result<(), Fail> {
    let breaches = [
        breach(Kind::B1, 8, 3),
        breach(Kind::B10, 7, 1),
        breach(Kind::B2, 7, 5),
        breach(Kind::B2, 7, 4),
    ];
    let mut found = Vec::from_slice(rt.alloc(), &breaches)?;
    put_in_order(&mut found);
    let expected = [breaches[3], breaches[2], breaches[1], breaches[0]];
    assert_same(&rt, found.as_slice(), expected.as_slice());
    Ok(())
}

/// Returns a rest, in minutes from the base.
fn rest(start: u32, past: u32) -> Run
    requires start { start ≤ 20160 }
    requires past { past ≤ 20160 }
    ensures { result ≡ record { start = 28491840 + start; past = 28491840 + past } }
{
    Run {
        start: BASE + start,
        past: BASE + past,
    }
}

/// Returns three weekly rests that start in the same week: two of 1,540 minutes, and one of 45 hours that ends in the next week.
fn weekly_rests() -> [Run; 3]
    ensures { AreInTime result }
{
    [rest(100, 1640), rest(3000, 4540), rest(9000, 11_700)]
}

#[test]
fn rests_touch_a_range(rt: HostRuntime) {
    let weekly = weekly_rests();
    assert_same(
        &rt,
        touching(&weekly, BASE + 1640, BASE + 3000),
        &weekly[..0],
    );
    assert_same(
        &rt,
        touching(&weekly, BASE + 1639, BASE + 3001),
        &weekly[..2],
    );
    assert_same(
        &rt,
        touching(&weekly, BASE + 10_080, BASE + 20_160),
        &weekly[2..],
    );
}

#[test]
fn minutes_after_the_horizon_are_not_known(rt: HostRuntime) {
    assert_same(&rt, known_minutes(rest(9000, 11_700), BASE + 20_160), 2700);
    assert_same(&rt, known_minutes(rest(9000, 11_700), BASE + 10_000), 1000);
    assert_same(&rt, known_minutes(rest(9000, 11_700), BASE + 8000), 0);
}

#[test]
fn the_longest_weekly_rest_is_the_main_one(rt: HostRuntime) {
    let weekly = weekly_rests();
    let (first, second, last) = (rest(100, 1640), rest(3000, 4540), rest(9000, 11_700));
    assert!(rt; is_main(&weekly, BASE + 20_160, last));
    assert!(rt; !is_main(&weekly, BASE + 20_160, first));
    assert!(rt; is_main(&weekly, BASE + 10_541, last));
    assert!(rt; is_main(&weekly, BASE + 10_540, first));
    assert!(rt; !is_main(&weekly, BASE + 10_540, second));
    assert!(rt; !is_main(&weekly, BASE + 10_540, last));
    assert_same(&rt, kept_minutes(&weekly, BASE + 20_160, last), 2700);
    assert_same(&rt, kept_minutes(&weekly, BASE + 20_160, first), 540);
}

#[test]
fn a_rest_before_the_first_week_is_no_main_one(rt: HostRuntime) {
    let weekly = [Run {
        start: 5759,
        past: 9000,
    }];
    assert!(rt; !is_main(&weekly, 9000, weekly[0]));
    let weekly = [Run {
        start: 5760,
        past: 9000,
    }];
    assert!(rt; is_main(&weekly, 9000, weekly[0]));
}
