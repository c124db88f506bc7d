ghost use Rattle.std.specs.Prelude.{◌≡◌, ◌+◌, ◌*◌, ◌<◌, ◌≤◌, All, IfOk, false, length};
ghost use Rattle.tacho_law.specs.Line.{Joined};

use crate::pieces::{BASE, at, breach, debt};
use crate::same::assert_same;
use std::alloc::{AllocError, Global};
use std::test::Fail;
use tacho_plain::{breaks, days, rests, weeks};
use tacho_rules::{Breach, Found, Kind};
use tacho_time::{Activity, Mark, Minute, Span};

/// 2024-03-05 00:00.
const HORIZON: u32 = 28_493_280;

/// Returns a span of a driver who is alone, in minutes from the base.
fn single(start: u32, past: u32, activity: Activity) -> Span
    requires start { start ≤ 20160 }
    requires past { past ≤ 20160 }
    ensures { result ≡ record { start = 28491840 + start; past = 28491840 + past; mark = record { activity = activity; crew = false } } }
{
    Span {
        start: Minute::new(BASE + start),
        past: Minute::new(BASE + past),
        mark: Mark {
            activity,
            crew: false,
        },
    }
}

/// Returns rest, in minutes from the base.
fn rest(start: u32, past: u32) -> Span
    requires start { start ≤ 20160 }
    requires past { past ≤ 20160 }
    ensures { result ≡ record { start = 28491840 + start; past = 28491840 + past; mark = record { activity = Activity.Rest; crew = false } } }
{
    single(start, past, Activity::Rest)
}

/// Returns driving, in minutes from the base.
fn drive(start: u32, past: u32) -> Span
    requires start { start ≤ 20160 }
    requires past { past ≤ 20160 }
    ensures { result ≡ record { start = 28491840 + start; past = 28491840 + past; mark = record { activity = Activity.Drive; crew = false } } }
{
    single(start, past, Activity::Drive)
}

/// Returns the breaches of the day's spans.
fn breaks_of_day(alloc: Global, spans: &[Span]) -> Result<Vec<Breach>, AllocError>
    requires joined { Joined spans.now 28491840 28493280 }
    requires single { All (λ span. span.mark.crew ≡ false) spans.now }
{
    breaks(alloc, spans, Minute::new(BASE), Minute::new(HORIZON))
}

/// Returns the breaches of the rules on days in the day's spans.
fn days_of_day(alloc: Global, spans: &[Span]) -> Result<Vec<Breach>, AllocError>
    requires joined { Joined spans.now 28491840 28493280 }
    requires single { All (λ span. span.mark.crew ≡ false) spans.now }
{
    days(alloc, spans, Minute::new(BASE), Minute::new(HORIZON))
}

#[test]
fn a_day_of_601_driving_minutes(rt: HostRuntime) -> Result<(), Fail> {
    let spans = [rest(0, 360), drive(360, 961), rest(961, 1440)];
    let found = days_of_day(rt.alloc(), &spans)?;
    assert_same(
        &rt,
        found.as_slice(),
        [breach(Kind::B4, at(4, 960), at(4, 360), 1)].as_slice(),
    );
    Ok(())
}

#[test]
fn one_minute_too_many(rt: HostRuntime) -> Result<(), Fail> {
    let spans = [rest(0, 360), drive(360, 631), rest(631, 1440)];
    let found = breaks_of_day(rt.alloc(), &spans)?;
    let wanted = breach(Kind::B1, at(4, 630), at(4, 360), 1);
    assert_same(&rt, found.as_slice(), [wanted].as_slice());
    Ok(())
}

/// Adds rest, and driving from 06:00 to 10:00 and from 10:45 to a later minute of the day that begins at `midnight`.
fn add_day(spans: &mut Vec<Span>, at: u32, midnight: u32, end: u32) -> Result<(), AllocError>
    requires before { at ≤ midnight }
    requires enough { 645 < end }
    requires within { midnight + end ≤ 20160 }
    requires joined { Joined spans.old.items 28491840 (28491840 + at) }
    requires single { All (λ span. span.mark.crew ≡ false) spans.old.items }
    ensures joined { IfOk result (λ done. Joined spans.new.items 28491840 (28491840 + (midnight + end))) }
    ensures single { IfOk result (λ done. All (λ span. span.mark.crew ≡ false) spans.new.items) }
{
    spans.push(rest(at, midnight + 360))?;
    spans.push(drive(midnight + 360, midnight + 600))?;
    spans.push(rest(midnight + 600, midnight + 645))?;
    spans.push(drive(midnight + 645, midnight + end))?;
    Ok(())
}

/// Returns the line from the base to `past`, with driving on each day up to its minute in `ends`, and none if that minute is before 10:46.
fn driven(alloc: Global, ends: &[u32], past: u32) -> Result<Vec<Span>, AllocError>
    requires days { 1440 * length ends.now < past }
    requires within { past ≤ 20160 }
    ensures joined { IfOk result (λ spans. Joined spans.items 28491840 (28491840 + past)) }
    ensures single { IfOk result (λ spans. All (λ span. span.mark.crew ≡ false) spans.items) }
{
    let mut spans = Vec::new(alloc);
    let mut at = 0;
    let mut midnight = 0;
    for end in ends {
        if 645 < *end && *end < 1440 {
            add_day(&mut spans, at, midnight, *end)?;
            at = midnight + *end;
        }
        midnight += 1440;
    }
    spans.push(rest(at, past))?;
    Ok(spans)
}

/// Returns the breaches of the rules on weeks in that line.
fn breaches_of_weeks(alloc: Global, ends: &[u32], past: u32) -> Result<Vec<Breach>, AllocError>
    requires days { 1440 * length ends.now < past }
    requires within { past ≤ 20160 }
{
    let spans = driven(alloc, ends, past)?;
    weeks(alloc, &spans, Minute::new(BASE), Minute::new(BASE + past))
}

#[test]
fn a_week_of_a_minute_more(rt: HostRuntime) -> Result<(), Fail> {
    let found = breaches_of_weeks(rt.alloc(), &[885, 885, 885, 885, 885, 885, 886], 11_520)?;
    let wanted = breach(Kind::B6, at(10, 885), at(4, 0), 1);
    assert_same(&rt, found.as_slice(), [wanted].as_slice());
    Ok(())
}

/// Returns what the rules on weekly rests find in that line.
fn found_of_rests(alloc: Global, ends: &[u32], past: u32) -> Result<Found, AllocError>
    requires days { 1440 * length ends.now < past }
    requires within { past ≤ 20160 }
{
    let spans = driven(alloc, ends, past)?;
    rests(alloc, &spans, Minute::new(BASE), Minute::new(BASE + past))
}

#[test]
fn a_late_and_short_weekly_rest_that_a_night_pays(rt: HostRuntime) -> Result<(), Fail> {
    let ends = [
        885, 885, 885, 885, 885, 885, 885, 0, 916, 915, 885, 885, 885,
    ];
    let found = found_of_rests(rt.alloc(), &ends, 20_160)?;
    // The weekly rest before the first work ends on the 4th at 06:00, so the next has to start by the 10th at 06:00. It starts there at
    // 14:45, 525 minutes late. The last one starts on the 16th, in time. The two weeks have enough weekly rests.
    let late = breach(Kind::B8, at(10, 360), at(4, 360), 525);
    assert_same(&rt, found.breaches.as_slice(), [late].as_slice());
    // That rest is the main rest of its week. It lasts to the 12th at 06:00 and has 555 + 1,440 + 360 minutes, 345 fewer than 2,700. The
    // night from the 12th at 15:16 has 884 minutes: 344 in addition to nine hours, one too few. The night from the 13th at 15:15 has 885
    // minutes, and pays. The deadline is 1 April at 00:00.
    let owed = debt(345, Some(at(13, 915)));
    assert_same(&rt, found.debts.as_slice(), [owed].as_slice());
    Ok(())
}
