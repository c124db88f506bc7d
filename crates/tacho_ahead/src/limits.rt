ghost use Rattle.std.specs.Prelude.{◌+◌, ◌≤◌, ℕ, List, IfOk, OnOk};
ghost use Rattle.tacho_time.specs.declared.span.Span.{Span as SpanValue};
ghost use Rattle.tacho_law.specs.declared.breach.Kind.{Kind as KindValue};
ghost use Rattle.tacho_law.specs.Limits.{latest};
ghost use Rattle.tacho_rules.specs.Scan.{IsAt};
ghost use Rattle.tacho_ahead.specs.Ahead.{IsReach, IsLimit, limit_of};
ghost use Rattle.tacho_ahead.specs.Fed.{IsKnown, HasSame};

use crate::broken::is_broken;
use crate::search::search;
use std::alloc::AllocError;
use tacho_law::{Breach, Kind};
use tacho_pass::Found;
use tacho_rules::Scan;
use tacho_time::{Minute, first_minute, next_week, week_of};

/// For each rule the minute until which driving may go on, if there is one within reach.
#[derive(Clone, Copy, Debug, PartialEq, Eq)]
pub struct Limits {
    /// B1: driving without a break.
    pub breaks: Option<Minute>,
    /// B2: the daily rest has to begin.
    pub daily_rest: Option<Minute>,
    /// B3: a daily rest that isn't reduced has to begin.
    pub reduced_rest: Option<Minute>,
    /// B4: ten hours of driving in a day.
    pub extended_day: Option<Minute>,
    /// B5: nine hours of driving in a day.
    pub third_day: Option<Minute>,
    /// B6: driving in the week.
    pub week: Option<Minute>,
    /// B7: driving in two weeks.
    pub two_weeks: Option<Minute>,
    /// B8: a weekly rest has to begin.
    pub late_rest: Option<Minute>,
    /// B9: a weekly rest that the week lacks has to begin.
    pub missing_rest: Option<Minute>,
}

/// Returns the minute up to which driving is looked at for a rule.
pub(crate) fn reach(start: Minute, kind: Kind) -> u32
    requires from { 5760 ≤ start }
    requires within { start + 91381 ≤ latest }
    ensures is { IsReach start kind result }
    ensures forward { start ≤ result }
    ensures within { result ≤ start + 20160 }
{
    match kind {
        Kind::B1 | Kind::B2 | Kind::B3 | Kind::B4 | Kind::B5 => start.number() + 1440,
        Kind::B6 | Kind::B7 => first_minute(next_week(week_of(start))).number(),
        Kind::B8 => start.number() + 10_080,
        Kind::B9 => first_minute(next_week(next_week(week_of(start)))).number(),
        Kind::B10 => start.number(),
    }
}

/// Returns the minute until which driving may go on by a rule. `found` is afterwards as it was.
fn limit(
    scan: &Scan,
    start: Minute,
    kind: Kind,
    had: &[Breach],
    found: &mut Found,
) -> Result<Option<Minute>, AllocError>
    requires at { IsAt scan.now start }
    requires from { 5760 ≤ start }
    requires within { start + 91381 ≤ latest }
    ensures same { OnOk result (HasSame found.old found.new) }
    ensures limit { IfOk result (λ limit. (held : List SpanValue) (base : ℕ)
        → IsKnown scan.now found.old had.now held base start → IsLimit held base start kind limit) }
{
    let first = start.number();
    for until in first..reach(start, kind) {
        if is_broken(scan, first, until + 1, kind, had, found)? {
            return Ok(Some(Minute::new(until)));
        }
    }
    Ok(None)
}

/// Returns the limits of driving from a minute, up to which a scan was fed. `had` has the breaches that are reported if no minute is driven.
/// `found` is afterwards as it was.
pub(crate) fn limits_at(
    scan: &Scan,
    start: Minute,
    had: &[Breach],
    found: &mut Found,
) -> Result<Limits, AllocError>
    requires at { IsAt scan.now start }
    requires from { 5760 ≤ start }
    requires within { start + 91381 ≤ latest }
    ensures same { OnOk result (HasSame found.old found.new) }
    ensures limits { IfOk result (λ limits. (held : List SpanValue) (base : ℕ)
        → IsKnown scan.now found.old had.now held base start → (kind : KindValue) → IsLimit held base start kind (limit_of limits kind)) }
{
    let others = search(scan, start, had, found)?;
    let reduced_rest = limit(scan, start, Kind::B3, had, found)?;
    Ok(Limits {
        breaks: others.breaks,
        daily_rest: others.daily_rest,
        reduced_rest,
        extended_day: others.extended_day,
        third_day: others.third_day,
        week: others.week,
        two_weeks: others.two_weeks,
        late_rest: others.late_rest,
        missing_rest: others.missing_rest,
    })
}
