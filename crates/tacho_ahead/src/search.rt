ghost use Rattle.std.specs.Prelude.{◌≡◌, ◌≢◌, ◌+◌, ◌<◌, ◌≤◌, ℕ, List, None, IfOk, OnOk};
ghost use Rattle.tacho_time.specs.declared.span.Span.{Span as SpanValue};
ghost use Rattle.tacho_law.specs.declared.breach.Kind.{Kind as KindValue};
ghost use Rattle.tacho_law.specs.declared.breach.Kind.TheVariants.{B3};
ghost use Rattle.tacho_law.specs.Limits.{latest};
ghost use Rattle.tacho_rules.specs.Scan.{IsAt};
ghost use Rattle.tacho_ahead.specs.Ahead.{IsReach, IsLimit, limit_of};
ghost use Rattle.tacho_ahead.specs.Fed.{IsPicked, IsKnown, HasSame};

use crate::broken::{forget, has_new};
use crate::limits::{Limits, reach};
use crate::plan::drive_and_rest;
use std::alloc::AllocError;
use tacho_law::{Breach, Kind};
use tacho_pass::Found;
use tacho_rules::Scan;
use tacho_time::Minute;

/// Returns a rule's limit after driving to before the minute after `until` was tried.
fn pick(
    limit: Option<Minute>,
    start: Minute,
    kind: Kind,
    until: Minute,
    breaches: &[Breach],
    had: &[Breach],
) -> Option<Minute>
    requires from { 5760 ≤ start }
    requires within { start + 91381 ≤ latest }
    ensures { IsPicked start kind until breaches.now had.now limit result }
{
    match limit {
        Some(minute) => Some(minute),
        None => {
            if reach(start, kind) <= until.number() {
                return None;
            }
            if has_new(breaches, had, kind) {
                Some(until)
            } else {
                None
            }
        }
    }
}

/// Returns the limits after driving to before the minute after `until` was tried. That of B3 stays.
fn noted(
    limits: Limits,
    start: Minute,
    until: Minute,
    breaches: &[Breach],
    had: &[Breach],
) -> Limits
    requires from { 5760 ≤ start }
    requires within { start + 91381 ≤ latest }
    requires forward { start ≤ until }
    ensures { (kind : KindValue) → kind ≢ B3 → IsPicked start kind until breaches.now had.now (limit_of limits kind) (limit_of result kind) }
{
    let breaks = pick(limits.breaks, start, Kind::B1, until, breaches, had);
    let daily_rest = pick(limits.daily_rest, start, Kind::B2, until, breaches, had);
    let extended_day = pick(limits.extended_day, start, Kind::B4, until, breaches, had);
    let third_day = pick(limits.third_day, start, Kind::B5, until, breaches, had);
    let week = pick(limits.week, start, Kind::B6, until, breaches, had);
    let two_weeks = pick(limits.two_weeks, start, Kind::B7, until, breaches, had);
    let late_rest = pick(limits.late_rest, start, Kind::B8, until, breaches, had);
    let missing_rest = pick(limits.missing_rest, start, Kind::B9, until, breaches, had);
    Limits {
        breaks,
        daily_rest,
        reduced_rest: limits.reduced_rest,
        extended_day,
        third_day,
        week,
        two_weeks,
        late_rest,
        missing_rest,
    }
}

/// No limits.
fn none() -> Limits
    ensures { (kind : KindValue) → limit_of result kind ≡ None }
{
    Limits {
        breaks: None,
        daily_rest: None,
        reduced_rest: None,
        extended_day: None,
        third_day: None,
        week: None,
        two_weeks: None,
        late_rest: None,
        missing_rest: None,
    }
}

/// Returns the limits of all rules but B3, by one search. `found` is afterwards as it was.
pub(crate) fn search(
    scan: &Scan,
    start: Minute,
    had: &[Breach],
    found: &mut Found,
) -> Result<Limits, AllocError>
    requires at { IsAt scan.now start }
    requires from { 5760 ≤ start }
    requires within { start + 91381 ≤ latest }
    ensures same { OnOk result (HasSame found.old found.new) }
    ensures limits { IfOk result (λ limits. (held : List SpanValue) (base : ℕ)
        → IsKnown scan.now found.old had.now held base start → (kind : KindValue) → kind ≢ B3
        → IsLimit held base start kind (limit_of limits kind)) }
{
    let breaches = found.breaches.as_slice().len();
    let debts = found.debts.as_slice().len();
    let first = start.number();
    let mut limits = none();
    for until in first..reach(start, Kind::B9) {
        drive_and_rest(scan, first, until + 1, found)?;
        limits = noted(
            limits,
            start,
            Minute::new(until),
            &found.breaches[breaches..],
            had,
        );
        forget(found, breaches, debts);
    }
    Ok(limits)
}
