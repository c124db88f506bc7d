//! A forecast for a driver's last stretch.

ghost use Rattle.std.specs.Prelude.{◌≡◌, ◌+◌, ◌≤◌, ◌↔◌, ◌++◌, ℕ, List, All, AllPairs, Contains, IfOk, OnOk, filter, true};
ghost use Rattle.tacho_time.specs.declared.span.Span.{Span as SpanValue};
ghost use Rattle.tacho_line.specs.Line.{IsHorizon};
ghost use Rattle.tacho_law.specs.declared.breach.Breach.{Breach as BreachValue};
ghost use Rattle.tacho_law.specs.Limits.{latest};
ghost use Rattle.tacho_law.specs.Line.{IsBase};
ghost use Rattle.tacho_law.specs.Order.{Earlier, HaveOwnPlaces};
ghost use Rattle.tacho_rules.specs.Scan.{IsAt};
ghost use Rattle.tacho_ahead.specs.Plans.{IsInTime, IsOpen, rested};
ghost use Rattle.tacho_ahead.specs.Outlook.{AreOpenDebts, IsOutlook, is_open_debt};
ghost use Rattle.tacho_ahead.specs.Fed.{AreReported, EndsAt, HasSame, IsFedTo, IsReady};
ghost use Rattle.tacho_ahead.specs.Ended.{AreParts};

use crate::broken::{at_rest, forget, has};
use crate::limits::{Limits, limits_at};
use crate::plan::{drive_and_rest, end_at, go_on};
use crate::used::{Used, used_of};
use std::alloc::{AllocError, Global};
use tacho_law::{Breach, Debt, put_in_order};
use tacho_line::{Horizon, Line};
use tacho_pass::Found;
use tacho_rules::Scan;
use tacho_time::{Activity, Mark, Minute, Span};

/// A forecast for a driver from a minute on.
#[derive(Drop)]
pub struct Outlook {
    /// Until when driving can go on by each rule.
    pub limits: Limits,
    /// What is used of the limits.
    pub used: Used,
    /// The breaches that come even if nothing is driven, in the order of a report.
    pub coming: Vec<Breach>,
    /// The debts that aren't paid, with a deadline after the start, by week.
    pub debts: Vec<Debt>,
}

/// Returns the forecast from `start` on for what a line holds from a Monday on: until `start` the driver rests. Articles 6, 7 and 8 of
/// Regulation (EC) No 561/2006.
pub fn look_ahead(
    alloc: Global,
    line: &Line,
    monday: Minute,
    start: Minute,
) -> Result<Outlook, AllocError>
    requires monday { IsBase monday }
    requires within { All (λ span. span.past ≤ latest) line.now }
    requires ended { IsOpen line.now monday start }
    requires early { IsInTime start }
    ensures { IfOk result (λ outlook. IsOutlook line.now monday start outlook.limits outlook.used outlook.coming.items outlook.debts.items) }
{
    let horizon = line.horizon(monday);
    let end = horizon.minute;
    let mut scan = Scan::new(monday);
    let mut found = Found::empty(alloc);
    scan.feed_within(line.meeting(monday, end), monday, end, &mut found)?;
    let known = found.breaches.len();
    let reported = added_at(alloc, &scan, end, &mut found)?;
    go_on(
        &mut scan,
        end.number(),
        start.number(),
        Activity::Rest,
        &mut found,
    )?;
    let debts = debts_at(alloc, &scan, start, &mut found)?;
    let first = start.number();
    let had = at_rest(alloc, &scan, first, &mut found)?;
    let limits = limits_at(&scan, start, &had, &mut found)?;
    drive_and_rest(&scan, first, first, &mut found)?;
    let coming = coming_of(alloc, &found.breaches[known..], &reported)?;
    let spans = rested_spans(alloc, line, monday, horizon, start)?;
    let used = used_of(alloc, spans, monday, start)?;
    Ok(Outlook {
        limits,
        used,
        coming,
        debts,
    })
}

/// Returns the breaches that are added if a scan ends at a minute, where what it was fed ends. `found` is afterwards as it was.
fn added_at(
    alloc: Global,
    scan: &Scan,
    minute: Minute,
    found: &mut Found,
) -> Result<Vec<Breach>, AllocError>
    requires at { IsAt scan.now minute }
    requires within { minute ≤ latest }
    ensures same { OnOk result (HasSame found.old found.new) }
    ensures added { IfOk result (λ added. (plan : List SpanValue) (base : ℕ) → IsFedTo scan.now found.old plan base minute → EndsAt plan minute
        → AreReported plan base (found.old.breaches.items ++ added.items)) }
{
    let breaches = found.breaches.len();
    let debts = found.debts.len();
    end_at(*scan, minute, found)?;
    let added = Vec::from_slice(alloc, &found.breaches[breaches..])?;
    forget(found, breaches, debts);
    Ok(added)
}

/// Returns the open debts if rest is held up to `start`. `found` is afterwards as it was.
fn debts_at(
    alloc: Global,
    scan: &Scan,
    start: Minute,
    found: &mut Found,
) -> Result<Vec<Debt>, AllocError>
    requires at { IsAt scan.now start }
    requires within { start ≤ latest }
    ensures same { OnOk result (HasSame found.old found.new) }
    ensures debts { IfOk result (λ debts. (held : List SpanValue) (base : ℕ) → IsReady scan.now found.old held base start
        → AreOpenDebts held base start debts.items) }
{
    let breaches = found.breaches.len();
    let debts = found.debts.len();
    end_at(*scan, start, found)?;
    let left = open_debts(alloc, &found.debts, start)?;
    forget(found, breaches, debts);
    Ok(left)
}

/// Returns the debts that aren't paid, with a deadline after a minute.
pub fn open_debts(alloc: Global, debts: &[Debt], minute: Minute) -> Result<Vec<Debt>, AllocError>
    ensures { IfOk result (λ left. left.items ≡ filter (is_open_debt minute) debts.now) }
{
    let mut left = Vec::new(alloc);
    for debt in debts {
        if debt.paid_by.is_none() && minute < debt.deadline {
            left.push(*debt)?;
        }
    }
    Ok(left)
}

/// Returns the breaches that aren't among those reported, in the order of a report.
fn coming_of(
    alloc: Global,
    breaches: &[Breach],
    reported: &[Breach],
) -> Result<Vec<Breach>, AllocError>
    ensures each { IfOk result (λ coming. (breach : BreachValue) → Contains coming.items breach
        ↔ (Contains breaches.now breach × ¬ (Contains reported.now breach))) }
    ensures in_order { IfOk result (λ coming. HaveOwnPlaces breaches.now → AllPairs Earlier coming.items) }
{
    let mut coming = missing(alloc, breaches, reported)?;
    put_in_order(&mut coming);
    Ok(coming)
}

/// Returns the breaches that aren't among others, in the same order.
fn missing(alloc: Global, breaches: &[Breach], others: &[Breach]) -> Result<Vec<Breach>, AllocError>
    ensures each { IfOk result (λ missing. (breach : BreachValue) → Contains missing.items breach
        ↔ (Contains breaches.now breach × ¬ (Contains others.now breach))) }
    ensures apart { IfOk result (λ missing. HaveOwnPlaces breaches.now → HaveOwnPlaces missing.items) }
{
    let mut missing = Vec::new(alloc);
    for breach in breaches {
        if !has(others, breach) {
            missing.push(*breach)?;
        }
    }
    Ok(missing)
}

/// Returns what a line holds from a Monday to its horizon, and rest from there to `start`.
fn rested_spans(
    alloc: Global,
    line: &Line,
    monday: Minute,
    horizon: Horizon,
    start: Minute,
) -> Result<Vec<Span>, AllocError>
    requires monday { IsBase monday }
    requires within { All (λ span. span.past ≤ latest) line.now }
    requires ended { IsOpen line.now monday start }
    requires is { IsHorizon line.now monday horizon }
    requires early { start ≤ latest }
    ensures { IfOk result (λ spans. AreParts (rested line.now horizon.minute start) monday start spans.items) }
{
    let end = horizon.minute;
    let mut spans = line.slice(alloc, monday, end)?;
    if end < start {
        spans.push(Span {
            start: end,
            past: start,
            mark: Mark {
                activity: Activity::Rest,
                crew: false,
            },
        })?;
    }
    Ok(spans)
}
