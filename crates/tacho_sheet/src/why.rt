//! The breaches of a month with their evidence.

ghost use Rattle.std.specs.Prelude.{◌≡◌, ◌≤◌, ◌++◌, ◌⊎◌, [], ℕ, List, Contains, IfOk, IfSome, IsTrue, Ok, None, true, false, map, string_bytes};
ghost use Rattle.tacho_time.specs.declared.span.Span.{Span as SpanValue};
ghost use Rattle.tacho_law.specs.Limits.{latest};
ghost use Rattle.tacho_evidence.specs.OfReport.{shown_of};
ghost use Rattle.tacho_rules.specs.Report.{IsReport};
ghost use Rattle.tacho_stretches.specs.Stretches.{judged_of, AreAll, Judged};
ghost use Rattle.tacho_sheet.specs.Written.{HasEvidence, IsWritten};
ghost use Rattle.tacho_sheet.specs.Reports.{breaches_within, AreBounds};
ghost use Rattle.tacho_sheet.specs.Why.{AgreeOn, CanBeExamined, IsMonthWhy};

use crate::evidence::push_evidence;
use crate::sheet::is_within;
use std::alloc::{AllocError, Global};
use tacho_evidence::{Evidence, evidence_within};
use tacho_law::Breach;
use tacho_law::limits::LATEST;
use tacho_line::Line;
use tacho_periods::Examined;
use tacho_rules::{Report, can_be_examined, examine};
use tacho_stretches::Stretch;
use tacho_time::{Minute, Month, month_range};

/// True if a breach has its moment from `start` to before `past`.
fn has_breach(breaches: &[Breach], start: Minute, past: Minute) -> bool
    ensures some { IsTrue result → ¬ (breaches_within start past breaches.now ≡ []) }
    ensures none { ¬ (IsTrue result) → breaches_within start past breaches.now ≡ [] }
{
    for breach in breaches {
        if is_within(breach.moment, start, past) {
            return true;
        }
    }
    false
}

/// Writes a month's breaches of all stretches, in order, each with its evidence. `line` holds what the driver holds in these stretches and at
/// the minute after each. Returns `None` if such a stretch can't be examined, since it isn't a stretch of what an archive holds: its Monday
/// isn't one from 2000-01-03 to the end of 2099, or the line or the stretch goes past that end.
pub fn why_text(
    alloc: Global,
    line: &Line,
    stretches: &[Stretch],
    month: Month,
) -> Result<Option<String>, AllocError>
    ensures text { IfOk result (λ answer. IfSome answer (λ text. (held : List SpanValue) (end : ℕ) → AreAll held end (map judged_of stretches.now)
        → ((start past : ℕ) → AreBounds month start past → (s : Judged) → Contains (map judged_of stretches.now) s
        → AgreeOn line.now held start past s)
        → IsMonthWhy held (map judged_of stretches.now) month (string_bytes text))) }
    ensures within { IfOk result (λ answer. IfSome answer (λ text. (s : Judged) (start past : ℕ) → AreBounds month start past
        → Contains (map judged_of stretches.now) s → ¬ (breaches_within start past s.breaches ≡ []) → s.horizon.minute ≤ latest)) }
    ensures none { IfOk result (λ answer. answer ≡ None → (s : Judged) × Contains (map judged_of stretches.now) s
        × ((s.horizon.minute ≤ latest → ⊥) ⊎ (CanBeExamined line.now s.monday → ⊥))) }
{
    let (start, past) = month_range(month);
    let mut text = String::new(alloc);
    for stretch in stretches {
        if !push_why(alloc, &mut text, line, stretch, start, past)? {
            return Ok(None);
        }
    }
    Ok(Some(text))
}

/// Appends the breaches of a stretch with their moment from `start` to before `past`, each with its evidence. Returns false if there are such
/// breaches and the stretch can't be examined.
fn push_why(
    alloc: Global,
    text: &mut String,
    line: &Line,
    stretch: &Stretch,
    start: Minute,
    past: Minute,
) -> Result<bool, AllocError>
    ensures text { result ≡ Ok true → (why : List ℕ) × (string_bytes text.new ≡ string_bytes text.old ++ why)
        × IsWritten line.now start past (judged_of stretch.now) why }
    ensures none { result ≡ Ok false
        → (stretch.now.report.horizon.minute ≤ latest → ⊥) ⊎ (CanBeExamined line.now stretch.now.monday → ⊥) }
{
    if !has_breach(&stretch.report.breaches, start, past) {
        return Ok(true);
    }
    if LATEST < stretch.report.horizon.minute.number() || !can_be_examined(line, stretch.monday) {
        return Ok(false);
    }
    let report = examine(alloc, line, stretch.monday)?;
    let found = evidence_of(alloc, line, stretch.monday, &report, start, past)?;
    push_evidence(text, &found)?;
    Ok(true)
}

/// Lists the evidence for the breaches of the report of a line with their moment from `start` to before `past`.
fn evidence_of(
    alloc: Global,
    line: &Line,
    monday: Minute,
    report: &Report,
    start: Minute,
    past: Minute,
) -> Result<Vec<Evidence>, AllocError>
    requires examined { CanBeExamined line.now monday }
    requires report { IsReport line.now monday report.now.horizon report.now.breaches.items report.now.debts.items }
    ensures { IfOk result (λ found. HasEvidence line.now start past monday report.now.horizon.minute report.now.breaches.items
        report.now.debts.items (map shown_of found.items)) }
{
    let horizon = report.horizon.minute;
    let spans = line.slice(alloc, monday, horizon)?;
    let examined = Examined {
        spans: &spans,
        base: monday,
        past: horizon,
    };
    evidence_within(
        alloc,
        &examined,
        &report.breaches,
        &report.debts,
        start,
        past,
    )
}
