ghost use Rattle.std.specs.Prelude.{◌≡◌, ◌≢◌, ◌+◌, ◌≤◌, ◌<◌, ◌&&◌, ℕ, IfOk, filter, map, nat_le, nat_lt};
ghost use Rattle.tacho_law.specs.declared.breach.Kind.TheVariants.{B9};
ghost use Rattle.tacho_law.specs.Breaches.{IsBreach};
ghost use Rattle.tacho_law.specs.Debts.{AreDebts};
ghost use Rattle.tacho_law.specs.Line.{line_of, IsExamined};
ghost use Rattle.tacho_law.specs.Weeks.{week_start};
ghost use Rattle.tacho_time.specs.Limits.{greatest_week};
ghost use Rattle.tacho_evidence.specs.Anew.{IsAnewFor};
ghost use Rattle.tacho_evidence.specs.OfReport.{shown_of, AreJudged, AreShown, IsEvidenceOfKind};
ghost use Rattle.tacho_evidence.specs.Periods.{ArePeriods};

use crate::breaks::break_lines;
use crate::choice::choice_lines;
use crate::daily::{daily_rest_lines, day_lines, extended_lines, reduced_lines};
use crate::debts::debt_lines;
use crate::late::late_lines;
use crate::line::EvidenceLine;
use crate::periods::{Periods, periods_of};
use crate::weeks::{two_weeks_lines, week_lines};
use std::alloc::{AllocError, Global};
use tacho_law::{Breach, Debt, Kind};
use tacho_periods::Examined;
use tacho_time::{Minute, Week, next_week, week_of};

/// A breach, and the lines of its evidence.
#[derive(Drop)]
pub struct Evidence {
    pub breach: Breach,
    pub lines: Vec<EvidenceLine>,
}

/// Lists the evidence for a breach. `debts` are those of the examined line, and `anew` is the week from which the choice of a week for each
/// weekly rest was made anew before the breach.
fn lines_of(
    alloc: Global,
    examined: &Examined<'_>,
    periods: &Periods,
    debts: &[Debt],
    anew: Week,
    breach: &Breach,
) -> Result<Vec<EvidenceLine>, AllocError>
    requires examined { IsExamined examined.now.spans.now examined.now.base examined.now.past }
    requires periods { ArePeriods (line_of examined.now.spans.now) periods.now }
    requires debts { AreDebts (line_of examined.now.spans.now) examined.now.past debts.now }
    requires breach { IsBreach (line_of examined.now.spans.now) examined.now.base examined.now.past periods.now.breaks.items debts.now
        breach.now.kind breach.now }
    requires anew { IsAnewFor (line_of examined.now.spans.now) examined.now.base examined.now.past anew breach.now }
    ensures { IfOk result (λ lines. IsEvidenceOfKind (line_of examined.now.spans.now) examined.now.base examined.now.past
        periods.now.breaks.items debts.now breach.now.kind breach.now lines.items) }
{
    match breach.kind {
        Kind::B1 => break_lines(alloc, examined, &periods.runs, &periods.breaks, breach),
        Kind::B2 => daily_rest_lines(alloc, examined, &periods.runs, &periods.days, breach),
        Kind::B3 => reduced_lines(
            alloc,
            examined,
            &periods.weekly,
            &periods.days,
            &periods.parts,
            breach,
        ),
        Kind::B4 => day_lines(alloc, examined, &periods.days, breach),
        Kind::B5 => extended_lines(alloc, examined, &periods.days, breach),
        Kind::B6 => week_lines(alloc, examined, breach),
        Kind::B7 => two_weeks_lines(alloc, examined, breach),
        Kind::B8 => late_lines(alloc, examined, &periods.weekly, breach),
        Kind::B9 => choice_lines(alloc, examined, &periods.weekly, anew, breach),
        Kind::B10 => debt_lines(
            alloc,
            examined,
            &periods.runs,
            &periods.weekly,
            debts,
            breach,
        ),
    }
}

/// Returns the week from which the choice is made anew after a breach, if it was made anew from `anew` before it.
fn anew_after(anew: Week, breach: &Breach) -> Week
    requires from { breach.now.kind ≡ B9 → 5760 ≤ breach.now.since }
    requires in_range { breach.now.kind ≡ B9 → breach.now.since < week_start greatest_week }
    ensures failed { breach.now.kind ≡ B9 → (week : ℕ) → breach.now.since ≡ week_start week → result ≡ week + 1 }
    ensures other { breach.now.kind ≢ B9 → result ≡ anew }
{
    if breach.kind == Kind::B9 {
        next_week(week_of(breach.since))
    } else {
        anew
    }
}

/// Lists the evidence for each breach of a report whose moment is from `start` to before `past`, in the order of the report.
pub fn evidence_within(
    alloc: Global,
    examined: &Examined<'_>,
    breaches: &[Breach],
    debts: &[Debt],
    start: Minute,
    past: Minute,
) -> Result<Vec<Evidence>, AllocError>
    requires examined { IsExamined examined.now.spans.now examined.now.base examined.now.past }
    requires report { AreJudged (line_of examined.now.spans.now) examined.now.base examined.now.past breaches.now debts.now }
    ensures { IfOk result (λ found. AreShown (line_of examined.now.spans.now) examined.now.base examined.now.past debts.now
        (filter (λ b. nat_le start b.moment && nat_lt b.moment past) breaches.now) (map shown_of found.items)) }
{
    let periods = periods_of(alloc, examined)?;
    let mut found = Vec::new(alloc);
    let mut anew = week_of(examined.base);
    for breach in breaches {
        if start <= breach.moment && breach.moment < past {
            let lines = lines_of(alloc, examined, &periods, debts, anew, breach)?;
            found.push(Evidence {
                breach: *breach,
                lines,
            })?;
        }
        anew = anew_after(anew, breach);
    }
    Ok(found)
}
