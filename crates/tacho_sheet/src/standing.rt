//! How all drivers stand in a month.

ghost use Rattle.std.specs.Prelude.{◌≡◌, ◌++◌, ◌-◌, ◌≤◌, [], ◌∷◌, ℕ, List, IfOk, OnOk, decimal, length, map, string_bytes, sum_by};
ghost use Rattle.tacho_time.specs.Limits.{greatest_minute};
ghost use Rattle.tacho_time.specs.Text.{minute_text};
ghost use Rattle.tacho_time.specs.declared.span.Span.{Span as SpanValue};
ghost use Rattle.tacho_line.specs.Line.{AgreeWithin, AreGaps};
ghost use Rattle.tacho_line.specs.declared.gap.Gap.{Gap as GapValue};
ghost use Rattle.tacho_law.specs.declared.debt.Debt.{Debt as DebtValue};
ghost use Rattle.tacho_stretches.specs.Stretches.{judged_of, AreStretches};
ghost use Rattle.tacho_state.specs.Summaries.{told_summary};
ghost use Rattle.tacho_sheet.specs.Cells.{cells_text, minute_cell};
ghost use Rattle.tacho_sheet.specs.Reports.{cause_name, column_minutes, is_lacking};
ghost use Rattle.tacho_sheet.specs.Standing.{first_deadline as deadline_of_first, first_lacking as lacking_first, open_at_horizon, standing_head as head_of_standing, IsCountBefore, IsCountIn, IsStandingRow};

use crate::amounts::amounts_of_range;
use crate::cells::{MinuteCell, held_cell};
use crate::months::breaches_in;
use crate::reports::name_of_cause;
use std::alloc::{AllocError, Global};
use tacho_ahead::open_debts;
use tacho_law::Debt;
use tacho_line::{Gap, Horizon, Line};
use tacho_state::DriverSummary;
use tacho_stretches::{Stretch, range_of};
use tacho_time::{Minute, Month, month_range};

/// The head of the standing of all drivers, as CSV.
pub fn standing_head(alloc: Global) -> Result<String, AllocError>
    ensures { IfOk result (λ text. string_bytes text ≡ head_of_standing) }
{
    String::from_str(
        alloc,
        "driver,name,files,held,horizon,cause,gaps,unknown,first,last_month,breaches,debts,owes,by\n",
    )
}

/// Appends a driver's row of the standing in a month: number, name and the number of card files; the end of what is held; the horizon of the
/// last stretch, and its cause; the gaps from the base to the end of what is held; the number of breaches in the month before and in the
/// month; and the open debts of the last stretch. `line` holds what the driver holds from the base of the stretches on.
pub fn push_standing(
    alloc: Global,
    text: &mut String,
    driver: &DriverSummary,
    line: &Line,
    stretches: &[Stretch],
    month: Month,
) -> Result<(), AllocError>
    ensures { OnOk result ((held : List SpanValue) (base : ℕ) → AreStretches held base (map judged_of stretches.now)
        → AgreeWithin base greatest_minute line.now held → (row : List ℕ) × (string_bytes text.new ≡ string_bytes text.old ++ row)
        × IsStandingRow (told_summary driver.now) held base (map judged_of stretches.now) month row) }
{
    let Some(last) = stretches.last() else {
        return Ok(());
    };
    let (base, end) = range_of(stretches);
    let horizon = last.report.horizon;
    let number = driver.number;
    write!(text, "{number}")?;
    push_held(text, driver, held_cell(base, end), horizon)?;
    push_gaps(alloc, text, line, base, end.max(base))?;
    push_breach_counts(alloc, text, stretches, month)?;
    push_owed(alloc, text, last)?;
    text.push_str("\n")
}

/// Appends a driver's name, the number of card files, the end of what is held, and the horizon with its cause.
fn push_held(
    text: &mut String,
    driver: &DriverSummary,
    held: MinuteCell,
    horizon: Horizon,
) -> Result<(), AllocError>
    ensures { OnOk result (string_bytes text.new ≡ string_bytes text.old ++ cells_text ((told_summary driver.now).name
        ∷ decimal driver.now.downloads ∷ minute_cell held.minute ∷ minute_text horizon.minute ∷ cause_name horizon.cause ∷ [])) }
{
    let name = driver.name.as_str();
    let files = driver.downloads;
    let minute = horizon.minute;
    let cause = name_of_cause(horizon.cause);
    write!(text, ",{name},{files},{held},{minute},{cause}")
}

/// Appends the number of gaps from `base` to `end`, their minutes, and their first minute.
fn push_gaps(
    alloc: Global,
    text: &mut String,
    line: &Line,
    base: Minute,
    end: Minute,
) -> Result<(), AllocError>
    requires { base ≤ end }
    ensures { OnOk result ((gaps : List GapValue) × AreGaps line.now base end gaps × (string_bytes text.new ≡ string_bytes text.old
        ++ cells_text (decimal (length gaps) ∷ decimal (column_minutes line.now base (end - base) is_lacking)
        ∷ minute_cell (lacking_first gaps) ∷ []))) }
{
    let gaps = line.gaps(alloc, base, end)?;
    let lacking = amounts_of_range(alloc, line, base, end)?.lacking;
    let count = gaps.len();
    let first = MinuteCell {
        minute: first_lacking(&gaps),
    };
    write!(text, ",{count},{lacking},{first}")
}

/// The first minute of gaps.
fn first_lacking(gaps: &[Gap]) -> Option<Minute>
    ensures { result ≡ lacking_first gaps.now }
{
    match gaps.first() {
        Some(gap) => Some(gap.start),
        None => None,
    }
}

/// Appends the number of breaches of all stretches in the month before, and in the month.
fn push_breach_counts(
    alloc: Global,
    text: &mut String,
    stretches: &[Stretch],
    month: Month,
) -> Result<(), AllocError>
    ensures { OnOk result ((earlier breaches : ℕ) × IsCountBefore month (map judged_of stretches.now) earlier
        × IsCountIn month (map judged_of stretches.now) breaches
        × (string_bytes text.new ≡ string_bytes text.old ++ cells_text (decimal earlier ∷ decimal breaches ∷ []))) }
{
    let earlier = count_before(alloc, stretches, month)?;
    let breaches = count_in(alloc, stretches, month)?;
    write!(text, ",{earlier},{breaches}")
}

/// The number of breaches of all stretches whose moment is in the month before; 0 before 2000-01.
fn count_before(alloc: Global, stretches: &[Stretch], month: Month) -> Result<usize, AllocError>
    ensures { IfOk result (IsCountBefore month (map judged_of stretches.now)) }
{
    match month.before() {
        Some(before) => count_in(alloc, stretches, before),
        None => Ok(0),
    }
}

/// The number of breaches of all stretches whose moment is in a month.
fn count_in(alloc: Global, stretches: &[Stretch], month: Month) -> Result<usize, AllocError>
    ensures { IfOk result (IsCountIn month (map judged_of stretches.now)) }
{
    let (start, past) = month_range(month);
    Ok(breaches_in(alloc, stretches, start, past)?.len())
}

/// Appends the number of open debts of a stretch, the sum of their amounts, and the deadline of the first.
fn push_owed(alloc: Global, text: &mut String, stretch: &Stretch) -> Result<(), AllocError>
    ensures { OnOk result (string_bytes text.new ≡ string_bytes text.old ++ cells_text (decimal (length (open_at_horizon (judged_of stretch.now)))
        ∷ decimal (sum_by (λ (d : DebtValue). d.amount) (open_at_horizon (judged_of stretch.now)))
        ∷ minute_cell (deadline_of_first (open_at_horizon (judged_of stretch.now))) ∷ [])) }
{
    let debts = open_debts(alloc, &stretch.report.debts, stretch.report.horizon.minute)?;
    let count = debts.len();
    let owes = sum_of(&debts);
    let by = MinuteCell {
        minute: first_deadline(&debts),
    };
    write!(text, ",{count},{owes},{by}")
}

/// The sum of the amounts of debts. In 128 bits no sum of a slice's 32-bit amounts overflows.
fn sum_of(debts: &[Debt]) -> u128
    ensures { result ≡ sum_by (λ (d : DebtValue). d.amount) debts.now }
{
    let mut sum = 0;
    for debt in debts {
        sum += debt.amount as u128;
    }
    sum
}

/// The deadline of the first debt.
fn first_deadline(debts: &[Debt]) -> Option<Minute>
    ensures { result ≡ deadline_of_first debts.now }
{
    match debts.first() {
        Some(debt) => Some(debt.deadline),
        None => None,
    }
}
