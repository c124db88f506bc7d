ghost use Rattle.std.specs.Prelude.{◌≡◌, ◌++◌, codes, flat_map, IfOk, OnOk, string_bytes};
ghost use Rattle.tacho_sheet.specs.Reports.{breach_line, breach_text as text_of_breaches, cause_name, csv_line, debt_line, gap_line, horizon_line, kind_name, owed_text as text_of_debts, paid_text, IsGapText, IsSpanCsv};

use std::alloc::{AllocError, Global};
use tacho_law::{Breach, Debt, Kind};
use tacho_line::{Cause, Gap, Horizon, Line};
use tacho_rules::Report;
use tacho_time::{Day, Minute, Month, Span, month_range, write_day};

/// Writes the breaches in order: for each a line with its rule, its moment, its first minute and its amount. The last line has the first
/// minute that isn't examined, and why.
pub fn breach_text(alloc: Global, report: &Report) -> Result<String, AllocError>
    ensures { IfOk result (λ text. string_bytes text ≡ text_of_breaches report.now.breaches.items report.now.horizon) }
{
    let mut text = String::new(alloc);
    push_breaches(&mut text, &report.breaches)?;
    push_horizon(&mut text, report.horizon)?;
    Ok(text)
}

/// Writes the debts: for each week its Monday, the amount in minutes, the deadline, and `open`, `late`, or `paid` with the first minute of
/// the rest that paid it. The last line has the first minute that isn't examined, and why.
pub fn owed_text(alloc: Global, report: &Report) -> Result<String, AllocError>
    ensures { IfOk result (λ text. string_bytes text ≡ text_of_debts report.now.debts.items report.now.horizon) }
{
    let mut text = String::new(alloc);
    push_debts(&mut text, &report.debts, report.horizon.minute)?;
    push_horizon(&mut text, report.horizon)?;
    Ok(text)
}

/// Writes a month's gaps: for each maximal range of minutes of the month that aren't held, its first minute and the first minute after it,
/// separated by a blank.
pub fn gap_text(alloc: Global, line: &Line, month: Month) -> Result<String, AllocError>
    ensures { IfOk result (λ text. IsGapText line.now month (string_bytes text)) }
{
    let (start, past) = month_range(month);
    let gaps = line.gaps(alloc, start, past)?;
    gap_lines(alloc, &gaps)
}

/// Writes the line of each gap.
fn gap_lines(alloc: Global, gaps: &[Gap]) -> Result<String, AllocError>
    ensures { IfOk result (λ text. string_bytes text ≡ flat_map gap_line gaps.now) }
{
    let mut text = String::new(alloc);
    for gap in gaps {
        push_gap(&mut text, gap)?;
    }
    Ok(text)
}

/// Writes what is held in a month as CSV: the head `start,past,activity,manning`, and a row for each canonical span.
pub fn span_csv(alloc: Global, line: &Line, month: Month) -> Result<String, AllocError>
    ensures { IfOk result (λ text. IsSpanCsv line.now month (string_bytes text)) }
{
    let (start, past) = month_range(month);
    let spans = line.slice(alloc, start, past)?;
    csv_lines(alloc, &spans)
}

/// Writes the head, and the row of each span.
fn csv_lines(alloc: Global, spans: &[Span]) -> Result<String, AllocError>
    ensures { IfOk result (λ text. string_bytes text ≡ codes "start,past,activity,manning\n" ++ flat_map csv_line spans.now) }
{
    let mut text = String::from_str(alloc, "start,past,activity,manning\n")?;
    for span in spans {
        push_span(&mut text, span)?;
    }
    Ok(text)
}

/// Appends the lines of breaches.
pub(crate) fn push_breaches(text: &mut String, breaches: &[Breach]) -> Result<(), AllocError>
    ensures { OnOk result (string_bytes text.new ≡ string_bytes text.old ++ flat_map breach_line breaches.now) }
{
    for breach in breaches {
        push_breach(text, breach)?;
    }
    Ok(())
}

/// Appends the line of a breach.
pub(crate) fn push_breach(text: &mut String, breach: &Breach) -> Result<(), AllocError>
    ensures { OnOk result (string_bytes text.new ≡ string_bytes text.old ++ breach_line breach.now) }
{
    let kind = name_of_kind(breach.kind);
    let moment = breach.moment;
    let since = breach.since;
    let amount = breach.amount;
    writeln!(text, "{kind} at {moment} since {since} amount {amount}")
}

/// Appends the line with the first minute that isn't examined, and why.
pub(crate) fn push_horizon(text: &mut String, horizon: Horizon) -> Result<(), AllocError>
    ensures { OnOk result (string_bytes text.new ≡ string_bytes text.old ++ horizon_line horizon) }
{
    let minute = horizon.minute;
    let cause = name_of_cause(horizon.cause);
    writeln!(text, "EXAMINED TO {minute} {cause}")
}

/// Appends the lines of debts. `horizon` is the first minute that isn't examined.
pub(crate) fn push_debts(
    text: &mut String,
    debts: &[Debt],
    horizon: Minute,
) -> Result<(), AllocError>
    ensures { OnOk result (string_bytes text.new ≡ string_bytes text.old ++ flat_map (debt_line horizon) debts.now) }
{
    for debt in debts {
        push_debt(text, debt, horizon)?;
    }
    Ok(())
}

/// Appends the line of a debt. `horizon` is the first minute that isn't examined.
fn push_debt(text: &mut String, debt: &Debt, horizon: Minute) -> Result<(), AllocError>
    ensures { OnOk result (string_bytes text.new ≡ string_bytes text.old ++ debt_line horizon debt.now) }
{
    let amount = debt.amount;
    let deadline = debt.deadline;
    text.push_str("WEEK ")?;
    write_day(text, Day::new(4 + 7 * debt.week.number()))?;
    write!(text, " owes {amount} by {deadline} ")?;
    push_paid(text, horizon, deadline, debt.paid_by)?;
    text.push_str("\n")
}

/// Appends whether a debt is paid, late or open.
fn push_paid(
    text: &mut String,
    horizon: Minute,
    deadline: Minute,
    paid_by: Option<Minute>,
) -> Result<(), AllocError>
    ensures { OnOk result (string_bytes text.new ≡ string_bytes text.old ++ paid_text horizon deadline paid_by) }
{
    if let Some(minute) = paid_by {
        return write!(text, "paid {minute}");
    }
    text.push_str(if deadline <= horizon { "late" } else { "open" })
}

/// Appends the line of a gap.
fn push_gap(text: &mut String, gap: &Gap) -> Result<(), AllocError>
    ensures { OnOk result (string_bytes text.new ≡ string_bytes text.old ++ gap_line gap.now) }
{
    let start = gap.start;
    let past = gap.past;
    writeln!(text, "{start} {past}")
}

/// Appends the row of a span.
fn push_span(text: &mut String, span: &Span) -> Result<(), AllocError>
    ensures { OnOk result (string_bytes text.new ≡ string_bytes text.old ++ csv_line span.now) }
{
    let start = span.start;
    let past = span.past;
    let activity = span.mark.activity.name();
    let manning = span.mark.manning();
    writeln!(text, "{start},{past},{activity},{manning}")
}

/// The name of a rule, and the Article that states it.
pub(crate) fn name_of_kind(kind: Kind) -> &'static str
    ensures { result.now ≡ kind_name kind }
{
    match kind {
        Kind::B1 => "B1 Art 7",
        Kind::B2 => "B2 Art 8(2)",
        Kind::B3 => "B3 Art 8(4)",
        Kind::B4 => "B4 Art 6(1)",
        Kind::B5 => "B5 Art 6(1)",
        Kind::B6 => "B6 Art 6(2)",
        Kind::B7 => "B7 Art 6(3)",
        Kind::B8 => "B8 Art 8(6)",
        Kind::B9 => "B9 Art 8(6)",
        Kind::B10 => "B10 Art 8(6b)",
    }
}

/// Why the examination ends.
pub(crate) fn name_of_cause(cause: Cause) -> &'static str
    ensures { result.now ≡ cause_name cause }
{
    match cause {
        Cause::Unknown => "unknown",
        Cause::Crew => "crew",
    }
}
