ghost use Rattle.std.specs.Prelude.{◌≡◌, ◌-◌, ◌≤◌, ◌++◌, ℕ, List, flat_map, map, IfOk, OnOk, string_bytes};
ghost use Rattle.tacho_stretches.specs.Stretches.{judged_of};
ghost use Rattle.tacho_stretches.specs.Ranges.{parts, FollowOn};
ghost use Rattle.tacho_sheet.specs.Reports.{breaches_within, count_from};
ghost use Rattle.tacho_sheet.specs.Amounts.{amounts_in, cells};
ghost use Rattle.tacho_sheet.specs.Months.{article, month_breaches, count_of as count_of_kind, incident_head as head_of_incidents, incident_row, is_examined, kind_code, kinds, overview_head as head_of_overview, AreIncidentRows, IsOverviewRow};

use crate::amounts::{Amounts, amounts_of_range};
use crate::sheet::is_within;
use std::alloc::{AllocError, Global};
use tacho_law::{Breach, Kind};
use tacho_line::Line;
use tacho_stretches::Stretch;
use tacho_time::{Minute, Month, month_range};

/// The rules, in the order of their columns.
const KINDS: [Kind; 10] = [
    Kind::B1,
    Kind::B2,
    Kind::B3,
    Kind::B4,
    Kind::B5,
    Kind::B6,
    Kind::B7,
    Kind::B8,
    Kind::B9,
    Kind::B10,
];

/// The head of the overview of a month, as CSV.
pub fn overview_head(alloc: Global) -> Result<String, AllocError>
    ensures { IfOk result (λ text. string_bytes text ≡ head_of_overview) }
{
    String::from_str(
        alloc,
        "driver,name,rest,available,work,drive,crew,none,examined,B1,B2,B3,B4,B5,B6,B7,B8,B9,B10\n",
    )
}

/// Appends a driver's row of the overview of a month: number and name, the minutes held single with each activity, those held as crew,
/// those not held, those examined, and the number of breaches of each rule.
pub fn push_overview(
    alloc: Global,
    text: &mut String,
    number: u32,
    name: &str,
    line: &Line,
    stretches: &[Stretch],
    month: Month,
) -> Result<(), AllocError>
    ensures { OnOk result ((base end : ℕ) → FollowOn (parts (map judged_of stretches.now)) base end → (row : List ℕ)
        × (string_bytes text.new ≡ string_bytes text.old ++ row)
        × IsOverviewRow number name.now line.now (map judged_of stretches.now) month row) }
{
    let (start, past) = month_range(month);
    let amounts = amounts_of_range(alloc, line, start, past)?;
    let examined = examined_in(stretches, start, past);
    let breaches = breaches_in(alloc, stretches, start, past)?;
    write!(text, "{number},{name}")?;
    push_amounts(text, &amounts)?;
    write!(text, ",{examined}")?;
    push_counts(text, &breaches)?;
    text.push_str("\n")
}

/// The number of minutes from `start` to before `past` that are within a stretch. The stretches follow one another.
fn examined_in(stretches: &[Stretch], start: Minute, past: Minute) -> u32
    requires { start ≤ past }
    ensures { (base end : ℕ) → FollowOn (parts (map judged_of stretches.now)) base end
        → result ≡ count_from (is_examined (map judged_of stretches.now)) start (past - start) }
{
    let mut examined = 0;
    let mut from = start;
    for stretch in stretches {
        let first = from.max(stretch.monday);
        let end = past.min(stretch.report.horizon.minute);
        if first < end {
            examined += end.number() - first.number();
            from = end;
        }
    }
    examined
}

/// The breaches of all stretches whose moment is from `start` to before `past`.
pub(crate) fn breaches_in(
    alloc: Global,
    stretches: &[Stretch],
    start: Minute,
    past: Minute,
) -> Result<Vec<Breach>, AllocError>
    ensures { IfOk result (λ found. found.items ≡ month_breaches start past (map judged_of stretches.now)) }
{
    let mut found = Vec::new(alloc);
    for stretch in stretches {
        add_breaches(&mut found, &stretch.report.breaches, start, past)?;
    }
    Ok(found)
}

/// Adds the breaches whose moment is from `start` to before `past`.
pub(crate) fn add_breaches(
    found: &mut Vec<Breach>,
    breaches: &[Breach],
    start: Minute,
    past: Minute,
) -> Result<(), AllocError>
    ensures { OnOk result (found.new.items ≡ found.old.items ++ breaches_within start past breaches.now) }
{
    for breach in breaches {
        if is_within(breach.moment, start, past) {
            found.push(*breach)?;
        }
    }
    Ok(())
}

/// Appends the six amounts, each after a comma.
fn push_amounts(text: &mut String, amounts: &Amounts) -> Result<(), AllocError>
    ensures { OnOk result (string_bytes text.new ≡ string_bytes text.old ++ cells (amounts_in amounts.now)) }
{
    let rest = amounts.rest;
    let available = amounts.available;
    let work = amounts.work;
    let drive = amounts.drive;
    let crew = amounts.crew;
    let lacking = amounts.lacking;
    write!(text, ",{rest},{available},{work},{drive},{crew},{lacking}")
}

/// Appends the number of breaches of each rule, each after a comma.
fn push_counts(text: &mut String, breaches: &[Breach]) -> Result<(), AllocError>
    ensures { OnOk result (string_bytes text.new ≡ string_bytes text.old ++ cells (map (count_of_kind breaches.now) kinds)) }
{
    for kind in &KINDS {
        let count = count_of(breaches, *kind);
        write!(text, ",{count}")?;
    }
    Ok(())
}

/// The number of breaches of a rule.
fn count_of(breaches: &[Breach], kind: Kind) -> usize
    ensures { result ≡ count_of_kind breaches.now kind }
{
    breaches.iter().filter(|breach| breach.kind == kind).count()
}

/// The head of the incidents of a month, as CSV.
pub fn incident_head(alloc: Global) -> Result<String, AllocError>
    ensures { IfOk result (λ text. string_bytes text ≡ head_of_incidents) }
{
    String::from_str(alloc, "driver,name,kind,article,moment,since,amount\n")
}

/// Appends a driver's incidents of a month: a row for each breach, in any stretch, whose moment is in the month.
pub fn push_incidents(
    text: &mut String,
    number: u32,
    name: &str,
    stretches: &[Stretch],
    month: Month,
) -> Result<(), AllocError>
    ensures { OnOk result ((rows : List ℕ) × (string_bytes text.new ≡ string_bytes text.old ++ rows)
        × AreIncidentRows number name.now (map judged_of stretches.now) month rows) }
{
    let (start, past) = month_range(month);
    for stretch in stretches {
        push_breaches(text, number, name, &stretch.report.breaches, start, past)?;
    }
    Ok(())
}

/// Appends the rows of the breaches whose moment is from `start` to before `past`.
fn push_breaches(
    text: &mut String,
    number: u32,
    name: &str,
    breaches: &[Breach],
    start: Minute,
    past: Minute,
) -> Result<(), AllocError>
    ensures { OnOk result (string_bytes text.new
        ≡ string_bytes text.old ++ flat_map (incident_row number name.now) (breaches_within start past breaches.now)) }
{
    for breach in breaches {
        if is_within(breach.moment, start, past) {
            push_incident(text, number, name, breach)?;
        }
    }
    Ok(())
}

/// Appends the row of a breach.
fn push_incident(
    text: &mut String,
    number: u32,
    name: &str,
    breach: &Breach,
) -> Result<(), AllocError>
    ensures { OnOk result (string_bytes text.new ≡ string_bytes text.old ++ incident_row number name.now breach.now) }
{
    let kind = code_of_kind(breach.kind);
    let article = article_of_kind(breach.kind);
    let moment = breach.moment;
    let since = breach.since;
    let amount = breach.amount;
    write!(text, "{number},{name},{kind},{article},")?;
    writeln!(text, "{moment},{since},{amount}")
}

/// The code of a rule.
pub(crate) fn code_of_kind(kind: Kind) -> &'static str
    ensures { result.now ≡ kind_code kind }
{
    match kind {
        Kind::B1 => "B1",
        Kind::B2 => "B2",
        Kind::B3 => "B3",
        Kind::B4 => "B4",
        Kind::B5 => "B5",
        Kind::B6 => "B6",
        Kind::B7 => "B7",
        Kind::B8 => "B8",
        Kind::B9 => "B9",
        Kind::B10 => "B10",
    }
}

/// The Article that states a rule.
fn article_of_kind(kind: Kind) -> &'static str
    ensures { result.now ≡ article kind }
{
    match kind {
        Kind::B1 => "Art 7",
        Kind::B2 => "Art 8(2)",
        Kind::B3 => "Art 8(4)",
        Kind::B4 | Kind::B5 => "Art 6(1)",
        Kind::B6 => "Art 6(2)",
        Kind::B7 => "Art 6(3)",
        Kind::B8 | Kind::B9 => "Art 8(6)",
        Kind::B10 => "Art 8(6b)",
    }
}
