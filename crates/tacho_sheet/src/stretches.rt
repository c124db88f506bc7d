ghost use Rattle.std.specs.Prelude.{◌≡◌, ◌++◌, IfOk, OnOk, map, string_bytes};
ghost use Rattle.tacho_stretches.specs.Stretches.{judged_of};
ghost use Rattle.tacho_sheet.specs.Stretches.{block, debt_text as text_of_debts, stretch_text as text_of_stretches, unseen_line};

use crate::reports::{breach_text, owed_text};
use std::alloc::{AllocError, Global};
use tacho_stretches::Stretch;
use tacho_time::{Minute, write_day};

/// Writes stretches: for each its Monday, its breaches, its horizon, and what isn't examined after it.
pub fn stretch_text(alloc: Global, stretches: &[Stretch]) -> Result<String, AllocError>
    ensures { IfOk result (λ text. string_bytes text ≡ text_of_stretches (map judged_of stretches.now)) }
{
    let mut text = String::new(alloc);
    for stretch in stretches {
        let report = breach_text(alloc, &stretch.report)?;
        push_block(&mut text, stretch, &report)?;
    }
    Ok(text)
}

/// Writes the debts of stretches: for each stretch its Monday, its debts as they are at its horizon, its horizon, and what isn't examined
/// after it.
pub fn debt_text(alloc: Global, stretches: &[Stretch]) -> Result<String, AllocError>
    ensures { IfOk result (λ text. string_bytes text ≡ text_of_debts (map judged_of stretches.now)) }
{
    let mut text = String::new(alloc);
    for stretch in stretches {
        let report = owed_text(alloc, &stretch.report)?;
        push_block(&mut text, stretch, &report)?;
    }
    Ok(text)
}

/// Appends a stretch: its Monday, the text of its report, and what isn't examined after it.
pub(crate) fn push_block(
    text: &mut String,
    stretch: &Stretch,
    report: &str,
) -> Result<(), AllocError>
    ensures { OnOk result (string_bytes text.new ≡ string_bytes text.old ++ block report.now (judged_of stretch.now)) }
{
    text.push_str("FROM ")?;
    write_day(text, stretch.monday.day())?;
    text.push_str("\n")?;
    text.push_str(report)?;
    push_unseen(text, stretch.report.horizon.minute, stretch.unseen)
}

/// Appends the line of the minutes after a horizon that aren't examined, if there are any.
fn push_unseen(text: &mut String, horizon: Minute, unseen: Option<Minute>) -> Result<(), AllocError>
    ensures { OnOk result (string_bytes text.new ≡ string_bytes text.old ++ unseen_line horizon unseen) }
{
    if let Some(past) = unseen {
        writeln!(text, "NOT EXAMINED {horizon} {past}")?;
    }
    Ok(())
}
