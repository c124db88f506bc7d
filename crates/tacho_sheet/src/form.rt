ghost use Rattle.std.specs.Prelude.{◌≡◌, ◌<◌, ◌++◌, All, codes, flat_map, IfOk, List, OnOk, string_bytes};
ghost use Rattle.tacho_line.specs.declared.gap.Gap.{Gap as GapValue};
ghost use Rattle.tacho_sheet.specs.Form.{form_row, AreCut, AreRows, IsForm};

use std::alloc::{AllocError, Global};
use tacho_line::{Gap, Line};
use tacho_time::Minute;

/// The most minutes that a row of hours can have: 366 days.
const LONGEST: u32 = 527_040;

/// Writes the form for gaps: the rows of each maximal range of minutes from the base to the end that the line doesn't hold. Each range is
/// cut into rows of at most 366 days.
pub fn form_text(
    alloc: Global,
    line: &Line,
    base: Minute,
    end: Minute,
) -> Result<String, AllocError>
    ensures { IfOk result (λ text. IsForm line.now base end (string_bytes text)) }
{
    let gaps = line.gaps(alloc, base, end)?;
    form_rows(alloc, &gaps)
}

/// Writes the head, and the rows of each gap.
fn form_rows(alloc: Global, gaps: &[Gap]) -> Result<String, AllocError>
    ensures { All (λ (gap : GapValue). gap.start < gap.past) gaps.now → IfOk result (λ text. (rows : List GapValue) × AreRows gaps.now rows
        × (string_bytes text ≡ codes "start,past,activity,author,note\n" ++ flat_map form_row rows)) }
{
    let mut text = String::from_str(alloc, "start,past,activity,author,note\n")?;
    for gap in gaps {
        push_rows(&mut text, gap)?;
    }
    Ok(text)
}

/// Appends the rows of a gap: each has the most minutes, and the last has the rest.
fn push_rows(text: &mut String, gap: &Gap) -> Result<(), AllocError>
    ensures { OnOk result (gap.now.start < gap.now.past → (rows : List GapValue) × AreCut gap.now.start gap.now.past rows
        × (string_bytes text.new ≡ string_bytes text.old ++ flat_map form_row rows)) }
{
    let past = gap.past;
    let mut start = gap.start;
    'cut: while past.number().saturating_sub(start.number()) > LONGEST {
        let next = Minute::new(start.number() + LONGEST);
        push_row(text, start, next)?;
        start = next;
    }
    push_row(text, start, past)
}

/// Appends the row of the minutes from `start` to before `past`, with empty activity, author and note.
fn push_row(text: &mut String, start: Minute, past: Minute) -> Result<(), AllocError>
    ensures { OnOk result (string_bytes text.new ≡ string_bytes text.old ++ form_row (record { start = start; past = past })) }
{
    writeln!(text, "{start},{past},,,")
}
