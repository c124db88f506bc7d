ghost use Rattle.std.specs.Prelude.{◌≡◌, ◌++◌, IfOk, OnOk};
ghost use Rattle.tacho_time.specs.Spans.{IsCanonical};
ghost use Rattle.tacho_line.specs.Line.{AreGaps};
ghost use Rattle.tacho_line.specs.Walk.{gap_between, gaps_from};

use crate::search::overlap;
use std::alloc::{AllocError, Global};
use tacho_time::{Minute, Span};

/// The minutes from `start` to before `past`, none of which a line holds.
#[derive(Clone, Copy, Debug, PartialEq, Eq)]
pub struct Gap {
    /// The gap's first minute.
    pub start: Minute,
    /// The first minute after the gap.
    pub past: Minute,
}

/// Returns the gaps of spans in order, within a range.
pub(crate) fn gaps_of(
    alloc: Global,
    spans: &[Span],
    start: Minute,
    past: Minute,
) -> Result<Vec<Gap>, AllocError>
    requires { IsCanonical spans.now }
    ensures { IfOk result (λ gaps. AreGaps spans.now start past gaps.items) }
{
    gaps_between(alloc, overlap(spans, start, past), start, past)
}

/// Likewise for spans that all overlap the range.
fn gaps_between(
    alloc: Global,
    spans: &[Span],
    start: Minute,
    past: Minute,
) -> Result<Vec<Gap>, AllocError>
    ensures { IfOk result (λ gaps. gaps.items ≡ gaps_from start past spans.now) }
{
    let mut gaps = Vec::new(alloc);
    let mut from = start;
    for span in spans {
        add_gap(&mut gaps, from, span.start)?;
        from = span.past;
    }
    add_gap(&mut gaps, from, past)?;
    Ok(gaps)
}

/// Appends the gap between two minutes, if it isn't empty.
fn add_gap(gaps: &mut Vec<Gap>, start: Minute, past: Minute) -> Result<(), AllocError>
    ensures { OnOk result (gaps.new.items ≡ gaps.old.items ++ gap_between start past) }
{
    if start < past {
        gaps.push(Gap { start, past })?;
    }
    Ok(())
}
