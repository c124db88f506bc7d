ghost use Rattle.std.specs.Prelude.{◌≡◌, ◌+◌, ◌-◌, ◌<◌, ◌≤◌, [], ◌∷◌, ◌++◌, All, AllPairs, IfOk, drop, length, take};
ghost use Rattle.tacho_law.specs.Line.{line_of, IsExamined};
ghost use Rattle.tacho_evidence.specs.Driven.{total_of, AreDriven};

use std::alloc::{AllocError, Global};
use tacho_law::Run;
use tacho_time::{Activity, Span};

/// A driving span, and the driving from the beginning of its range to its end.
#[derive(Clone, Copy)]
pub struct DrivenSpan {
    pub run: Run,
    /// In minutes.
    pub total: u32,
}

/// Returns how many of the first spans have ended by a minute. No span after them has.
fn ended_by(spans: &[Span], minute: u32) -> usize
    requires { AllPairs (λ a b. a.past ≤ b.past) spans.now }
    ensures within { result ≤ length spans.now }
    ensures ended { All (λ span. span.past ≤ minute) (take result spans.now) }
    ensures later { All (λ span. minute < span.past) (drop result spans.now) }
{
    spans.partition_point(|span| span.past.number() <= minute)
}

/// Returns the last total.
fn last_total(driven: &[DrivenSpan]) -> u32
    ensures { result ≡ total_of 0 driven.now }
{
    driven.last().map_or(0, |span| span.total)
}

/// Appends the driving span from `start` to before `past` with its total, if there is a minute in it.
fn append(driven: &mut Vec<DrivenSpan>, start: u32, past: u32) -> Result<(), AllocError>
    requires { total_of 0 driven.old.items ≤ start }
    ensures none { past ≤ start → driven.new.items ≡ driven.old.items }
    ensures some { start < past → IfOk result (λ _. driven.new.items ≡ driven.old.items
        ++ record { run = record { start = start; past = past }; total = total_of 0 driven.old.items + (past - start) } ∷ []) }
{
    if past <= start {
        return Ok(());
    }
    driven.push(DrivenSpan {
        run: Run { start, past },
        total: last_total(driven) + (past - start),
    })?;
    Ok(())
}

/// Lists the driving spans of a range of the examined line, in order of time. `spans` are the line's, from its base to its horizon; the range
/// goes from a minute to before another.
pub(crate) fn driving_spans(
    alloc: Global,
    spans: &[Span],
    base: u32,
    past: u32,
    from: u32,
    to: u32,
) -> Result<Vec<DrivenSpan>, AllocError>
    requires { IsExamined spans.now base past }
    ensures { IfOk result (λ driven. AreDriven (line_of spans.now) from to driven.items) }
{
    let later = &spans[ended_by(spans, from)..];
    let mut driven = Vec::new(alloc);
    // From here to the next span there is only driving. Before the base nothing is driven.
    let mut start = from.max(base);
    for span in later {
        if to <= span.start.number() {
            break;
        }
        if span.mark.activity != Activity::Drive {
            append(&mut driven, start, span.start.number())?;
            start = span.past.number();
        }
    }
    append(&mut driven, start, past.min(to))?;
    Ok(driven)
}
