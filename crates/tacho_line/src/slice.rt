ghost use Rattle.std.specs.Prelude.{◌≡◌, ◌<◌, IfOk, map};
ghost use Rattle.tacho_time.specs.Spans.{IsCanonical, IsCanonicalOf};
ghost use Rattle.tacho_line.specs.Line.{HoldsWithin};
ghost use Rattle.tacho_line.specs.Search.{overlap as overlap_of};
ghost use Rattle.tacho_line.specs.Walk.{cut_to};

use crate::search::overlap;
use std::alloc::{AllocError, Global};
use tacho_time::{Minute, Span};

/// Returns the spans, from spans in order, that overlap a range. The first and the last may extend beyond it.
pub(crate) fn meeting(spans: &[Span], start: Minute, past: Minute) -> &[Span]
    requires { IsCanonical spans.now }
    ensures { IsCanonicalOf (HoldsWithin spans.now start past) (map (cut_to start past) result.now) }
{
    if past <= start {
        return &spans[..0];
    }
    overlap(spans, start, past)
}

/// Returns what spans in order give from `start` to before `past`.
pub(crate) fn slice_of(
    alloc: Global,
    spans: &[Span],
    start: Minute,
    past: Minute,
) -> Result<Vec<Span>, AllocError>
    requires { IsCanonical spans.now }
    ensures { IfOk result (λ within. IsCanonicalOf (HoldsWithin spans.now start past) within.items) }
{
    cut_all(alloc, meeting(spans, start, past), start, past)
}

/// Cuts spans to a range.
pub(crate) fn cut_all(
    alloc: Global,
    spans: &[Span],
    start: Minute,
    past: Minute,
) -> Result<Vec<Span>, AllocError>
    ensures { IfOk result (λ parts. parts.items ≡ map (cut_to start past) spans.now) }
{
    spans
        .iter()
        .map(|span| cut(span, start, past))
        .collect(alloc)
}

/// Cuts a span to the range from `start` to before `past`. If the span doesn't overlap the range, the result has no minute.
pub fn cut(span: &Span, start: Minute, past: Minute) -> Span
    ensures { result ≡ cut_to start past span.now }
{
    Span {
        start: span.start.max(start),
        past: span.past.min(past),
        mark: span.mark,
    }
}
