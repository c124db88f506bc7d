ghost use Rattle.std.specs.Prelude.{◌≡◌, ℕ, ◌++◌, IfOk, OnOk, MatchResult};
ghost use Rattle.tacho_time.specs.Spans.{Gives, IsCanonicalOf};
ghost use Rattle.tacho_time.specs.Merge.{IsFirstFault};
ghost use Rattle.tacho_line.specs.Gains.{span_between};
ghost use Rattle.tacho_line.specs.Line.{IsWithin, Holds};
ghost use Rattle.tacho_state.specs.Disjoint.{AreDisjoint, outside};

use std::alloc::{AllocError, Global};
use tacho_line::Line;
use tacho_time::{Mark, Minute, Span, SpanFault, canonical_spans};

/// Makes the line of what spans in any order give, or returns the least minute to which they give two marks.
pub fn line_of(alloc: Global, spans: &[Span]) -> Result<Line, SpanFault>
    ensures { MatchResult result (λ line. IsCanonicalOf (Gives spans.now) line) (IsFirstFault (Gives spans.now)) }
{
    let runs = canonical_spans(alloc, spans)?;
    let mut line = Line::empty(alloc);
    line.add(&runs)?;
    Ok(line)
}

/// Returns the parts, outside a range, of spans that overlap it.
pub fn outside_of(
    alloc: Global,
    spans: &[Span],
    start: Minute,
    past: Minute,
) -> Result<Vec<Span>, AllocError>
    ensures { IfOk result (λ parts. parts.items ≡ outside start past spans.now) }
{
    let mut parts = Vec::new(alloc);
    for span in spans {
        add_span(&mut parts, span.start, start, span.mark)?;
        add_span(&mut parts, past, span.past, span.mark)?;
    }
    Ok(parts)
}

/// Adds the span between two minutes, unless it is empty.
fn add_span(
    parts: &mut Vec<Span>,
    start: Minute,
    past: Minute,
    mark: Mark,
) -> Result<(), AllocError>
    ensures { OnOk result (parts.new.items ≡ parts.old.items ++ span_between mark start past) }
{
    if start < past {
        parts.push(Span { start, past, mark })?;
    }
    Ok(())
}

/// Returns what card spans and entries give in a range, or the least minute to which they give two marks.
pub fn inside_of(
    alloc: Global,
    cards: &[Span],
    entries: &[Span],
    start: Minute,
    past: Minute,
) -> Result<Vec<Span>, SpanFault>
    ensures { MatchResult result (λ inside. IsCanonicalOf (λ m k. IsWithin start past m × Gives (cards.now ++ entries.now) m k) inside.items)
        (IsFirstFault (Gives (cards.now ++ entries.now))) }
{
    let mut all = Vec::new(alloc);
    all.extend_from_slice(cards)?;
    all.extend_from_slice(entries)?;
    let line = line_of(alloc, &all)?;
    Ok(line.slice(alloc, start, past)?)
}
