ghost use Rattle.std.specs.Prelude.{◌≡◌, ◌++◌, ◌∷◌, [], ◌≤◌, length, slice_range, take, drop, IfOk, OnOk, OnErr};
ghost use Rattle.tacho_time.specs.Spans.{IsCanonical, IsCanonicalOf, SamePairs};
ghost use Rattle.tacho_line.specs.Line.{Holds, Together, AreNotHeld};
ghost use Rattle.tacho_line.specs.Search.{before};
ghost use Rattle.tacho_line.specs.Join.{ShareNone, EitherGives, ending_before, ending_from, starting_by, starting_after, in_order as in_order_of, starting_from, touches as touches_with, join_spans as joined_of};

use std::alloc::{AllocError, Global};
use tacho_time::{Minute, Span};

/// Adds canonical spans to a canonical list that doesn't hold any of their minutes.
pub(crate) fn add_to(line: &mut Vec<Span>, spans: &[Span]) -> Result<(), AllocError>
    requires line { IsCanonical line.old.items }
    requires canonical { IsCanonical spans.now }
    requires new { AreNotHeld line.old.items spans.now }
    ensures held { OnOk result (SamePairs (Holds line.new.items) (Together line.old.items spans.now)) }
    ensures canonical { IsCanonical line.new.items }
    ensures err { OnErr result (line.new.items ≡ line.old.items) }
{
    let (Some(first), Some(last)) = (spans.first(), spans.last()) else {
        return Ok(());
    };
    let (start, past) = places_around(line, first.start, last.past);
    let merged = merge(*line.allocator(), &line[start..past], spans)?;
    line.splice(start..past, merged)?;
    Ok(())
}

/// Returns the places of the spans that overlap or touch a range: that of the first one, and that after the last one.
fn places_around(line: &[Span], start: Minute, past: Minute) -> (usize, usize)
    requires { IsCanonical line.now }
    ensures within { (result.0 ≤ result.1) × (result.1 ≤ length line.now) }
    ensures front { take result.0 line.now ≡ ending_before start line.now }
    ensures middle { slice_range line.now result.0 result.1 ≡ starting_by past (ending_from start line.now) }
    ensures back { drop result.1 line.now ≡ starting_after past (ending_from start line.now) }
{
    let first = line.partition_point(|span| span.past < start);
    let count = line[first..].partition_point(|span| span.start <= past);
    (first, first + count)
}

/// Returns the canonical list of what two canonical lists give. The lists have no minute in common.
fn merge(alloc: Global, held: &[Span], spans: &[Span]) -> Result<Vec<Span>, AllocError>
    requires held { IsCanonical held.now }
    requires spans { IsCanonical spans.now }
    requires apart { ShareNone held.now spans.now }
    ensures { IfOk result (λ merged. IsCanonicalOf (EitherGives held.now spans.now) merged.items) }
{
    let ordered = in_order(alloc, held, spans)?;
    joined(alloc, &ordered)
}

/// Returns the spans of both lists in the order of their starts.
fn in_order(alloc: Global, held: &[Span], spans: &[Span]) -> Result<Vec<Span>, AllocError>
    requires { IsCanonical held.now }
    ensures { IfOk result (λ ordered. ordered.items ≡ in_order_of held.now spans.now) }
{
    let mut ordered = Vec::new(alloc);
    let mut left = held;
    for span in spans {
        let (earlier, later) = split_at_start(left, span.start);
        ordered.extend_from_slice(earlier)?;
        ordered.push(*span)?;
        left = later;
    }
    ordered.extend_from_slice(left)?;
    Ok(ordered)
}

/// Splits spans into those that start before a minute and the others.
fn split_at_start(spans: &[Span], minute: Minute) -> (&[Span], &[Span])
    requires { IsCanonical spans.now }
    ensures earlier { result.0.now ≡ before minute spans.now }
    ensures later { result.1.now ≡ starting_from minute spans.now }
    ensures canonical { IsCanonical result.1.now }
{
    spans.split_at(spans.partition_point(|span| span.start < minute))
}

/// Joins spans that touch and have the same mark.
fn joined(alloc: Global, spans: &[Span]) -> Result<Vec<Span>, AllocError>
    ensures { IfOk result (λ runs. runs.items ≡ joined_of spans.now) }
{
    let mut runs = Vec::new(alloc);
    let Some((first, others)) = spans.split_first() else {
        return Ok(runs);
    };
    let mut last = *first;
    for span in others {
        if touches(&last, span) {
            last.past = span.past;
        } else {
            runs.push(last)?;
            last = *span;
        }
    }
    runs.push(last)?;
    Ok(runs)
}

/// Returns true if a span starts where the last one ends and has the same mark.
fn touches(last: &Span, span: &Span) -> bool
    ensures { result ≡ touches_with last.now span.now }
{
    last.past == span.start && span.mark.is_same(last.mark)
}
