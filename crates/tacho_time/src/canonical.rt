ghost use Rattle.std.specs.Prelude.{◌≡◌, ◌++◌, ◌∷◌, [], filter, IfOk, IsTrue, OnOk, MatchResult, Ok};
ghost use Rattle.tacho_time.specs.Merge.{merge_spans, IsMergeFault, is_apart, extend_to, IsFirstFault, is_full};
ghost use Rattle.tacho_time.specs.Spans.{Gives, IsCanonical, IsCanonicalOf, GiveSame, StartsFrom};

use crate::minute::Minute;
use crate::span::Span;
use std::alloc::{AllocError, Global};

/// Why spans have no canonical list.
#[derive(Clone, Copy, Debug, PartialEq, Eq)]
pub enum SpanFault {
    /// The least minute with two marks.
    Contradiction(Minute),
    /// Out of memory.
    Memory,
}

impl From<AllocError> for SpanFault {
    ghost use Rattle.std.specs.Prelude.{◌≡◌};
    ghost use Rattle.tacho_time.specs.declared.canonical.SpanFault.TheVariants.{Memory};

    ghost from_gives = { λ _ e. e ≡ Memory };

    fn from(_: AllocError) -> SpanFault {
        SpanFault::Memory
    }
}

/// Merges spans in order of their starts into runs.
fn merge(alloc: Global, spans: &[Span]) -> Result<Vec<Span>, SpanFault>
    ensures { MatchResult result (λ runs. merge_spans spans.now ≡ Ok runs.items) (λ fault. IsMergeFault fault (merge_spans spans.now)) }
{
    let mut runs = Vec::with_capacity(alloc, spans.len())?;
    let Some((first, others)) = spans.split_first() else {
        return Ok(runs);
    };
    let mut last = *first;
    for span in others {
        if starts_anew(&last, span) {
            add(&mut runs, last)?;
            last = *span;
        } else if !span.mark.is_same(last.mark) {
            return Err(SpanFault::Contradiction(span.start));
        } else {
            last = stretch(&last, span);
        }
    }
    add(&mut runs, last)?;
    Ok(runs)
}

/// Appends a run.
fn add(runs: &mut Vec<Span>, run: Span) -> Result<(), AllocError>
    ensures { OnOk result (runs.new.items ≡ runs.old.items ++ run ∷ []) }
{
    runs.push(run)?;
    Ok(())
}

/// Returns true if a span doesn't join the last run.
fn starts_anew(last: &Span, span: &Span) -> bool
    ensures { result ≡ is_apart last.now span.now }
{
    last.past < span.start || (last.past == span.start && !span.mark.is_same(last.mark))
}

/// Extends the run to the end of a span.
fn stretch(last: &Span, span: &Span) -> Span
    ensures { result ≡ extend_to last.now span.now }
{
    Span {
        start: last.start,
        past: last.past.max(span.past),
        mark: last.mark,
    }
}

/// Returns the canonical list of spans, none of which is empty or starts before its predecessor.
fn merge_ordered(alloc: Global, spans: &[Span]) -> Result<Vec<Span>, SpanFault>
    requires { StartsFrom 0 spans.now }
    ensures { MatchResult result (λ runs. IsCanonical runs.items × GiveSame runs.items spans.now) (IsFirstFault (Gives spans.now)) }
{
    merge(alloc, spans)
}

/// Returns the canonical list of what spans give: in order, disjoint, none empty; two that touch have different marks. The spans may come
/// in any order, overlap, or be empty.
pub fn canonical_spans(alloc: Global, spans: &[Span]) -> Result<Vec<Span>, SpanFault>
    ensures { MatchResult result (λ runs. IsCanonicalOf (Gives spans.now) runs.items) (IsFirstFault (Gives spans.now)) }
{
    if are_in_order(spans) {
        merge_ordered(alloc, spans)
    } else {
        merge_in_order(alloc, spans)
    }
}

/// Returns true if no span is empty and none starts before its predecessor. Most spans of a card are like that.
fn are_in_order(spans: &[Span]) -> bool
    ensures { IsTrue result → StartsFrom 0 spans.now }
{
    let mut from = 0;
    for span in spans {
        if span.start.number() < from || span.past <= span.start {
            return false;
        }
        from = span.start.number();
    }
    true
}

/// Returns the canonical list of spans in any order.
fn merge_in_order(alloc: Global, spans: &[Span]) -> Result<Vec<Span>, SpanFault>
    ensures { MatchResult result (λ runs. IsCanonicalOf (Gives spans.now) runs.items) (IsFirstFault (Gives spans.now)) }
{
    let mut full = full_spans(alloc, spans)?;
    full.sort_unstable_by_key(|span| span.start.number());
    merge_ordered(alloc, &full)
}

/// Returns the spans that aren't empty.
fn full_spans(alloc: Global, spans: &[Span]) -> Result<Vec<Span>, AllocError>
    ensures { IfOk result (λ full. full.items ≡ filter is_full spans.now) }
{
    spans
        .iter()
        .filter(|span| span.start < span.past)
        .copied()
        .collect(alloc)
}
