ghost use Rattle.std.specs.Prelude.{◌≡◌, ◌++◌, ◌∷◌, IfOk, OnOk, MatchResult, position};
ghost use Rattle.tacho_time.specs.Spans.{Gives, IsCanonical, IsFirstConflict};
ghost use Rattle.tacho_time.specs.Merge.{IsFirstFault};
ghost use Rattle.tacho_line.specs.Line.{is_empty, Together, AreGains, IsGainFault};
ghost use Rattle.tacho_line.specs.Gains.{conflict_in, conflict_of, span_between, new_from, lacking_of, IsConflictOf};

use crate::line::LineFault;
use crate::search::overlap;
use crate::slice::cut_all;
use std::alloc::{AllocError, Global};
use tacho_time::{Mark, Minute, Span, SpanFault, canonical_spans};

/// Returns the canonical list of what spans give that a line doesn't hold, or why there is none.
pub(crate) fn gains_of(alloc: Global, line: &[Span], spans: &[Span]) -> Result<Vec<Span>, LineFault>
    requires { IsCanonical line.now }
    ensures { MatchResult result (λ gains. AreGains line.now spans.now gains.items) (IsGainFault line.now spans.now) }
{
    if let Some(place) = first_empty(spans) {
        return Err(LineFault::EmptySpan(place));
    }
    let runs = match canonical_spans(alloc, spans) {
        Ok(runs) => runs,
        Err(fault) => return Err(fault_with(alloc, line, spans, fault)),
    };
    if let Some(minute) = first_conflict(line, &runs) {
        return Err(LineFault::Contradiction(minute));
    }
    Ok(lacking(alloc, line, &runs)?)
}

/// Returns the place of the first empty span.
fn first_empty(spans: &[Span]) -> Option<usize>
    ensures { result ≡ position is_empty spans.now }
{
    spans.iter().position(|span| span.past <= span.start)
}

/// Returns the fault of a line and spans together, if the spans alone have a fault.
fn fault_with(alloc: Global, line: &[Span], spans: &[Span], fault: SpanFault) -> LineFault
    requires line { IsCanonical line.now }
    requires fault { IsFirstFault (Gives spans.now) fault }
    ensures { IsConflictOf (Together line.now spans.now) result }
{
    match fault {
        SpanFault::Contradiction(minute) => match least_conflict(alloc, line, spans, minute) {
            Ok(least) => LineFault::Contradiction(least),
            Err(fault) => fault,
        },
        SpanFault::Memory => LineFault::Memory,
    }
}

/// Returns the least minute for which a line and spans together have two marks. `minute` is the least one for the spans alone.
fn least_conflict(
    alloc: Global,
    line: &[Span],
    spans: &[Span],
    minute: Minute,
) -> Result<Minute, LineFault>
    requires line { IsCanonical line.now }
    requires conflict { IsFirstConflict (Gives spans.now) minute }
    ensures { MatchResult result (IsFirstConflict (Together line.now spans.now)) (IsConflictOf (Together line.now spans.now)) }
{
    let early = cut_all(alloc, spans, Minute::new(0), minute)?;
    let runs = canonical_spans(alloc, &early)?;
    Ok(first_conflict(line, &runs).unwrap_or(minute))
}

/// Returns the first minute for which a line and runs have two marks.
fn first_conflict(line: &[Span], runs: &[Span]) -> Option<Minute>
    requires { IsCanonical line.now }
    ensures { result ≡ conflict_of line.now runs.now }
{
    for run in runs {
        if let Some(minute) = conflict_with(overlap(line, run.start, run.past), run) {
            return Some(minute);
        }
    }
    None
}

/// Returns the first minute of a run for which spans that overlap it have another mark.
fn conflict_with(held: &[Span], run: &Span) -> Option<Minute>
    ensures { result ≡ conflict_in run.now held.now }
{
    for span in held {
        if !span.mark.is_same(run.mark) {
            return Some(span.start.max(run.start));
        }
    }
    None
}

/// Returns the parts of runs that held spans don't cover.
fn lacking(alloc: Global, held: &[Span], runs: &[Span]) -> Result<Vec<Span>, AllocError>
    requires { IsCanonical held.now }
    ensures { IfOk result (λ gains. gains.items ≡ lacking_of held.now runs.now) }
{
    let mut gains = Vec::new(alloc);
    for run in runs {
        add_new(&mut gains, overlap(held, run.start, run.past), run)?;
    }
    Ok(gains)
}

/// Appends the parts of a run that the held spans don't cover. They all overlap the run.
fn add_new(gains: &mut Vec<Span>, held: &[Span], run: &Span) -> Result<(), AllocError>
    ensures { OnOk result (gains.new.items ≡ gains.old.items ++ new_from run.now.mark run.now.start run.now.past held.now) }
{
    let mut from = run.start;
    for span in held {
        add_span(gains, from, span.start, run.mark)?;
        from = span.past;
    }
    add_span(gains, from, run.past, run.mark)
}

/// Appends the span between two minutes, unless it is empty.
fn add_span(
    gains: &mut Vec<Span>,
    start: Minute,
    past: Minute,
    mark: Mark,
) -> Result<(), AllocError>
    ensures { OnOk result (gains.new.items ≡ gains.old.items ++ span_between mark start past) }
{
    if start < past {
        gains.push(Span { start, past, mark })?;
    }
    Ok(())
}
