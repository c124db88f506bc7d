ghost use Rattle.std.specs.Prelude.{◌≡◌};
ghost use Rattle.tacho_time.specs.Spans.{IsCanonical};
ghost use Rattle.tacho_line.specs.Line.{mark_at as mark_of};
ghost use Rattle.tacho_line.specs.Search.{from_minute as after_of, before as before_of, overlap as overlap_of};

use tacho_time::{Mark, Minute, Span};

/// Returns the spans that end after a minute.
pub(crate) fn behind(spans: &[Span], minute: Minute) -> &[Span]
    requires { IsCanonical spans.now }
    ensures { result.now ≡ after_of minute spans.now }
{
    let first = spans.partition_point(|span| span.past <= minute);
    &spans[first..]
}

/// Returns the spans that start before a minute.
pub(crate) fn before(spans: &[Span], minute: Minute) -> &[Span]
    requires { IsCanonical spans.now }
    ensures { result.now ≡ before_of minute spans.now }
{
    let past = spans.partition_point(|span| span.start < minute);
    &spans[..past]
}

/// Returns the spans that overlap the range from `start` to before `past`.
pub(crate) fn overlap(spans: &[Span], start: Minute, past: Minute) -> &[Span]
    requires { IsCanonical spans.now }
    ensures { result.now ≡ overlap_of spans.now start past }
{
    before(behind(spans, start), past)
}

/// Returns the mark that spans in order give a minute.
pub(crate) fn mark_at(spans: &[Span], minute: Minute) -> Option<Mark>
    requires { IsCanonical spans.now }
    ensures { result ≡ mark_of spans.now minute }
{
    let [span, ..] = behind(spans, minute) else {
        return None;
    };
    if span.start <= minute {
        Some(span.mark)
    } else {
        None
    }
}
