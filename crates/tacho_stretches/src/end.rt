ghost use Rattle.tacho_time.specs.Spans.{IsCanonical};
ghost use Rattle.tacho_stretches.specs.Start.{IsEndOfHeld};

use tacho_time::{Minute, Span};

/// Returns the end of what spans in order hold: the past of the last one, or the base if that is later.
pub(crate) fn end_of_held(spans: &[Span], base: Minute) -> Minute
    requires { IsCanonical spans.now }
    ensures { IsEndOfHeld spans.now base result }
{
    let mut end = base;
    for span in spans {
        end = end.max(span.past);
    }
    end
}
