ghost use Rattle.std.specs.Prelude.{◌≡◌, ℕ, List, map};
ghost use Rattle.tacho_time.specs.declared.span.Span.{Span as SpanValue};
ghost use Rattle.tacho_stretches.specs.Start.{IsEndOfHeld};
ghost use Rattle.tacho_stretches.specs.Stretches.{judged_of, AreStretches};

use crate::stretch::Stretch;
use tacho_time::Minute;

/// Returns the range that stretches cover: from the first stretch's Monday to the end of what is held. Returns 0 and 0 if there are none.
pub fn range_of(stretches: &[Stretch]) -> (Minute, Minute)
    ensures { (line : List SpanValue) (base end : ℕ) → AreStretches line base (map judged_of stretches.now) → IsEndOfHeld line base end
        → (result.0 ≡ base) × (result.1 ≡ end) }
{
    let (Some(first), Some(last)) = (stretches.first(), stretches.last()) else {
        return (Minute::new(0), Minute::new(0));
    };
    (
        first.monday,
        last.unseen.unwrap_or(last.report.horizon.minute),
    )
}
