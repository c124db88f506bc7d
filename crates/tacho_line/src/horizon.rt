ghost use Rattle.std.specs.Prelude.{◌≡◌};
ghost use Rattle.tacho_time.specs.Spans.{IsCanonical};
ghost use Rattle.tacho_line.specs.Line.{IsHorizon};
ghost use Rattle.tacho_line.specs.Walk.{horizon_from};

use crate::search::behind;
use tacho_time::{Minute, Span};

/// Why the examination of a line ends.
#[derive(Clone, Copy, Debug, PartialEq, Eq)]
pub enum Cause {
    /// The minute isn't held.
    Unknown,
    /// The minute is held and is crew.
    Crew,
}

/// The first minute that isn't held or is crew.
#[derive(Clone, Copy, Debug, PartialEq, Eq)]
pub struct Horizon {
    /// The minute.
    pub minute: Minute,
    /// Whether the minute isn't held or is crew.
    pub cause: Cause,
}

/// Returns the first minute from the base on that spans in order don't hold, or that is crew.
pub(crate) fn horizon_of(spans: &[Span], base: Minute) -> Horizon
    requires { IsCanonical spans.now }
    ensures { IsHorizon spans.now base result }
{
    first_break(behind(spans, base), base)
}

/// Likewise for spans that all end after the base.
fn first_break(spans: &[Span], base: Minute) -> Horizon
    ensures { result ≡ horizon_from base spans.now }
{
    let mut minute = base;
    for span in spans {
        if minute < span.start {
            return unknown(minute);
        }
        if span.mark.crew {
            return Horizon {
                minute,
                cause: Cause::Crew,
            };
        }
        minute = span.past;
    }
    unknown(minute)
}

/// Returns a horizon at a minute that isn't held.
fn unknown(minute: Minute) -> Horizon
    ensures { result ≡ record { minute = minute; cause = Cause.Unknown } }
{
    Horizon {
        minute,
        cause: Cause::Unknown,
    }
}
