ghost use Rattle.std.specs.Prelude.{◌≡◌, [], map, OnOk, OnErr, IfOk, MatchResult};
ghost use Rattle.tacho_time.specs.Spans.{Gives, IsCanonical, IsCanonicalOf, SamePairs};
ghost use Rattle.tacho_line.specs.Line.{mark_at, Holds, Together, AreGains, IsGainFault, AreNotHeld, AreGaps, HoldsWithin, IsHorizon};
ghost use Rattle.tacho_line.specs.Walk.{cut_to};

use crate::gains::gains_of;
use crate::gap::{Gap, gaps_of};
use crate::horizon::{Horizon, horizon_of};
use crate::merge::add_to;
use crate::search;
use crate::slice::{meeting, slice_of};
use std::alloc::{AllocError, Global};
use std::marker::Model;
use tacho_time::{Mark, Minute, Span, SpanFault};
use thiserror::Error;

/// Why spans can't be added to a line.
#[derive(Clone, Copy, Debug, PartialEq, Eq, Error)]
pub enum LineFault {
    /// L1: the least minute for which the line and the spans together have two marks.
    #[error("two marks at {0}")]
    Contradiction(Minute),
    /// L2: the place of the first empty span in the list, counted from 0.
    #[error("the span at {0} is empty")]
    EmptySpan(usize),
    /// Out of memory.
    #[error("no memory")]
    Memory,
}

impl From<AllocError> for LineFault {
    ghost use Rattle.std.specs.Prelude.{◌≡◌};
    ghost use Rattle.tacho_line.specs.declared.line.LineFault.TheVariants.{Memory as NoMemory};

    ghost from_gives = { λ _ e. e ≡ NoMemory };

    fn from(_: AllocError) -> LineFault {
        LineFault::Memory
    }
}

impl From<SpanFault> for LineFault {
    ghost use Rattle.std.specs.Prelude.{◌≡◌};
    ghost use Rattle.tacho_line.specs.Gains.{line_fault};

    ghost from_gives = { λ fault e. e ≡ line_fault fault };

    fn from(fault: SpanFault) -> LineFault {
        match fault {
            SpanFault::Contradiction(minute) => LineFault::Contradiction(minute),
            SpanFault::Memory => LineFault::Memory,
        }
    }
}

/// A driver's timeline: a finite map from minutes to marks, kept as the canonical list of its spans. Minutes are UTC, and a span has the
/// minutes from `start` to before `past`.
#[derive(Drop)]
pub struct Line {
    spans: Vec<Span>,
}

impl Model for Line {
    ghost use Rattle.std.specs.Prelude.{List};
    ghost use Rattle.tacho_time.specs.declared.span.Span.{Span as Stretch};
    ghost use Rattle.tacho_time.specs.Spans.{IsCanonical};

    ghost Value = { List Stretch };

    ghost view = { λ line. line.spans.items };

    ghost invariant = { λ line. IsCanonical line.spans.items };
}

impl Line {
    /// Returns a line that holds nothing. The line keeps the allocator for later, and allocates no memory yet.
    pub fn empty(alloc: Global) -> Line
        ensures { result ≡ [] }
    {
        Line {
            spans: Vec::new(alloc),
        }
    }

    /// Returns the line's spans as a canonical list: in order, disjoint, none empty; two that touch have different marks.
    pub fn spans(&self) -> &[Span]
        ensures value { result.now ≡ self.now }
        ensures canonical { IsCanonical self.now }
    {
        &self.spans
    }

    /// Returns the mark of a minute, if the minute is held.
    pub fn at(&self, minute: Minute) -> Option<Mark>
        ensures { result ≡ mark_at self.now minute }
    {
        search::mark_at(&self.spans, minute)
    }

    /// Returns the first minute from the base on that isn't held or is crew, and which of the two.
    pub fn horizon(&self, base: Minute) -> Horizon
        ensures { IsHorizon self.now base result }
    {
        horizon_of(&self.spans, base)
    }

    /// Returns what the line holds from `start` to before `past`, as a canonical list.
    pub fn slice(&self, alloc: Global, start: Minute, past: Minute) -> Result<Vec<Span>, AllocError>
        ensures { IfOk result (λ spans. IsCanonicalOf (HoldsWithin self.now start past) spans.items) }
    {
        slice_of(alloc, &self.spans, start, past)
    }

    /// Returns the line's spans that overlap the range from `start` to before `past`, in order. The first and the last may extend beyond
    /// it; `slice` copies their parts within the range (`cut`).
    pub fn meeting(&self, start: Minute, past: Minute) -> &[Span]
        ensures { IsCanonicalOf (HoldsWithin self.now start past) (map (cut_to start past) result.now) }
    {
        meeting(&self.spans, start, past)
    }

    /// Returns the maximal ranges of minutes from `start` to before `past` that the line doesn't hold, in order.
    pub fn gaps(&self, alloc: Global, start: Minute, past: Minute) -> Result<Vec<Gap>, AllocError>
        ensures { IfOk result (λ gaps. AreGaps self.now start past gaps.items) }
    {
        gaps_of(alloc, &self.spans, start, past)
    }

    /// Adds canonical spans, such as those that `gains` returns. The line may not hold any of their minutes yet. If memory runs out, the
    /// line stays as it was.
    pub fn add(&mut self, spans: &[Span]) -> Result<(), AllocError>
        requires canonical { IsCanonical spans.now }
        requires new { AreNotHeld self.old spans.now }
        ensures held { OnOk result (SamePairs (Holds self.new) (Together self.old spans.now)) }
        ensures canonical { IsCanonical self.new }
        ensures err { OnErr result (self.new ≡ self.old) }
    {
        add_to(&mut self.spans, spans)
    }

    /// Returns the canonical list of what spans give that the line doesn't hold. The spans may overlap the line and each other, and may
    /// come in any order. If a span is empty (L2) or a minute has two marks (L1), there is no such list.
    pub fn gains(&self, alloc: Global, spans: &[Span]) -> Result<Vec<Span>, LineFault>
        ensures { MatchResult result (λ gains. AreGains self.now spans.now gains.items) (IsGainFault self.now spans.now) }
    {
        gains_of(alloc, &self.spans, spans)
    }
}
