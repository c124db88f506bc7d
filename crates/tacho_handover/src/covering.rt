ghost use Rattle.std.specs.Prelude.{ℕ, List, Ok, IfErr, IfOk, MatchBool};
ghost use Rattle.tacho_time.specs.Spans.{IsCanonical, SamePairs};
ghost use Rattle.tacho_line.specs.Line.{AreGains, Holds};
ghost use Rattle.tacho_state.specs.Content.{FileTells};
ghost use Rattle.tacho_sheet.specs.Fault.{IsFailure};
ghost use Rattle.tacho_handover.specs.Parcel.{AreHeld, GivenBeside, IsBeside};

use std::alloc::Global;
use tacho_card::Part;
use tacho_line::{Line, LineFault};
use tacho_sheet::Fault;
use tacho_state::{StoreFault, content_of};
use tacho_time::{Minute, Span};

/// Reads the spans of a card file of the archive. Fails with S12 if the file has a fault, since no archive keeps such a file.
pub(crate) fn spans_of(alloc: Global, part: Part, file: &[u8]) -> Result<Vec<Span>, Fault>
    ensures told { IfOk result (λ spans. (holder : List ℕ) × FileTells part file.now (Ok (record { holder = holder; spans = spans.items }))) }
    ensures canonical { IfOk result (λ spans. IsCanonical spans.items) }
    ensures failure { IfErr result IsFailure }
{
    match content_of(alloc, part, file) {
        Ok(content) => Ok(content.spans),
        Err(StoreFault::Memory) => Err(Fault::Memory),
        Err(_) => Err(Fault::Store(StoreFault::Store)),
    }
}

/// What spans give that a line doesn't hold. Fails with S12 if they give a minute another mark, since the card files of one archive agree.
fn gains_of(alloc: Global, line: &Line, spans: &[Span]) -> Result<Vec<Span>, Fault>
    ensures gains { IfOk result (λ gains. AreGains line.now spans.now gains.items) }
    ensures failure { IfErr result IsFailure }
{
    match line.gains(alloc, spans) {
        Ok(gains) => Ok(gains),
        Err(LineFault::Memory) => Err(Fault::Memory),
        Err(LineFault::Contradiction(_) | LineFault::EmptySpan(_)) => {
            Err(Fault::Store(StoreFault::Store))
        }
    }
}

/// Adds to a line what spans give from `start` to before `past`. Returns whether this is anything that the line didn't hold yet.
pub(crate) fn add_within(
    alloc: Global,
    line: &mut Line,
    spans: &[Span],
    start: Minute,
    past: Minute,
) -> Result<bool, Fault>
    requires { IsCanonical spans.now }
    ensures held { IfOk result (λ _. SamePairs (Holds line.new) (GivenBeside line.old start past spans.now)) }
    ensures more { IfOk result (λ more. MatchBool more (IsBeside line.old start past spans.now) (AreHeld line.old start past spans.now)) }
    ensures failure { IfErr result IsFailure }
{
    let mut given = Line::empty(alloc);
    given.add(spans)?;
    let within = given.slice(alloc, start, past)?;
    let gains = gains_of(alloc, line, &within)?;
    line.add(&gains)?;
    Ok(!gains.is_empty())
}
