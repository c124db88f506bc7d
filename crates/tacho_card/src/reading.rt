ghost use Rattle.std.specs.Prelude.{◌≡◌, ℕ, [], ◌∷◌, Ok, Err, MatchResult};
ghost use Rattle.tacho_time.specs.Spans.{Gives, IsCanonicalOf, IsFirstConflict};
ghost use Rattle.tacho_card.specs.Reading.{IsReading, IsReadingFault};
ghost use Rattle.tacho_card.specs.CardFile.{those_there, ReadsFile};
ghost use Rattle.tacho_card.specs.RawSpans.{prepend_spans, activity_spans};
ghost use Rattle.tacho_time.specs.OrMemory.{OrMemory};

use crate::cyclic::Cyclic;
use crate::fault::CardFault;
use crate::file::{CardFile, Part};
use std::alloc::Global;
use tacho_time::{Span, canonical_spans};

/// Returns what activity data give, as a canonical list of spans, or their first fault: first those of the records in the order of the
/// chain (C9 to C13), then C14.
pub fn spans_of(alloc: Global, activity: &Cyclic) -> Result<Vec<Span>, CardFault>
    ensures { MatchResult result (λ spans. IsReading (activity.now ∷ []) (Ok spans.items)) (IsReadingFault (activity.now ∷ [])) }
{
    let mut raw = Vec::new(alloc);
    append_activity(&mut raw, activity)?;
    canonical(alloc, &raw)
}

/// Returns what a part of a card file gives, as a canonical list of spans, or the first fault in reading order: C6; C7 and C8 of each
/// generation's data; C9 to C13 of the records, all of the first generation's data first; and then C14.
pub fn spans(alloc: Global, file: &CardFile, part: Part) -> Result<Vec<Span>, CardFault>
    ensures { MatchResult result (λ spans. ReadsFile part file.now (Ok spans.items)) (λ fault. OrMemory CardFault.Memory fault (ReadsFile part file.now (Err fault))) }
{
    let chosen = file.activity(part)?;
    spans_of_chosen(alloc, &chosen)
}

/// Returns what all data that are present give together, or their first fault.
fn spans_of_chosen(alloc: Global, chosen: &[Option<Cyclic>]) -> Result<Vec<Span>, CardFault>
    ensures { MatchResult result (λ spans. IsReading (those_there chosen.now) (Ok spans.items)) (IsReadingFault (those_there chosen.now)) }
{
    let mut raw = Vec::new(alloc);
    for activity in chosen {
        if let Some(found) = activity {
            append_activity(&mut raw, found)?;
        }
    }
    canonical(alloc, &raw)
}

/// Appends the spans of all records of activity data, in no particular order.
fn append_activity(spans: &mut Vec<Span>, activity: &Cyclic) -> Result<(), CardFault>
    ensures { MatchResult result (λ _. prepend_spans spans.old.items (activity_spans activity.now) ≡ Ok spans.new.items) (λ fault. OrMemory CardFault.Memory fault (activity_spans activity.now ≡ Err fault)) }
{
    let newest = activity.newest();
    for item in activity.records() {
        match item {
            Err(fault) => return Err(fault),
            Ok(day) => day.append_spans(spans, day.place() == newest)?,
        }
    }
    Ok(())
}

/// Returns the canonical list of what spans give, or the least minute to which they give two marks.
fn canonical(alloc: Global, spans: &[Span]) -> Result<Vec<Span>, CardFault>
    ensures { MatchResult result (λ runs. IsCanonicalOf (Gives spans.now) runs.items) (λ fault. OrMemory CardFault.Memory fault ((m : ℕ) × (fault ≡ CardFault.SelfContradiction m) × IsFirstConflict (Gives spans.now) m)) }
{
    Ok(canonical_spans(alloc, spans)?)
}
