//! Whether disjoint spans give what other spans give.

ghost use Rattle.std.specs.Prelude.{◌↔◌, IfOk, IsTrue};
ghost use Rattle.tacho_time.specs.Spans.{Gives, GiveSame};
ghost use Rattle.tacho_state.specs.Disjoint.{AreDisjoint, GiveExactly};
ghost use Rattle.tacho_check.specs.Keeping.{AreSame, Rise, IsListOf};

use std::alloc::Global;
use tacho_tables::TableFault;
use tacho_time::{Span, SpanFault, canonical_spans};

/// Returns the canonical list of what spans give; none if a minute has two marks. The spans may come in any order, overlap, or be empty.
pub fn canonical(alloc: Global, spans: &[Span]) -> Result<Option<Vec<Span>>, TableFault>
    ensures { IfOk result (IsListOf spans.now) }
{
    match canonical_spans(alloc, spans) {
        Ok(list) => Ok(Some(list)),
        Err(SpanFault::Contradiction(_)) => Ok(None),
        Err(SpanFault::Memory) => Err(TableFault::Memory),
    }
}

/// Returns true if no span is empty, and each starts where the one before it ends, or later.
fn rise(spans: &[Span]) -> bool
    ensures { IsTrue result ↔ Rise 0 spans.now }
{
    let mut from = 0;
    for span in spans {
        if span.start.number() < from || span.past <= span.start {
            return false;
        }
        from = span.past.number();
    }
    true
}

/// Returns true if both lists are there and are the same.
fn agree(own: &Option<Vec<Span>>, others: &Option<Vec<Span>>) -> bool
    ensures { IsTrue result ↔ AreSame own.now others.now }
{
    match (own, others) {
        (Some(a), Some(b)) => a == b,
        _ => false,
    }
}

/// Returns true if the spans share no minute and none is empty. They may come in any order.
fn are_disjoint(alloc: Global, spans: &[Span]) -> Result<bool, TableFault>
    ensures { IfOk result (λ disjoint. IsTrue disjoint ↔ AreDisjoint spans.now) }
{
    let Ok(mut ordered) = Vec::from_slice(alloc, spans) else {
        return Err(TableFault::Memory);
    };
    ordered.sort_unstable_by_key(|span| span.start.number());
    Ok(rise(&ordered))
}

/// Returns true if disjoint spans give exactly what others give.
fn give_same(alloc: Global, spans: &[Span], given: &[Span]) -> Result<bool, TableFault>
    requires { AreDisjoint spans.now }
    ensures { IfOk result (λ same. IsTrue same ↔ GiveSame spans.now given.now) }
{
    let own = canonical(alloc, spans)?;
    let others = canonical(alloc, given)?;
    Ok(agree(&own, &others))
}

/// Returns true if spans, in any order, keep exactly what others give: they are disjoint, none is empty, and they give the same.
#[tactic(auto, using(crate::proofs::KeepLemmas::decides_kept, crate::proofs::KeepLemmas::decides_unkept))]
pub fn keeps(alloc: Global, spans: &[Span], given: &[Span]) -> Result<bool, TableFault>
    ensures { IfOk result (λ kept. IsTrue kept ↔ GiveExactly spans.now (Gives given.now)) }
{
    if !are_disjoint(alloc, spans)? {
        return Ok(false);
    }
    give_same(alloc, spans, given)
}
