ghost use Rattle.std.specs.Prelude.{◌≡◌, ℕ, [], None, MatchOption, MatchResult};
ghost use Rattle.tacho_time.specs.OrMemory.{OrMemory};
ghost use Rattle.tacho_time.specs.Spans.{IsCanonical};
ghost use Rattle.tacho_line.specs.Line.{AreGains, first_empty};
ghost use Rattle.tacho_store.specs.News.{AreNews, IsContradicted, IsNewsRefused};

use std::alloc::Global;
use tacho_line::{Line, LineFault};
use tacho_state::StoreFault;
use tacho_time::Span;

/// What a file's spans add to what downloads give, and to what the driver holds.
#[derive(Drop)]
pub struct News {
    pub card_spans: Vec<Span>,
    pub held: Vec<Span>,
}

/// What of a file's spans is new, by what downloads give near them and what the driver holds near them. None if downloads give all of them.
/// S6 if they contradict what the driver holds.
pub fn news_of(
    alloc: Global,
    card_line: &Line,
    line: &Line,
    spans: &[Span],
) -> Result<Option<News>, StoreFault>
    requires { IsCanonical spans.now }
    ensures { MatchResult result
        (λ found. MatchOption found (AreGains card_line.now spans.now [])
        (λ news. AreNews card_line.now line.now spans.now news.card_spans.items news.held.items))
        (IsNewsRefused card_line.now line.now spans.now) }
{
    match gains_of(alloc, card_line, spans) {
        Ok(gains) if gains.is_empty() => Ok(None),
        Ok(card_spans) => Ok(Some(News {
            card_spans,
            held: gains_of(alloc, line, spans)?,
        })),
        Err(StoreFault::Contradiction(_)) => {
            gains_of(alloc, line, spans)?;
            Err(StoreFault::Store)
        }
        Err(fault) => Err(fault),
    }
}

/// The gains of spans against a line; S6 if they contradict it.
pub fn gains_of(alloc: Global, line: &Line, spans: &[Span]) -> Result<Vec<Span>, StoreFault>
    requires { first_empty spans.now ≡ None }
    ensures { MatchResult result (λ gains. AreGains line.now spans.now gains.items)
        (λ fault. OrMemory StoreFault.Memory fault (IsContradicted line.now spans.now fault)) }
{
    match line.gains(alloc, spans) {
        Ok(gains) => Ok(gains),
        Err(fault) => Err(fault_of_line(fault)),
    }
}

/// Converts a line's fault into an archive's. None of the spans that were to be added is empty.
fn fault_of_line(fault: LineFault) -> StoreFault
    ensures contradiction { (m : ℕ) → fault ≡ LineFault.Contradiction m → result ≡ StoreFault.Contradiction m }
    ensures memory { fault ≡ LineFault.Memory → result ≡ StoreFault.Memory }
{
    match fault {
        LineFault::Contradiction(minute) => StoreFault::Contradiction(minute),
        LineFault::EmptySpan(_) => StoreFault::Store,
        LineFault::Memory => StoreFault::Memory,
    }
}
