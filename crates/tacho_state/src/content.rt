ghost use Rattle.std.specs.Prelude.{◌≡◌, Ok, Err, IfOk, MatchResult};
ghost use Rattle.tacho_time.specs.OrMemory.{OrMemory};
ghost use Rattle.tacho_time.specs.Spans.{IsCanonical};
ghost use Rattle.tacho_card.specs.declared.fault.CardFault.{CardFault as OwnFault};
ghost use Rattle.tacho_state.specs.Content.{FileTells};

use crate::fault::StoreFault;
use std::alloc::Global;
use tacho_card::{CardFile, Part, spans};
use tacho_time::Span;

/// What a card file says, read by a part.
#[derive(Drop)]
pub struct CardContent {
    /// The first 15 bytes of the card's identification.
    pub holder: [u8; 15],
    /// The canonical list of what its records give.
    pub spans: Vec<Span>,
}

/// Reads a card file by a part; S11 if the file has a fault.
pub fn content_of(alloc: Global, part: Part, file: &[u8]) -> Result<CardContent, StoreFault>
    ensures told { MatchResult result (λ it. FileTells part file.now (Ok (record {
      holder = it.holder;
      spans = it.spans.items;
    })))
        (λ fault. OrMemory StoreFault.Memory fault ((f : OwnFault) × (fault ≡ StoreFault.Card f)
        × FileTells part file.now (Err f))) }
    ensures canonical { IfOk result (λ it. IsCanonical it.spans.items) }
{
    let card = CardFile::read(file)?;
    Ok(CardContent {
        holder: card.holder(),
        spans: spans(alloc, &card, part)?,
    })
}
