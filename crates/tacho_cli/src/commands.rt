ghost use Rattle.std.specs.Prelude.{◌≡◌, ◌≤◌, ◌⊎◌, Err, None, length, false, MatchResult, string_bytes};
ghost use Rattle.tacho_card.specs.declared.fault.CardFault.TheVariants.{Memory};
ghost use Rattle.tacho_state.specs.Content.{FileTells};
ghost use Rattle.tacho_desk.specs.Words.{part_of as part_named};
ghost use Rattle.tacho_cli.specs.Card.{IsCard, IsListed, no_part_reply};
ghost use Rattle.tacho_cli.specs.Command.{Finishes, IsWrittenOut, card_reply};
ghost use Rattle.tacho_cli.specs.Dump.{IsDump, IsDumped, ReadsValue};
ghost use Rattle.tacho_cli.specs.Holder.{IsHolder};

use crate::reply::{tell, tell_fault};
use std::alloc::Global;
use tacho_card::{CardFault, CardFile, Cyclic, Part, spans, spans_of};
use tacho_desk::{Fault, part_of};
use tacho_sheet::push_bytes;
use tacho_time::{Sink, Source, read_all, span_lines};

/// The most bytes that an EF Driver_Activity_Data can have.
const ACTIVITY_LIMIT: usize = 65_535;

/// `tacho dump`: reads one value of EF Driver_Activity_Data, of at most 65,535 bytes, and writes the spans that it gives, a line each, or
/// the line of its first fault. Returns the program's status: 0 done, 1 refused, 3 if memory ran out or a device failed.
pub fn dump<R: Source, W: Sink>(alloc: Global, reader: &mut R, writer: &mut W) -> u8
    requires reader { R.has_failed reader.old ≡ false }
    requires writer { W.has_failed writer.old ≡ false }
    ensures { Finishes IsDump (R.unread reader.old) (R.has_failed reader.new) (W.has_failed writer.new) (W.written writer.old) (W.written writer.new) result }
{
    let input = match read_all(alloc, reader, ACTIVITY_LIMIT) {
        Ok(input) => input,
        Err(fault) => return tell_fault(writer, Fault::from(fault)),
    };
    match dump_text(alloc, &input) {
        Ok(text) => tell(writer, &text, 0),
        Err(fault) => tell_fault(writer, Fault::from(fault)),
    }
}

/// The lines of the spans that a value's bytes give.
fn dump_text(alloc: Global, bytes: &[u8]) -> Result<Vec<u8>, CardFault>
    requires { length bytes.now ≤ 65535 }
    ensures { MatchResult result (λ text. IsDumped bytes.now text.items) (λ fault. ReadsValue bytes.now (Err fault) ⊎ (fault ≡ Memory)) }
{
    let block = Cyclic::read(bytes)?;
    let spans = spans_of(alloc, &block)?;
    Ok(span_lines(alloc, &spans)?)
}

/// The most bytes that a card file can have.
const FILE_LIMIT: usize = 262_144;

/// `tacho holder`: reads one card file, of at most 262,144 bytes, and writes its holder in 30 hexadecimal digits, or the line of the first
/// of C1 to C5. Returns the program's status: 0 done, 1 refused, 3 if memory ran out or a device failed.
pub fn holder<R: Source, W: Sink>(alloc: Global, reader: &mut R, writer: &mut W) -> u8
    requires reader { R.has_failed reader.old ≡ false }
    requires writer { W.has_failed writer.old ≡ false }
    ensures { Finishes IsHolder (R.unread reader.old) (R.has_failed reader.new) (W.has_failed writer.new) (W.written writer.old) (W.written writer.new) result }
{
    let input = match read_all(alloc, reader, FILE_LIMIT) {
        Ok(input) => input,
        Err(fault) => return tell_fault(writer, Fault::from(fault)),
    };
    match holder_text(alloc, &input) {
        Ok(text) => tell(writer, text.as_bytes(), 0),
        Err(fault) => tell_fault(writer, Fault::from(fault)),
    }
}

/// `tacho card PART`: reads one card file, of at most 262,144 bytes, by a part (`both`, `first` or `second`), and writes the spans that it
/// gives, a line each, or the line of the first of C1 to C14. With another argument it answers P1 and reads nothing. Returns the program's
/// status: 0 done, 1 refused, 3 if memory ran out or a device failed.
pub fn card<R: Source, W: Sink>(alloc: Global, part: &str, reader: &mut R, writer: &mut W) -> u8
    requires reader { R.has_failed reader.old ≡ false }
    requires writer { W.has_failed writer.old ≡ false }
    ensures told { Finishes (IsCard part.now) (R.unread reader.old) (R.has_failed reader.new) (W.has_failed writer.new) (W.written writer.old) (W.written writer.new) result }
    ensures alone { part_named part.now ≡ None → (reader.new ≡ reader.old)
        × IsWrittenOut (W.has_failed writer.new) (W.written writer.old) (W.written writer.new) no_part_reply result }
{
    let Some(part) = part_of(part.as_bytes()) else {
        return tell_fault(writer, Fault::Part);
    };
    let file = match read_all(alloc, reader, FILE_LIMIT) {
        Ok(file) => file,
        Err(fault) => return tell_fault(writer, Fault::from(fault)),
    };
    match card_text(alloc, part, &file) {
        Ok(text) => tell(writer, &text, 0),
        Err(fault) => tell_fault(writer, Fault::from(fault)),
    }
}

/// The lines of the spans that a card file gives, read by a part.
fn card_text(alloc: Global, part: Part, bytes: &[u8]) -> Result<Vec<u8>, CardFault>
    ensures { MatchResult result (λ text. IsListed part bytes.now text.items)
        (λ fault. FileTells part bytes.now (Err fault) ⊎ (fault ≡ Memory)) }
{
    let file = CardFile::read(bytes)?;
    let spans = spans(alloc, &file, part)?;
    Ok(span_lines(alloc, &spans)?)
}

/// The line of a card file's holder.
fn holder_text(alloc: Global, bytes: &[u8]) -> Result<String, CardFault>
    requires { length bytes.now ≤ 262144 }
    ensures { MatchResult result (λ text. IsHolder bytes.now (record { text = string_bytes text; status = 0 }))
        (λ fault. IsHolder bytes.now (card_reply fault) ⊎ (fault ≡ Memory)) }
{
    let file = CardFile::read(bytes)?;
    let mut line = String::new(alloc);
    push_bytes(&mut line, &file.holder())?;
    line.push_str("\n")?;
    Ok(line)
}
