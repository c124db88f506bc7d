ghost use Rattle.std.specs.Prelude.{◌≡◌, false, MatchResult, string_bytes};
ghost use Rattle.tacho_cli.specs.Listen.{IsKeyOf, IsNoKey, IsWithoutKey};
ghost use Rattle.tacho_cli.specs.Office.{Replied};

use crate::office::read_input;
use crate::reply::tell_fault;
use std::alloc::Global;
use tacho_desk::Fault;
use tacho_sheet::read_key_line;
use tacho_time::{Sink, Source};

/// Reads the office's key for `listen`: the only line of an input of at most 262,144 bytes. Otherwise writes the line of the fault (X1, X2,
/// E9 or M1), and returns the program's status: 1 refused, 3 if memory ran out or a device failed.
pub fn office_key<R: Source, W: Sink>(
    alloc: Global,
    reader: &mut R,
    writer: &mut W,
) -> Result<String, u8>
    requires reader { R.has_failed reader.old ≡ false }
    requires writer { W.has_failed writer.old ≡ false }
    ensures { MatchResult result
        (λ key. IsKeyOf (R.unread reader.old) (R.has_failed reader.new) (string_bytes key) × (writer.new ≡ writer.old))
        (Replied (IsWithoutKey (R.unread reader.old) (R.has_failed reader.new))
        (W.has_failed writer.new) (W.written writer.old) (W.written writer.new)) }
{
    match key_of(alloc, reader) {
        Ok(key) => Ok(key),
        Err(fault) => Err(tell_fault(writer, fault)),
    }
}

/// Reads a key from the only line of an input.
fn key_of<R: Source>(alloc: Global, reader: &mut R) -> Result<String, Fault>
    requires { R.has_failed reader.old ≡ false }
    ensures { MatchResult result (λ key. IsKeyOf (R.unread reader.old) (R.has_failed reader.new) (string_bytes key))
        (IsNoKey (R.unread reader.old) (R.has_failed reader.new)) }
{
    let input = read_input(alloc, reader)?;
    let key = read_key_line(&input)?;
    Ok(String::from_str(alloc, key)?)
}
