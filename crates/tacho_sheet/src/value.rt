ghost use Rattle.std.specs.Prelude.{Ok, Err, MatchResult};
ghost use Rattle.tacho_sheet.specs.Cut.{IsCut};
ghost use Rattle.tacho_sheet.specs.Value.{IsKeyRead, IsNameRead};

use crate::driver::{read_key, read_name};
use crate::fault::SheetFault;
use tacho_state::Column;

/// Reads a driver's key from a text of one line, which may end in LF or CR LF: E9.
pub fn read_key_line(text: &[u8]) -> Result<&str, SheetFault>
    ensures { MatchResult result (λ key. IsKeyRead text.now (Ok key.now)) (λ fault. IsKeyRead text.now (Err fault)) }
{
    match read_key(without_end(text)) {
        Some(key) => Ok(key),
        None => Err(SheetFault::Column(Column::Key)),
    }
}

/// Reads a driver's name from a text of one line, which may end in LF or CR LF: E9.
pub fn read_name_line(text: &[u8]) -> Result<&str, SheetFault>
    ensures { MatchResult result (λ name. IsNameRead text.now (Ok name.now)) (λ fault. IsNameRead text.now (Err fault)) }
{
    match read_name(without_end(text)) {
        Some(name) => Ok(name),
        None => Err(SheetFault::Column(Column::Name)),
    }
}

/// The text without the LF or CR LF at its end.
fn without_end(text: &[u8]) -> &[u8]
    ensures { IsCut text.now result.now }
{
    match text {
        [line @ .., b'\r', b'\n'] | [line @ .., b'\n'] => line,
        _ => text,
    }
}
