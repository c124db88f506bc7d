ghost use Rattle.std.specs.Prelude.{◌≡◌, IfOk, string_bytes};
ghost use Rattle.tacho_check.specs.Text.{check_line};

use crate::table::Unsound;
use std::alloc::{AllocError, Global};

/// Writes what a check has found: `sound`, or `unsound 17 held` with the driver's number and the table's name, and a line feed.
pub fn check_text(alloc: Global, found: Option<Unsound>) -> Result<String, AllocError>
    ensures { IfOk result (λ text. string_bytes text ≡ check_line found) }
{
    let mut text = String::new(alloc);
    match found {
        None => writeln!(text, "sound")?,
        Some(unsound) => {
            let driver = unsound.driver;
            let table = unsound.table.name();
            writeln!(text, "unsound {driver} {table}")?
        }
    }
    Ok(text)
}
