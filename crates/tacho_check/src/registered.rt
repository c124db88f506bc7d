//! A driver's row in `drivers`.

ghost use Rattle.std.specs.Prelude.{◌≡◌, ◌↔◌, true, IsTrue};
ghost use Rattle.tacho_state.specs.Registration.{IsNumber, IsReadDay};
ghost use Rattle.tacho_state.specs.Steps.{is_monday};
ghost use Rattle.tacho_check.specs.Parsed.{IsParsed};
ghost use Rattle.tacho_check.specs.Registered.{ShowsDriver, IsBasis};

use crate::cells::{holder_at, number_at, text_at};
use sqlite::Row;
use tacho_state::{is_key, is_name};
use tacho_time::{FIRST_DAY, LAST_DAY};

/// What of a driver's row in `drivers` their rows in the other tables are judged by: the holder of their card, and how many downloads and
/// entries they have.
#[derive(Clone, Copy)]
pub struct Basis {
    pub holder: [u8; 15],
    pub downloads: u64,
    pub entries: u64,
}

/// How many downloads, and how many entries, a driver has at most.
const MOST: u64 = 1_000_000;

/// True if a driver can have this number.
fn is_number(number: u64) -> bool
    ensures { IsTrue result ↔ IsNumber number }
{
    number >= 1 && number <= 999_999
}

/// True if a driver can be examined from the day with this number: it is a Monday of the years that are read.
fn is_base(day: u64) -> bool
    ensures { IsTrue result ↔ (IsReadDay day × (is_monday day ≡ true)) }
{
    let first = u64::from(FIRST_DAY);
    let last = u64::from(LAST_DAY);
    day >= first && day <= last && (day + 3) % 7 == 0
}

/// Returns what a row of driver, holder, secret, base, name, downloads and entries says of the driver's other rows; none if no driver
/// within their limits has such a row.
pub fn basis_of(row: &Row) -> Option<Basis>
    ensures { IsParsed ShowsDriver IsBasis row.now result }
{
    let number = number_at(row, 0)?;
    let holder = holder_at(row, 1)?;
    let key = text_at(row, 2)?;
    let base = number_at(row, 3)?;
    let name = text_at(row, 4)?;
    let downloads = number_at(row, 5)?;
    let entries = number_at(row, 6)?;
    if !is_number(number) || !is_base(base) {
        return None;
    }
    if !is_key(key) || !is_name(name) {
        return None;
    }
    if downloads > MOST || entries > MOST {
        return None;
    }
    Some(Basis {
        holder,
        downloads,
        entries,
    })
}
