ghost use Rattle.std.specs.Prelude.{◌≡◌, ◌↔◌, All, IsTrue};
ghost use Rattle.tacho_state.specs.Limits.{IsKey, IsName, IsNameByte, IsNote, next_number};
ghost use Rattle.tacho_state.specs.Steps.{is_monday};

use tacho_time::Day;

/// How many numbers are given out, at most, to a driver's downloads, and to a driver's entries.
const MOST: u32 = 1_000_000;

/// True if a day is a Monday. Day 0 was a Thursday.
pub fn is_monday(day: Day) -> bool
    ensures { result ≡ is_monday day }
{
    (day.number() + 3) % 7 == 0
}

/// True if a text can be a key: 8 to 64 letters, digits and hyphens. Allocates no memory.
pub fn is_key(text: &str) -> bool
    ensures { IsTrue result ↔ IsKey text.now }
{
    let bytes = text.as_bytes();
    bytes.len() >= 8
        && bytes.len() <= 64
        && bytes
            .iter()
            .all(|&byte| byte.is_ascii_alphanumeric() || byte == b'-')
}

/// True if a text can be a name: 1 to 64 bytes, without control characters, commas and double quotes. Allocates no memory.
pub fn is_name(text: &str) -> bool
    ensures { IsTrue result ↔ IsName text.now }
{
    let bytes = text.as_bytes();
    bytes.len() >= 1 && bytes.len() <= 64 && are_name_bytes(bytes)
}

/// True if a text can be a note: at most 200 bytes, without control characters, commas and double quotes. Allocates no memory.
pub fn is_note(text: &str) -> bool
    ensures { IsTrue result ↔ IsNote text.now }
{
    let bytes = text.as_bytes();
    bytes.len() <= 200 && are_name_bytes(bytes)
}

/// True if no byte is a control character, a comma or a double quote.
fn are_name_bytes(bytes: &[u8]) -> bool
    ensures { IsTrue result ↔ All IsNameByte bytes.now }
{
    bytes.iter().all(|&byte| byte >= 0x20 && byte != 0x7f && byte != b',' && byte != b'"')
}

/// Returns the first of `count` new numbers after `given` numbers were given out, or none if fewer are left. Allocates no memory.
pub fn first_number(given: u32, count: u32) -> Option<u32>
    ensures { result ≡ next_number given count }
{
    if given > MOST || count > MOST - given {
        return None;
    }
    Some(given + 1)
}
