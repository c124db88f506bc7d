//! The columns of a row that was read.

ghost use Rattle.std.specs.Prelude.{◌≡◌, ◌≢◌, ◌<◌, ◌≤◌, ℕ, List, IsUtf8, MatchOption};
ghost use Rattle.sqlite.specs.declared.types.Value.TheVariants.{Text, Blob};
ghost use Rattle.sqlite.specs.Order.{column};
ghost use Rattle.sqlite_value.specs.Value.{owned};
ghost use Rattle.tacho_time.specs.Limits.{greatest_minute};
ghost use Rattle.tacho_check.specs.Parsed.{IsNatural, IsNumberOf, IsMinuteOf, IsHolderOf};

use sqlite::Row;
use sqlite::types::ValueRef;
use tacho_time::{GREATEST_MINUTE, Minute};

/// Returns a number that isn't negative.
fn natural(number: i64) -> Option<u64>
    ensures { IsNatural number result }
{
    if number < 0 {
        None
    } else {
        Some(number.unsigned_abs())
    }
}

/// Returns the value of a column: NULL, if the row has no such column.
fn value_at(row: &Row, at: usize) -> ValueRef<'_>
    ensures { owned result ≡ column row.now at }
{
    match row.get_ref(at) {
        Ok(value) => value,
        Err(_) => ValueRef::Null,
    }
}

/// Returns the number in a column, if it isn't negative.
pub(crate) fn number_at(row: &Row, at: usize) -> Option<u64>
    ensures { IsNumberOf (column row.now at) result }
{
    match value_at(row, at) {
        ValueRef::Int(number) => natural(number),
        _ => None,
    }
}

/// Returns the minute with a number, if there is one.
fn minute_of(number: u64) -> Option<Minute>
    ensures { MatchOption result (greatest_minute < number) (λ minute. (minute ≡ number) × (number ≤ greatest_minute)) }
{
    let Ok(number) = u32::try_from(number) else {
        return None;
    };
    if number > GREATEST_MINUTE {
        return None;
    }
    Some(Minute::new(number))
}

/// Returns the minute in a column.
pub(crate) fn minute_at(row: &Row, at: usize) -> Option<Minute>
    ensures { IsMinuteOf (column row.now at) result }
{
    let number = number_at(row, at)?;
    minute_of(number)
}

/// Returns the text in a column, if it is UTF-8.
pub(crate) fn text_at(row: &Row, at: usize) -> Option<&str>
    ensures { MatchOption result ((t : List ℕ) → IsUtf8 t → column row.now at ≢ Text t)
        (λ text. (column row.now at ≡ Text text.now) × IsUtf8 text.now) }
{
    match value_at(row, at) {
        ValueRef::Text(text) => str::from_utf8(text).ok(),
        _ => None,
    }
}

/// Returns the bytes in a column.
pub(crate) fn bytes_at(row: &Row, at: usize) -> Option<&[u8]>
    ensures { MatchOption result ((b : List ℕ) → column row.now at ≢ Blob b) (λ bytes. column row.now at ≡ Blob bytes.now) }
{
    match value_at(row, at) {
        ValueRef::Blob(bytes) => Some(bytes),
        _ => None,
    }
}

/// Returns the fifteen bytes in a column.
pub(crate) fn holder_at(row: &Row, at: usize) -> Option<[u8; 15]>
    ensures { IsHolderOf (column row.now at) result }
{
    let bytes = bytes_at(row, at)?;
    if bytes.len() != 15 {
        return None;
    }
    let mut holder = [0; 15];
    holder.copy_from_slice(bytes);
    Some(holder)
}
