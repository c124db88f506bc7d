ghost use Rattle.std.specs.Prelude.{◌≡◌, ◌⊎◌, ◌&&◌, IfSome, IsErrAnd, MatchOption, MatchResult, bytes_eq, codes, length, map};
ghost use Rattle.tacho_time.specs.OrMemory.{OrMemory};
ghost use Rattle.csv.specs.Records.{fields_of};
ghost use Rattle.hex.specs.Hex.{IsBytes, encode_lower};
ghost use Rattle.tacho_state.specs.Limits.{IsKey, IsName};
ghost use Rattle.tacho_state.specs.Registration.{IsRegistration};
ghost use Rattle.tacho_sheet.specs.Driver.{Columns, IsNoHolderText, IsColumnFault, IsDriverText, IsKeyText, IsNameText, IsRowAnswer, IsBodyAnswer, IsDriverRead, columns_of, is_driver_head};
ghost use Rattle.tacho_sheet.specs.Rows.{IsReaderFault};

use crate::fault::SheetFault;
use crate::number::read_number;
use crate::rows::{five_fields, read_rows};
use csv::ByteRecord;
use std::alloc::Global;
use tacho_state::{Column, Driver, is_key, is_name};
use tacho_time::Day;

/// Reads a holder from 30 hexadecimal digits, without capitals.
pub fn read_holder(text: &[u8]) -> Option<[u8; 15]>
    ensures text { MatchOption result (IsNoHolderText text.now) (λ holder. text.now ≡ encode_lower holder) }
    ensures bytes { IfSome result (λ holder. (length holder ≡ 15) × IsBytes holder) }
{
    let mut holder = [0; 15];
    let Ok(()) = hex::decode_to_slice(text, &mut holder) else {
        return None;
    };
    let mut digits = [0; 30];
    let Ok(()) = hex::encode_to_slice(holder.as_slice(), &mut digits) else {
        return None;
    };
    if digits.as_slice() != text {
        return None;
    }
    Some(holder)
}

/// Reads a key.
pub(crate) fn read_key(text: &[u8]) -> Option<&str>
    ensures { MatchOption result (¬ (IsKeyText text.now)) (λ key. (key.now ≡ text.now) × IsKey key.now) }
{
    let Ok(key) = str::from_utf8(text) else {
        return None;
    };
    if is_key(key) { Some(key) } else { None }
}

/// Reads a name.
pub(crate) fn read_name(text: &[u8]) -> Option<&str>
    ensures { MatchOption result (¬ (IsNameText text.now)) (λ name. (name.now ≡ text.now) × IsName name.now) }
{
    let Ok(name) = str::from_utf8(text) else {
        return None;
    };
    if is_name(name) { Some(name) } else { None }
}

/// The driver whose columns have these texts: E9.
fn driver_of_texts(
    alloc: Global,
    driver: &[u8],
    holder: &[u8],
    key: &[u8],
    base: &[u8],
    name: &[u8],
) -> Result<Driver, SheetFault>
    ensures { let columns : Columns = record { driver = driver.now; holder = holder.now; key = key.now; base = base.now; name = name.now } in
        MatchResult result (λ d. IsDriverText columns d) (λ fault. OrMemory SheetFault.Memory fault (IsColumnFault columns fault)) }
{
    let Some(number) = read_number(driver, 999_999) else {
        return Err(SheetFault::Column(Column::Driver));
    };
    let Some(holder) = read_holder(holder) else {
        return Err(SheetFault::Column(Column::Holder));
    };
    let Some(key) = read_key(key) else {
        return Err(SheetFault::Column(Column::Key));
    };
    let Ok(base) = Day::read(base) else {
        return Err(SheetFault::Column(Column::Base));
    };
    let Some(name) = read_name(name) else {
        return Err(SheetFault::Column(Column::Name));
    };
    registered(alloc, number, holder, key, base, name)
}

/// The driver of columns that are within their limits.
fn registered(
    alloc: Global,
    number: u32,
    holder: [u8; 15],
    key: &str,
    base: Day,
    name: &str,
) -> Result<Driver, SheetFault>
    requires { IsRegistration (record { number = number; holder = holder; key = key.now; base = base; name = name.now }) }
    ensures { MatchResult result (λ d. d ≡ record { number = number; holder = holder; key = key.now; base = base; name = name.now }) (λ fault. fault ≡ SheetFault.Memory) }
{
    let Ok(key) = String::from_str(alloc, key) else {
        return Err(SheetFault::Memory);
    };
    let Ok(name) = String::from_str(alloc, name) else {
        return Err(SheetFault::Memory);
    };
    match Driver::new(number, holder, key, base, name) {
        Ok(driver) => Ok(driver),
        Err(_) => Err(SheetFault::Memory),
    }
}

/// True if the record is the head.
fn is_head_row(fields: &ByteRecord) -> bool
    ensures { result ≡ is_driver_head (fields_of fields.now) }
{
    match five_fields(fields) {
        Some((driver, holder, key, base, name)) => {
            is_head_words(driver, holder, key) && is_tail_words(base, name)
        }
        None => false,
    }
}

/// True if the texts are the first three names of the head.
fn is_head_words(driver: &[u8], holder: &[u8], key: &[u8]) -> bool
    ensures { result ≡ (bytes_eq driver.now (codes "driver") && (bytes_eq holder.now (codes "holder") && bytes_eq key.now (codes "key"))) }
{
    driver == b"driver".as_slice() && holder == b"holder".as_slice() && key == b"key".as_slice()
}

/// True if the texts are the last two names of the head.
fn is_tail_words(base: &[u8], name: &[u8]) -> bool
    ensures { result ≡ (bytes_eq base.now (codes "base") && bytes_eq name.now (codes "name")) }
{
    base == b"base".as_slice() && name == b"name".as_slice()
}

/// Reads the driver from row 2: E2, E9.
fn driver_of_row(alloc: Global, fields: &ByteRecord) -> Result<Driver, SheetFault>
    ensures { IsErrAnd result (λ fault. fault ≡ SheetFault.Memory) ⊎ IsRowAnswer (columns_of (fields_of fields.now)) result }
{
    match five_fields(fields) {
        Some((driver, holder, key, base, name)) => {
            driver_of_texts(alloc, driver, holder, key, base, name)
        }
        None => Err(SheetFault::Fields(2)),
    }
}

/// Reads the driver from the rows after the head: E2, E9.
fn driver_of_rows(alloc: Global, rows: &[ByteRecord]) -> Result<Driver, SheetFault>
    ensures { IsErrAnd result (λ fault. fault ≡ SheetFault.Memory) ⊎ IsBodyAnswer (map fields_of rows.now) result }
{
    let Some((row, more)) = rows.split_first() else {
        return Err(SheetFault::Fields(2));
    };
    let driver = match driver_of_row(alloc, row) {
        Ok(driver) => driver,
        Err(fault) => return Err(fault),
    };
    if !more.is_empty() {
        return Err(SheetFault::Fields(3));
    }
    Ok(driver)
}

/// Reads the driver that a text of CSV registers: the head `driver,holder,key,base,name` and one row. Reports the first fault: E1, E2, E9.
/// Fails with E8 if the reader of CSV refuses the text.
pub fn read_driver(alloc: Global, text: &[u8]) -> Result<Driver, SheetFault>
    ensures { IsErrAnd result IsReaderFault ⊎ IsDriverRead text.now result }
{
    let rows = read_rows(alloc, text)?;
    let Some((head, body)) = rows.split_first() else {
        return Err(SheetFault::Head);
    };
    if !is_head_row(head) {
        return Err(SheetFault::Head);
    }
    driver_of_rows(alloc, body)
}
