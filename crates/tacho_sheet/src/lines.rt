ghost use Rattle.std.specs.Prelude.{◌≡◌, ◌<◌, ◌≤◌, ◌+◌, ◌++◌, OnOk, flat_map, length, string_bytes};
ghost use Rattle.arrayvec.specs.ArrayString.{array_string_len};
ghost use Rattle.tacho_sheet.specs.Lines.{byte_digits, hexadecimal_digit, card_line, column_name, fault_line as line_of_fault, left_out_word, line_at as line_with_number, line_at_minute as line_with_minute, sheet_line, store_line, time_line};

use crate::fault::{Fault, LeftOut, SheetFault};
use arrayvec::ArrayString;
use itoa::Buffer;
use std::alloc::AllocError;
use tacho_card::CardFault;
use tacho_state::{Column, StoreFault};
use tacho_time::{Minute, TimeFault, minute_line};

/// The line of a fault. Allocates no memory.
pub type FaultLine = ArrayString<64>;

/// The line of a fault: its code, and what it is about.
pub fn fault_line(fault: Fault) -> FaultLine
    ensures { result.bytes ≡ line_of_fault fault }
{
    match fault {
        Fault::Time(fault) => line_of_time(fault),
        Fault::Card(fault) => line_of_card(fault),
        Fault::Store(fault) => line_of_store(fault),
        Fault::Sheet(fault) => line_of_sheet(fault),
        Fault::Number => line_of("N1 bad number\n"),
        Fault::Order => line_of("N2 wrong order\n"),
        Fault::Period => line_of("Z4 period\n"),
        Fault::Part => line_of("P1 bad part\n"),
        Fault::TooLarge => line_of("X1 too large\n"),
        Fault::Device => line_of("X2 device failed\n"),
        Fault::Memory => line_of("M1 no memory\n"),
    }
}

/// A line with this text.
fn line_of(words: &str) -> FaultLine
    requires { length words.now ≤ 64 }
    ensures text { result.bytes ≡ words.now }
    ensures len { array_string_len result ≡ length words.now }
{
    let mut line = FaultLine::new();
    line.push_str(words);
    line
}

/// A line that ends with a number.
fn line_at(words: &str, number: u64) -> FaultLine
    requires { length words.now ≤ 40 }
    ensures { result.bytes ≡ line_with_number words.now number }
{
    let mut digits = Buffer::new();
    let mut line = line_of(words);
    line.push_str(digits.format(number));
    line.push_str("\n");
    line
}

/// A line that ends with a minute.
fn line_at_minute(words: &str, minute: Minute) -> FaultLine
    requires { length words.now ≤ 40 }
    ensures { result.bytes ≡ line_with_minute words.now minute }
{
    let mut line = line_of(words);
    line.push_str(minute_line(minute).as_str());
    line.push_str("\n");
    line
}

/// The line of Z1, Z2 or Z3.
fn line_of_time(fault: TimeFault) -> FaultLine
    ensures { result.bytes ≡ time_line fault }
{
    match fault {
        TimeFault::Shape => line_of("Z1 not of the shape\n"),
        TimeFault::NoSuchDate => line_of("Z2 no such date\n"),
        TimeFault::OutOfRange => line_of("Z3 out of range\n"),
    }
}

/// The line of a card's fault.
fn line_of_card(fault: CardFault) -> FaultLine
    ensures { result.bytes ≡ card_line fault }
{
    match fault {
        CardFault::Truncated(offset) => line_at("C1 truncated block at ", offset as u64),
        CardFault::Twice(identifier, kind) => twice_line(identifier, kind),
        CardFault::NoIdentification => line_of("C3 no identification\n"),
        CardFault::ShortIdentification => line_of("C4 identification too short\n"),
        CardFault::TwoCards => line_of("C5 two cards\n"),
        CardFault::NoActivity => line_of("C6 no activity data\n"),
        CardFault::ShortActivity => line_of("C7 activity data too short\n"),
        CardFault::Pointer => line_of("C8 pointer out of the buffer\n"),
        CardFault::RecordLength(place) => line_at("C9 record length at ", place as u64),
        CardFault::Chain(place) => line_at("C10 chain broken at ", place as u64),
        CardFault::DayRange(place) => line_at("C11 day out of range at ", place as u64),
        CardFault::WordMinute(place) => line_at("C12 word minute at ", place as u64),
        CardFault::WordOrder(place) => line_at("C13 word order at ", place as u64),
        CardFault::SelfContradiction(minute) => {
            line_at_minute("C14 file contradicts itself at ", minute)
        }
        CardFault::Memory => line_of("M1 no memory\n"),
    }
}

/// The line of C2.
fn twice_line(identifier: u16, kind: u8) -> FaultLine
    ensures { result.bytes ≡ card_line (CardFault.Twice identifier kind) }
{
    let mut line = line_of("C2 block ");
    line.push_str(digits_of((identifier / 256) as u8).as_str());
    line.push_str(digits_of((identifier % 256) as u8).as_str());
    line.push_str(" ");
    line.push_str(digits_of(kind).as_str());
    line.push_str(" twice\n");
    line
}

/// The two hexadecimal digits of a byte.
fn digits_of(byte: u8) -> ArrayString<2>
    ensures text { result.bytes ≡ byte_digits byte }
    ensures len { array_string_len result ≡ 2 }
{
    let mut digits = ArrayString::new();
    digits.push(digit_of(byte / 16));
    digits.push(digit_of(byte % 16));
    digits
}

/// Appends the two hexadecimal digits of a byte.
fn push_byte(text: &mut String, byte: u8) -> Result<(), AllocError>
    ensures { OnOk result (string_bytes text.new ≡ string_bytes text.old ++ byte_digits byte) }
{
    text.push_str(digits_of(byte).as_str())
}

/// Appends the hexadecimal digits of bytes, two for each byte.
pub fn push_bytes(text: &mut String, bytes: &[u8]) -> Result<(), AllocError>
    ensures { OnOk result (string_bytes text.new ≡ string_bytes text.old ++ flat_map byte_digits bytes.now) }
{
    for byte in bytes {
        push_byte(text, *byte)?;
    }
    Ok(())
}

/// The hexadecimal digit of a number below sixteen.
fn digit_of(number: u8) -> char
    requires { number < 16 }
    ensures digit { result ≡ hexadecimal_digit number }
    ensures ascii { result < 128 }
{
    if number < 10 {
        char::from(b'0' + number)
    } else {
        char::from(b'a' - 10 + number)
    }
}

/// The line of an archive's refusal.
fn line_of_store(fault: StoreFault) -> FaultLine
    ensures { result.bytes ≡ store_line fault }
{
    match fault {
        StoreFault::DriverTaken => line_of("S1 driver taken\n"),
        StoreFault::KeyTaken => line_of("S2 key taken\n"),
        StoreFault::HolderTaken => line_of("S3 holder taken\n"),
        StoreFault::UnknownDriver => line_of("S4 unknown driver\n"),
        StoreFault::NotYourCard => line_of("S5 not your card\n"),
        StoreFault::Contradiction(minute) => line_at_minute("S6 contradiction at ", minute),
        StoreFault::UnknownEntry => line_of("S7 unknown entry\n"),
        StoreFault::AlreadyWithdrawn => line_of("S8 already withdrawn\n"),
        StoreFault::NotMonday => line_of("S9 not a Monday\n"),
        StoreFault::UnknownDownload => line_of("S10 unknown download\n"),
        StoreFault::Card(fault) => line_of_card(fault),
        StoreFault::Store => line_of("S12 store failed\n"),
        StoreFault::OldSchema => line_of("S13 old archive\n"),
        StoreFault::Full => line_of("S14 full\n"),
        StoreFault::Memory => line_of("M1 no memory\n"),
    }
}

/// The line of a fault of a text of CSV.
fn line_of_sheet(fault: SheetFault) -> FaultLine
    ensures { result.bytes ≡ sheet_line fault }
{
    match fault {
        SheetFault::Head => line_of("E1 wrong head\n"),
        SheetFault::Fields(row) => line_at("E2 wrong fields in row ", row),
        SheetFault::Time(row) => line_at("E3 bad time in row ", row),
        SheetFault::Order(row) => line_at("E4 wrong order in row ", row),
        SheetFault::LeftOut(row, left_out) => left_out_line(row, left_out),
        SheetFault::Activity(row) => line_at("E6 no such activity in row ", row),
        SheetFault::TooLong(row) => line_at("E7 too long in row ", row),
        SheetFault::Csv => line_of("E8 csv refused\n"),
        SheetFault::Column(column) => column_line(column),
        SheetFault::Text(row, column) => text_line(row, column),
        SheetFault::Memory => line_of("M1 no memory\n"),
    }
}

/// The line of E5.
fn left_out_line(row: u64, left_out: LeftOut) -> FaultLine
    ensures { result.bytes ≡ sheet_line (SheetFault.LeftOut row left_out) }
{
    let mut digits = Buffer::new();
    let mut line = line_of("E5 left out in row ");
    line.push_str(digits.format(row));
    line.push_str(": ");
    line.push_str(word_of(left_out));
    line.push_str("\n");
    line
}

/// The line of E9.
fn column_line(column: Column) -> FaultLine
    ensures { result.bytes ≡ sheet_line (SheetFault.Column column) }
{
    let mut line = line_of("E9 bad value for ");
    line.push_str(name_of(column));
    line.push_str("\n");
    line
}

/// The line of E10.
fn text_line(row: u64, column: Column) -> FaultLine
    ensures { result.bytes ≡ sheet_line (SheetFault.Text row column) }
{
    let mut digits = Buffer::new();
    let mut line = line_of("E10 bad ");
    line.push_str(name_of(column));
    line.push_str(" in row ");
    line.push_str(digits.format(row));
    line.push_str("\n");
    line
}

/// The name of an activity that is left out.
fn word_of(left_out: LeftOut) -> &'static str
    ensures text { result.now ≡ left_out_word left_out }
    ensures short { length result.now ≤ 10 }
{
    match left_out {
        LeftOut::Crew => "crew",
        LeftOut::Ferry => "ferry",
        LeftOut::Out => "out",
        LeftOut::Derogation => "derogation",
    }
}

/// The name of a column.
fn name_of(column: Column) -> &'static str
    ensures text { result.now ≡ column_name column }
    ensures short { length result.now ≤ 6 }
{
    match column {
        Column::Driver => "driver",
        Column::Holder => "holder",
        Column::Key => "key",
        Column::Base => "base",
        Column::Name => "name",
        Column::Author => "author",
        Column::Note => "note",
    }
}
