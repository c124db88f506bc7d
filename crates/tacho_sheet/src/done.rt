ghost use Rattle.std.specs.Prelude.{◌≡◌, ◌≤◌, ◌+◌, ◌++◌, codes, decimal, length};
ghost use Rattle.arrayvec.specs.ArrayVec.{array_vec_len};
ghost use Rattle.tacho_sheet.specs.Done.{base_line as line_of_base, entered_text, imported_text, number_line, withdrawn_text};

use arrayvec::ArrayVec;
use itoa::Buffer;
use tacho_state::{Entered, Imported};
use tacho_time::{Day, day_line};

/// The most bytes that the line of a command that was done can have.
const ROOM: usize = 64;

/// The line of a command that was done. Allocates no memory.
pub type DoneLine = ArrayVec<u8, 64>;

/// The line after a registration: `registered 17`.
pub fn registered_line(driver: u32) -> DoneLine
    ensures { result.items ≡ number_line (codes "registered ") driver }
{
    let mut line = begun(b"registered ");
    put_number(&mut line, driver.into());
    put(&mut line, b"\n");
    line
}

/// The line after a withdrawal: `withdrawn 1`.
pub fn withdrawn_line(number: u32) -> DoneLine
    ensures { result.items ≡ number_line (codes "withdrawn ") number }
{
    let mut line = begun(b"withdrawn ");
    put_number(&mut line, number.into());
    put(&mut line, b"\n");
    line
}

/// The line after a withdrawal of a range: `withdrawn 1 to 672`.
pub fn withdrawn_range_line(first: u32, last: u32) -> DoneLine
    ensures { result.items ≡ withdrawn_text first last }
{
    let mut line = begun(b"withdrawn ");
    put_number(&mut line, first.into());
    put(&mut line, b" to ");
    put_number(&mut line, last.into());
    put(&mut line, b"\n");
    line
}

/// The line after an import: `added driver 17 number 1`, or `repeated driver 17`.
pub fn imported_line(imported: Imported) -> DoneLine
    ensures { result.items ≡ imported_text imported }
{
    match imported {
        Imported::Added { driver, number } => added_line(driver, number),
        Imported::Repeated { driver } => {
            let mut line = begun(b"repeated driver ");
            put_number(&mut line, driver.into());
            put(&mut line, b"\n");
            line
        }
    }
}

/// The line of a download that was added.
fn added_line(driver: u32, number: u32) -> DoneLine
    ensures { result.items ≡ imported_text (Imported.Added driver number) }
{
    let mut line = begun(b"added driver ");
    put_number(&mut line, driver.into());
    put(&mut line, b" number ");
    put_number(&mut line, number.into());
    put(&mut line, b"\n");
    line
}

/// The line after hours were entered: `entered 1 to 3`, or `entered none` if there were no lines.
pub fn entered_line(entered: Entered) -> DoneLine
    ensures { result.items ≡ entered_text entered.first entered.count }
{
    if entered.count == 0 {
        return begun(b"entered none\n");
    }
    let last = u64::from(entered.first) + u64::from(entered.count) - 1;
    let mut line = begun(b"entered ");
    put_number(&mut line, entered.first.into());
    put(&mut line, b" to ");
    put_number(&mut line, last);
    put(&mut line, b"\n");
    line
}

/// The line after a base was set: `base 2024-03-04`.
pub fn base_line(day: Day) -> DoneLine
    ensures { result.items ≡ line_of_base day }
{
    let mut line = begun(b"base ");
    put(&mut line, day_line(day).as_str().as_bytes());
    put(&mut line, b"\n");
    line
}

/// The line after a key was set: `key 17`.
pub fn key_line(driver: u32) -> DoneLine
    ensures { result.items ≡ number_line (codes "key ") driver }
{
    let mut line = begun(b"key ");
    put_number(&mut line, driver.into());
    put(&mut line, b"\n");
    line
}

/// The line after a name was set: `name 17`.
pub fn name_line(driver: u32) -> DoneLine
    ensures { result.items ≡ number_line (codes "name ") driver }
{
    let mut line = begun(b"name ");
    put_number(&mut line, driver.into());
    put(&mut line, b"\n");
    line
}

/// A line that begins with these bytes.
fn begun(front: &[u8]) -> DoneLine
    requires { length front.now ≤ 16 }
    ensures items { result.items ≡ front.now }
    ensures len { array_vec_len result ≡ length front.now }
{
    let mut line = ArrayVec::new();
    put(&mut line, front);
    line
}

/// Appends bytes, for which there is room.
fn put(line: &mut DoneLine, bytes: &[u8])
    requires { array_vec_len line.old + length bytes.now ≤ ROOM }
    ensures items { line.new.items ≡ line.old.items ++ bytes.now }
    ensures len { array_vec_len line.new ≡ array_vec_len line.old + length bytes.now }
{
    if line.try_extend_from_slice(bytes).is_err() {
        unreachable!()
    }
}

/// Appends a number in decimal.
fn put_number(line: &mut DoneLine, number: u64)
    requires { array_vec_len line.old + 20 ≤ ROOM }
    ensures items { line.new.items ≡ line.old.items ++ decimal number }
    ensures len { array_vec_len line.new ≤ array_vec_len line.old + 20 }
{
    let mut digits = Buffer::new();
    put(line, digits.format(number).as_bytes());
}
