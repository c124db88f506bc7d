use std::alloc::{AllocError, Global};
use std::io;
use tacho_sheet::{Fault, SheetFault, fault_line, push_bytes, read_driver, read_entries};
use tacho_state::{Driver, EntryLine};

/// Prints the line of a fault.
fn tell_fault(rt: &impl Print, fault: SheetFault) -> io::Result<()> {
    print!(rt; "{}", fault_line(Fault::Sheet(fault)).as_str())
}

/// Prints entered hours, one per line: start, past, activity, author and note; the last two are in double quotes.
fn print_lines(rt: &impl Print, lines: &[EntryLine]) -> io::Result<()> {
    for line in lines {
        let (start, past) = (line.start().number(), line.past().number());
        println!(rt;
            "{start} {past} {} \"{}\" \"{}\"",
            line.activity().name(),
            line.author(),
            line.note()
        )?;
    }
    Ok(())
}

/// Prints the hours that a CSV text enters, or the line of its first fault.
pub(crate) fn tell_entries(rt: &impl Print, alloc: Global, bytes: &[u8]) -> io::Result<()> {
    match read_entries(alloc, bytes) {
        Ok(lines) => print_lines(rt, &lines),
        Err(fault) => tell_fault(rt, fault),
    }
}

/// Returns bytes in hexadecimal digits.
fn digits_of(alloc: Global, bytes: &[u8]) -> Result<String, AllocError> {
    let mut digits = String::new(alloc);
    push_bytes(&mut digits, bytes)?;
    Ok(digits)
}

/// Prints a driver: number, holder, key, the number of the base's day, and name.
fn print_driver(rt: &impl Print, alloc: Global, driver: &Driver) -> io::Result<()> {
    let Ok(holder) = digits_of(alloc, driver.holder()) else {
        return println!(rt; "M1 no memory");
    };
    let (number, base) = (driver.number(), driver.base().number());
    println!(rt;
        "{number} {holder} {} {base} {}",
        driver.key(),
        driver.name()
    )
}

/// Prints the driver that a CSV text registers, or the line of its first fault.
pub(crate) fn tell_driver(rt: &impl Print, alloc: Global, bytes: &[u8]) -> io::Result<()> {
    match read_driver(alloc, bytes) {
        Ok(driver) => print_driver(rt, alloc, &driver),
        Err(fault) => tell_fault(rt, fault),
    }
}
