use std::alloc::Global;
use std::io;
use tacho_card::{CardFault, CardFile, Part, spans};
use tacho_time::write_span;

/// Prints the lines of the spans that a part of a file gives, or its fault.
pub(crate) fn answer(rt: &impl Print, alloc: Global, bytes: &[u8], part: Part) -> io::Result<()> {
    match lines_of(alloc, bytes, part) {
        Ok(lines) => print!(rt; "{lines}"),
        Err(fault) => println!(rt; "{fault:?}"),
    }
}

/// Returns the lines of the spans that a part of a file gives, or its fault.
fn lines_of(alloc: Global, bytes: &[u8], part: Part) -> Result<String, CardFault> {
    let file = CardFile::read(bytes)?;
    let mut lines = String::new(alloc);
    for span in &spans(alloc, &file, part)? {
        write_span(&mut lines, span)?;
    }
    Ok(lines)
}
