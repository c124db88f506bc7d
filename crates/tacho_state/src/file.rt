ghost use Rattle.std.specs.Prelude.{◌≡◌, ◌-◌, length, slice_get};
ghost use Rattle.tacho_state.specs.Numbers.{part_number};
ghost use Rattle.tacho_state.specs.Files.{listed_file, past_of, start_of, told_file};

use sha2::{Digest, Sha256};
use tacho_card::Part;
use tacho_time::{Minute, Span};

/// What the list of a driver's card files says of one.
#[derive(Debug, Drop)]
pub struct FileSummary {
    /// The number among the driver's card files.
    pub number: u32,
    /// The part that was read.
    pub part: Part,
    /// The length of the file in bytes.
    pub length: usize,
    /// The first minute that the part gives.
    pub first: Minute,
    /// The minute after the last one that the part gives.
    pub past: Minute,
    /// The SHA-256 digest of the file.
    pub digest: [u8; 32],
}

/// Describes a card file from which a part was read. The part gives these spans, in order. Without any span, `first` and `past` are 0; but the
/// archive keeps no such file.
pub fn file_summary(number: u32, part: Part, file: &[u8], spans: &[Span]) -> FileSummary
    ensures { told_file result ≡ listed_file number (record {
      part = part_number part;
      file = file.now;
      spans = spans.now;
    }) }
{
    FileSummary {
        number,
        part,
        length: file.len(),
        first: first_minute(spans),
        past: past_minute(spans),
        digest: Sha256::digest(file),
    }
}

/// The start of the first span, or 0.
fn first_minute(spans: &[Span]) -> Minute
    ensures { result ≡ start_of (slice_get spans.now 0) }
{
    match spans.first() {
        Some(span) => span.start,
        None => Minute::new(0),
    }
}

/// The past of the last span, or 0.
fn past_minute(spans: &[Span]) -> Minute
    ensures { result ≡ past_of (slice_get spans.now (length spans.now - 1)) }
{
    match spans.last() {
        Some(span) => span.past,
        None => Minute::new(0),
    }
}
