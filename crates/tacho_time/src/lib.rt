//! Minutes, days, marks and spans, their texts, and streams to read bytes from and write bytes to.
#![tactic(auto)]

mod canonical;
mod day;
mod device;
mod fault;
pub mod laws;
mod lines;
mod minute;
mod month;
mod read;
mod span;
mod text;
mod week;
mod whole;

pub use canonical::{SpanFault, canonical_spans};
pub use day::{Day, FIRST_DAY, GREATEST_DAY, LAST_DAY};
pub use device::{Device, Failed, Sink, Source};
pub use fault::TimeFault;
pub use jiff_core::civil::Weekday;
pub use lines::span_lines;
pub use minute::{GREATEST_MINUTE, Minute};
pub use month::{Month, month_range};
pub use span::{Activity, Mark, Span};
pub use text::{day_line, minute_line, write_day, write_minute, write_span};
pub use week::{Week, first_minute, next_week, week_of, weekday};
pub use whole::{ReadFault, read_all, write_all};
