use tacho_time::{Minute, Span};

/// An examined line: spans that follow one another from `base`, a Monday, to before `past`, the horizon.
#[derive(Clone, Copy)]
pub struct Examined<'a> {
    pub spans: &'a [Span],
    pub base: Minute,
    pub past: Minute,
}
