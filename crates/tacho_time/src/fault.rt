use thiserror::Error;

/// Why a text isn't read as a day, a minute or a month. If several apply, the first is reported.
#[derive(Clone, Copy, Debug, PartialEq, Eq, Error)]
pub enum TimeFault {
    /// Z1: not the digits and separators of this form.
    #[error("not of the shape")]
    Shape,
    /// Z2: no such month, day of the Gregorian calendar, hour or minute.
    #[error("no such date")]
    NoSuchDate,
    /// Z3: outside 2000-01-03 to 2099-12-31; for a month, outside the years 2000 to 2099.
    #[error("out of range")]
    OutOfRange,
}
