use crate::run::Run;

/// A duty day: from the end of one rest of nine hours or more to the start of the next, which is its daily rest (Article 8 of Regulation
/// (EC) No 561/2006).
#[derive(Clone, Copy, Debug, PartialEq, Eq)]
pub struct DutyDay {
    pub start: u32,
    pub past: u32,
    pub rest: Run,
}
