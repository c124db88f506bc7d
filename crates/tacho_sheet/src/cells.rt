//! Cells of CSV that may be empty.

ghost use Rattle.std.specs.Prelude.{◌≡◌};
ghost use Rattle.tacho_sheet.specs.Cells.{held_to};

use std::fmt;
use tacho_time::Minute;

/// A cell with a minute. It is empty if there is none.
#[derive(Clone, Copy)]
pub(crate) struct MinuteCell {
    pub(crate) minute: Option<Minute>,
}

impl fmt::Display for MinuteCell {
    ghost use Rattle.std.specs.Prelude.{Some};
    ghost use Rattle.tacho_sheet.specs.Cells.{minute_cell};

    ghost output = { λ cell. Some (minute_cell cell.minute) };

    fn fmt<W: fmt::Write>(&self, f: &mut fmt::Formatter<W>) -> fmt::Result {
        match self.minute {
            Some(minute) => write!(f, "{minute}"),
            None => Ok(()),
        }
    }
}

/// The cell of the end of what is held. It is empty if nothing is held from the base on.
pub(crate) fn held_cell(base: Minute, end: Minute) -> MinuteCell
    ensures { result.minute ≡ held_to base end }
{
    let minute = if base < end { Some(end) } else { None };
    MinuteCell { minute }
}
