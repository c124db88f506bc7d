use std::alloc::AllocError;
use tacho_card::CardFault;
use tacho_state::{Column, StoreFault};
use tacho_time::{ReadFault, TimeFault};
use thiserror::Error;

/// The name of an activity that the archive leaves out.
#[derive(Clone, Copy, Debug, PartialEq, Eq)]
pub enum LeftOut {
    /// `crew`: with a second driver.
    Crew,
    /// `ferry`: on a ferry or a train.
    Ferry,
    /// `out`: out of scope.
    Out,
    /// `derogation`: with permission to depart from the rules.
    Derogation,
}

/// Why a text of CSV was refused: its first fault, row by row, and within a row in the order of the variants. The head is row 1.
#[derive(Clone, Copy, Debug, PartialEq, Eq, Error)]
pub enum SheetFault {
    /// E1: there is no head, or it has other fields.
    #[error("wrong head")]
    Head,
    /// E2: the row doesn't have as many fields as the head.
    #[error("wrong fields in row {0}")]
    Fields(u64),
    /// E3: the start or the past can't be read.
    #[error("bad time in row {0}")]
    Time(u64),
    /// E4: the start isn't before the past, or it is before the past of the row before.
    #[error("wrong order in row {0}")]
    Order(u64),
    /// E5: the activity is one that the archive leaves out.
    #[error("left out in row {0}")]
    LeftOut(u64, LeftOut),
    /// E6: the activity is none of the four.
    #[error("no such activity in row {0}")]
    Activity(u64),
    /// E7: the row has more than 527,040 minutes (366 days).
    #[error("too long in row {0}")]
    TooLong(u64),
    /// E8: the reader of CSV refused the text, for a cause other than memory.
    #[error("csv refused")]
    Csv,
    /// E9: a driver's value is out of its limits, and the values before it are within theirs.
    #[error("bad value for a driver's column")]
    Column(Column),
    /// E10: the author or the note of the row is out of its limits.
    #[error("bad text in row {0}")]
    Text(u64, Column),
    /// Out of memory.
    #[error("no memory")]
    Memory,
}

/// Why something was not done. Each fault has a line.
#[derive(Clone, Copy, Debug, PartialEq, Eq)]
pub enum Fault {
    /// A date, a month or a minute can't be read.
    Time(TimeFault),
    /// A card file has a fault, other than that memory ran out.
    Card(CardFault),
    /// The archive refused, other than for a fault of a card file, or the store failed.
    Store(StoreFault),
    /// A text of CSV or a key has a fault, other than that memory ran out.
    Sheet(SheetFault),
    /// N1: the number of a driver, an entry or a download is out of its limits, or isn't a number.
    Number,
    /// N2: the second number of a range is less than the first.
    Order,
    /// Z4: a period ends before it begins, is empty, or has more than 527,040 minutes (366 days).
    Period,
    /// P1: no part of a card file has this name.
    Part,
    /// X1: the input is over the limit.
    TooLarge,
    /// X2: the reader or the writer failed.
    Device,
    /// M1: out of memory.
    Memory,
}

impl From<ReadFault> for Fault {
    ghost use Rattle.std.specs.Prelude.{◌≡◌};
    ghost use Rattle.tacho_sheet.specs.Fault.{read_fault};

    ghost from_gives = { λ fault gives. gives ≡ read_fault fault };

    fn from(fault: ReadFault) -> Fault {
        match fault {
            ReadFault::TooLarge => Fault::TooLarge,
            ReadFault::Failed => Fault::Device,
            ReadFault::Memory => Fault::Memory,
        }
    }
}

impl From<CardFault> for Fault {
    ghost use Rattle.std.specs.Prelude.{◌≡◌};
    ghost use Rattle.tacho_sheet.specs.Fault.{card_fault};

    ghost from_gives = { λ fault gives. gives ≡ card_fault fault };

    fn from(fault: CardFault) -> Fault {
        match fault {
            CardFault::Memory => Fault::Memory,
            fault => Fault::Card(fault),
        }
    }
}

impl From<StoreFault> for Fault {
    ghost use Rattle.std.specs.Prelude.{◌≡◌};
    ghost use Rattle.tacho_sheet.specs.Fault.{fault_of_store};

    ghost from_gives = { λ fault gives. gives ≡ fault_of_store fault };

    fn from(fault: StoreFault) -> Fault {
        match fault {
            StoreFault::Memory => Fault::Memory,
            StoreFault::Card(fault) => Fault::from(fault),
            fault => Fault::Store(fault),
        }
    }
}

impl From<SheetFault> for Fault {
    ghost use Rattle.std.specs.Prelude.{◌≡◌};
    ghost use Rattle.tacho_sheet.specs.Fault.{sheet_fault};

    ghost from_gives = { λ fault gives. gives ≡ sheet_fault fault };

    fn from(fault: SheetFault) -> Fault {
        match fault {
            SheetFault::Memory => Fault::Memory,
            fault => Fault::Sheet(fault),
        }
    }
}

impl From<TimeFault> for Fault {
    ghost use Rattle.std.specs.Prelude.{◌≡◌};
    ghost use Rattle.tacho_sheet.specs.Fault.{time_fault};

    ghost from_gives = { λ fault gives. gives ≡ time_fault fault };

    fn from(fault: TimeFault) -> Fault {
        Fault::Time(fault)
    }
}

impl From<AllocError> for Fault {
    ghost use Rattle.std.specs.Prelude.{◌≡◌};
    ghost use Rattle.tacho_sheet.specs.declared.fault.Fault.TheVariants.{Memory};

    ghost from_gives = { λ _ gives. gives ≡ Memory };

    fn from(_: AllocError) -> Fault {
        Fault::Memory
    }
}
