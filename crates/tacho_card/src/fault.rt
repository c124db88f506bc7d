use std::alloc::AllocError;
use tacho_time::{Minute, SpanFault};
use thiserror::Error;

/// Why a driver card file, or a part of it, isn't read. Places are in bytes; the place of a record or a word is that in the cyclic buffer.
#[derive(Clone, Copy, Debug, PartialEq, Eq, Error)]
pub enum CardFault {
    /// C1: the head or the value of the block at this offset extends past the file's end.
    #[error("the block at {0} goes past the end of the file")]
    Truncated(usize),
    /// C2: a second block of EF Driver_Activity_Data or EF Identification, of kind 00 or 02, with this identifier and kind.
    #[error("a second block {0:04x} of kind {1:02x}")]
    Twice(u16, u8),
    /// C3: no EF Identification of kind 00 or 02.
    #[error("no identification")]
    NoIdentification,
    /// C4: an EF Identification has fewer than 17 bytes.
    #[error("an identification has fewer than 17 bytes")]
    ShortIdentification,
    /// C5: the identifications of the two generations name different holders.
    #[error("two holders")]
    TwoCards,
    /// C6: the file has no EF Driver_Activity_Data for the part that was asked for.
    #[error("no activity data")]
    NoActivity,
    /// C7: activity data has fewer than 16 bytes.
    #[error("activity data has fewer than 16 bytes")]
    ShortActivity,
    /// C8: a pointer is not in the cyclic buffer.
    #[error("a pointer is not in the buffer")]
    Pointer,
    /// C9: the length of the record at this place is below 12, odd, or above that of the buffer.
    #[error("the record at {0} has no possible length")]
    RecordLength(usize),
    /// C10: with the record at this place, the lengths add up to more than the buffer's.
    #[error("the records up to the one at {0} are longer than the buffer")]
    Chain(usize),
    /// C11: the day of the record at this place is not from 2000-01-03 to 2099-12-31.
    #[error("the day of the record at {0} is out of range")]
    DayRange(usize),
    /// C12: the minute of the word at this place is 1440 or more.
    #[error("the word at {0} has no minute of a day")]
    WordMinute(usize),
    /// C13: the minute of the word at this place is below that of the word before.
    #[error("the word at {0} goes back in time")]
    WordOrder(usize),
    /// C14: the least minute with two marks.
    #[error("two marks at {0}")]
    SelfContradiction(Minute),
    /// Out of memory.
    #[error("no memory")]
    Memory,
}

impl From<AllocError> for CardFault {
    ghost use Rattle.std.specs.Prelude.{◌≡◌};
    ghost use Rattle.tacho_card.specs.declared.fault.CardFault.TheVariants.{Memory};

    ghost from_gives = { λ _ e. e ≡ Memory };

    fn from(_: AllocError) -> CardFault {
        CardFault::Memory
    }
}

impl From<SpanFault> for CardFault {
    ghost use Rattle.std.specs.Prelude.{◌≡◌};
    ghost use Rattle.tacho_card.specs.Reading.{fault_of_spans};

    ghost from_gives = { λ fault e. e ≡ fault_of_spans fault };

    fn from(fault: SpanFault) -> CardFault {
        match fault {
            SpanFault::Contradiction(minute) => CardFault::SelfContradiction(minute),
            SpanFault::Memory => CardFault::Memory,
        }
    }
}
