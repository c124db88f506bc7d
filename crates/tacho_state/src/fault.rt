use std::alloc::{AllocError, AllocFailed};
use tacho_card::CardFault;
use tacho_time::Minute;
use thiserror::Error;

/// Why a command or a reading of an archive was refused. Nothing has changed after any of these.
#[derive(Clone, Copy, Debug, PartialEq, Eq, Error)]
pub enum StoreFault {
    /// S1: a driver with this number exists.
    #[error("the driver's number is taken")]
    DriverTaken,
    /// S2: a driver with this key exists.
    #[error("the driver's key is taken")]
    KeyTaken,
    /// S3: a driver with this holder exists.
    #[error("the card's holder is taken")]
    HolderTaken,
    /// S4: no driver has this number, or the file's holder.
    #[error("unknown driver")]
    UnknownDriver,
    /// S5: a driver imports a card of another holder.
    #[error("another holder's card")]
    NotYourCard,
    /// S6: the least minute to which two marks would be given.
    #[error("two marks at {0}")]
    Contradiction(Minute),
    /// S7: no entry of the driver has this number.
    #[error("unknown entry")]
    UnknownEntry,
    /// S8: the entry is withdrawn already.
    #[error("the entry is withdrawn already")]
    AlreadyWithdrawn,
    /// S9: the day isn't a Monday.
    #[error("not a Monday")]
    NotMonday,
    /// S10: no download of the driver has this number.
    #[error("unknown download")]
    UnknownDownload,
    /// S11: the first fault of the card file; never out of memory.
    #[error("{0}")]
    Card(CardFault),
    /// S12: the store failed, or gave a row that no archive writes.
    #[error("the store failed")]
    Store,
    /// S13: the archive's tables have schema 1; `migrate` carries them over.
    #[error("an old archive")]
    OldSchema,
    /// S14: no further number is given out.
    #[error("no further number")]
    Full,
    /// Out of memory.
    #[error("no memory")]
    Memory,
}

impl<T: Drop> From<AllocFailed<T>> for StoreFault {
    ghost use Rattle.std.specs.Prelude.{◌≡◌};
    ghost use Rattle.tacho_state.specs.declared.fault.StoreFault.TheVariants.{Memory};

    ghost from_gives = { λ _ fault. fault ≡ Memory };

    fn from(_: AllocFailed<T>) -> StoreFault {
        StoreFault::Memory
    }
}

impl From<AllocError> for StoreFault {
    ghost use Rattle.std.specs.Prelude.{◌≡◌};
    ghost use Rattle.tacho_state.specs.declared.fault.StoreFault.TheVariants.{Memory};

    ghost from_gives = { λ _ fault. fault ≡ Memory };

    fn from(_: AllocError) -> StoreFault {
        StoreFault::Memory
    }
}

impl From<CardFault> for StoreFault {
    ghost use Rattle.std.specs.Prelude.{◌≡◌};
    ghost use Rattle.tacho_state.specs.Content.{fault_of_card};

    ghost from_gives = { λ card fault. fault ≡ fault_of_card card };

    fn from(card: CardFault) -> StoreFault {
        match card {
            CardFault::Memory => StoreFault::Memory,
            _ => StoreFault::Card(card),
        }
    }
}
