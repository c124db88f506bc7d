//! What a person may do after a fault.

use tacho_desk::Fault;
use tacho_state::StoreFault;

/// The sentence if memory ran out.
const NO_MEMORY: &str = "memory ran out: end other programs and try again";

/// The sentence for a card file with a fault.
const NO_CARD: &str = "this is no whole card file: read the card again";

/// The sentence if a server can't have its port, or no connections there.
pub const NO_PORT: &str =
    "the port is taken or may not be used, or no connection can be accepted there";

/// The sentence if the store has failed under a server, or somebody else has changed, replaced or moved its files.
pub const LOST: &str =
    "its file or its log was moved, replaced or changed during service, or its disk failed";

/// The sentence if the place of a new archive is taken.
pub const TAKEN: &str =
    "it is there already, or a file with this name and -wal, .part or .part-wal after it; nothing was changed";

/// The sentence if a new archive can't be made or put in its place.
pub const NOT_MADE: &str =
    "it cannot be made: its folder does not exist or may not be written, or its disk is full";

/// The sentence if a driver can't be carried to a new archive.
pub const NOT_CARRIED: &str =
    "it cannot be read whole, or the new archive cannot be written; tacho check reads all of it";

/// The sentence before a service whose office has a driver's key.
pub const OFFICE_KEY: &str =
    "a driver has the office's key, and so all the rights of the office; give that driver another key";

/// The sentence after a command that gave a driver a key which others may guess.
pub const SHORT_KEY: &str =
    "others may guess a key of fewer than 20 characters; make one of 32 random letters and digits";

/// The sentence for a fault. docs/FORMATS.md lists them, 'All lines of faults'.
pub fn advice_on(fault: Fault) -> &'static str {
    match fault {
        Fault::Time(_) => "dates are written as 2024-03-04, months as 2024-03, times as 09:00",
        Fault::Card(_) => NO_CARD,
        Fault::Store(fault) => advice_on_store(fault),
        Fault::Sheet(_) => "nothing of this input was taken: correct it and give it again",
        Fault::Number => {
            "numbers are written without leading zeros; tacho drivers, entries and files list them"
        }
        Fault::Order => "the lower number comes first",
        Fault::Period => "FROM is before PAST, and PAST at most 366 days after it",
        Fault::Part => "PART is both, first or second",
        Fault::TooLarge => "a card file or a text has at most 262144 bytes",
        Fault::Device => "standard input can't be read, or standard output can't be written",
        Fault::Memory => NO_MEMORY,
    }
}

/// The sentence for a refusal of the archive, or if the store failed.
fn advice_on_store(fault: StoreFault) -> &'static str {
    match fault {
        StoreFault::DriverTaken => "another driver has this number; tacho drivers lists them",
        StoreFault::KeyTaken => "another driver has this key: make a new one",
        StoreFault::HolderTaken => "another driver has this card; tacho drivers lists them",
        StoreFault::UnknownDriver => {
            "no driver has this number, or the card in this file; tacho drivers lists them, tacho register adds one"
        }
        StoreFault::NotYourCard => "this is another driver's card",
        StoreFault::Contradiction(_) => {
            "another mark is held for this minute, and nothing was changed; tacho entries lists what was entered by hand"
        }
        StoreFault::UnknownEntry => "the driver has no such entry; tacho entries lists them",
        StoreFault::AlreadyWithdrawn => "this entry was withdrawn before",
        StoreFault::NotMonday => "the base is a Monday",
        StoreFault::UnknownDownload => "the driver has no such card file; tacho files lists them",
        StoreFault::Card(_) => NO_CARD,
        StoreFault::Store => LOST,
        StoreFault::OldSchema => {
            "the archive is of an earlier version: make a backup, then tacho migrate"
        }
        StoreFault::Full => "the driver has a million card files or entries",
        StoreFault::Memory => NO_MEMORY,
    }
}
