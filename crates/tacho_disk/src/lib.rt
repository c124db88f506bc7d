//! What the program asks of the file system: an archive's files, why one can't be used, and card files. No contract can say what a file
//! system answers: only the comparison of two notes of an archive's files has one.
#![tactic(auto)]

mod cards;
mod cause;
mod fresh;
mod owned;
mod watched;

pub use cards::card_files;
pub use cause::cause_of;
pub use fresh::{Fresh, NotFresh};
pub use owned::{NotOwned, make_own, own_place};
pub use watched::Watched;
