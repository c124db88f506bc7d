//! Driver cards: the blocks of a file, words, the cyclic buffer of daily records, and what they give.
#![tactic(auto)]

mod blocks;
mod cyclic;
mod fault;
mod file;
pub mod laws;
mod reading;
mod record;
mod records;
mod word;

pub use blocks::{Block, Blocks};
pub use cyclic::Cyclic;
pub use fault::CardFault;
pub use file::{CardFile, Part};
pub use reading::{spans, spans_of};
pub use record::Record;
pub use records::Records;
pub use word::Word;
