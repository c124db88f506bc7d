//! What a driver may still do: how long driving may go on from a minute before a rule on driving and rest hours is broken.
#![tactic(auto)]

mod broken;
pub mod laws;
mod limits;
mod open;
mod outlook;
mod plan;
mod search;
mod used;

pub use limits::Limits;
pub use open::{is_in_time, is_open};
pub use outlook::{Outlook, look_ahead, open_debts};
pub use used::Used;
