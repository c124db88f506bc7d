//! Answers requests over HTTP on a port of 127.0.0.1, one connection after the other, for any archive.
#![tactic(auto)]

mod accepting;
mod held;
mod key;
mod serving;
mod timed;
mod waiting;

pub use key::OfficeKey;
pub use serving::{Place, ServeFault, serve};
