//! Requests to an archive over HTTP/1.1, and their replies: who may ask for what, and what is answered.
#![tactic(auto)]

mod checks;
mod connections;
mod exchange;
pub mod laws;
mod pages;
mod places;
mod response;

pub use connections::{answer_all, answer_all_or_pages};
pub use exchange::{IoFault, Served, answer, answer_or_page};
pub use places::Routes;
pub use tacho_message::{PageFile, Status};
