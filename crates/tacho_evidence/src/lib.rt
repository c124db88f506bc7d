//! The evidence for a breach: what a person needs to check it with pencil and paper.
#![tactic(auto)]

mod breaks;
mod choice;
mod daily;
mod debts;
mod driven;
mod late;
pub mod laws;
mod line;
mod periods;
mod report;
mod weeks;

pub use driven::DrivenSpan;
pub use line::EvidenceLine;
pub use report::{Evidence, evidence_within};
