//! The rules on weekly rests over an examined line whose spans come one at a time (Articles 8(6), 8(6b) and 8(9) of Regulation (EC) No
//! 561/2006, as amended by (EU) 2020/1054): late rests, weeks that lack rests, and debts. The working state has a fixed size.
#![tactic(auto)]

mod compensation;
mod due_debts;
mod few;
mod late_rest;
pub mod laws;
mod missing_rest;
mod payment;
mod week_rests;

pub use compensation::Ledger;
pub use late_rest::Late;
pub use missing_rest::Choices;
pub use week_rests::{RestRules, WeekRests};
