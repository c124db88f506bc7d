//! The jobs of the program `tacho` at the store of an archive: what each does there, what it writes, and the program's status after it.
#![tactic(auto)]

mod checked;
mod done;
mod ended;
mod imported;
mod made;
mod served;

pub use checked::check_at;
pub use done::do_at;
pub use ended::{Ended, refuse};
pub use imported::import_at;
pub use made::{init_at, migrate_at};
pub use served::serve_at;
