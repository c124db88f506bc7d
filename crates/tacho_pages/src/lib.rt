//! The page files, which a browser gets from `tacho listen` without a key.
#![tactic(auto)]

mod files;

pub use files::page_files;
