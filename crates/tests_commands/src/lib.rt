//! Tests of command lines on archives: in memory, of schema 1 that are migrated, and on disks that fail.
#![tactic(auto)]

#[cfg(test)]
mod commands;
#[cfg(test)]
mod disks;
#[cfg(test)]
mod migrations;
#[cfg(test)]
mod rows;
#[cfg(test)]
mod stops;
