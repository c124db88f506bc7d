//! Tests of archives through `Keeper`: what an archive answers, however it is kept; and of their tables.
#![tactic(auto)]

#[cfg(test)]
mod archives;
#[cfg(test)]
mod carries;
#[cfg(test)]
mod checked;
#[cfg(test)]
mod rows;
#[cfg(test)]
mod same;
#[cfg(test)]
mod step;
#[cfg(test)]
mod stored;
#[cfg(test)]
mod stretch_rows;
#[cfg(test)]
mod tables;
