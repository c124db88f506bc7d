//! Worked cases of the crates from `tacho_time` to `tacho_sheet`, as tests. All these crates are proved once more for them. With tests in
//! each crate, each would have to be proved twice.
#![tactic(auto)]

#[cfg(test)]
mod devices;
#[cfg(test)]
mod drivers;
#[cfg(test)]
mod each_pass;
#[cfg(test)]
mod evidence;
#[cfg(test)]
mod files;
#[cfg(test)]
mod hours;
#[cfg(test)]
mod lines;
#[cfg(test)]
mod march;
#[cfg(test)]
mod passes;
#[cfg(test)]
mod pieces;
#[cfg(test)]
mod readings;
#[cfg(test)]
mod reports;
#[cfg(test)]
mod same;
#[cfg(test)]
mod scans;
#[cfg(test)]
mod sheets;
#[cfg(test)]
mod stretches;
#[cfg(test)]
mod time;
#[cfg(test)]
mod values;
