//! Worked cases of `tacho_desk`, `tacho_cli` and `tacho_http`, with readers and writers, as tests.
#![tactic(auto)]

#[cfg(test)]
mod carried;
#[cfg(test)]
mod commands;
#[cfg(test)]
mod connections;
#[cfg(test)]
mod desk;
#[cfg(test)]
mod faulty;
#[cfg(test)]
mod files;
#[cfg(test)]
mod handovers;
#[cfg(test)]
mod heads;
#[cfg(test)]
mod pages;
#[cfg(test)]
mod readings;
#[cfg(test)]
mod requests;
#[cfg(test)]
mod routes;
#[cfg(test)]
mod same;
#[cfg(test)]
mod streams;
