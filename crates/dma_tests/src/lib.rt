//! Tests of what no contract says, no row of the top-level `tests/` shows, and no test in C or Rust reaches; examples
//! that were worked out by hand, each on the function that it is about; and an example of the calls in Rattle. They
//! have a crate of their own, because the gate proves a crate with tests twice, the second time with its tests.
#![tactic(auto)]

#[cfg(test)]
mod ahead;
#[cfg(test)]
mod blocks;
#[cfg(test)]
mod checkpoints;
#[cfg(test)]
mod chip;
#[cfg(test)]
mod codes;
#[cfg(test)]
mod commands;
#[cfg(test)]
mod desk_refused;
#[cfg(test)]
mod engine_refused;
#[cfg(test)]
mod engine_stops;
#[cfg(test)]
mod example;
#[cfg(test)]
mod gates;
#[cfg(test)]
mod lists;
#[cfg(test)]
mod marked;
#[cfg(test)]
mod memory_refused;
#[cfg(test)]
mod programs;
#[cfg(test)]
mod ranges;
#[cfg(test)]
mod rounds;
#[cfg(test)]
mod scripts;
#[cfg(test)]
mod statuses;
#[cfg(test)]
mod stops;
#[cfg(test)]
mod streams;
#[cfg(test)]
mod transfers;
#[cfg(test)]
mod transfers_refused;
#[cfg(test)]
mod turns;
#[cfg(test)]
mod work_in_turn;
#[cfg(test)]
mod workers;
#[cfg(test)]
mod workers_refused;
