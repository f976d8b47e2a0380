//! Races in one thread: a script of `dmasim race` whose jobs' turns are taken in the order that a seed determines.
//!
//! Proved: the turns for a seed are an interleaving of the jobs' turns, and what is printed, a function of script and
//! seed (`race_by_seed`), is one of the texts that `dmasim race` may print, if the script isn't too long for it
//! (`laws::seeds_interleave`): that of `run` with those turns as `step` lines in place of `go`, but with the line of
//! `go` in place of the lines of the steps (`laws::races_are_runs`). `race_by_seed` returns that script of `run`, too,
//! and `race_by_seeds` which outputs the seeds of a range give (`seeds_printed`). This is so for a script without its
//! `expect` lines; whether these hold is a function of script and seed, too (`verdict`), and of script and range
//! (`seeds_verdict`). The message for a fault is a function of the script and the fault (`fault_text`), that for the
//! first fault of a race script of the script (`race_message`).
//!
//! Not proved: that no call is out of memory.
#![tactic(auto)]

pub mod expect;
pub mod faults;
pub mod laws;
pub mod outputs;
pub mod race;
pub mod script;
pub mod seeds;
pub mod turns;
