//! Scripts of `dmasim`: lines and words, statements with their faults, and how the lines of a script run.
//!
//! Contracts see a script as its statements, or its first fault with its line.
//!
//! Proved: what `read_run_script`, `read_race_script`, `read_plan` and `read_pairs` return is a function of the input;
//! the reported fault is the first of the table that also defines what lines mean (`laws::first_faults_are_reported`);
//! `List::run` runs all lines, or those before the one that is out of memory.
#![tactic(auto)]

mod arguments;
pub mod fault;
pub mod interpreter;
pub mod kept;
pub mod laws;
pub mod lines;
pub mod list;
pub mod pairs;
pub mod race;
pub mod statements;
pub mod transfer_line;
pub mod words;
