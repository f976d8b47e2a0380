//! What commands share: streams, printed lines, how a command ends, and what a call prints.
//!
//! Contracts see a reader and a writer as the bytes that they give and take, and whether a call of them has failed.
//!
//! Proved: unless a stream fails, `serve` writes all of the output with its status, or, if out of memory, whole lines
//! of it with status 3, and `deliver` writes an answer.
//!
//! Not proved: that standard input and output make one call of the system for each call. These streams can't say in a
//! contract whether they failed. `Progress` has no contract: it receives reports of long calls.
#![tactic(auto)]

pub mod answer;
pub mod command;
pub mod input;
pub mod output;
pub mod printing;
pub mod progress;
