//! The single-threaded commands `run`, `asm`, `dis` and `plan`, over a reader and a writer.
//!
//! Proved: what each command prints is a function of the bytes of its input (`run_script`, `asm_main`, `dis_main`,
//! `plan_main`, by `serve` of `dma_io`). A script prints the replies of a new engine to the script's list of calls
//! (`laws::scripts_print_answers`), and leaves a sound view (`laws::scripts_leave_sound`). `asm` and `dis` print what
//! the relations between texts and programs say (`asm_prints`, `dis_prints`). The limit for the steps of a `copy` or
//! `fill` line cuts none of them off (`copies_end`). A race is a run with step lines in place of `go`
//! (`laws::races_are_runs`).
//!
//! Not proved: that the command doesn't stop early as if it were out of memory.
#![tactic(auto)]

pub mod asm;
pub mod dis;
pub mod laws;
pub mod plan;
pub mod printing;
pub mod run;
pub mod transfers;
