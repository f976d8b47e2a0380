//! Finds what a channel's program copies and what it sets to 0, by one run without memory.
//!
//! Proved: `explain::explain` finds the work that explains a program (`Explains`) and its events, or why and where
//! there is none (`laws::refused_is_unexplained`). A transfer explains its program that was compiled for a bus
//! (`compiled_is_explained`). Run alone, an explained program without DMAWFE makes one simultaneous copy
//! (`explained_copies_alone`). Over lent memory, it has copied and set to 0 as many bytes as the channel counts, and all
//! of them at its end, if since its load nobody else wrote what the work reads or writes; its signals and waits are the
//! program's (`copies_since_load`, `channels_copy`). Until its end it writes only what the work writes and reads only
//! its sources (`writes_its_destinations`, `reads_its_sources`).
//!
//! Not proved: that an allocation succeeds.
#![tactic(auto)]

pub mod explain;
pub mod laws;
