//! The C library: controllers, channels and devices that the caller keeps, with one function for each call of
//! `dma330.h`.
//!
//! Proved: each call returns the code of the engine's answer and writes what the answer has (`Returns`); the calls
//! between an open and a close are calls of one engine (`laws::exchanges_are_the_engines`); a call that steps a channel
//! is a sequence of single steps over the caller's memory and flags, each code has its cause, and a refused call
//! changes nothing (`specs/Channels.antt`). Calls that load a transfer into a channel and step it have copied as many
//! bytes as the channel counts, and all when a report says that it signalled or ended, if nobody else writes what the
//! transfer reads or writes meanwhile (`laws::channel_calls_copy`). A call that explains a program writes what explains
//! it, or why and where it can't (`specs/Explaining.antt`); a call that plans writes the program of its transfer for a
//! bus (`PlansTransfer`). All calls on an open device, however many, are one history of the accesses that the laws of
//! `dma_device` are about (`laws::device_sessions_are_histories`).
//!
//! The proofs assume that the caller fulfils its duties (the head of dma330.h). Controllers and channels are zeros
//! before their first call, are not copied, and are used by one call at a time, ordered by a lock, a start, a join or a
//! sequentially consistent atomic. Pointers are not null, aligned, valid for their counts, and don't overlap except
//! for lists that are only read. Nobody else writes what a call reads or reads what it writes. No call comes from a
//! signal handler or from the child of a fork of a process with threads. Not proved: that a close frees everything.
#![tactic(auto)]

pub mod channel_calls;
pub mod channel_steps;
mod codes;
mod controller;
pub mod controller_calls;
pub mod device_calls;
mod device_config;
pub mod device_rows;
pub mod explaining;
mod heap_pointer;
mod kept;
mod kept_channel;
mod kept_device;
pub mod laws;
mod marked_channel;
pub mod plans;
pub mod programs;
mod reports;
mod steps;
