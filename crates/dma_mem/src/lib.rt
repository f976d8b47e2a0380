//! Memory, transfers, marks and event flags; and the calls on an engine.
//!
//! Contracts see a [`memory::Memory`] as its image, which has a byte for each address, and which of its pages are made;
//! a [`transfer::Transfer`] as its lists and events; [`marks::Marks`] as a list of ranges with their kinds; a
//! [`range_set::RangeSet`] as rising ranges that don't touch; a list as its items.
//!
//! Proved: a transfer is accepted exactly if the nine rules hold, and otherwise the first broken rule is reported
//! (`Transfer::new`, `Transfer::fill`); a memory is an array of bytes, and a call that fails doesn't change its image
//! (`Memory::write`, `read_into`, `prepare`); a call makes only the pages that it has to write (`keeps`, `others`);
//! `Marks::hits` and `unmarked` are exact. The trait [`ram::Ram`] is the same contract for any memory: [`ram::LentRam`]
//! is a slice of the caller's, [`regions::LentRegions`] slices with gaps between them, of which some may be read-only.
//!
//! Not proved: that an allocation succeeds. A call that allocates may always fail with `NoMemory`, or that of a list
//! with `AllocError`; tests run each with ample memory.
#![tactic(auto)]

pub mod call;
pub mod events;
pub mod limits;
pub mod lists;
pub mod marks;
pub mod memory;
pub mod no_memory;
pub mod ordered;
mod page_flags;
pub mod ram;
pub mod range_set;
pub mod regions;
pub mod segment;
mod table;
pub mod transfer;
