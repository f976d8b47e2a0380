//! Why each channel is where it is: what it waits for, and which channels wait for each other in a circle.
//!
//! Proved: what is printed is a function of the script (`why`): the `explanation` of the view that the script leaves.
//! No steps after the script, or after any calls (`laws::circles_stay`), move a channel of a circle. Each circle that is
//! named is one, and for each circle one with the same lowest channel is named (`laws::circles_are_named`). If no channel
//! can move, waits lead from each one with an unfinished cookie to a cause that is named (`laws::causes_are_named`).
//!
//! Not proved: that no call is out of memory.
#![tactic(auto)]

pub mod circles;
pub mod laws;
mod lines;
pub mod waits;
pub mod why;
