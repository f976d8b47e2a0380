//! What `why` names. Each law is the clause of a function that does nothing.

ghost use Rattle.dma_engine.specs.View.{IsSound, View};
ghost use Rattle.dma_why.specs.Laws.{CausesAreNamed, CirclesAreNamed, CirclesStay};

/// What is named as a circle is one, and for each circle one with the same lowest channel is named.
pub fn circles_are_named()
    ensures { CirclesAreNamed }
{}

/// From a sound view, no steps, of any channels, move a channel of a circle.
pub fn circles_stay()
    ensures { (v : View) → IsSound v → CirclesStay v }
{}

/// If no channel's step changes anything, waits lead from each channel with an unfinished cookie to one from which a
/// circle is named, or that is paused, halted or not issued, or whose event no unfinished cookie would signal, or
/// cookies of several channels would, or that the end of the step count keeps from moving.
pub fn causes_are_named()
    ensures { CausesAreNamed }
{}
