//! Laws of statuses and of turns. Each law is the postcondition of a function that does nothing.

ghost use Rattle.dma_work.specs.Laws.{ClosedIsComplete, StaysComplete, StaysKnown};
ghost use Rattle.dma_work.specs.Rotation.{GoesRound, ListsChannels};

/// A status stays true. A cookie that is given in a list that a reader has learnt is never unknown to the reader; a
/// complete cookie stays complete; and each cookie that a terminate closed is complete once the reader has learnt its
/// ticket.
pub fn statuses_stay_true()
    ensures known { StaysKnown }
    ensures complete { StaysComplete }
    ensures closed { ClosedIsComplete }
{}

/// A worker steps the channels of its job in order. A rotation has a channel for each turn. It begins with the job's
/// first channel; each channel is followed by the next one, and the last channel by the first.
pub fn turns_are_listed()
    ensures listed { ListsChannels }
    ensures round { GoesRound }
{}
