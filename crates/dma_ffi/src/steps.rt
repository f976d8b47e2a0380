//! Steps of a channel, one after another.

ghost use Rattle.std.specs.Prelude.{◌≡◌};
ghost use Rattle.dma_ffi.specs.Requests.{AnswersSteps, steps_answer, turn_before};

use dma_engine::{Engine, EngineFault, Turn};

/// The steps that were taken.
#[derive(Clone, Copy)]
pub struct StepsTaken {
    /// Their number.
    pub count: u32,
    /// What the last one did, if any.
    pub last: Option<Turn>,
}

// Returns what the last of these steps did: a start, if any, and then `moved` steps that moved.
fn turn_before(started: Option<u32>, moved: u32) -> Option<Turn>
    ensures { result ≡ turn_before started moved }
{
    if moved == 0 {
        Some(Turn::Started(started?))
    } else {
        Some(Turn::Moved)
    }
}

/// Takes at most `most` steps of a channel, up to the first that neither starts a transfer nor moves, or until a step
/// is refused.
///
/// Fails with the refusal of the first step. A refusal of a later step isn't reported: it changed nothing, so the call
/// returns the steps before it, and the next call takes the refused step again.
pub fn take_steps(engine: &mut Engine, ch: u8, most: u32) -> Result<StepsTaken, EngineFault>
    ensures { AnswersSteps engine.old.view ch most (steps_answer result) engine.new.view }
{
    let steps = engine.advance(ch, most);
    let count = steps.steps_before();
    let last = turn_before(steps.started, steps.moved);
    match steps.last {
        None => Ok(StepsTaken { count, last }),
        Some(Ok(turn)) => Ok(StepsTaken {
            count: count + 1,
            last: Some(turn),
        }),
        Some(Err(fault)) if count == 0 => Err(fault),
        Some(Err(_)) => Ok(StepsTaken { count, last }),
    }
}
