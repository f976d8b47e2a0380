//! Laws of the engine's answers, for the layers above. Each law is the postcondition of a function that does nothing.

ghost use Rattle.dma_engine.specs.Laws.{CallsExtend, CallsKeepOutcomes, QuietCallsKeepCounts, CheckpointsKeep, SubmitsAdd, TerminatesAdd, StepsAdd, EndsByTurn, BoardsCount, StatusByTicks, BaseCountsBounded, TicksNameChannels, TicksAtMostEntries, IdleStepsStay, NewViewsAreSound, AnswersStaySound, CallsStaySound, AnswersOne, AnswersAppend, AnswersSplit, AnswerIsOne, AnswersAreAnswers, AnswerUnlessNoMemory, AnswersUnlessNoMemory};

/// What each call adds to the ticks, to the step count and to the number of finished cookies.
pub fn calls_add()
    ensures extends { CallsExtend }
    ensures outcomes { CallsKeepOutcomes }
    ensures quiet { QuietCallsKeepCounts }
    ensures checkpoint { CheckpointsKeep }
    ensures submit { SubmitsAdd }
    ensures terminate { TerminatesAdd }
    ensures step { StepsAdd }
    ensures ends { EndsByTurn }
{}

/// What the ticks of a history sum up to.
pub fn ticks_add_up()
    ensures board { BoardsCount }
    ensures status { StatusByTicks }
    ensures opening { BaseCountsBounded }
    ensures there { TicksNameChannels }
    ensures few { TicksAtMostEntries }
{}

/// A step whose answer is idle leaves the view unchanged, so the next step gives the same answer.
pub fn idle_steps_stay()
    ensures { IdleStepsStay }
{}

/// The view of a new engine is sound, and all calls preserve this, whatever their answers. So the history that a
/// checkpoint among them drops is legal from the base before it.
pub fn calls_stay_sound()
    ensures opening { NewViewsAreSound }
    ensures call { AnswersStaySound }
    ensures calls { CallsStaySound }
{}

/// Answers to consecutive lists of calls are answers to all their calls, and the other way round.
pub fn answers_add()
    ensures one { AnswersOne }
    ensures append { AnswersAppend }
    ensures split { AnswersSplit }
{}

/// The answers with enough memory are answers. All other answers contain one that is out of memory.
pub fn answers_with_memory()
    ensures answer { AnswerIsOne }
    ensures answers { AnswersAreAnswers }
    ensures only_answer { AnswerUnlessNoMemory }
    ensures only_answers { AnswersUnlessNoMemory }
{}
