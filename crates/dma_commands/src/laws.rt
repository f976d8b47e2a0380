//! Laws about what a script prints and leaves. Each law is the clause of a function that does nothing.

ghost use Rattle.dma_commands.specs.Laws.{CopiesAreWhole, LinesPrintAnswers, ScriptsPrintAnswers, ScriptsPrintReplies};
ghost use Rattle.dma_commands.specs.Left.{ScriptsLeaveSound};
ghost use Rattle.dma_commands.specs.Raced.{RacesAreRuns};

/// What `run` prints for a script without a fault is computed from a new engine's replies to the calls of the script's
/// lines, in order, and from nothing else but the counts that a `totals` line prints. No copy or fill of a script is
/// cut off.
pub fn scripts_print_answers()
    ensures lines { LinesPrintAnswers }
    ensures scripts { ScriptsPrintAnswers }
    ensures replies { ScriptsPrintReplies }
    ensures copies { CopiesAreWhole }
{}

/// The view that a script without a fault leaves is sound.
pub fn scripts_leave_sound()
    ensures { ScriptsLeaveSound }
{}

/// `run` goes through the turns of a race as step lines: it prints their results, and then for the lines after `go`
/// what the race prints for them (`from_go`).
pub fn races_are_runs()
    ensures { RacesAreRuns }
{}
