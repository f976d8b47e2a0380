//! Laws of races by a seed. Each law is the clause of a function that does nothing.

ghost use Rattle.dma_seeds.specs.Race.{SeedsAreRaces};
ghost use Rattle.dma_seeds.specs.Script.{RacesAreRuns, ScriptsAreRead};
ghost use Rattle.dma_seeds.specs.Turns.{SeedsInterleave};

/// The turns for a seed are an interleaving of the jobs' turns. So `race_printed` of an input and a seed is one of the
/// texts that `dmasim race` may print for the input, if it isn't too long for it. `race_by_seed` prints that of the
/// script without its `expect` lines.
pub fn seeds_interleave()
    ensures turns { SeedsInterleave }
    ensures printed { SeedsAreRaces }
{}

/// The script of a race and a seed is read as the race's lines with the turns as step lines. What `run` prints for it
/// is what the race prints, with the answers of the steps in place of the line of `go`.
pub fn races_are_runs()
    ensures read { ScriptsAreRead }
    ensures printed { RacesAreRuns }
{}
