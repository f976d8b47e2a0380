//! Laws of the readers of scripts. Each is the clause of a function that does nothing.

ghost use Rattle.dma_script.specs.Causes.{FirstCausesAreReported, FirstFaultsAreReported};

/// Law: for a faulty line, each reader reports the first cause that applies. Each cause is tested over all words of the
/// line before the next one. The causes are those of the table that also defines what a line means.
pub fn first_causes_are_reported()
    ensures { FirstCausesAreReported }
{}

/// Law: for a script, each reader reports the fault of the first faulty line. If no line has a fault, it reports that
/// the script has no line, or that a race script has no `go`.
pub fn first_faults_are_reported()
    ensures { FirstFaultsAreReported }
{}
