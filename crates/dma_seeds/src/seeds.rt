//! A race executed once for each seed of a range.

ghost use Rattle.std.specs.Prelude.{◌≡◌, ◌<◌, ◌++◌, ◌+◌, ◌-◌, [], IfOk, OnErr, OnOk, is_ok, true};
ghost use Rattle.dma_text.specs.Text.{Begins};
ghost use Rattle.dma_io.specs.Answer.{prints_of};
ghost use Rattle.dma_script.specs.Race.{race_script_of};
ghost use Rattle.dma_seeds.specs.RaceReplies.{RacesSeeds};
ghost use Rattle.dma_seeds.specs.Expect.{is_good, verdict, without_expects};
ghost use Rattle.dma_seeds.specs.Seeds.{failing_text, outputs_of, outputs_text, seeds_verdict_text, text_from_go, unless_holds, verdicts};
ghost use Rattle.dma_seeds.specs.inner.Counted.{failing_in};

use crate::expect::{Verdict, without_expects};
use crate::faults::refused;
use crate::outputs::{Output, Things, count_output, print_outputs};
use crate::race::{Ran, run_race};
use dma_io::answer::Answer;
use dma_io::printing::print_line;
use dma_io::progress::Progress;
use dma_mem::lists::Bytes;
use dma_script::fault::ScriptError;
use dma_script::race::read_race_script;
use std::alloc::{AllocError, Global};

/// The seeds from a first one to a last one.
#[derive(Clone, Copy)]
pub struct SeedRange {
    /// The first seed.
    pub first: u32,
    /// The last seed.
    pub last: u32,
}

/// The verdict on a race script for a range of seeds.
#[derive(Drop)]
pub struct SeedsVerdict {
    /// The verdict for the first seed for which it isn't good, else `Holds`.
    pub first: Verdict,
    /// For how many seeds an `expect` line fails.
    pub failing: u64,
}

impl SeedsVerdict {
    /// Counts the verdict for one more seed.
    #[tactic(auto, using(crate::proofs::ExpectLemmas::goes_on, crate::proofs::ExpectLemmas::stops, crate::proofs::ExpectLemmas::good_last))]
    fn count(&mut self, verdict: Verdict)
        requires { self.old.failing < u64.MAX }
        ensures first { self.new.first ≡ unless_holds self.old.first verdict }
        ensures failing { self.new.failing ≡ self.old.failing + failing_in verdict }
    {
        if verdict.is_good() {
            return;
        }
        self.failing += 1;
        if self.first.is_good() {
            self.first = verdict;
        }
    }

    /// Appends the line of the first `expect` line that fails, and one with the number of seeds for which one fails, or
    /// nothing. Fails if memory runs out, and may have appended the first of the two lines then.
    #[tactic(auto, using(dma_text::proofs::Begun::begins_same, dma_text::proofs::Begun::begins_appended))]
    pub fn print(&self, seeds: SeedRange, out: &mut Vec<u8>) -> Result<(), AllocError>
        ensures ok { OnOk result (out.new.items ≡ out.old.items ++ seeds_verdict_text self.now seeds) }
        ensures begins { Begins out.new.items out.old.items }
    {
        self.first.print(out)?;
        print_failing(self.failing, seeds, out)
    }
}

/// Appends for how many seeds of a range an `expect` line fails, or nothing if it fails for none. If memory runs out,
/// appends nothing.
fn print_failing(failing: u64, seeds: SeedRange, out: &mut Vec<u8>) -> Result<(), AllocError>
    ensures ok { OnOk result (out.new.items ≡ out.old.items ++ failing_text failing seeds) }
    ensures err { OnErr result (out.new.items ≡ out.old.items) }
{
    if failing == 0 {
        return Ok(());
    }
    let many = (u64::from(seeds.last) + 1).saturating_sub(u64::from(seeds.first));
    let all = Things(many, "seed");
    print_line(out, &("  expect lines fail for ", failing, " of ", all))
}

/// Executes a race script for a seed. Returns its output from the line of `go` on, and its verdict. `kept` is the script
/// without its `expect` lines; it has no fault. Fails if memory runs out.
fn race_once(
    alloc: Global,
    script: &[u8],
    kept: &[u8],
    seed: u64,
) -> Result<(Output, Verdict), AllocError>
    requires good { is_ok (race_script_of kept.now) ≡ true }
    requires kept { kept.now ≡ without_expects script.now }
    ensures output { IfOk result (λ found. found.0 ≡ record {
      text = text_from_go (race_script_of kept.now) seed;
      seeds = 1;
      first = seed;
    }) }
    ensures verdict { IfOk result (λ found. found.1 ≡ verdict script.now seed) }
{
    let race = match read_race_script(alloc, kept) {
        Ok(race) => race,
        Err(ScriptError::NoMemory) => return Err(AllocError),
        Err(ScriptError::Fault(_)) => unreachable!(),
    };
    let Ran {
        text,
        early,
        verdict,
    } = run_race(alloc, script, race, seed)?;
    let output = Output {
        text: Bytes::from_slice(alloc, &text[early..])?,
        seeds: 1,
        first: seed,
    };
    Ok((output, verdict))
}

/// Executes a race script without a fault once for each seed. Returns the different outputs, and the verdict. Fails if
/// memory runs out.
fn race_each<P: Progress>(
    alloc: Global,
    script: &[u8],
    kept: &[u8],
    seeds: SeedRange,
    progress: &mut P,
) -> Result<(Vec<Output>, SeedsVerdict), AllocError>
    requires good { is_ok (race_script_of kept.now) ≡ true }
    requires kept { kept.now ≡ without_expects script.now }
    ensures outputs { IfOk result (λ found. found.0.items ≡ outputs_of
        (text_from_go (race_script_of kept.now)) seeds.first (seeds.last + 1 - seeds.first)) }
    ensures verdicts { IfOk result (λ found. found.1
        ≡ verdicts (verdict script.now) seeds.first (seeds.last + 1 - seeds.first)) }
{
    let mut outputs = Vec::new(alloc);
    let mut found = SeedsVerdict {
        first: Verdict::Holds,
        failing: 0,
    };
    for seed in u64::from(seeds.first)..u64::from(seeds.last) + 1 {
        let (output, verdict) = race_once(alloc, script, kept, seed)?;
        count_output(&mut outputs, output)?;
        found.count(verdict);
        progress.report(seed + 1 - u64::from(seeds.first), "seeds");
    }
    Ok((outputs, found))
}

/// Appends how many outputs the seeds of a range give, and each output. Fails if memory runs out.
fn print_seeds(seeds: SeedRange, outputs: &[Output], out: &mut Vec<u8>) -> Result<(), AllocError>
    ensures { OnOk result (out.new.items ≡ out.old.items ++ outputs_text seeds outputs.now) }
{
    let many = Things(outputs.len() as u64, "output");
    print_line(
        out,
        &(("seeds ", seeds.first, " to ", seeds.last), ": ", many),
    )?;
    print_outputs(outputs, out)
}

/// Returns the answer with outputs of the seeds of a range, and the verdict for them. Fails if memory runs out.
fn answer_of(
    alloc: Global,
    seeds: SeedRange,
    outputs: &[Output],
    verdict: &SeedsVerdict,
) -> Result<Answer, AllocError>
    ensures { IfOk result (λ answer. prints_of answer ≡ record {
      out = outputs_text seeds outputs.now;
      err = seeds_verdict_text verdict.now seeds;
      file = [];
      succeeds = is_good verdict.now.first;
    }) }
{
    let mut out = Vec::new(alloc);
    print_seeds(seeds, outputs, &mut out)?;
    let mut err = Vec::new(alloc);
    verdict.print(seeds, &mut err)?;
    let succeeds = verdict.first.is_good();
    Ok(Answer::new(out, err, Vec::new(alloc), succeeds))
}

/// Executes a race script once for each seed of a range, in one thread. Returns the different outputs from the line of
/// `go` on, with how many seeds give each and the first of these, and the message for a fault of the script, or for the
/// first `expect` line that fails for the lowest seed with a failure, and for how many seeds one fails. Fails if memory
/// runs out.
///
/// Takes for each seed the time of `race_by_seed`, and compares its output with each different one before. Keeps each
/// different output, and of no seed more than that. Reports progress after each seed.
pub fn race_by_seeds<P: Progress>(
    alloc: Global,
    script: &[u8],
    seeds: SeedRange,
    progress: &mut P,
) -> Result<Answer, AllocError>
    ensures { IfOk result (λ answer. RacesSeeds seeds script.now (prints_of answer)) }
{
    let kept = without_expects(alloc, script)?;
    match read_race_script(alloc, &kept).err() {
        None => {
            let (outputs, verdict) = race_each(alloc, script, &kept, seeds, progress)?;
            answer_of(alloc, seeds, &outputs, &verdict)
        }
        Some(ScriptError::Fault(fault)) => refused(alloc, script, fault),
        Some(ScriptError::NoMemory) => Err(AllocError),
    }
}
