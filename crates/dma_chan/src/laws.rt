//! Laws of transfers' programs, and of any. Each law is the postcondition of a function that does nothing.

ghost use Rattle.dma_chan.specs.Layer.{StartsAt, AheadIs, LeftIs, StepIs, TurnReports, Survives, StepBesideOthers};
ghost use Rattle.dma_chan.specs.Layer.{CostIs, CostOnBus, WordsAccepted};
ghost use Rattle.dma_chan.specs.CallWrites.{CallWritesNoOther};
ghost use Rattle.dma_chan.specs.Laws.{CompiledCopiesAlone};
ghost use Rattle.dma_chan.specs.Aligned.{AddressesAlign};
ghost use Rattle.dma_chan.specs.Others.{WritesNoOther};
ghost use Rattle.dma_chan.specs.Pace.{OrderIs, StoredIs, StaysInStep, GetsToEnd};
ghost use Rattle.dma_chan.specs.Reads.{ReadsNoOther};
ghost use Rattle.dma_chan.specs.Ready.{ReadyIs};
ghost use Rattle.dma_chan.specs.Stepping.{WritesEach};

/// What a channel does at each step of a transfer's program, in terms of the places of the transfer alone. The last
/// clause is for memory that others write between the steps, also where the transfer reads.
pub fn runs_in_step()
    ensures starts { StartsAt }
    ensures ahead { AheadIs }
    ensures left { LeftIs }
    ensures step { StepIs }
    ensures reports { TurnReports }
    ensures survives { Survives }
    ensures beside_others { StepBesideOthers }
{}

/// If all destinations of a transfer lie on made pages, each instruction of its program is ready: the pages that it
/// writes are made.
#[tactic(auto, using(crate::proofs::ReadyLaws::ready_is))]
pub fn is_ready_on_pages()
    ensures { ReadyIs }
{}

/// How fast a transfer moves: the order of its instructions, and how the number of bytes stored grows. Of `cost`,
/// `member`, `burst` and `stored_after`, a reader of the engine's contracts needs to know only these two clauses. The
/// other two say what they are exactly: what a channel executes into which the transfer's program was loaded.
pub fn pace()
    ensures order { OrderIs }
    ensures stored { StoredIs }
    ensures steps { StaysInStep }
    ensures ends { GetsToEnd }
{}

/// The limit on the number of instructions that a transfer costs.
#[tactic(auto, using(crate::proofs::TreeCosts::cost_is, crate::proofs::TreeCosts::cost_below))]
pub fn costs_little()
    ensures ideal { CostIs }
    ensures on_bus { CostOnBus }
{}

/// A transfer that doesn't wait is copied by its compiled program. By the clauses of
/// [`run_program`](crate::run::run_program), a run of the program alone, over a memory that has the transfer's ranges
/// and with a limit of at least its cost, ends with exactly as many instructions as the cost, and memory is then the
/// result of one simultaneous copy of all bytes. Only memory can be refused: for a page that a store writes, or before
/// anything has run.
pub fn compiled_copies_alone()
    ensures { CompiledCopiesAlone }
{}

/// The bus for which a transfer's program was compiled accepts each control word that the program sets.
pub fn sets_accepted_words()
    ensures { WordsAccepted }
{}

/// On a chip's bus an executed load or store whose address rises leaves the address at a multiple of its beat's size.
/// Each burst leaves out less than a beat.
pub fn addresses_align()
    ensures { AddressesAlign }
{}

/// An instruction of any program changes no byte of the memory except those that it writes.
pub fn writes_no_other()
    ensures { WritesNoOther }
{}

/// Each address in the range that a call over lent memory reports as written was written by one of its steps.
#[tactic(auto, using(crate::proofs::SteppedOver::writes_each))]
pub fn writes_each()
    ensures { WritesEach }
{}

/// A call over lent memory, of any program, changes no byte outside the range that it reports as written.
pub fn call_writes_no_other()
    ensures { CallWritesNoOther }
{}

/// A step of any channel depends on no byte of the memory but those that its instruction reads.
pub fn reads_no_other()
    ensures { ReadsNoOther }
{}
