//! Laws of programs that a work explains. Each law is the postcondition of a function that does nothing.

ghost use Rattle.dma_explain.specs.AnyRegisters.{AnyExplained, AnyNarrower, AnyRefused};
ghost use Rattle.dma_explain.specs.Alone.{ExplainedCopiesAlone};
ghost use Rattle.dma_explain.specs.CallStays.{LoadExecutes, CallStaysIn};
ghost use Rattle.dma_explain.specs.Changes.{CopiesSinceLoad, ChannelsCopy, LaidByPlace};
ghost use Rattle.dma_explain.specs.Explains.{DoneGrows, ExplainedOnce, FoundOnce, RefusedUnexplained};
ghost use Rattle.dma_explain.specs.RegionsHave.{GapsMiss};
ghost use Rattle.dma_explain.specs.OnBuses.{CompiledEvents, CompiledExplained, CompiledOnBus, EventsOnWidths, ExplainedNarrower, ExplainedOnBus, TracedOnWidths};
ghost use Rattle.dma_explain.specs.CallReads.{CallReadsIn, CallReadsNoOther};
ghost use Rattle.dma_explain.specs.Refusals.{FaultsAreRefusals, RefusalsAreFaults};

/// A program that a transfer explains on the ideal bus and that has no DMAWFE, run alone over a memory that contains
/// the transfer's ranges, with a limit above its number of instructions, makes one simultaneous copy of all its bytes.
pub fn explained_copies_alone()
    ensures { ExplainedCopiesAlone }
{}

/// From any registers and on each bus a transfer explains its program that was compiled for that bus. So all laws of
/// programs that copy apply to it. A DMAWFE comes only first, and a DMASEV only when all bytes are stored.
pub fn compiled_is_explained()
    ensures ideal { CompiledExplained }
    ensures on_bus { CompiledOnBus }
    ensures events { CompiledEvents }
{}

/// What explains a program on the ideal bus explains it on each bus that the program's beats fit, if each burst
/// begins at a multiple of its beat's size and no DMAMOV drops bytes.
pub fn aligned_is_explained()
    ensures { ExplainedOnBus }
{}

/// What explains a program on a chip's bus explains it on each narrower one that the program's beats fit. A run without
/// memory, which no fault stops, is the same on chips' buses of all widths, and so are its events.
pub fn narrower_is_explained()
    ensures explained { ExplainedNarrower }
    ensures traced { TracedOnWidths }
    ensures events { EventsOnWidths }
{}

/// What [`explain::explain_from`](crate::explain::explain_from) finds when no register is known explains the program
/// from whichever registers a channel begins it, on each channel with this bus, and on chips' narrower buses that its
/// beats fit: so all other laws of explained programs apply. A program that is then refused for a fault is refused for
/// it from each start.
pub fn explained_for_any_registers()
    ensures explained { AnyExplained }
    ensures narrower { AnyNarrower }
    ensures refused { AnyRefused }
{}

/// All works that explain a program have the same places in the same order. So what `explain::explain` returns is the
/// only explanation, up to how its ranges are cut into segments; and it cuts them in the same way each time.
#[tactic(auto, using(crate::proofs::Explaining::explained_once, crate::proofs::Explaining::found_once))]
pub fn is_explained_once()
    ensures explained { ExplainedOnce }
    ensures found { FoundOnce }
{}

/// Nothing explains a program that `explain::explain` refuses, with fewer instructions before DMAEND than its limit.
pub fn refused_is_unexplained()
    ensures { RefusedUnexplained }
{}

/// If `explain::explain` refuses a program for a fault, then a channel into which exactly this program was loaded, with
/// the same registers, and that gets to the refused instruction, answers this fault there and changes nothing, in all
/// memories of at most 2^32 bytes, with all marks and all flags. Conversely, a channel that has executed n
/// instructions, each of which is part of a work, answers at the next one in a memory of 2^32 bytes without marks only
/// the fault for which the program is refused there.
pub fn refusals_are_faults()
    ensures faults { RefusalsAreFaults }
    ensures no_other { FaultsAreRefusals }
{}

/// If regions contain all addresses that a work uses, and those that it writes aren't read-only, then no gap
/// between them and no read-only region lies where one of its bursts would fail. So the calls of
/// [`copies_since_load`] don't fail there.
pub fn gaps_miss()
    ensures { GapsMiss }
{}

/// From the load of a program that a work explains to its end, the range that a call reports as written has only what
/// the work writes, whatever others write.
pub fn writes_its_destinations()
    ensures load { LoadExecutes }
    ensures call { CallStaysIn }
{}

/// From the load of a program that a work explains to its end, the steps of a call read only sources of its copy,
/// whatever others write. Bytes elsewhere have no effect: after each step of the call the channel, the flags
/// and what was written are the same. (By `dma_chan`'s `reads_no_other` the answers are.)
pub fn reads_its_sources()
    ensures within { CallReadsIn }
    ensures no_other { CallReadsNoOther }
{}

/// A program that a work explains does it if, between its own load and a call on its channel, nobody else writes what
/// the work reads or writes. After each call the bytes that are stored so far are copied or 0: at a signal as many as
/// the program stores before that DMASEV, and all when the call ends. What a program has done never becomes less. Each
/// call may be lent other regions, and other bytes may follow the program.
pub fn copies_since_load()
    ensures copies { CopiesSinceLoad }
    ensures grows { DoneGrows }
{}

/// Any number of channels, which are loaded at any time and stepped in any order, do the programs that works explain,
/// as `copies_since_load` says of one channel. What the others write must lie elsewhere. Of another channel with a
/// program that a work explains it is enough that this work writes elsewhere, and of one with any program that its
/// calls report other addresses as written.
pub fn channels_copy()
    ensures { ChannelsCopy }
{}

/// Says what `laid` has at each address: at the first destinations the bytes of their sources, elsewhere the old bytes.
pub fn laid_by_place()
    ensures { LaidByPlace }
{}
