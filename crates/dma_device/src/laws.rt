//! Laws of devices. Each law is the postcondition of a function that does nothing.

ghost use Rattle.dma_device.specs.AnyRegisters.{AnyDmago, AnyDmagoRefused};
ghost use Rattle.dma_device.specs.Board.{ABoardCopies, BoardLeavesBytes, BoardLeavesThread, BoardRests, BoardRunsCopy, BoardSpares, BoardStaysIn};
ghost use Rattle.dma_device.specs.Copies.{DmagoCopies, DmagoInterrupts, DmagoInterruptsEach, DmagoInterruptsExactly, DmagoNeverFails, DmagoSignalsExactly};
ghost use Rattle.dma_device.specs.Dmago.{ImageHasBytes};
ghost use Rattle.dma_device.specs.Events.{EventsAreExact, TakenWasSet, WaitsForUnset};
ghost use Rattle.dma_device.specs.Explaining.{OnlyDmagoGives, RestoreKeepsWork, TurnStaysInWork, TurnsStayIn, UnderwayHasWork, WorkStays};
ghost use Rattle.dma_device.specs.Faults.{AbortIsFaulting, AbortsAreExact, FaultsAreExact};
ghost use Rattle.dma_device.specs.Frame.{BytesDontMatter, LikeReadsLike, RegionBytesDontMatter, TurnLeavesOthers, WriteLeavesThreads};
ghost use Rattle.dma_device.specs.Idle.{NothingHappens, StaySound, TurnChanges, WaitsInVain};
ghost use Rattle.dma_device.specs.Interrupts.{InterruptsAreExact};
ghost use Rattle.dma_device.specs.Progress.{CompiledGoesOn, CompiledHasEvents, CompiledSignals, DmagoFinishes, DmagoSignals, TheLoopFinishes, VainTurnsWait};
ghost use Rattle.dma_device.specs.Refused.{RefusedFails};
ghost use Rattle.dma_device.specs.RowTurns.{RowsWriteEach};
ghost use Rattle.dma_device.specs.Snapshot.{DamageIsRefused};
ghost use Rattle.dma_device.specs.Run.{RunsStepByStep};
ghost use Rattle.dma_device.specs.Underway.{DmagoUnderway, DmagoWaitsExactly, KilledKeepsCounts, TurnShows};
ghost use Rattle.dma_device.specs.Writes.{TurnWritesEach, TurnWritesInRegions};

/// In the memory that regions in order lend, each address of a region has the region's byte.
#[tactic(auto, using(crate::proofs::InMemory::image_has_bytes))]
pub fn memory_has_bytes()
    ensures { ImageHasBytes }
{}

/// A driver puts into RAM a program that is explained from the channel's registers, and starts it there by a DMAGO. The
/// program makes one simultaneous copy of all bytes and sets its other ranges to 0, whatever the guest and other
/// channels do meanwhile to other bytes and registers. It is done once the channel's CSR reads as stopped.
pub fn a_dmago_copies()
    ensures { DmagoCopies }
{}

/// A DMAGO keeps SAR, DAR, CCR and the loop counters. What [`explain_from`](dma_explain::explain::explain_from) finds on
/// the device's bus when no register is known explains the program from the registers of each channel, whatever another
/// program has left there: so all laws of a DMAGO are about it. A program that is then refused for a fault is refused
/// for it from these registers.
pub fn a_dmago_from_any_registers()
    ensures explained { AnyDmago }
    ensures refused { AnyDmagoRefused }
{}

/// Once a line that was low is high after a turn of such a channel, at least as many bytes are copied and set to 0 as
/// before the first DMASEV of the line's event. Once the line rose in j turns of the channel, as it does if a handler
/// clears it between them, at least as many bytes are copied and set to 0 as before the j-th DMASEV of the event. Right
/// after a turn in which the line rose, or that executed a DMASEV of the event, exactly as many are as before one of
/// these DMASEVs. If the program has a DMASEV of an event that the device has and that INTEN makes an interrupt in each
/// turn, then once CSR reads as stopped, the event's line was high after one of the turns.
pub fn a_dmago_interrupts()
    ensures done { DmagoInterrupts }
    ensures done_each { DmagoInterruptsEach }
    ensures exact { DmagoInterruptsExactly }
    ensures exact_signal { DmagoSignalsExactly }
    ensures rises { DmagoSignals }
{}

/// After each turn of such a program, whether the channel then executes, waits, is faulting or has ended, a part of the
/// copy is done: what the program does before one of its instructions. As many bytes are copied or set to 0 as the
/// channel counts, the first ones, and each other byte that the program reads or writes is as it was at the first turn.
/// While it waits, this is what the program does before one of its DMAWFEs of the event for which it waits. The turns
/// may go on in a restored device, if it has the same thread. A thread that is killed keeps its registers and counts,
/// so they still say how far its program got.
pub fn a_dmago_is_underway()
    ensures part { DmagoUnderway }
    ensures waits { DmagoWaitsExactly }
    ensures killed { KilledKeepsCounts }
{}

/// After each turn of a channel, with any program, a host that looks at its registers and counts sees those of the
/// channel ([`crate::thread::Thread::shown_pc`], `shown_taken`). If the channel failed in the turn, it sees those from
/// before the instruction that failed, whatever the fault.
pub fn a_fault_shows_what_was_before()
    ensures { TurnShows }
{}

/// Such a program never fails if the regions contain all addresses that it reads and writes, none that it writes is
/// read-only, and the device has the events of the program's DMAWFEs and DMASEVs.
pub fn a_dmago_never_fails()
    ensures { DmagoNeverFails }
{}

/// Such a program finishes: CSR reads as stopped after as many ready turns as the program executes instructions with
/// its DMAEND, if the regions and the device are as for `a_dmago_never_fails` in each turn. A turn is ready if it may
/// take a step and doesn't begin at a DMAWFE of an event that isn't set, or that INTEN makes an interrupt. A host may
/// give the channel any other turns between them, as while it waits (`nothing_happens`). So it needn't know the
/// program: as long as CSR doesn't read as stopped, at most as many turns were ready as the program executes
/// instructions before its DMAEND. In the others it only waits, or takes no step.
pub fn a_dmago_finishes()
    ensures finishes { DmagoFinishes }
    ensures loop_finishes { TheLoopFinishes }
    ensures vain { VainTurnsWait }
{}

/// The program of a transfer, compiled for the device's bus. The device has the program's events if it has those that
/// the transfer waits for and signals. Of the ready turns of `a_dmago_finishes` only the first needs the event that the
/// transfer waits for. The program has a DMASEV of the event that the transfer signals, and stores all bytes before
/// each DMASEV.
pub fn compiled_programs_keep_events()
    ensures has_events { CompiledHasEvents }
    ensures goes_on { CompiledGoesOn }
    ensures signals { CompiledSignals }
{}

/// A driver starts a program by a DMAGO, and [`crate::device::Device::explain`] then refuses it for a fault, after n
/// instructions. While only the channel's turns change its thread, the channel never ends and never gets beyond the
/// refused instruction, whatever happens to the memory and to the rest of the device. A turn that begins at this
/// instruction while the channel isn't faulting, and may take a step, changes no byte and leaves the channel faulting:
/// CSR reads so, FTR has the fault's bit, and CPC is the instruction's address. After n + 1 turns that may take a step
/// and don't begin at a DMAWFE that waits, CSR reads as faulting, however many other turns there are. An earlier
/// instruction may fail too, as at a gap between regions. But a faulting channel that has executed all n failed at the
/// refused one, if the device had their events in each turn so far.
pub fn a_refused_dmago_fails()
    ensures { RefusedFails }
{}

/// A board has several devices over one memory. From the DMAGO on, any events on all devices happen in any order:
/// register accesses, turns of channels, bytes that the processor writes, resets and restores. The write to DBGCMD that
/// executes the DMAGO may have any value whose bits 1:0 are 0, and the bits of DBGINST0 that a device ignores may have
/// any value. Suppose that nothing but the channel's own turns changes its thread. Then each of its turns writes only
/// destinations and zeros of the work that explains its program, and reads only the sources, whatever memory each event
/// is lent. Suppose besides that nothing but these turns changes bytes that the work uses, and that each of these turns
/// is lent these bytes. Then the work is done from the memory at the DMAGO once the channel's CSR reads as stopped, and
/// `a_dmago_copies`, `a_dmago_interrupts`, `a_dmago_is_underway`, `a_dmago_never_fails` and `a_dmago_finishes` are about
/// the channel's turns. What these laws suppose of lent memory, they suppose of the channel's turns only. The write to
/// DBGCMD has to be lent at least the program, and all other events may be lent any part of the memory. Between the
/// channel's turns its thread and these bytes stay as they are.
///
/// An event leaves the thread as it is if it isn't a reset, a restore of another thread, or a debug instruction that
/// names the thread. It leaves the bytes if it writes no address that the work uses. So several channels copy at once,
/// if the work of none writes an address that the work of another uses.
pub fn a_board_copies()
    ensures copies { ABoardCopies }
    ensures runs { BoardRunsCopy }
    ensures rests { BoardRests }
    ensures stays { BoardStaysIn }
    ensures leaves_thread { BoardLeavesThread }
    ensures leaves_bytes { BoardLeavesBytes }
    ensures spares { BoardSpares }
{}

/// While a channel executes the program that a DMAGO gave it, its turns write only destinations and ranges of zeros
/// that [`crate::device::Device::explain`] found before the first of them, and read only the sources. After an access
/// other than a restore that gives the channel a program, as a DMAGO does, the channel is underway in that program, and
/// so has the work that is found then. It keeps the work at each access that gives it no program, and a restored
/// channel has the work that it had when it was saved. Each turn of a channel stays in its work. So the law also
/// holds after a migration: what was found on the first host holds of the turns on the second.
pub fn turns_stay_in()
    ensures turns { TurnsStayIn }
    ensures only { OnlyDmagoGives }
    ensures has { UnderwayHasWork }
    ensures stays { WorkStays }
    ensures restored { RestoreKeepsWork }
    ensures each { TurnStaysInWork }
{}

/// An interrupt is neither lost nor invented. For every list of accesses after a reset, line n, and with it bit n of
/// INTMIS, is high exactly if a channel's turn or the debug registers executed a DMASEV n while bit n of INTEN was 1,
/// or a restored device had it high, and since then no write to INTCLR has cleared it, and neither a reset nor a
/// restore of a device with a low line happened. A write to INTCLR clears it if bit n of the value and of INTEN are 1.
/// So no write to INTEN makes an interrupt of an event, or an event of an interrupt. Each access may be lent other
/// regions, here and in the laws of events and faults.
pub fn interrupts_are_exact()
    ensures { InterruptsAreExact }
{}

/// A turn of a channel with any program writes each address in the range that it reports as written, and no other. Each
/// of them lies in a region that isn't read-only. The same holds of the turns of `step_rows`.
pub fn a_turn_writes_each()
    ensures each { TurnWritesEach }
    ensures within { TurnWritesInRegions }
    ensures rows { RowsWriteEach }
{}

/// An event is neither lost nor invented. For every list of accesses after a reset, event n is set exactly if a
/// channel's turn or the debug registers executed a DMASEV n while bit n of INTEN was 0, or a restored device had it
/// set, and since then no DMAWFE has taken it, no write to INTCLR has cleared it, and neither a reset nor a restore of
/// a device without it happened. A write to INTCLR clears it if bit n of the value and of INTEN are 1, as an interrupt.
/// So one DMASEV wakes at most one channel. What a DMAWFE takes was set, and INTEN made it an event. A channel that
/// waits after its turn waits for an event that isn't set, or that INTEN makes an interrupt.
pub fn events_are_exact()
    ensures exact { EventsAreExact }
    ensures taken { TakenWasSet }
    ensures waits { WaitsForUnset }
{}

/// The line irq_abort is high exactly if a thread is faulting, as FSRD and FSRC read. It rises exactly at an access in
/// which a step of a turn or a debug instruction fails, or a device with a faulting thread is restored, and falls
/// exactly at the debug DMAKILL of the last thread that is faulting, at a reset, or at the restore of a device without
/// one. For every list of accesses, a thread is faulting exactly if an access made it fail, or restored it so, and none
/// since ended that.
pub fn faults_are_exact()
    ensures line { AbortIsFaulting }
    ensures exact { FaultsAreExact }
    ensures changes { AbortsAreExact }
{}

/// If no thread can step, a turn of any channel changes neither the device nor a byte of the regions, and reports no
/// change, and one step if the channel waits, else none. So nothing happens until the guest's next write, a reset or a
/// restore. This holds of every list of accesses after a reset, whatever regions each is lent. If a thread can step,
/// each turn of its channel that may take a step changes the device. At a DMAWFE of one of the device's events that
/// isn't set, or that INTEN makes an interrupt, which the program may still execute, such a turn changes only the
/// status and CPC of the thread, which waits: it changes no byte of the regions, and reports no change and one step.
pub fn nothing_happens()
    ensures sound { StaySound }
    ensures nothing { NothingHappens }
    ensures changes { TurnChanges }
    ensures waits { WaitsInVain }
{}

/// A save in which one byte is another byte is the save of no device. So a restore refuses each save in which one byte
/// was damaged, by one flipped bit or by several.
pub fn damage_is_refused()
    ensures { DamageIsRefused }
{}

/// For every list of register reads and writes, turns of channels, bytes that the processor writes to RAM, resets and
/// restores, in any order, each value read, each report, the device with both kinds of lines, and all of RAM are what
/// `run` of the definitions gives, step by step, if each access is lent the memory that the one before it left.
pub fn runs_step_by_step()
    ensures { RunsStepByStep }
{}

/// A turn of a channel leaves each other thread, the manager, INTEN and the debug registers as they are. A write to any
/// register but DBGCMD leaves all threads, and one to DBGCMD all but at most one, which the debug registers name. The
/// bytes of memory have no effect on a turn's report, nor on the registers and lines after it: these depend only on the
/// device but for the bytes in its channels' buffers, and on where the regions are and which of them are read-only.
pub fn others_are_left_alone()
    ensures turns { TurnLeavesOthers }
    ensures writes { WriteLeavesThreads }
    ensures reads { LikeReadsLike }
    ensures bytes { BytesDontMatter }
    ensures regions { RegionBytesDontMatter }
{}
