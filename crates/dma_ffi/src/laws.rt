//! Laws about what calls from C return and write. Each law is the clause of a function that does nothing.

ghost use Rattle.dma_ffi.specs.ChannelLaws.{LoadsATransfer, StepsAreCalls, StepsCopy, StepsKeepTheRest};
ghost use Rattle.dma_ffi.specs.DeviceSessions.{DeviceSessionsAreHistories};
ghost use Rattle.dma_ffi.specs.Devices.{CallsAreAccesses, RowsKeepTheRest, TurnsKeepTheRest};
ghost use Rattle.dma_ffi.specs.Laws.{CallsAreTheEngines, ExchangesAreTheEngines, SessionsAreTheEngines};

/// A call from C on an open controller is answered by a list of the engine's own calls. So what is proved of such
/// lists holds of everything that C does with a controller between an open and a close.
#[tactic(auto, using(crate::proofs::CallsMade::calls_are_the_engines))]
pub fn calls_are_the_engines()
    ensures { CallsAreTheEngines }
{}

/// All calls from C on an open controller, one after another, are one list of the engine's own calls, each of which can
/// be made. What each call returned and wrote is given by the replies to that list.
pub fn exchanges_are_the_engines()
    ensures exchanges { ExchangesAreTheEngines }
    ensures session { SessionsAreTheEngines }
{}

/// A call from C that steps a channel and succeeds is one of the calls in
/// [`copies_since_load`](dma_explain::laws::copies_since_load) and
/// [`channels_copy`](dma_explain::laws::channels_copy). If a transfer explains the channel's program, and all changes
/// since its load left the transfer alone, or all were apart from it, as in these laws, then the transfer's first bytes
/// are copied, as many as the channel counts, and the report says what the call did. A load from C that succeeds gives
/// a channel such a program, if it loads a copy, a fill whose byte has a 32-bit address, or bytes that begin with such
/// a program. A call that steps a channel, whatever its program is, changes no byte outside the range that it reports,
/// and one of its steps wrote each address in this range.
pub fn channel_calls_copy()
    ensures loads { LoadsATransfer }
    ensures steps { StepsCopy }
    ensures rest { StepsKeepTheRest }
    ensures calls { StepsAreCalls }
{}

/// Calls from C on an open device are accesses of the laws of `dma_device`. So what these say of lists of accesses
/// holds of C's reads, writes, turns, resets and restores over the same regions.
pub fn device_calls_are_accesses()
    ensures { CallsAreAccesses }
{}

/// All calls from C on an open device, one after another, are one history of accesses: its accesses are those of the
/// calls, in order, and their answers are what the calls returned and wrote. Turns in a row are as many turns as they
/// report, a restore that fails with `BAD_SAVE` is a reset, and any other call that is refused makes no access.
pub fn device_sessions_are_histories()
    ensures { DeviceSessionsAreHistories }
{}

/// A turn of a device's channel from C, whatever its program is, changes no byte outside the range that it reports, and
/// one of its steps wrote each address in this range. The turns of one call change no byte outside their ranges, each
/// of which lies in regions that aren't read-only.
pub fn device_turns_keep_the_rest()
    ensures turn { TurnsKeepTheRest }
    ensures rows { RowsKeepTheRest }
{}
