//! The texts of refusals, calls and replies.
ghost use Rattle.std.specs.Prelude.{◌≡◌, ◌≢◌, ◌++◌, ◌∷◌, [], OnErr, OnOk};
ghost use Rattle.dma_text.specs.Text.{Begins};
ghost use Rattle.dma_io.specs.Command.{text_of};
ghost use Rattle.dma_mem.specs.declared.transfer.TransferFault.TheVariants as rules;
ghost use Rattle.dma_engine.specs.Answer.{reply_of};
ghost use Rattle.dma_engine.specs.declared.call.Reply.TheVariants.{Refused, Turned};
ghost use Rattle.dma_engine.specs.declared.fault.EngineFault.TheVariants.{NoMemory};
ghost use Rattle.dma_commands.specs.Printed.{call_line, call_words, fault_text, outcome_text, reply_text, result_name, status_name, transfer_fault_name, turn_text};

use dma_engine::{Call, EngineFault, Outcome, Reply, Status, TransResult, Turn};
use dma_io::printing::print_line;
use dma_mem::transfer::TransferFault;
use dma_text::text::{Address, SpacedBytes, Text, print};
use std::alloc::AllocError;

/// Shows a value of the engine as it is printed. A fault `NoMemory` can't be printed.
#[derive(Drop)]
pub struct Shown<T>(pub T);

// The name of a broken transfer rule.
impl Text for Shown<TransferFault> {
    ghost text = { λ shown. transfer_fault_name shown.0 };

    ghost is_printed = { λ shown. shown.0 ≢ rules.NoMemory };

    fn push(&self, out: &mut Vec<u8>) -> Result<(), AllocError> {
        match self.0 {
            TransferFault::EmptyList => "EmptyList".push(out),
            TransferFault::TooManySegments => "TooManySegments".push(out),
            TransferFault::EmptySegment => "EmptySegment".push(out),
            TransferFault::SegmentWraps => "SegmentWraps".push(out),
            TransferFault::TotalsDiffer => "TotalsDiffer".push(out),
            TransferFault::TooLong => "TooLong".push(out),
            TransferFault::DestinationsMeet => "DestinationsMeet".push(out),
            TransferFault::SourceMeetsDestination => "SourceMeetsDestination".push(out),
            TransferFault::BadEvent => "BadEvent".push(out),
            TransferFault::NoMemory => Err(AllocError),
        }
    }
}

// The name of a call's refusal, with the channel and the cookie for `Busy` and `Running`.
impl Text for Shown<EngineFault> {
    ghost text = { λ shown. fault_text shown.0 };

    ghost is_printed = { λ shown. shown.0 ≢ NoMemory };

    fn push(&self, out: &mut Vec<u8>) -> Result<(), AllocError> {
        match self.0 {
            EngineFault::OutOfMemoryRange => "OutOfMemoryRange".push(out),
            EngineFault::Busy { ch, cookie } => ("Busy ", ch, " ", cookie).push(out),
            EngineFault::Running { ch, cookie } => ("Running ", ch, " ", cookie).push(out),
            EngineFault::NoChannel => "NoChannel".push(out),
            EngineFault::CookiesSpent => "CookiesSpent".push(out),
            EngineFault::StepsSpent => "StepsSpent".push(out),
            EngineFault::BadEvent => "BadEvent".push(out),
            EngineFault::BadRange => "BadRange".push(out),
            EngineFault::NoMemory => Err(AllocError),
        }
    }
}

/// Returns the name of a result.
fn result_name(outcome: TransResult) -> &'static str
    ensures { result.now ≡ result_name outcome }
{
    match outcome {
        TransResult::NoError => "NoError",
        TransResult::ReadFailed => "ReadFailed",
        TransResult::WriteFailed => "WriteFailed",
        TransResult::Aborted => "Aborted",
    }
}

/// Returns the name of a cookie's status.
fn status_name(status: Status) -> &'static str
    ensures { result.now ≡ status_name status }
{
    match status {
        Status::Unknown => "Unknown",
        Status::InProgress => "InProgress",
        Status::Complete => "Complete",
    }
}

// `NAME residue N`, or `none`.
impl Text for Shown<Option<Outcome>> {
    ghost text = { λ shown. outcome_text shown.0 };

    fn push(&self, out: &mut Vec<u8>) -> Result<(), AllocError> {
        match self.0 {
            None => "none".push(out),
            Some(Outcome { result, residue }) => (result_name(result), " residue ", residue).push(
                out,
            ),
        }
    }
}

// What a step did. The commonest answers are single words, printed without a call.
impl Text for Shown<Turn> {
    ghost text = { λ shown. turn_text shown.0 };

    #[inline(always)]
    fn push(&self, out: &mut Vec<u8>) -> Result<(), AllocError> {
        match self.0 {
            Turn::Nothing => "nothing".push(out),
            Turn::Held { ch, cookie } => push_apart(&("held ", ch, " ", cookie), out),
            Turn::Started(cookie) => push_apart(&("started ", cookie), out),
            Turn::Moved => "moved".push(out),
            Turn::Waiting(event) => push_apart(&("waiting ", event), out),
            Turn::Paused => "paused".push(out),
            Turn::Halted => "halted".push(out),
            Turn::Finished {
                cookie,
                result,
                residue,
            } => {
                let outcome = Shown(Some(Outcome { result, residue }));
                push_apart(&("finished ", cookie, " ", outcome), out)
            }
        }
    }
}

/// Appends a text. Not inlined, so that the code of its callers stays small.
#[inline(never)]
fn push_apart<T: Text>(text: &T, out: &mut Vec<u8>) -> Result<(), AllocError>
    ensures ok { OnOk result (out.new.items ≡ out.old.items ++ T.text text.now) }
    ensures begins { Begins out.new.items out.old.items }
{
    text.push(out)
}

// The result of a step, or its refusal.
impl Text for Shown<Result<Turn, EngineFault>> {
    ghost text = { λ shown. reply_text (reply_of Turned shown.0) };

    ghost is_printed = { λ shown. reply_of Turned shown.0 ≢ Refused NoMemory };

    #[inline]
    fn push(&self, out: &mut Vec<u8>) -> Result<(), AllocError> {
        match self.0 {
            Ok(turn) => Shown(turn).push(out),
            Err(fault) => ("refused ", Shown(fault)).push(out),
        }
    }
}

impl Text for Shown<&Reply> {
    ghost text = { λ shown. reply_text shown.0.now };

    ghost is_printed = { λ shown. shown.0.now ≢ Refused NoMemory };

    fn push(&self, out: &mut Vec<u8>) -> Result<(), AllocError> {
        match self.0 {
            Reply::Done => "ok".push(out),
            Reply::Bytes(bytes) => SpacedBytes(bytes.as_slice()).push(out),
            Reply::Cookie(number) | Reply::Count(number) => number.push(out),
            Reply::Turned(turn) => Shown(*turn).push(out),
            Reply::State(status) => status_name(*status).push(out),
            Reply::Result(outcome) => Shown(*outcome).push(out),
            Reply::Refused(fault) => ("refused ", Shown(*fault)).push(out),
        }
    }
}

// The words that are printed before the reply to a call.
impl Text for Shown<&Call> {
    ghost text = { λ shown. call_words shown.0.now };

    fn push(&self, out: &mut Vec<u8>) -> Result<(), AllocError> {
        match self.0 {
            Call::Read { addr, .. } => ("read 0x", Address(*addr)).push(out),
            Call::Submit { .. } => "cookie ".push(out),
            Call::Issue { .. } => "issued ".push(out),
            Call::Terminate { .. } => "aborted ".push(out),
            Call::Status { .. } => "status ".push(out),
            Call::Result { .. } => "result ".push(out),
            _ => Ok(()),
        }
    }
}

// The line of a call and its reply. A refusal is printed without the words of the call.
impl Text for Shown<(&Call, &Reply)> {
    ghost text = { λ shown. call_line shown.0.0.now shown.0.1.now };

    ghost is_printed = { λ shown. shown.0.1.now ≢ Refused NoMemory };

    fn push(&self, out: &mut Vec<u8>) -> Result<(), AllocError> {
        let (call, reply) = self.0;
        match reply {
            Reply::Refused(_) => Shown(reply).push(out),
            _ => (Shown(call), Shown(reply)).push(out),
        }
    }
}

/// Appends the line of a call and its reply. The commonest lines are appended without a look at what else they may be.
/// Appends nothing if the reply is out of memory, or memory runs out.
#[inline(always)]
pub fn print_call(call: &Call, reply: &Reply, out: &mut Vec<u8>) -> Result<(), AllocError>
    ensures ok { OnOk result
        (out.new.items ≡ out.old.items ++ text_of (call_line call.now reply.now ∷ [])) }
    ensures printed { OnOk result (reply.now ≢ Refused NoMemory) }
    ensures err { OnErr result (out.new.items ≡ out.old.items) }
{
    match (call, reply) {
        (Call::Write { .. }, Reply::Done) => out.extend_from_slice(b"ok\n"),
        (Call::Read { addr, .. }, Reply::Bytes(bytes)) => {
            let bytes = SpacedBytes(bytes.as_slice());
            print(out, &("read 0x", Address(*addr), bytes, "\n"))
        }
        (Call::Submit { .. }, Reply::Cookie(cookie)) => print(out, &("cookie ", *cookie, "\n")),
        (Call::Issue { .. }, Reply::Count(count)) => print(out, &("issued ", *count, "\n")),
        _ => print_line(out, &Shown((call, reply))),
    }
}
