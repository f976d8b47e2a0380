//! What a request prints for its input.
ghost use Rattle.std.specs.Prelude.{◌≡◌, IfOk, IsTrue};
ghost use Rattle.dma_mem.specs.Regions.{in_order, pieces_of};
ghost use Rattle.dma_io.specs.Answer.{prints_of};
ghost use Rattle.dma330.specs.Replies.{Answers, Assembles, Explains, FormReplies, InputReplies, Lists, ProgramReplies, RawReplies, Reasons, Replies, TextReplies, Traces, takes_program};

use crate::command_line::Request;
use dma_explain::explain::known::Given;
use dma_io::answer::Answer;
use dma_io::printing::ProgramLines;
use dma_io::progress::Progress;
use dma_manual::assembler::assemble_text;
use dma_manual::listing::disassemble;
use dma_manual::notes::{end_warning, hint, with_form};
use dma_manual::pasted::{Pasted, Spelling, read_pasted};
use dma_manual::refusal::refusal;
use dma_mem::regions::Region;
use dma_seeds::faults::push_script_fault;
use dma_seeds::race::race_by_seed;
use dma_seeds::seeds::race_by_seeds;
use dma_text::text::print;
use dma_trace::explain::explain;
use dma_trace::options::TraceOptions;
use dma_trace::trace::trace;
use dma_why::why::why;
use std::alloc::{AllocError, Global};

/// Returns what `dis` prints for a program.
fn listing(alloc: Global, program: &[u8], at: u32) -> Result<Answer, AllocError>
    ensures { IfOk result (λ answer. Lists at program.now (prints_of answer)) }
{
    let mut out = Vec::new(alloc);
    let mut err = Vec::new(alloc);
    let succeeds = disassemble(alloc, program, at, &mut out, &mut err)?;
    Ok(Answer::new(out, err, Vec::new(alloc), succeeds))
}

/// Returns what `asm` prints for a text.
fn assembly(alloc: Global, text: &[u8], to_file: bool) -> Result<Answer, AllocError>
    ensures { IfOk result (λ answer. Assembles to_file text.now (prints_of answer)) }
{
    let mut err = Vec::new(alloc);
    let (program, succeeds) = assemble_text(alloc, text, &mut err)?;
    let mut out = Vec::new(alloc);
    if to_file {
        return Ok(Answer::new(out, err, program, succeeds));
    }
    print(&mut out, &ProgramLines(&program))?;
    Ok(Answer::new(out, err, Vec::new(alloc), succeeds))
}

/// Returns what `explain` prints for a program.
fn explanation<P: Progress>(
    alloc: Global,
    program: &[u8],
    given: Given,
    most: u32,
    progress: &mut P,
) -> Result<Answer, AllocError>
    ensures { IfOk result (λ answer. Explains given most program.now (prints_of answer)) }
{
    let mut out = Vec::new(alloc);
    let mut err = Vec::new(alloc);
    let succeeds = explain(alloc, program, given, most, &mut out, &mut err, progress)?;
    Ok(Answer::new(out, err, Vec::new(alloc), succeeds))
}

/// Returns what `trace` prints for a program over RAM, with the waveform for its file.
fn tracing<P: Progress>(
    alloc: Global,
    program: &[u8],
    options: &TraceOptions,
    ram: &mut [Region<'_>],
    progress: &mut P,
) -> Result<Answer, AllocError>
    requires { IsTrue (in_order (pieces_of ram.old)) }
    ensures { IfOk result (λ answer.
        Traces options.now ram.old program.now (prints_of answer)) }
{
    let mut out = Vec::new(alloc);
    let mut err = Vec::new(alloc);
    let mut file = Vec::new(alloc);
    let succeeds = trace(
        alloc, program, ram, options, &mut out, &mut err, &mut file, progress,
    )?;
    Ok(Answer::new(out, err, file, succeeds))
}

/// Returns what `why` prints for a script.
#[tactic(auto, using(dma_seeds::proofs::FaultLemmas::message_by))]
fn reasons(alloc: Global, script: &[u8]) -> Result<Answer, AllocError>
    ensures { IfOk result (λ answer. Reasons script.now (prints_of answer)) }
{
    let mut out = Vec::new(alloc);
    let mut err = Vec::new(alloc);
    let fault = why(alloc, script, &mut out)?;
    if let Some(fault) = fault {
        push_script_fault(script, fault, &mut err)?;
    }
    Ok(Answer::new(out, err, Vec::new(alloc), fault.is_none()))
}

/// Returns what a request prints for a program.
fn reply<P: Progress>(
    alloc: Global,
    request: &Request,
    input: &[u8],
    ram: &mut [Region<'_>],
    progress: &mut P,
) -> Result<Answer, AllocError>
    requires { IsTrue (in_order (pieces_of ram.old)) }
    ensures { IfOk result (λ answer.
        Replies request.now ram.old input.now (prints_of answer)) }
{
    match request {
        Request::Dis { at } => listing(alloc, input, *at),
        Request::Asm { to_file } => assembly(alloc, input, *to_file),
        Request::Explain { given, most } => explanation(alloc, input, *given, *most, progress),
        Request::Trace(options) => tracing(alloc, input, options, ram, progress),
        Request::Race { seed } => race_by_seed(alloc, input, *seed),
        Request::RaceSeeds(seeds) => race_by_seeds(alloc, input, *seeds, progress),
        Request::Why => reasons(alloc, input),
    }
}

/// Returns whether a request takes a program.
fn takes_program(request: &Request) -> bool
    ensures { result ≡ takes_program request.now }
{
    match request {
        Request::Dis { .. } | Request::Explain { .. } | Request::Trace(_) => true,
        Request::Asm { .. } | Request::Race { .. } | Request::RaceSeeds(_) | Request::Why => false,
    }
}

/// Returns what a request prints for a program, with a warning if it begins with DMAEND and has more bytes.
fn program_reply<P: Progress>(
    alloc: Global,
    request: &Request,
    program: &[u8],
    ram: &mut [Region<'_>],
    progress: &mut P,
) -> Result<Answer, AllocError>
    requires { IsTrue (in_order (pieces_of ram.old)) }
    ensures { IfOk result (λ answer.
        ProgramReplies request.now ram.old program.now (prints_of answer)) }
{
    let replied = reply(alloc, request, program, ram, progress)?;
    let note = end_warning(takes_program(request), program, replied.succeeds);
    replied.with_note(note)
}

/// Returns what a request prints for a program that is read from text.
fn pasted_reply<P: Progress>(
    alloc: Global,
    request: &Request,
    program: &Pasted,
    ram: &mut [Region<'_>],
    progress: &mut P,
) -> Result<Answer, AllocError>
    requires { IsTrue (in_order (pieces_of ram.old)) }
    ensures { IfOk result (λ answer. FormReplies request.now ram.old
        (program.now.form, program.now.bytes.items) (prints_of answer)) }
{
    let replied = program_reply(alloc, request, &program.bytes, ram, progress)?;
    with_form(replied, program.form)
}

/// Returns what a request prints for a program in text.
fn text_reply<P: Progress>(
    alloc: Global,
    request: &Request,
    spelling: Spelling,
    text: &[u8],
    ram: &mut [Region<'_>],
    progress: &mut P,
) -> Result<Answer, AllocError>
    requires { IsTrue (in_order (pieces_of ram.old)) }
    ensures { IfOk result (λ answer.
        TextReplies request.now spelling ram.old text.now (prints_of answer)) }
{
    match read_pasted(alloc, spelling, text)? {
        Ok(program) => pasted_reply(alloc, request, &program, ram, progress),
        Err(why) => refusal(alloc, why, text),
    }
}

/// Returns what a request prints for an input that isn't read as text.
fn raw_reply<P: Progress>(
    alloc: Global,
    request: &Request,
    input: &[u8],
    ram: &mut [Region<'_>],
    progress: &mut P,
) -> Result<Answer, AllocError>
    requires { IsTrue (in_order (pieces_of ram.old)) }
    ensures { IfOk result (λ answer.
        RawReplies request.now ram.old input.now (prints_of answer)) }
{
    let replied = program_reply(alloc, request, input, ram, progress)?;
    let note = hint(takes_program(request), input, replied.succeeds);
    replied.with_note(note)
}

/// Returns what a request prints for its input.
fn input_reply<P: Progress>(
    alloc: Global,
    request: &Request,
    spelling: Option<Spelling>,
    input: &[u8],
    ram: &mut [Region<'_>],
    progress: &mut P,
) -> Result<Answer, AllocError>
    requires { IsTrue (in_order (pieces_of ram.old)) }
    ensures { IfOk result (λ answer.
        InputReplies request.now spelling ram.old input.now (prints_of answer)) }
{
    match spelling {
        Some(spelling) => text_reply(alloc, request, spelling, input, ram, progress),
        None => raw_reply(alloc, request, input, ram, progress),
    }
}

/// Returns the answer to a request. Fails if memory runs out.
pub fn answer<P: Progress>(
    alloc: Global,
    request: &Request,
    spelling: Option<Spelling>,
    name: &str,
    input: &[u8],
    ram: &mut [Region<'_>],
    progress: &mut P,
) -> Result<Answer, AllocError>
    requires { IsTrue (in_order (pieces_of ram.old)) }
    ensures { IfOk result (λ answer.
        Answers request.now spelling name.now ram.old input.now (prints_of answer)) }
{
    let replied = input_reply(alloc, request, spelling, input, ram, progress)?;
    replied.under_name(alloc, name)
}
