//! What the words of a command line ask for.
use crate::subcommands::{Subcommand, dma330};
use crate::values::{RamRange, given, number, ram_range, range, seed_range};
use clap::error::ErrorKind;
use clap::{ArgMatches, Command, Error};
use dma_chan::bus::{Bus, BusWidth};
use dma_explain::explain::known::Given;
use dma_manual::hexadecimal::Notation;
use dma_manual::pasted::Spelling;
use dma_mem::segment::Segment;
use dma_seeds::seeds::SeedRange;
use dma_trace::explain::USUAL_MOST;
use dma_trace::options::TraceOptions;
use std::alloc::{AllocError, AllocFailed, Global};

/// A subcommand with its options.
#[derive(Drop)]
pub enum Request {
    Dis { at: u32 },
    Asm { to_file: bool },
    Explain { given: Given, most: u32 },
    Trace(TraceOptions),
    Race { seed: u64 },
    RaceSeeds(SeedRange),
    Why,
}

/// A call of the program.
#[derive(Drop)]
pub struct Call<'a> {
    pub request: Request,
    /// The file that is read, if it isn't standard input.
    pub input: Option<&'a str>,
    /// How the input spells a program, if it is text.
    pub spelling: Option<Spelling>,
    /// The RAM of a trace.
    pub ram: Vec<RamRange<'a>>,
    /// The file that is written.
    pub output: Option<&'a str>,
}

/// Why a subcommand's options give no call.
#[derive(Drop)]
enum Wrong<'a> {
    /// The value of an option has the wrong form or range.
    Value {
        id: &'static str,
        word: &'a str,
        wanted: &'static str,
    },
    /// Out of memory.
    NoMemory,
}

impl From<AllocError> for Wrong<'_> {
    fn from(_error: AllocError) -> Self {
        Wrong::NoMemory
    }
}

impl<T: Drop> From<AllocFailed<T>> for Wrong<'_> {
    fn from(_error: AllocFailed<T>) -> Self {
        Wrong::NoMemory
    }
}

/// Returns an error with the usage of a command.
fn error_of(mut command: Command<'_>, kind: ErrorKind, message: &str) -> Result<Error, AllocError> {
    command.error(kind, message)
}

impl Wrong<'_> {
    /// Returns the error of a subcommand, with its usage.
    fn error(&self, alloc: Global, subcommand: Subcommand) -> Result<Error, AllocError> {
        let Wrong::Value { id, word, wanted } = self else {
            return Err(AllocError);
        };
        let message = format!(in alloc; "invalid value '{word}' for '--{id}': {wanted}")?;
        error_of(
            subcommand.named_command(alloc)?,
            ErrorKind::ValueValidation,
            message.as_str(),
        )
    }
}

/// Reads a number, or returns `default` if the option is missing.
fn number_at<'a>(
    matches: &ArgMatches<'a>,
    id: &'static str,
    default: u32,
) -> Result<u32, Wrong<'a>> {
    let Some(word) = matches.get_str(id) else {
        return Ok(default);
    };
    let wanted = "not a number from 0 to 4294967295";
    number(word).ok_or(Wrong::Value { id, word, wanted })
}

/// Reads the ranges of addresses of an option.
fn ranges_at<'a>(
    alloc: Global,
    matches: &ArgMatches<'a>,
    id: &'static str,
) -> Result<Vec<Segment>, Wrong<'a>> {
    let wanted = "not ADDRESS+LENGTH";
    let mut ranges = Vec::new(alloc);
    for &word in matches.get_strs(id).unwrap_or(&[]) {
        ranges.push(range(word).ok_or(Wrong::Value { id, word, wanted })?)?;
    }
    Ok(ranges)
}

/// Reads the RAM of a trace, and puts it in the order of its addresses.
fn ram_at<'a>(alloc: Global, matches: &ArgMatches<'a>) -> Result<Vec<RamRange<'a>>, Wrong<'a>> {
    let (id, wanted) = ("ram", "not ADDRESS+LENGTH[=FILE]");
    let mut ram = Vec::new(alloc);
    for &word in matches.get_strs(id).unwrap_or(&[]) {
        ram.push(ram_range(word).ok_or(Wrong::Value { id, word, wanted })?)?;
    }
    ram.sort_by_key(|it| it.range.addr)?;
    Ok(ram)
}

/// Reads the numbers of events, and returns their flags.
fn events_at<'a>(matches: &ArgMatches<'a>) -> Result<u32, Wrong<'a>> {
    let (id, wanted) = ("event", "not a number from 0 to 31");
    let mut events = 0u32;
    for &word in matches.get_strs(id).unwrap_or(&[]) {
        match number(word) {
            Some(event) if event < 32 => events |= 1 << event,
            _ => return Err(Wrong::Value { id, word, wanted }),
        }
    }
    Ok(events)
}

/// Reads the bus.
fn bus_at(matches: &ArgMatches<'_>) -> Bus {
    match matches.get_str("bus") {
        Some("32") => Bus::Chip(BusWidth::Bits32),
        Some("64") => Bus::Chip(BusWidth::Bits64),
        Some("128") => Bus::Chip(BusWidth::Bits128),
        _ => Bus::Ideal,
    }
}

/// Reads the options of `explain`. Of the registers that aren't given none is known.
fn explain_of<'a>(matches: &ArgMatches<'a>) -> Result<Request, Wrong<'a>> {
    let most = number_at(matches, "most", USUAL_MOST)?;
    let none = Given::none(bus_at(matches));
    let id = "registers";
    let Some(word) = matches.get_str(id) else {
        return Ok(Request::Explain { given: none, most });
    };
    let wanted =
        "not NAME=VALUE,.. of SAR, DAR, a CCR that the bus accepts, LC0 and LC1 (up to 255)";
    match given(none, word) {
        Some(given) => Ok(Request::Explain { given, most }),
        None => Err(Wrong::Value { id, word, wanted }),
    }
}

/// Reads the options of `trace`.
fn trace_of<'a>(alloc: Global, matches: &ArgMatches<'a>) -> Result<Request, Wrong<'a>> {
    let count = if matches.get_flag("quiet") {
        0
    } else {
        number_at(matches, "count", u32::MAX)?
    };
    Ok(Request::Trace(TraceOptions {
        bus: bus_at(matches),
        events: events_at(matches)?,
        failing: ranges_at(alloc, matches, "fail")?,
        from: number_at(matches, "from", 1)?,
        count,
        limit: number_at(matches, "limit", 1_000_000)?,
        dumps: ranges_at(alloc, matches, "dump")?,
        wave: matches.contains_id("vcd"),
    }))
}

/// Reads the options of `race`.
fn race_of<'a>(matches: &ArgMatches<'a>) -> Result<Request, Wrong<'a>> {
    let id = "seeds";
    let Some(word) = matches.get_str(id) else {
        let seed = number_at(matches, "seed", 0)?;
        return Ok(Request::Race {
            seed: u64::from(seed),
        });
    };
    let wanted = "not FIRST-LAST, two numbers up to 4294967295 in rising order";
    match seed_range(word) {
        Some(seeds) => Ok(Request::RaceSeeds(seeds)),
        None => Err(Wrong::Value { id, word, wanted }),
    }
}

/// Reads the request of a subcommand.
fn request_of<'a>(
    alloc: Global,
    subcommand: Subcommand,
    matches: &ArgMatches<'a>,
) -> Result<Request, Wrong<'a>> {
    match subcommand {
        Subcommand::Dis => Ok(Request::Dis {
            at: number_at(matches, "at", 0)?,
        }),
        Subcommand::Asm => Ok(Request::Asm {
            to_file: matches.contains_id("output"),
        }),
        Subcommand::Explain => explain_of(matches),
        Subcommand::Trace => trace_of(alloc, matches),
        Subcommand::Race => race_of(matches),
        Subcommand::Why => Ok(Request::Why),
    }
}

/// Returns how the input spells a program, if it is text.
fn spelling_at(subcommand: Subcommand, matches: &ArgMatches<'_>) -> Option<Spelling> {
    if matches.get_flag("hex") {
        Some(Spelling::Digits(Notation::Pairs))
    } else if matches.get_flag("words") {
        Some(Spelling::Digits(Notation::Words))
    } else if subcommand != Subcommand::Trace && matches.get_flag("dump") {
        Some(Spelling::Dump)
    } else {
        None
    }
}

/// Returns the call that a subcommand and its options ask for.
fn call_of_subcommand<'a>(
    alloc: Global,
    subcommand: Subcommand,
    matches: &ArgMatches<'a>,
) -> Result<Call<'a>, Wrong<'a>> {
    Ok(Call {
        request: request_of(alloc, subcommand, matches)?,
        input: matches.get_str("file").filter(|file| *file != "-"),
        spelling: spelling_at(subcommand, matches),
        ram: ram_at(alloc, matches)?,
        output: matches
            .get_str("output")
            .or(matches.get_str("script"))
            .or(matches.get_str("vcd")),
    })
}

/// Returns the call that these matches ask for.
fn call_of_matches<'a>(alloc: Global, matches: &ArgMatches<'a>) -> Result<Call<'a>, Error> {
    let named = matches.subcommand_name().and_then(Subcommand::named);
    let (Some(subcommand), Some((_, matches))) = (named, matches.subcommand()) else {
        let message = "no command is given";
        return Err(error_of(dma330(alloc)?, ErrorKind::MissingSubcommand, message)?);
    };
    match call_of_subcommand(alloc, subcommand, matches) {
        Ok(call) => Ok(call),
        Err(wrong) => Err(wrong.error(alloc, subcommand)?),
    }
}

/// Returns the call that the words of a command line ask for. Fails with a mistake in the words, or with the text of
/// `--help` or `--version`.
pub fn call_of<'a>(alloc: Global, words: &'a [String]) -> Result<Call<'a>, Error> {
    let matches = dma330(alloc)?.try_get_matches_from(words)?;
    call_of_matches(alloc, &matches)
}
