//! A call with its files: reads them, answers, and writes.
use crate::command_line::Call;
use crate::meter::Meter;
use crate::replies::answer;
use crate::values::RamRange;
use dma_io::answer::deliver;
use dma_io::command::{FAULT, OUT_OF_MEMORY};
use dma_io::output::OutputFailed;
use dma_mem::regions::{Region, are_in_order};
use std::alloc::{AllocError, AllocFailed, Global};
use std::io::{IsTerminal, Read};
use std::{fs, io};

/// The exit status of wrong use.
const WRONG_USE: u8 = 2;

/// The name of standard input in messages.
const STANDARD_INPUT: &str = "<stdin>";

/// Why a call has no answer.
#[derive(Drop)]
pub enum Failure<'a> {
    /// Out of memory.
    NoMemory,
    /// The system refuses to read or write a file.
    File(&'a str, io::Error),
    /// A file has more bytes than the RAM that is to begin with them.
    TooLong(&'a str),
    /// Two ranges of RAM overlap, or one ends above 2^32.
    Ram,
    /// Standard output or standard error can't be written.
    Output,
}

impl From<AllocError> for Failure<'_> {
    fn from(_error: AllocError) -> Self {
        Failure::NoMemory
    }
}

impl<T: Drop> From<AllocFailed<T>> for Failure<'_> {
    fn from(_error: AllocFailed<T>) -> Self {
        Failure::NoMemory
    }
}

impl<'a> Failure<'a> {
    /// Returns the failure of a file.
    pub fn of(name: &'a str, error: io::Error) -> Failure<'a> {
        if error.kind() == io::ErrorKind::OutOfMemory {
            Failure::NoMemory
        } else {
            Failure::File(name, error)
        }
    }

    /// Prints what is wrong on standard error, and returns the exit status.
    pub fn report(&self, rt: &HostRuntime) -> u8 {
        // (if nothing can be printed, the status still says it)
        match self {
            Failure::NoMemory => {
                let _ = eprintln!(rt; "dma330: out of memory");
                OUT_OF_MEMORY
            }
            Failure::File(name, error) => {
                let _ = eprintln!(rt; "{name}: {error}");
                FAULT
            }
            Failure::TooLong(name) => {
                let _ = eprintln!(rt; "{name}: longer than the RAM that it is for");
                FAULT
            }
            Failure::Ram => {
                let _ = eprintln!(rt;
                    "dma330: two ranges of --ram overlap, or one ends above 2^32"
                );
                WRONG_USE
            }
            Failure::Output => {
                let _ = eprintln!(rt; "dma330: the output can't be written");
                FAULT
            }
        }
    }
}

/// Reads the input of a call.
fn input_of<'a>(rt: &HostRuntime, call: &Call<'a>) -> Result<Vec<u8>, Failure<'a>> {
    if let Some(path) = call.input {
        return fs::read(rt, path).map_err(|error| Failure::of(path, error));
    }
    let mut stdin = rt.stdin();
    if stdin.is_terminal() {
        let _ = eprintln!(rt; "dma330: reads from the keyboard until Ctrl-D");
    }
    let mut input = Vec::new(rt.alloc());
    match stdin.read_to_end(&mut input) {
        Ok(_) => Ok(input),
        Err(error) => Err(Failure::of(STANDARD_INPUT, error)),
    }
}

/// Returns the bytes of a range of RAM: those of its file, and then 0.
fn bytes_of<'a>(rt: &HostRuntime, ram: &RamRange<'a>) -> Result<Vec<u8>, Failure<'a>> {
    let mut bytes = vec![in rt.alloc(); 0u8; ram.range.len as usize]?;
    if let Some(path) = ram.file {
        let front = fs::read(rt, path).map_err(|error| Failure::of(path, error))?;
        if front.len() > bytes.len() {
            return Err(Failure::TooLong(path));
        }
        bytes[..front.len()].copy_from_slice(&front);
    }
    Ok(bytes)
}

/// Returns the regions of RAM over these bytes.
fn regions_of<'a>(
    alloc: Global,
    ram: &[RamRange<'_>],
    bytes: &'a mut [Vec<u8>],
) -> Result<Vec<Region<'a>>, AllocError> {
    let mut regions = Vec::with_capacity(alloc, ram.len())?;
    for (range, bytes) in ram.iter().zip(bytes.iter_mut()) {
        regions.push(Region {
            addr: range.range.addr,
            bytes: bytes.as_mut_slice(),
            read_only: 0,
        })?;
    }
    Ok(regions)
}

/// Runs a call, and returns its exit status.
pub fn run<'a>(rt: &HostRuntime, call: &Call<'a>) -> Result<u8, Failure<'a>> {
    let input = input_of(rt, call)?;
    let mut memory = Vec::new(rt.alloc());
    for ram in &call.ram {
        memory.push(bytes_of(rt, ram)?)?;
    }
    let mut regions = regions_of(rt.alloc(), &call.ram, &mut memory)?;
    if !are_in_order(&regions) {
        return Err(Failure::Ram);
    }
    let name = call.input.unwrap_or(STANDARD_INPUT);
    let mut meter = Meter::new(rt);
    let answer = answer(
        rt.alloc(),
        &call.request,
        call.spelling,
        name,
        &input,
        &mut regions,
        &mut meter,
    );
    meter.clear();
    let answer = answer?;
    if let Some(path) = call.output
        && answer.writes_file()
    {
        fs::write(rt, path, answer.file.as_slice()).map_err(|error| Failure::of(path, error))?;
    }
    match deliver(&answer, &mut rt.stdout(), &mut rt.stderr()) {
        Ok(status) => Ok(status),
        Err(OutputFailed) => Err(Failure::Output),
    }
}
