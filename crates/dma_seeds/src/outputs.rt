//! The different outputs of a race, and how many seeds give each.

ghost use Rattle.std.specs.Prelude.{◌≡◌, ◌++◌, ◌<◌, ℕ, List, OnErr, OnOk, codes, decimal, if◌then◌else◌, position};
ghost use Rattle.std.specs.List.{All};
ghost use Rattle.std.specs.Str.{bytes_eq};
ghost use Rattle.dma_seeds.specs.Seeds.{indented, number_of_things, numbered, output_text};
ghost use Rattle.dma_seeds.specs.inner.Counted.{counted};

use dma_io::printing::print_line;
use dma_mem::lists::Bytes;
use dma_script::words::split_script_line;
use dma_text::text::{Text, print};
use std::alloc::AllocError;

/// An output of a race, from the line of `go` on, and how many seeds give it.
#[derive(Drop)]
pub struct Output {
    /// The output.
    pub text: Bytes,
    /// How many seeds give it.
    pub seeds: u64,
    /// The first of these.
    pub first: u64,
}

/// Returns the place of the output with this text.
fn place_of(outputs: &[Output], text: &[u8]) -> Option<usize>
    ensures { result ≡ position (λ output. bytes_eq output.text text.now) outputs.now }
{
    outputs
        .iter()
        .position(|output| output.text.as_slice() == text)
}

/// Counts the output of one more seed. Compares its text with that of each output before. Fails if memory runs out.
pub(crate) fn count_output(outputs: &mut Vec<Output>, new: Output) -> Result<(), AllocError>
    requires { All (λ output. output.seeds < u64.MAX) outputs.old.items }
    ensures { OnOk result (outputs.new.items ≡ counted outputs.old.items new) }
{
    match place_of(outputs, new.text.as_slice()) {
        Some(place) => outputs[place].seeds += 1,
        None => outputs.push(new)?,
    }
    Ok(())
}

/// A number of things: the number, and what one of them is called.
#[derive(Drop)]
pub(crate) struct Things<'a>(pub u64, pub &'a str);

impl Text for Things<'_> {
    ghost text = { λ things. number_of_things things.0 things.1.now };

    fn push(&self, out: &mut Vec<u8>) -> Result<(), AllocError> {
        (self.0, " ", self.1).push(out)?;
        if self.0 == 1 { Ok(()) } else { "s".push(out) }
    }
}

/// Appends the lines of a text, each behind two spaces. Fails if memory runs out.
fn print_indented(text: &[u8], out: &mut Vec<u8>) -> Result<(), AllocError>
    ensures { OnOk result (out.new.items ≡ out.old.items ++ indented text.now) }
{
    let mut rest = text;
    while !rest.is_empty() {
        let (line, after) = split_script_line(rest);
        print_line(out, &("  ", line))?;
        rest = after;
    }
    Ok(())
}

/// Appends an output with its number. Fails if memory runs out.
fn print_output(number: usize, output: &Output, out: &mut Vec<u8>) -> Result<(), AllocError>
    ensures { OnOk result (out.new.items ≡ out.old.items ++ output_text number output.now) }
{
    let seeds = Things(output.seeds, "seed");
    print_line(
        out,
        &(("output ", number, ": "), seeds, ", first ", output.first),
    )?;
    print_indented(output.text.as_slice(), out)
}

/// Appends outputs, numbered from 1. Fails if memory runs out.
pub(crate) fn print_outputs(outputs: &[Output], out: &mut Vec<u8>) -> Result<(), AllocError>
    ensures { OnOk result (out.new.items ≡ out.old.items ++ numbered 1 outputs.now) }
{
    for (at, output) in outputs.iter().enumerate() {
        print_output(at + 1, output, out)?;
    }
    Ok(())
}
