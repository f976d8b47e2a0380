//! The subcommands with their options and help, as clap has them.
use clap::{Arg, ArgAction, ArgGroup, Command};
use std::alloc::{AllocError, Global};

/// The version of the program, the same as that of the library for C.
const VERSION: &str = "1.0.0";

/// How an argument is given.
#[derive(Clone, Copy)]
enum Form {
    /// As a word without an option: the file that is read.
    File,
    /// As an option without a value.
    Flag,
    /// As an option with a value of this name.
    Value(&'static str),
    /// As an option with a value of this name, which may be given several times.
    Values(&'static str),
}

/// What else holds for an argument.
#[derive(Clone, Copy)]
enum Rule {
    None,
    /// It has this letter too.
    Letter(char),
    /// It isn't given together with the option of this name.
    Without(&'static str),
    /// It isn't given together with one of the options of these names.
    WithoutBoth(&'static str, &'static str),
    /// Its value is one of these, and the second if it isn't given.
    OneOf(&'static [&'static str], &'static str),
}

/// An argument of a subcommand, with its help.
#[derive(Clone, Copy)]
struct Argument {
    name: &'static str,
    form: Form,
    rule: Rule,
    what: &'static str,
}

/// The usage of a subcommand, with its help.
#[derive(Clone, Copy)]
struct Usage {
    name: &'static str,
    about: &'static str,
    example: &'static str,
    arguments: &'static [Argument],
}

/// The file of a program in bytes.
const PROGRAM: Argument = Argument {
    name: "file",
    form: Form::File,
    rule: Rule::None,
    what: "The program; standard input if it is - or missing",
};

/// The file of a text.
const TEXT: Argument = Argument {
    name: "file",
    form: Form::File,
    rule: Rule::None,
    what: "The text; standard input if it is - or missing",
};

/// The file of a script.
const SCRIPT: Argument = Argument {
    name: "file",
    form: Form::File,
    rule: Rule::None,
    what: "The script; standard input if it is - or missing",
};

/// Bytes in hexadecimal text.
const HEX: Argument = Argument {
    name: "hex",
    form: Form::Flag,
    rule: Rule::None,
    what: "Read FILE as text: pairs of hexadecimal digits with comments after #, or a dump",
};

/// Words in hexadecimal text.
const WORDS: Argument = Argument {
    name: "words",
    form: Form::Flag,
    rule: Rule::Without("hex"),
    what: "Read FILE as text: 32-bit words of eight hexadecimal digits, as debuggers print them, or a dump",
};

/// A dump. (`trace` has another option of this name.)
const DUMP: Argument = Argument {
    name: "dump",
    form: Form::Flag,
    rule: Rule::WithoutBoth("hex", "words"),
    what: "Read FILE as a dump, as hexdump, xxd, od, md, gdb, objdump -s or a log has it, or as an array",
};

/// The bus.
const BUS: Argument = Argument {
    name: "bus",
    form: Form::Value("BITS"),
    rule: Rule::OneOf(&["32", "64", "128", "ideal"], "128"),
    what: "Take a data bus of this width; on ideal, the bus of dmasim, each beat is whole at any address",
};

static DIS: Usage = Usage {
    name: "dis",
    about: "Prints a program's instructions in the manual's syntax, with addresses and bytes",
    example: "Example:\n  dma330 dis --hex --at 0x3000 examples/scripts/linux.hex",
    arguments: &[
        Argument {
            name: "at",
            form: Form::Value("ADDRESS"),
            rule: Rule::None,
            what: "Begin at this address [default: 0]",
        },
        HEX,
        WORDS,
        DUMP,
        PROGRAM,
    ],
};

static ASM: Usage = Usage {
    name: "asm",
    about: "Assembles a program from the manual's syntax",
    example: "Example:\n  dma330 asm -o program.bin examples/scripts/nested.dmas",
    arguments: &[
        Argument {
            name: "output",
            form: Form::Value("FILE"),
            rule: Rule::Letter('o'),
            what: "Write the bytes to FILE, in place of hexadecimal text",
        },
        TEXT,
    ],
};

static EXPLAIN: Usage = Usage {
    name: "explain",
    about: "Prints what a program copies and sets to 0, or the first thing that is wrong with it",
    example: "Example:\n  dma330 explain --hex --bus 64 examples/scripts/linux.hex",
    arguments: &[
        HEX,
        WORDS,
        DUMP,
        BUS,
        Argument {
            name: "most",
            form: Form::Value("N"),
            rule: Rule::None,
            what: "Give up after N instructions [default: 10000000]",
        },
        Argument {
            name: "registers",
            form: Form::Value("NAME=VALUE,.."),
            rule: Rule::None,
            what: "Begin with these values of SAR, DAR, CCR, LC0 or LC1 [default: any values]",
        },
        PROGRAM,
    ],
};

static TRACE: Usage = Usage {
    name: "trace",
    about: "Executes a program over RAM, and prints a line for each instruction",
    example: "Example:\n  dma330 trace --hex --ram 0x10000000+0x2000 --quiet \
        --dump 0x10001000+16 examples/scripts/linux.hex",
    arguments: &[
        HEX,
        WORDS,
        BUS,
        PROGRAM,
        Argument {
            name: "ram",
            form: Form::Values("ADDRESS+LENGTH[=FILE]"),
            rule: Rule::None,
            what: "Make RAM of the bytes of FILE and then 0 [default: 0, at the ranges that explain finds]",
        },
        Argument {
            name: "fail",
            form: Form::Values("ADDRESS+LENGTH"),
            rule: Rule::None,
            what: "Let loads and stores here fail",
        },
        Argument {
            name: "event",
            form: Form::Values("N"),
            rule: Rule::None,
            what: "Set the flag of event N, 0 to 31, at the start",
        },
        Argument {
            name: "limit",
            form: Form::Value("N"),
            rule: Rule::None,
            what: "Stop after N instructions [default: 1000000]",
        },
        Argument {
            name: "from",
            form: Form::Value("N"),
            rule: Rule::None,
            what: "Print from instruction N on, counted from 1 [default: 1]",
        },
        Argument {
            name: "count",
            form: Form::Value("N"),
            rule: Rule::None,
            what: "Print at most N instructions [default: all]",
        },
        Argument {
            name: "quiet",
            form: Form::Flag,
            rule: Rule::None,
            what: "Print no instruction, only the end",
        },
        Argument {
            name: "dump",
            form: Form::Values("ADDRESS+LENGTH"),
            rule: Rule::None,
            what: "Print these bytes after the end",
        },
        Argument {
            name: "vcd",
            form: Form::Value("FILE"),
            rule: Rule::None,
            what: "Write the waveform of the whole run, up to --limit, as a Value Change Dump",
        },
    ],
};

static RACE: Usage = Usage {
    name: "race",
    about: "Executes a script of dmasim race in one thread, with its turns in the order of a seed",
    example: "A line `expect TEXT` of the script compares TEXT with a line that the race prints.\n\n\
        Examples:\n  dma330 race --seed 7 --script seven.dma examples/scripts/race.dma\n  \
        dmasim run < seven.dma\n  dma330 race --seeds 0-999 examples/scripts/conflict.dma",
    arguments: &[
        Argument {
            name: "seed",
            form: Form::Value("N"),
            rule: Rule::None,
            what: "Take the turns in the order that is drawn from N",
        },
        Argument {
            name: "seeds",
            form: Form::Value("FIRST-LAST"),
            rule: Rule::Without("script"),
            what: "Take each of these seeds, and print which outputs they give",
        },
        Argument {
            name: "script",
            form: Form::Value("FILE"),
            rule: Rule::None,
            what: "Write a script of dmasim run that does the same, with the turns as step lines",
        },
        SCRIPT,
    ],
};

static WHY: Usage = Usage {
    name: "why",
    about: "Executes a script of dmasim run, and prints why each channel is where it is",
    example: "Example:\n  dma330 why examples/scripts/circle.dma",
    arguments: &[SCRIPT],
};

/// Returns an argument as its form and its help have it.
fn plain_arg<'a>(alloc: Global, argument: &Argument) -> Arg<'a> {
    let name = argument.name;
    let arg = Arg::new(alloc, name).help(argument.what);
    match argument.form {
        Form::File => arg.value_name("FILE"),
        Form::Flag => arg.long(name).action(ArgAction::SetTrue),
        Form::Value(value) => arg.long(name).value_name(value),
        Form::Values(value) => arg.long(name).value_name(value).action(ArgAction::Append),
    }
}

/// Returns an argument as clap has it.
fn arg_of<'a>(alloc: Global, argument: &Argument) -> Result<Arg<'a>, AllocError> {
    let arg = plain_arg(alloc, argument);
    if let Rule::Without(other) = argument.rule {
        return arg.conflicts_with(other);
    }
    if let Rule::WithoutBoth(one, other) = argument.rule {
        return arg.conflicts_with(one)?.conflicts_with(other);
    }
    Ok(match argument.rule {
        Rule::None | Rule::Without(_) | Rule::WithoutBoth(_, _) => arg,
        Rule::Letter(letter) => arg.short(letter),
        Rule::OneOf(values, default) => arg.value_parser(values).default_value(default),
    })
}

/// Returns the arguments of a usage.
fn args_of<'a>(alloc: Global, usage: &Usage) -> Result<Vec<Arg<'a>>, AllocError> {
    let mut args = Vec::new(alloc);
    for argument in usage.arguments {
        args.push(arg_of(alloc, argument)?)?;
    }
    Ok(args)
}

/// Returns the command of a usage, without groups.
fn plain_command<'a>(alloc: Global, usage: &Usage) -> Result<Command<'a>, AllocError> {
    let args = args_of(alloc, usage)?;
    Command::new(alloc, usage.name)
        .about(usage.about)
        .after_help(usage.example)
        .args(args)
}

/// Returns the group of the options of `race` of which one has to be given.
fn order<'a>(alloc: Global) -> Result<ArgGroup<'a>, AllocError> {
    let order = ArgGroup::new(alloc, "order").required(true);
    order.arg("seed")?.arg("seeds")
}

/// A subcommand.
#[derive(Clone, Copy, PartialEq, Eq)]
pub enum Subcommand {
    Dis,
    Asm,
    Explain,
    Trace,
    Race,
    Why,
}

/// The subcommands, in the order of the help.
const SUBCOMMANDS: [Subcommand; 6] = [
    Subcommand::Dis,
    Subcommand::Asm,
    Subcommand::Explain,
    Subcommand::Trace,
    Subcommand::Race,
    Subcommand::Why,
];

impl Subcommand {
    /// Returns the subcommand of this name, or `None` for any other name.
    pub fn named(name: &str) -> Option<Subcommand> {
        SUBCOMMANDS
            .iter()
            .find(|it| it.usage().name == name)
            .copied()
    }

    /// Returns its usage.
    fn usage(self) -> &'static Usage {
        match self {
            Subcommand::Dis => &DIS,
            Subcommand::Asm => &ASM,
            Subcommand::Explain => &EXPLAIN,
            Subcommand::Trace => &TRACE,
            Subcommand::Race => &RACE,
            Subcommand::Why => &WHY,
        }
    }

    /// Returns its command.
    fn command<'a>(self, alloc: Global) -> Result<Command<'a>, AllocError> {
        let command = plain_command(alloc, self.usage())?;
        if self == Subcommand::Race {
            return command.group(order(alloc)?);
        }
        Ok(command)
    }

    /// Returns its command under the name in the usage.
    pub fn named_command<'a>(self, alloc: Global) -> Result<Command<'a>, AllocError> {
        let usage = format!(in alloc; "dma330 {}", self.usage().name)?;
        self.command(alloc)?.bin_name(usage.as_str())
    }
}

/// Returns the command of the program, without subcommands.
fn without_subcommands<'a>(alloc: Global) -> Result<Command<'a>, AllocError> {
    Command::new(alloc, "dma330")
        .version(VERSION)
        .about("A workbench for channel programs of the ARM DMA-330 (PL330)")
        .after_help(
            "docs/DMA330.md has what each command reads and prints.\n\
             Status: 0, 1 for a fault of the input, 2 for wrong use, 3 if out of memory.",
        )
        .subcommand_required(true)
        .bin_name("dma330")
}

/// Returns the command of the program.
pub fn dma330<'a>(alloc: Global) -> Result<Command<'a>, AllocError> {
    let mut command = without_subcommands(alloc)?;
    for subcommand in SUBCOMMANDS {
        command = command.subcommand(subcommand.command(alloc)?)?;
    }
    Ok(command)
}
