// The commands, which are subcommands to `clap`: what each does, and a record of its words.

ghost use Rattle.std.specs.Prelude.{◌≡◌, find, is_some};
ghost use Rattle.std.specs.Str.{bytes_eq};
ghost use Rattle.bril_words.specs.Request.{AreFunctions, AreRecorded, AreSteps, IsActionInRange, as_it_stands, with_passes};
ghost use Rattle.bril_words.specs.Subcommands.{action_of, form_of, name_of, subcommand_named};

use crate::options::{Flag, Operand, Setting};
use crate::request::{
    InterpretSettings, MachineSettings, Numbers, RecordSettings, RunSettings, limits_of,
};
use crate::values::CELLS;
use bril_tree::limits::Limits;

/// What a command does, by what it works on.
#[derive(Clone, Copy, Drop)]
pub enum Action {
    /// It works on the tree of its one file.
    File(FileAction),
    /// It works on the bytes of its one file.
    Bytes(BytesAction),
    /// It works on the tree of its file and of all that this imports.
    Tree(TreeAction),
    /// It works on the accepted program of that tree.
    Program(ProgramAction),
    /// It has no file: it makes the demo program of so many functions, records its run, compiles it with this profile and runs it, and
    /// writes how that went.
    Demo { functions: u32 },
}

/// What is done with the tree of a file.
#[derive(Clone, Copy, Drop)]
pub enum FileAction {
    /// Its canonical text is written.
    WriteText,
    /// Its canonical JSON is written.
    WriteJson,
}

/// What is done with the bytes of a file.
#[derive(Clone, Copy, Drop)]
pub enum BytesAction {
    /// They are a listing, of which the machine words are written.
    Assemble,
    /// They are an ELF file, which is run on the machine.
    Execute(MachineSettings),
}

/// What is done with the tree of a file and of all that this imports.
#[derive(Clone, Copy, Drop)]
pub enum TreeAction {
    /// It is written, in canonical text.
    Link,
}

/// What is done with an accepted program.
#[derive(Clone, Copy, Drop)]
pub enum ProgramAction {
    /// It is taken as it stands.
    AsItStands(SourceAction),
    /// It is given to a list of passes.
    WithPasses(PassesAction),
    /// Its image is run with a script that says where it stops.
    Monitor(MachineSettings),
}

/// What is done with an accepted program as it stands.
#[derive(Clone, Copy, Drop)]
pub enum SourceAction {
    /// How many functions and items it has is written.
    Check,
    /// It is interpreted.
    Interpret(InterpretSettings),
    /// It is interpreted, and the profile of the run is written.
    Record(RecordSettings),
}

/// What is done with the program that a list of passes makes.
#[derive(Clone, Copy, Drop)]
pub enum PassesAction {
    /// It is run on the machine.
    Run(RunSettings),
    /// Its machine words are written, which are for these limits.
    Emit { limits: Limits },
    /// Its machine words, which are for these limits, are written as a listing.
    List { limits: Limits },
    /// Its machine words, which are for these limits, are written as an ELF file.
    Wrap { limits: Limits },
    /// It is written, in canonical text.
    Passes,
}

// A command.
#[derive(Clone, Copy, PartialEq, Eq, Debug, Drop)]
pub(crate) enum Subcommand {
    Run,
    Interp,
    Record,
    Passes,
    Emit,
    List,
    Assemble,
    Wrap,
    Execute,
    Monitor,
    Check,
    Link,
    WriteText,
    WriteJson,
    Demo,
}

// All commands, in the order in which help lists them.
pub(crate) const SUBCOMMANDS: [Subcommand; 15] = [
    Subcommand::Run,
    Subcommand::Interp,
    Subcommand::Record,
    Subcommand::Passes,
    Subcommand::Emit,
    Subcommand::List,
    Subcommand::Assemble,
    Subcommand::Wrap,
    Subcommand::Execute,
    Subcommand::Monitor,
    Subcommand::Check,
    Subcommand::Link,
    Subcommand::WriteText,
    Subcommand::WriteJson,
    Subcommand::Demo,
];

// The words of a command, and what help tells of it.
#[derive(Clone, Copy, Drop)]
pub(crate) struct Form<'a> {
    // Its own word.
    pub(crate) name: &'a str,
    // The words that it wants, in this order.
    pub(crate) operands: &'a [Operand],
    // Its options with a value.
    pub(crate) options: &'a [Setting],
    // Its options without one.
    pub(crate) flags: &'a [Flag],
    // Its usage line, where it takes `--` and arguments, of which `clap` knows nothing.
    pub(crate) usage: Option<&'a str>,
    // What it does.
    pub(crate) about: &'a str,
    // An example, for the end of its help.
    pub(crate) example: &'a str,
}

static FILE: [Operand; 1] = [Operand::File];

static LISTING: [Operand; 1] = [Operand::Listing];

static ELF: [Operand; 1] = [Operand::Elf];

static FILE_AND_SCRIPT: [Operand; 2] = [Operand::File, Operand::Script];

static FUNCTIONS: [Operand; 1] = [Operand::Functions];

static OF_RUN: [Setting; 5] = [
    Setting::Passes,
    Setting::Profile,
    Setting::Frames,
    Setting::Cells,
    Setting::Steps,
];

static OF_INTERP: [Setting; 3] = [Setting::Frames, Setting::Cells, Setting::Steps];

static OF_RECORD: [Setting; 5] = [
    Setting::Frames,
    Setting::Cells,
    Setting::Steps,
    Setting::Hot,
    Setting::Most,
];

static OF_PASSES: [Setting; 2] = [Setting::Passes, Setting::Profile];

static OF_EMIT: [Setting; 3] = [Setting::Passes, Setting::Profile, Setting::Frames];

static OF_WRAP: [Setting; 4] = [
    Setting::Passes,
    Setting::Profile,
    Setting::Frames,
    Setting::Cells,
];

static OF_EXECUTE: [Setting; 2] = [Setting::Cells, Setting::Steps];

static NO_OPTIONS: [Setting; 0] = [];

static STATS: [Flag; 1] = [Flag::Stats];

static NO_FLAGS: [Flag; 0] = [];

impl Subcommand {
    // The words of each command.
    pub(crate) fn form<'a>(self) -> Form<'a>
        ensures name { result.name.now ≡ (form_of self).name }
        ensures operands { result.operands.now ≡ (form_of self).operands }
        ensures options { result.options.now ≡ (form_of self).options }
        ensures flags { result.flags.now ≡ (form_of self).flags }
        ensures args { is_some result.usage ≡ (form_of self).has_args }
    {
        match self {
            Subcommand::Run => Form {
                name: "run",
                operands: FILE.as_slice(),
                options: OF_RUN.as_slice(),
                flags: STATS.as_slice(),
                usage: Some("roolvist run [OPTIONS] <FILE> [-- ARGS]"),
                about: "Compile a program to machine words and run these",
                example: "ARGS are the arguments of the program's main function.{n}{n}Example: roolvist run examples/collatz.bril --stats -- 27",
            },
            Subcommand::Interp => Form {
                name: "interp",
                operands: FILE.as_slice(),
                options: OF_INTERP.as_slice(),
                flags: NO_FLAGS.as_slice(),
                usage: Some("roolvist interp [OPTIONS] <FILE> [-- ARGS]"),
                about: "Interpret a program",
                example: "ARGS are the arguments of the program's main function.{n}{n}Example: roolvist interp examples/divisor.bril -- 1071 462",
            },
            Subcommand::Record => Form {
                name: "record",
                operands: FILE.as_slice(),
                options: OF_RECORD.as_slice(),
                flags: NO_FLAGS.as_slice(),
                usage: Some("roolvist record [OPTIONS] <FILE> [-- ARGS]"),
                about: "Interpret a program and write a profile of the run",
                example: "ARGS are the arguments of the program's main function.{n}{n}Example: roolvist record examples/divisor.bril --hot 2 -- 1071 462",
            },
            Subcommand::Passes => Form {
                name: "passes",
                operands: FILE.as_slice(),
                options: OF_PASSES.as_slice(),
                flags: NO_FLAGS.as_slice(),
                usage: None,
                about: "Write what a list of passes makes of a program",
                example: "Example: roolvist passes examples/leftovers.bril --passes dead,tidy",
            },
            Subcommand::Emit => Form {
                name: "emit",
                operands: FILE.as_slice(),
                options: OF_EMIT.as_slice(),
                flags: NO_FLAGS.as_slice(),
                usage: None,
                about: "Write the machine words of a program",
                example: "Example: roolvist emit examples/empty.bril --frames 100",
            },
            Subcommand::List => Form {
                name: "list",
                operands: FILE.as_slice(),
                options: OF_EMIT.as_slice(),
                flags: NO_FLAGS.as_slice(),
                usage: None,
                about: "Write the machine words of a program as assembly",
                example: "Example: roolvist list examples/empty.bril",
            },
            Subcommand::Assemble => Form {
                name: "asm",
                operands: LISTING.as_slice(),
                options: NO_OPTIONS.as_slice(),
                flags: NO_FLAGS.as_slice(),
                usage: None,
                about: "Assemble a listing into machine words",
                example: "Example: roolvist asm examples/hello.lst",
            },
            Subcommand::Wrap => Form {
                name: "elf",
                operands: FILE.as_slice(),
                options: OF_WRAP.as_slice(),
                flags: NO_FLAGS.as_slice(),
                usage: None,
                about: "Write the machine words of a program as an ELF file",
                example: "Example: roolvist elf examples/fibonacci.bril > fibonacci.elf",
            },
            Subcommand::Execute => Form {
                name: "exec",
                operands: ELF.as_slice(),
                options: OF_EXECUTE.as_slice(),
                flags: NO_FLAGS.as_slice(),
                usage: Some("roolvist exec [OPTIONS] <FILE> [-- ARGS]"),
                about: "Run an ELF file that elf wrote",
                example: "ARGS are ints, one for each word on the stack.{n}{n}Example: roolvist exec examples/empty.elf",
            },
            Subcommand::Monitor => Form {
                name: "monitor",
                operands: FILE_AND_SCRIPT.as_slice(),
                options: OF_INTERP.as_slice(),
                flags: NO_FLAGS.as_slice(),
                usage: Some("roolvist monitor [OPTIONS] <FILE> <SCRIPT> [-- ARGS]"),
                about: "Run a program on the machine and stop at its items by a script",
                example: "ARGS are the arguments of the program's main function.{n}{n}Example: roolvist monitor examples/divisor.bril examples/divisor.script -- 1071 462",
            },
            Subcommand::Check => Form {
                name: "check",
                operands: FILE.as_slice(),
                options: NO_OPTIONS.as_slice(),
                flags: NO_FLAGS.as_slice(),
                usage: None,
                about: "Check a program and count its functions and items",
                example: "Example: roolvist check examples/fibonacci.bril",
            },
            Subcommand::Link => Form {
                name: "link",
                operands: FILE.as_slice(),
                options: NO_OPTIONS.as_slice(),
                flags: NO_FLAGS.as_slice(),
                usage: None,
                about: "Link a program with its imports and write it as text",
                example: "Example: roolvist link examples/imports.bril",
            },
            Subcommand::WriteText => Form {
                name: "text",
                operands: FILE.as_slice(),
                options: NO_OPTIONS.as_slice(),
                flags: NO_FLAGS.as_slice(),
                usage: None,
                about: "Write a file in the canonical text form",
                example: "Example: roolvist text examples/one.json",
            },
            Subcommand::WriteJson => Form {
                name: "json",
                operands: FILE.as_slice(),
                options: NO_OPTIONS.as_slice(),
                flags: NO_FLAGS.as_slice(),
                usage: None,
                about: "Write a file in the canonical JSON form",
                example: "Example: roolvist json examples/fibonacci.bril",
            },
            Subcommand::Demo => Form {
                name: "demo",
                operands: FUNCTIONS.as_slice(),
                options: NO_OPTIONS.as_slice(),
                flags: NO_FLAGS.as_slice(),
                usage: None,
                about: "Make a program, compile it and run it",
                example: "Example: roolvist demo 150",
            },
        }
    }

    // What each command does with these numbers.
    pub(crate) fn action(self, numbers: Numbers) -> Action
        requires steps { AreSteps numbers.steps }
        requires recorded { AreRecorded numbers.hot numbers.most }
        requires functions { AreFunctions numbers.functions }
        ensures is { result ≡ action_of self numbers }
        ensures range { IsActionInRange result }
    {
        let limits = numbers.limits;
        let steps = numbers.steps;
        match self {
            Subcommand::Run => with_passes(PassesAction::Run(RunSettings {
                limits,
                steps,
                stats: numbers.stats,
            })),
            Subcommand::Interp => {
                as_it_stands(SourceAction::Interpret(InterpretSettings { limits, steps }))
            }
            Subcommand::Record => as_it_stands(SourceAction::Record(RecordSettings {
                limits,
                steps,
                hot: numbers.hot,
                most: numbers.most,
            })),
            Subcommand::Passes => with_passes(PassesAction::Passes),
            Subcommand::Emit => with_passes(PassesAction::Emit {
                limits: limits_of(limits.frames, CELLS),
            }),
            Subcommand::List => with_passes(PassesAction::List {
                limits: limits_of(limits.frames, CELLS),
            }),
            Subcommand::Assemble => Action::Bytes(BytesAction::Assemble),
            Subcommand::Wrap => with_passes(PassesAction::Wrap { limits }),
            Subcommand::Execute => {
                Action::Bytes(BytesAction::Execute(MachineSettings { limits, steps }))
            }
            Subcommand::Monitor => {
                Action::Program(ProgramAction::Monitor(MachineSettings { limits, steps }))
            }
            Subcommand::Check => as_it_stands(SourceAction::Check),
            Subcommand::Link => Action::Tree(TreeAction::Link),
            Subcommand::WriteText => Action::File(FileAction::WriteText),
            Subcommand::WriteJson => Action::File(FileAction::WriteJson),
            Subcommand::Demo => Action::Demo {
                functions: numbers.functions,
            },
        }
    }
}

// What is done with an accepted program as it stands.
fn as_it_stands(action: SourceAction) -> Action
    ensures { result ≡ as_it_stands action }
{
    Action::Program(ProgramAction::AsItStands(action))
}

// What is done with the program that a list of passes makes.
fn with_passes(action: PassesAction) -> Action
    ensures { result ≡ with_passes action }
{
    Action::Program(ProgramAction::WithPasses(action))
}

// The command of a word.
pub(crate) fn subcommand_named(word: &str) -> Option<Subcommand>
    ensures { result ≡ subcommand_named word.now }
{
    first_named(SUBCOMMANDS.as_slice(), word)
}

// The first of these commands whose word this is.
fn first_named(subcommands: &[Subcommand], word: &str) -> Option<Subcommand>
    ensures { result ≡ find (λ c. bytes_eq word.now (name_of c)) subcommands.now }
{
    match subcommands.split_first() {
        None => None,
        Some((first, rest)) => {
            if word == first.form().name {
                Some(*first)
            } else {
                first_named(rest, word)
            }
        }
    }
}
