// What may stand after a command: options, flags and operands. A new one is a row in each function of its kind, and in each
// command that takes it.

ghost use Rattle.std.specs.Prelude.{◌≡◌};
ghost use Rattle.bril_words.specs.Options.{option_name, option_help, flag_name, flag_help, operand_id, operand_help};

/// An option of a command, with a value.
#[derive(Clone, Copy, PartialEq, Eq, Debug, Drop)]
pub enum Setting {
    /// `--passes`: the names of passes, 64 at most.
    Passes,
    /// `--profile`: the path of a file with a profile.
    Profile,
    /// `--frames`: the most frames at once, 1 to 65,536.
    Frames,
    /// `--cells`: the most cells in live blocks, 1 to 4,194,304.
    Cells,
    /// `--steps`: the most steps, or words of the machine, that are made, 1 to 1,000,000,000,000.
    Steps,
    /// `--hot`: how many arrivals make a label hot, 1 to 65,536.
    Hot,
    /// `--most`: the most entries of a profile, 1 to 64.
    Most,
}

impl Setting {
    // Its name, which stands after two dashes, and under which `clap` keeps its value.
    pub(crate) fn name<'a>(self) -> &'a str
        ensures { result.now ≡ option_name self }
    {
        match self {
            Setting::Passes => "passes",
            Setting::Profile => "profile",
            Setting::Frames => "frames",
            Setting::Cells => "cells",
            Setting::Steps => "steps",
            Setting::Hot => "hot",
            Setting::Most => "most",
        }
    }

    // What help calls its value.
    pub(crate) fn value_name<'a>(self) -> &'a str {
        match self {
            Setting::Passes => "LIST",
            Setting::Profile => "FILE",
            Setting::Frames | Setting::Cells | Setting::Steps | Setting::Hot | Setting::Most => "N",
        }
    }

    // What it does, its range and its default, for help.
    pub(crate) fn help<'a>(self) -> &'a str
        ensures { result.now ≡ option_help self }
    {
        match self {
            Setting::Passes => "Passes to apply, with commas between their names [default: none]",
            Setting::Profile => "File with a profile for the passes [default: none]",
            Setting::Frames => "Most frames at once, 1 to 65536 [default: 8192]",
            Setting::Cells => "Most cells in live blocks, 1 to 4194304 [default: 1048576]",
            Setting::Steps =>
                "Most steps (words on the machine), 1 to 1000000000000 [default: 1000000000]",
            Setting::Hot => "Arrivals that make a label hot, 1 to 65536 [default: 16]",
            Setting::Most => "Most entries of the profile, 1 to 64 [default: 16]",
        }
    }
}

// A flag: an option without a value.
#[derive(Clone, Copy, PartialEq, Eq, Debug, Drop)]
pub(crate) enum Flag {
    // `--stats`: whether the counts of a run are told.
    Stats,
}

impl Flag {
    // Its name, which stands after two dashes, and under which `clap` keeps whether it stands.
    pub(crate) fn name<'a>(self) -> &'a str
        ensures { result.now ≡ flag_name self }
    {
        match self {
            Flag::Stats => "stats",
        }
    }

    // What it does, for help.
    pub(crate) fn help<'a>(self) -> &'a str
        ensures { result.now ≡ flag_help self }
    {
        match self {
            Flag::Stats => "Tell the counts of the run on standard error",
        }
    }
}

// An operand: a word that stands by itself.
#[derive(Clone, Copy, PartialEq, Eq, Debug, Drop)]
pub(crate) enum Operand {
    // FILE: the path of a file with a program.
    File,
    // FILE: the path of a file with a listing of machine words.
    Listing,
    // FILE: the path of an ELF file.
    Elf,
    // SCRIPT: the path of a file with a script.
    Script,
    // N: how many functions the demo program has.
    Functions,
}

impl Operand {
    // The id under which `clap` keeps its word. A path has the same one whatever its file is, but for a script, which stands beside
    // another.
    pub(crate) fn id<'a>(self) -> &'a str
        ensures { result.now ≡ operand_id self }
    {
        match self {
            Operand::File | Operand::Listing | Operand::Elf => "file",
            Operand::Script => "script",
            Operand::Functions => "functions",
        }
    }

    // What help calls it.
    pub(crate) fn value_name<'a>(self) -> &'a str {
        match self {
            Operand::File | Operand::Listing | Operand::Elf => "FILE",
            Operand::Script => "SCRIPT",
            Operand::Functions => "N",
        }
    }

    // What it is, for help.
    pub(crate) fn help<'a>(self) -> &'a str
        ensures { result.now ≡ operand_help self }
    {
        match self {
            Operand::File => "Bril program: JSON where the name ends in .json, else text",
            Operand::Listing => "Listing of machine words, as list writes it",
            Operand::Elf => "ELF file, as elf writes it",
            Operand::Script => "Script: a line each of break @f N, clear @f N, go, step, show",
            Operand::Functions => "Functions of the demo program beside main, 1 to 150",
        }
    }
}
