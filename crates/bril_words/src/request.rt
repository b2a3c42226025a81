// What words ask for, and the settings of runs.

ghost use Rattle.std.specs.Prelude.{◌≡◌, ◌≤◌};
ghost use Rattle.bril_words.specs.Defaults.{limits_of};

use crate::subcommands::Action;
use bril_tree::limits::Limits;
use bril_tree::text::Text;

/// How a program is interpreted: under these limits, and for so many steps.
#[derive(Clone, Copy, Drop)]
pub struct InterpretSettings {
    pub limits: Limits,
    pub steps: u64,
}

/// How a program is recorded: under these limits, and for so many steps; so many arrivals make a label hot, and the profile has so many
/// entries at most.
#[derive(Clone, Copy, Drop)]
pub struct RecordSettings {
    pub limits: Limits,
    pub steps: u64,
    pub hot: u32,
    pub most: u32,
}

/// How a program is run: under these limits, for so many words of the machine, and whether its counts are told.
#[derive(Clone, Copy, Drop)]
pub struct RunSettings {
    pub limits: Limits,
    pub steps: u64,
    pub stats: bool,
}

/// How the machine runs: under these limits, for so many words.
#[derive(Clone, Copy, Drop)]
pub struct MachineSettings {
    pub limits: Limits,
    pub steps: u64,
}

// What the words give for any command, or what is given by default.
#[derive(Clone, Copy, Drop)]
pub(crate) struct Numbers {
    pub(crate) limits: Limits,
    pub(crate) steps: u64,
    pub(crate) hot: u32,
    pub(crate) most: u32,
    pub(crate) stats: bool,
    pub(crate) functions: u32,
}

// The limits of so many frames and cells.
pub(crate) fn limits_of(frames: u32, cells: u32) -> Limits
    requires some_frames { 1 ≤ frames }
    requires few_frames { frames ≤ 65536 }
    requires some_cells { 1 ≤ cells }
    requires few_cells { cells ≤ 4194304 }
    ensures { result ≡ limits_of frames cells }
{
    Limits { frames, cells }
}

/// An action, the path of its file, empty where it has none, the list of passes that the words give, the path of the second file that
/// the words name, if they name one: that of a profile, or of a script; and the arguments of the file's program.
#[derive(Clone, Copy, Drop)]
pub struct Request<'a> {
    pub action: Action,
    pub path: &'a str,
    pub list: &'a str,
    pub second: Option<&'a str>,
    pub args: &'a [Text],
}
