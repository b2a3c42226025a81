// What the options and operands that `clap` found ask for.

ghost use Rattle.std.specs.Prelude.{◌≡◌, ◌≤◌, IfOk, IfSome, length};
ghost use Rattle.std.specs.Option.{option_map};
ghost use Rattle.std.specs.Result.{result_map_both};
ghost use Rattle.clap.specs.Matches.{found_of};
ghost use Rattle.clap.specs.Walk.{first_of, rows_of};
ghost use Rattle.bril_words.specs.CommandLine.{in_range, is_true, list_of, second_of, texts_ask, texts_found, value_of};
ghost use Rattle.bril_words.specs.Names.{names_of};
ghost use Rattle.bril_words.specs.Options.{option_name};
ghost use Rattle.bril_words.specs.Request.{IsActionInRange};
ghost use Rattle.bril_words.specs.Seen.{misuse_seen, request_seen, text_seen};
ghost use Rattle.bril_words.specs.declared.misuse.Misuse.TheVariants.{Value};

use crate::misuse::Misuse;
use crate::names::has_few_names;
use crate::options::{Flag, Operand, Setting};
use crate::request::{Numbers, Request, limits_of};
use crate::subcommands::Subcommand;
use bril_nums::read_int;
use bril_tree::text::Text;
use clap::ArgMatches;

// The most of each option.
const MOST_FRAMES: u64 = 65_536;

const MOST_CELLS: u64 = 4_194_304;

const MOST_STEPS: u64 = 1_000_000_000_000;

const MOST_HOT: u64 = 65_536;

const MOST_ENTRIES: u64 = 64;

// The most functions of the demo program.
const MOST_FUNCTIONS: u64 = 150;

/// The frames that a run has at most, where no option says otherwise.
pub const FRAMES: u32 = 8_192;

/// The cells that a run has at most, where no option says otherwise.
pub const CELLS: u32 = 1_048_576;

/// The steps that a run makes at most, where no option says otherwise.
pub const STEPS: u64 = 1_000_000_000;

/// The arrivals that make a label hot, where no option says otherwise.
pub const HOT: u32 = 16;

/// The entries that a profile has at most, where no option says otherwise.
pub const ENTRIES: u32 = 16;

// What a command asks for, with what `clap` found for it and these arguments: its list of passes and its numbers, each what it is
// by default where its option doesn't stand, and the path of its script or of its profile.
//
// `Value`: the first of passes, frames, cells, steps, hot and most whose value has more than 64 names, is no number as
// `bril_nums::read_int` reads it, or is out of its range. `Functions`: these are as they should be, and the number of functions isn't.
pub(crate) fn read_found<'a>(
    subcommand: Subcommand,
    found: &ArgMatches<'a>,
    args: &'a [Text],
) -> Result<Request<'a>, Misuse>
    ensures read { result_map_both request_seen misuse_seen result ≡ texts_ask subcommand args.entry.now (texts_found (λ id. first_of id (rows_of (found_of found.now)))) }
    ensures range { IfOk result (λ request. IsActionInRange request.action) }
    ensures few { IfOk result (λ request. length (names_of request.list.now) ≤ 64) }
{
    let list = list_of(found_text(found, Setting::Passes.name())).ok_or(faulty(Setting::Passes))?;
    let frames = value_of(found, Setting::Frames, MOST_FRAMES, FRAMES as u64).ok_or(faulty(
        Setting::Frames,
    ))?;
    let cells = value_of(found, Setting::Cells, MOST_CELLS, CELLS as u64).ok_or(faulty(
        Setting::Cells,
    ))?;
    let steps = value_of(found, Setting::Steps, MOST_STEPS, STEPS).ok_or(faulty(Setting::Steps))?;
    let hot = value_of(found, Setting::Hot, MOST_HOT, HOT as u64).ok_or(faulty(Setting::Hot))?;
    let most = value_of(found, Setting::Most, MOST_ENTRIES, ENTRIES as u64).ok_or(faulty(
        Setting::Most,
    ))?;
    let functions = number_of(
        found_text(found, Operand::Functions.id()),
        MOST_FUNCTIONS,
        1,
    )
    .ok_or(Misuse::Functions)?;
    let numbers = Numbers {
        limits: limits_of(frames as u32, cells as u32),
        steps,
        hot: hot as u32,
        most: most as u32,
        stats: is_true(found_text(found, Flag::Stats.name())),
        functions: functions as u32,
    };
    Ok(Request {
        action: subcommand.action(numbers),
        path: found_text(found, Operand::File.id()).unwrap_or(""),
        list,
        second: second_of(
            found_text(found, Operand::Script.id()),
            found_text(found, Setting::Profile.name()),
        ),
        args,
    })
}

// The misuse of an option whose value fails.
fn faulty(setting: Setting) -> Misuse
    ensures { result ≡ Value setting }
{
    Misuse::Value { setting }
}

// What `clap` found under an id.
fn found_text<'a>(found: &ArgMatches<'a>, id: &str) -> Option<&'a str>
    ensures { text_seen result ≡ first_of id.now (rows_of (found_of found.now)) }
{
    found.get_str(id)
}

// The path of the second file: that of the script where there is one, else of the profile.
fn second_of<'a>(script: Option<&'a str>, profile: Option<&'a str>) -> Option<&'a str>
    ensures { text_seen result ≡ second_of (text_seen script.entry) (text_seen profile.entry) }
{
    script.or(profile)
}

// The list of passes: 64 names at most, and none where the option doesn't stand.
fn list_of<'a>(text: Option<&'a str>) -> Option<&'a str>
    ensures is { option_map (λ list. list.now) result ≡ list_of (text_seen text.entry) }
    ensures few { IfSome result (λ list. length (names_of list.now) ≤ 64) }
{
    match text {
        None => Some(""),
        Some(text) if has_few_names(text) => Some(text),
        Some(_) => None,
    }
}

// The value of an option, or what it is where it doesn't stand.
fn value_of(found: &ArgMatches<'_>, setting: Setting, most: u64, default: u64) -> Option<u64>
    requires low { 1 ≤ default }
    requires high { default ≤ most }
    ensures value { result ≡ value_of most default (first_of (option_name setting) (rows_of (found_of found.now))) }
    ensures low { IfSome result (λ n. 1 ≤ n) }
    ensures high { IfSome result (λ n. n ≤ most) }
{
    number_of(found_text(found, setting.name()), most, default)
}

// The number that a text spells, or what it is where there is none.
fn number_of(text: Option<&str>, most: u64, default: u64) -> Option<u64>
    requires low { 1 ≤ default }
    requires high { default ≤ most }
    ensures value { result ≡ value_of most default (text_seen text.entry) }
    ensures low { IfSome result (λ n. 1 ≤ n) }
    ensures high { IfSome result (λ n. n ≤ most) }
{
    match text {
        None => Some(default),
        Some(text) => in_range(most, read_int(text.as_bytes())),
    }
}

// A number from 1 to the most.
fn in_range(most: u64, number: Option<i64>) -> Option<u64>
    ensures value { result ≡ in_range most number }
    ensures low { IfSome result (λ n. 1 ≤ n) }
    ensures high { IfSome result (λ n. n ≤ most) }
{
    let n = u64::try_from(number?).ok()?;
    if 1 <= n && n <= most { Some(n) } else { None }
}

// Whether the text of a flag says that it stands.
fn is_true(text: Option<&str>) -> bool
    ensures { result ≡ is_true (text_seen text.entry) }
{
    match text {
        Some(text) => text == "true",
        None => false,
    }
}
