// Profiles: their text, and what a recorder takes of a run.

ghost use Rattle.std.specs.Prelude.{◌<◌, ◌≤◌, ◌^◌, length};
ghost use Rattle.bril_tree.specs.Run.{FitMain};

use crate::row::add_line;
use crate::steps::values_of;
use bril_checker::Checked;
use bril_interpreter::{Interp, StepAnswer};
use bril_outside::mem_sink::MemSink;
use bril_profile::{Entry, Profile};
use bril_tree::bytes::Bytes;
use bril_tree::limits::Limits;
use bril_tree::sequence::Seq;
use bril_tree::value::Value;
use case_text::{LineFault, add_lines, add_unescaped, checked_of};
use profile_text::{ProfileFault, read_profile, write_profile};
use std::alloc::{AllocError, Global};
use trace_recorder::Recorder;

// A run makes no more steps.
const MOST_STEPS: u32 = 10_000;

const LIMITS: Limits = Limits {
    frames: 8,
    cells: 8,
};

/// Appends the entries of the text's profile and the text that is written of it, or the first line that isn't of the form.
pub fn add_profile(alloc: Global, text: &[u8], shown: &mut Vec<u8>) -> Result<(), LineFault> {
    match read_profile(alloc, text) {
        Err(ProfileFault::Memory) => return Err(LineFault::Memory),
        Err(ProfileFault::Line { line }) => {
            let line = format!(in alloc; "line {line}")?;
            add_line(line.as_str(), shown)?;
        }
        Ok(profile) => {
            add_entries(alloc, profile.entries.as_slice(), shown)?;
            add_written(alloc, &profile, shown)?;
        }
    }
    Ok(())
}

// Appends the entries.
fn add_entries(alloc: Global, entries: &[Entry], shown: &mut Vec<u8>) -> Result<(), AllocError> {
    for entry in entries {
        shown.extend_from_slice(b"entry ")?;
        shown.extend_from_slice(entry.func.as_bytes())?;
        shown.extend_from_slice(b" ")?;
        shown.extend_from_slice(entry.label.as_bytes())?;
        shown.extend_from_slice(b" [")?;
        add_choices(entry.choices.as_slice(), shown)?;
        let end = format!(in alloc; "] {}", entry.count)?;
        add_line(end.as_str(), shown)?;
    }
    Ok(())
}

// Appends 1 for each choice that is true, and 0 for each other.
fn add_choices(choices: &[bool], shown: &mut Vec<u8>) -> Result<(), AllocError> {
    for choice in choices {
        shown.extend_from_slice(&[b'0' + u8::from(*choice)])?;
    }
    Ok(())
}

// Appends the text of the profile.
fn add_written(alloc: Global, profile: &Profile, shown: &mut Vec<u8>) -> Result<(), AllocError> {
    let mut text = Bytes::new(alloc);
    write_profile(profile, &mut text)?;
    add_lines(alloc, "", text.as_slice(), shown)
}

/// Appends the text of what a recorder takes of the run of a program, whose `main` has no arguments. The line has how many
/// arrivals make a label hot, the most entries, and the program's source.
pub fn add_record(alloc: Global, line: &str, shown: &mut Vec<u8>) -> Result<(), LineFault> {
    let (hot, rest) = line.split_once(' ').ok_or(LineFault::Form)?;
    let (most, rest) = rest.split_once(' ').ok_or(LineFault::Form)?;
    let hot = number_of(hot)?;
    let most = number_of(most)?;
    let mut source = Vec::new(alloc);
    add_unescaped(alloc, rest, 0, &mut source)?;
    if most > 64 || source.len() > 100_000 {
        return Err(LineFault::Form);
    }
    add_recorded(alloc, source.as_slice(), hot, most, shown)
}

// A number in decimal.
fn number_of(word: &str) -> Result<u32, LineFault> {
    word.parse::<u32>().map_err(|_| LineFault::Form)
}

// Appends the text of what a recorder takes of the run of the source's program.
fn add_recorded(
    alloc: Global,
    source: &[u8],
    hot: u32,
    most: u32,
    shown: &mut Vec<u8>,
) -> Result<(), LineFault>
    requires source { length source.now < 2 ^ 32 }
    requires most { most ≤ 64 }
{
    let checked = checked_of(alloc, source)?;
    let values = values_of(alloc, &checked)?;
    let profile = recorded(alloc, &checked, values.as_slice(), hot, most)?;
    add_written(alloc, &profile, shown)?;
    Ok(())
}

// What a recorder takes of a run of the program.
fn recorded(
    alloc: Global,
    checked: &Checked,
    values: &[Value],
    hot: u32,
    most: u32,
) -> Result<Profile, AllocError>
    requires fit { FitMain checked.now.prog values.now }
    requires most { most ≤ 64 }
{
    let mut run = Interp::new(alloc, checked, LIMITS, values)?;
    let mut out = MemSink::new(alloc, 100, Seq::new(alloc))?;
    let mut recorder = Recorder::new(alloc, hot, most);
    for _ in 0..MOST_STEPS {
        recorder.see(&run)?;
        if run.step(&mut out) != StepAnswer::Go {
            break;
        }
    }
    recorder.into_profile()
}
