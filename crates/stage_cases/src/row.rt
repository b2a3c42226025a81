// The rows, by their calls.

ghost use Rattle.std.specs.Prelude.{◌<◌, ◌^◌, length};

use crate::constants::add_constants;
use crate::counted::add_counted;
use crate::elf::{add_filled, add_opened, add_wrapped};
use crate::graph::add_graph;
use crate::groups::add_groups;
use crate::listings::{add_listing, add_words};
use crate::live::add_live;
use crate::machine::{add_run, add_word};
use crate::monitors::add_monitored;
use crate::numbered::add_numbered;
use crate::placed::add_placed;
use crate::profiles::{add_profile, add_record};
use crate::ssa::add_ssa;
use crate::steps::add_steps;
use bril_lex::{LexFault, tokens};
use bril_outside::count_sink::CountSink;
use bril_outside::sink::Sink;
use case_text::{LineFault, add_unescaped};
use std::alloc::{AllocError, Global};

/// Appends what the row shows.
pub fn add_row(alloc: Global, line: &str, shown: &mut Vec<u8>) -> Result<(), LineFault> {
    if line.is_empty() || line.starts_with('#') {
        return Ok(());
    }
    add_line(line, shown)?;
    let (call, rest) = line.split_once(' ').unwrap_or((line, ""));
    match call {
        "==" => Ok(()),
        "decode" => add_word(alloc, rest, shown),
        "machine" => add_run(alloc, rest, shown),
        "monitor" => add_monitored(alloc, rest, shown),
        "listing" => add_listing(alloc, rest, shown),
        "wrapped" => add_wrapped(alloc, rest, shown),
        "filled" => add_filled(alloc, rest, shown),
        "count" => add_counts(alloc, rest, shown),
        "counted" => add_counted(alloc, rest, shown),
        "record" => add_record(alloc, rest, shown),
        "ssa" => add_ssa(alloc, rest, shown),
        _ => {
            let mut source = Vec::new(alloc);
            add_unescaped(alloc, rest, 0, &mut source)?;
            if source.len() > 100_000 {
                return Err(LineFault::Form);
            }
            add_answer(alloc, call, source.as_slice(), shown)
        }
    }
}

/// Appends the line and LF.
pub fn add_line(line: &str, shown: &mut Vec<u8>) -> Result<(), AllocError> {
    shown.extend_from_slice(line.as_bytes())?;
    shown.extend_from_slice(b"\n")
}

// Appends the answer of a call on a source.
fn add_answer(
    alloc: Global,
    call: &str,
    source: &[u8],
    shown: &mut Vec<u8>,
) -> Result<(), LineFault>
    requires { length source.now < 2 ^ 32 }
{
    match call {
        "tokens" => add_tokens(alloc, source, shown),
        "numbered" => add_numbered(alloc, source, shown),
        "graph" => add_graph(alloc, source, shown),
        "groups" => add_groups(alloc, source, shown),
        "live" => add_live(alloc, source, shown),
        "placed" => add_placed(alloc, source, shown),
        "constants" => add_constants(alloc, source, shown),
        "steps" => add_steps(alloc, source, shown),
        "profile" => add_profile(alloc, source, shown),
        "words" => add_words(alloc, source, shown),
        "opened" => add_opened(alloc, source, shown),
        _ => Err(LineFault::Form),
    }
}

// Appends the tokens of the source, or the byte at which nothing begins.
fn add_tokens(alloc: Global, source: &[u8], shown: &mut Vec<u8>) -> Result<(), LineFault>
    requires { length source.now < 2 ^ 32 }
{
    match tokens(alloc, source) {
        Err(LexFault::Memory) => return Err(LineFault::Memory),
        Err(LexFault::At { at }) => {
            let line = format!(in alloc; "nothing begins at {at}")?;
            add_line(line.as_str(), shown)?;
        }
        Ok(found) => {
            for token in found.list.as_slice() {
                let kind = token.kind;
                let from = token.from;
                let to = token.to;
                let line = format!(in alloc; "{kind:?} {from} {to}")?;
                add_line(line.as_str(), shown)?;
            }
        }
    }
    Ok(())
}

// Appends how many bytes a sink took, after each piece.
fn add_counts(alloc: Global, pieces: &str, shown: &mut Vec<u8>) -> Result<(), LineFault> {
    let mut sink = CountSink::new();
    for piece in pieces.split(' ') {
        let mut bytes = Vec::new(alloc);
        add_unescaped(alloc, piece, 0, &mut bytes)?;
        let answer = sink.put(bytes.as_slice());
        let amount = sink.bytes();
        let line = format!(in alloc; "{answer:?} {amount}")?;
        add_line(line.as_str(), shown)?;
    }
    Ok(())
}
