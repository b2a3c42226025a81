// Programs in SSA form.

ghost use Rattle.std.specs.Prelude.{◌<◌, ◌^◌, length};

use crate::row::add_line;
use bril_checker::Checked;
use bril_interpreter::Interp;
use bril_outside::mem_sink::MemSink;
use bril_text::write_text;
use bril_tree::bytes::Bytes;
use bril_tree::limits::Limits;
use bril_tree::sequence::Seq;
use bril_tree::text::Text;
use case_text::{LineFault, add_lines, add_unescaped, checked_of, values_of};
use ssa_build::tree::ssa_tree;
use std::alloc::{AllocError, Global};

// A run makes no more steps.
const MOST: u64 = 1000;

const LIMITS: Limits = Limits {
    frames: 8,
    cells: 8,
};

/// Appends the text of a program in SSA form, what the program prints, and whether it prints that in SSA form. The words before the
/// source, which begins with `@`, are the arguments of `main`.
pub fn add_ssa(alloc: Global, line: &str, shown: &mut Vec<u8>) -> Result<(), LineFault> {
    let (arguments, functions) = line.split_once('@').ok_or(LineFault::Form)?;
    let words = words_of(alloc, arguments)?;
    let mut source = Vec::new(alloc);
    source.extend_from_slice(b"@")?;
    add_unescaped(alloc, functions, 0, &mut source)?;
    if source.len() > 100_000 || words.as_slice().len() > 1000 {
        return Err(LineFault::Form);
    }
    add_both(alloc, words.as_slice(), source.as_slice(), shown)
}

// The words between blanks.
fn words_of(alloc: Global, line: &str) -> Result<Seq<Text>, LineFault> {
    let mut words = Seq::new(alloc);
    for word in line.split_whitespace() {
        words.push(Text::of(alloc, word)?)?;
    }
    Ok(words)
}

// Appends the text of the source's program in SSA form, and what both print.
fn add_both(
    alloc: Global,
    words: &[Text],
    source: &[u8],
    shown: &mut Vec<u8>,
) -> Result<(), LineFault>
    requires words { length words.now < 2 ^ 32 }
    requires source { length source.now < 2 ^ 32 }
{
    let before = checked_of(alloc, source)?;
    let text = ssa_text(alloc, &before)?;
    if text.as_slice().len() > 100_000 {
        return Err(LineFault::Form);
    }
    add_lines(alloc, "", text.as_slice(), shown)?;
    let printed = shown_run(alloc, &before, words)?;
    let printed_after = shown_run_of(alloc, text.as_slice(), words)?;
    add_printed(printed.as_slice(), printed_after.as_slice(), shown)?;
    Ok(())
}

// The text of a program in SSA form.
fn ssa_text(alloc: Global, program: &Checked) -> Result<Bytes, AllocError> {
    let tree = ssa_tree(alloc, program.prog())?;
    let mut text = Bytes::new(alloc);
    write_text(&tree, &mut text)?;
    Ok(text)
}

// What a run of the source's program shows.
fn shown_run_of(alloc: Global, source: &[u8], words: &[Text]) -> Result<Vec<u8>, LineFault>
    requires words { length words.now < 2 ^ 32 }
    requires source { length source.now < 2 ^ 32 }
{
    let program = checked_of(alloc, source)?;
    shown_run(alloc, &program, words)
}

// Appends what a run of the program shows, and what one of the program in SSA form does, where that is other.
fn add_printed(before: &[u8], after: &[u8], shown: &mut Vec<u8>) -> Result<(), AllocError> {
    shown.extend_from_slice(before)?;
    if before == after {
        return add_line("the same in SSA form", shown);
    }
    add_line("in SSA form", shown)?;
    shown.extend_from_slice(after)
}

// What a run of the program with these arguments shows: its end, and what it prints.
fn shown_run(alloc: Global, checked: &Checked, words: &[Text]) -> Result<Vec<u8>, LineFault>
    requires { length words.now < 2 ^ 32 }
{
    let values = values_of(alloc, checked, words)?;
    let mut run = Interp::new(alloc, checked, LIMITS, values.as_slice())?;
    let mut out = MemSink::new(alloc, 1000, Seq::new(alloc))?;
    let answer = run.run(MOST, &mut out);
    let line = format!(in alloc; "{answer:?}")?;
    let mut shown = Vec::new(alloc);
    add_line(line.as_str(), &mut shown)?;
    add_lines(alloc, "", out.bytes(), &mut shown)?;
    Ok(shown)
}
