// What is wrong, in words.

ghost use Rattle.std.specs.Prelude.{◌≡◌, ◌++◌, IfOk};
ghost use Rattle.bril_report.specs.Lines.{variable_name};
ghost use Rattle.bril_explain.specs.Words.{never_assigned, check_problem, json_problem, name_problem, problem, subject, text_problem, unaccepted_problem};

use crate::assigned::never_assigned;
use bril_checker::CheckFault;
use bril_json::JsonFault;
use bril_names::NameFault;
use bril_report::Status;
use bril_text::TextFault;
use bril_tree::bytes::Bytes;
use bril_tree::program::Prog;
use import_linker::formats::ReadFault;
use std::alloc::{AllocError, Global};

// What is wrong where this is the status.
pub fn problem(alloc: Global, status: &Status) -> Result<Bytes, AllocError>
    ensures { IfOk result (λ words. words ≡ problem status.now) }
{
    match status {
        Status::Misread {
            fault: ReadFault::Text(fault),
            ..
        } => in_two(alloc, text_problem(*fault), b""),
        Status::Misread {
            fault: ReadFault::Json(fault),
            ..
        } => in_two(alloc, json_problem(*fault), b""),
        Status::NotThere { name, .. } => {
            in_two(alloc, b"no function is named @", name.as_bytes())
        }
        Status::Clash { name, .. } => {
            in_two(alloc, b"two functions are named @", name.as_bytes())
        }
        Status::Misnamed { fault } => in_two(alloc, name_problem(*fault), b""),
        Status::Unaccepted { program, fault } => unaccepted_problem(alloc, program, *fault),
        Status::CannotRead { .. } => in_two(alloc, b"this file can't be read", b""),
        Status::TooManyBytes => in_two(alloc, b"the program is too large", b""),
        Status::TooManyFiles => { in_two(alloc, b"the program has more than 256 files", b"") }
        _ => in_two(alloc, b"out of memory", b""),
    }
}

// What is wrong where a program has this fault of the checker.
fn unaccepted_problem(alloc: Global, program: &Prog, fault: CheckFault) -> Result<Bytes, AllocError>
    ensures { IfOk result (λ words. words ≡ unaccepted_problem (never_assigned program.now fault) program.now fault) }
{
    match never_assigned(program, fault) {
        None => in_two(alloc, subject(program, fault), check_problem(fault)),
        Some(name) => in_two(alloc, name, b" is assigned nowhere in its function"),
    }
}

// Two pieces, one after the other.
fn in_two(alloc: Global, first: &[u8], second: &[u8]) -> Result<Bytes, AllocError>
    ensures { IfOk result (λ made. made ≡ first.now ++ second.now) }
{
    let mut made = Bytes::new(alloc);
    made.add(first)?;
    made.add(second)?;
    Ok(made)
}

// The variable of which a fault speaks.
fn subject(program: &Prog, fault: CheckFault) -> &[u8]
    ensures { result.now ≡ subject program.now fault }
{
    match fault {
        CheckFault::MaybeUnassigned { func, var, .. } => variable_name(program, func, var),
        _ => b"",
    }
}

// The name of a variable of a function.
fn variable_name(program: &Prog, func: u32, var: u32) -> &[u8]
    ensures { result.now ≡ variable_name program.now func var }
{
    match program.funcs.as_slice().get(func as usize) {
        None => b"",
        Some(func) => match func.vars.as_slice().get(var as usize) {
            None => b"",
            Some(variable) => variable.name.as_bytes(),
        },
    }
}

fn text_problem(fault: TextFault) -> &'static [u8]
    ensures { result.now ≡ text_problem fault }
{
    match fault {
        TextFault::Lex { .. } => b"nothing in the text form begins so",
        TextFault::Grammar { .. } => b"the program can't go on so, or ends too early",
        TextFault::IntRange { .. } => b"this number doesn't fit 64 bits",
        TextFault::Float { .. } => b"floats aren't supported",
        TextFault::Deep { .. } => b"this type has more than 32 ptr",
        TextFault::Memory => b"out of memory",
    }
}

fn json_problem(fault: JsonFault) -> &'static [u8]
    ensures { result.now ≡ json_problem fault }
{
    match fault {
        JsonFault::Syntax => b"this file is no JSON",
        JsonFault::Shape { .. } => b"this isn't as the JSON form of a program has it",
        JsonFault::IntRange { .. } => b"its number doesn't fit 64 bits",
        JsonFault::Float { .. } => b"floats aren't supported",
        JsonFault::Deep { .. } => b"a type has more than 32 ptr",
        JsonFault::Memory => b"out of memory",
    }
}

fn name_problem(fault: NameFault) -> &'static [u8]
    ensures { result.now ≡ name_problem fault }
{
    match fault {
        NameFault::NoFunction { .. } => b"this names a function that isn't there",
        NameFault::TwiceFunction { .. } => b"another function has this name",
        NameFault::NoLabel { .. } => b"this names a label that its function doesn't have",
        NameFault::TwiceLabel { .. } => b"this label stands in its function before",
        NameFault::NoMain => b"no function is named @main",
        NameFault::TwiceArg { .. } => b"two arguments of this function have one name",
        NameFault::Memory => b"out of memory",
    }
}

fn check_problem(fault: CheckFault) -> &'static [u8]
    ensures { result.now ≡ check_problem fault }
{
    match fault {
        CheckFault::Types { .. } => b"an operand or the destination has a wrong type",
        CheckFault::Arity { .. } => b"a wrong number of operands, or of destinations",
        CheckFault::MaybeUnassigned { .. } => b" may be read before it is assigned",
        CheckFault::Nest { .. } => b"the speculations don't fit together here",
        CheckFault::SpecCall { .. } => {
            b"a call, a ret or the end of a function inside a speculation"
        }
        CheckFault::NoReturn { .. } => b"the function ends here without a value",
        CheckFault::MainType => b"main returns a value, or takes a pointer",
        CheckFault::PrintPtr { .. } => b"a pointer can't be printed",
        CheckFault::Memory => b"out of memory",
    }
}
