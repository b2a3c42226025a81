// What would mend a fault.

ghost use Rattle.std.specs.Prelude.{◌≡◌};
ghost use Rattle.bril_explain.specs.Words.{check_help, help, json_help, name_help, never_assigned, text_help, unaccepted_help};

use crate::assigned::never_assigned;
use bril_checker::CheckFault;
use bril_json::JsonFault;
use bril_names::NameFault;
use bril_report::Status;
use bril_text::TextFault;
use bril_tree::program::Prog;
use import_linker::formats::ReadFault;

// What would mend the fault that a status tells.
pub fn help(status: &Status) -> &'static [u8]
    ensures { result.now ≡ help status.now }
{
    match status {
        Status::Misread {
            fault: ReadFault::Text(fault),
            ..
        } => text_help(*fault),
        Status::Misread {
            fault: ReadFault::Json(fault),
            ..
        } => json_help(*fault),
        Status::NotThere { .. } => {
            b"define a function of this name in the file, or import it from a file that has it"
        }
        Status::Clash { .. } => b"give one of the two another name; an import can do so by `as`",
        Status::Misnamed { fault } => name_help(*fault),
        Status::Unaccepted { program, fault } => unaccepted_help(program, *fault),
        Status::CannotRead { .. } => b"look whether it is there, is no folder, and may be read",
        Status::TooManyBytes => b"all files of a program together have at most 16,777,216 bytes",
        Status::TooManyFiles => {
            b"put functions that belong together into one file, and name each file by one path"
        }
        _ => b"end other programs, or take a smaller one",
    }
}

fn unaccepted_help(program: &Prog, fault: CheckFault) -> &'static [u8]
    ensures { result.now ≡ unaccepted_help (never_assigned program.now fault) fault }
{
    match never_assigned(program, fault) {
        None => check_help(fault),
        Some(_) => b"assign it before this item, or correct its name",
    }
}

fn text_help(fault: TextFault) -> &'static [u8]
    ensures { result.now ≡ text_help fault }
{
    match fault {
        TextFault::Lex { .. } => {
            b"write a name, @function, .label, number, char, path in double quotes, or a mark"
        }
        TextFault::Grammar { .. } => {
            b"look for a misspelled word here, or for a `;` or a brace that is missing before it"
        }
        TextFault::IntRange { .. } => {
            b"an int goes from -9223372036854775808 to 9223372036854775807"
        }
        TextFault::Float { .. } => b"use int, bool, char or ptr",
        TextFault::Deep { .. } => b"take some of the ptr away",
        TextFault::Memory => b"end other programs, or take a smaller one",
    }
}

fn json_help(fault: JsonFault) -> &'static [u8]
    ensures { result.now ≡ json_help fault }
{
    match fault {
        JsonFault::Syntax => {
            b"look for a bracket, a quote or a comma that is missing or stands too much"
        }
        JsonFault::Shape { .. } => {
            b"compare its keys and values with the table of objects in docs/FORMATS.md"
        }
        JsonFault::IntRange { .. } => {
            b"an int goes from -9223372036854775808 to 9223372036854775807"
        }
        JsonFault::Float { .. } => b"use int, bool, char or ptr",
        JsonFault::Deep { .. } => b"take some of the ptr away",
        JsonFault::Memory => b"end other programs, or take a smaller one",
    }
}

fn name_help(fault: NameFault) -> &'static [u8]
    ensures { result.now ≡ name_help fault }
{
    match fault {
        NameFault::NoFunction { .. } => b"define the function, or correct its name",
        NameFault::TwiceFunction { .. } => b"give one of the two another name",
        NameFault::NoLabel { .. } => b"put the label into the function, or correct its name",
        NameFault::TwiceLabel { .. } => b"give one of the two another name",
        NameFault::NoMain => b"name the function with which the program begins @main",
        NameFault::TwiceArg { .. } => b"give one of the two another name",
        NameFault::Memory => b"end other programs, or take a smaller one",
    }
}

fn check_help(fault: CheckFault) -> &'static [u8]
    ensures { result.now ≡ check_help fault }
{
    match fault {
        CheckFault::Types { .. } => {
            b"compare the types of its variables with the row of the operation in docs/LANGUAGE.md"
        }
        CheckFault::Arity { .. } => {
            b"count its operands, and compare with the row of the operation in docs/LANGUAGE.md"
        }
        CheckFault::MaybeUnassigned { .. } => {
            b"assign it on each way that leads here, also where a branch goes around"
        }
        CheckFault::Nest { .. } => {
            b"let each way to here come through the same speculate, at most 8 of them, and end each once"
        }
        CheckFault::SpecCall { .. } => b"commit before this, or move it out of the speculation",
        CheckFault::NoReturn { .. } => b"end each way through the function with ret and a value",
        CheckFault::MainType => b"let main return nothing, and take ints, bools and chars alone",
        CheckFault::PrintPtr { .. } => b"load what it points to, and print that",
        CheckFault::Memory => b"end other programs, or take a smaller one",
    }
}
