// What a message points to.

ghost use Rattle.std.specs.Prelude.{◌≡◌};
ghost use Rattle.bril_explain.specs.Target.{check_target, fault_name, fault_path, json_target, name_target, target_of, text_target};

use bril_checker::CheckFault;
use bril_json::JsonFault;
use bril_names::NameFault;
use bril_report::Status;
use bril_text::TextFault;
use import_linker::formats::ReadFault;

/// What a message points to. Functions and items of the linked program are numbered from 0, through all files.
#[derive(Clone, Copy, PartialEq, Eq, Debug, Drop)]
pub enum Target {
    /// A byte of the file.
    Byte { at: u32 },
    /// A function of the file, which is in JSON, or an item of it.
    Keys { func: u32, item: Option<u32> },
    /// A function of the linked program.
    Function { func: u32 },
    /// An item of the linked program.
    Item { func: u32, item: u32 },
    /// The name of a function that the status has, in the file.
    Named,
    /// The file.
    File,
}

// The path of the file that a status speaks of, the first file of the program where it names none.
pub fn fault_path<'a>(root: &'a str, status: &'a Status) -> &'a str
    ensures { result.now ≡ fault_path root.now status.now }
{
    match status {
        Status::Misread { path, .. }
        | Status::NotThere { path, .. }
        | Status::Clash { path, .. }
        | Status::CannotRead { path } => path.as_str(),
        _ => root,
    }
}

// The name of a function of which a status speaks, where it is wrong in a file.
pub fn fault_name(status: &Status) -> &[u8]
    ensures { result.now ≡ fault_name status.now }
{
    match status {
        Status::NotThere { name, .. } | Status::Clash { name, .. } => name.as_bytes(),
        _ => b"",
    }
}

// What a message on this status points to.
pub fn target_of(status: &Status) -> Target
    ensures { result ≡ target_of status.now }
{
    match status {
        Status::Misread {
            fault: ReadFault::Text(fault),
            ..
        } => text_target(*fault),
        Status::Misread {
            fault: ReadFault::Json(fault),
            ..
        } => json_target(*fault),
        Status::NotThere { .. } | Status::Clash { .. } => Target::Named,
        Status::Misnamed { fault } => name_target(*fault),
        Status::Unaccepted { program, fault } => check_target(program.main, *fault),
        _ => Target::File,
    }
}

fn text_target(fault: TextFault) -> Target
    ensures { result ≡ text_target fault }
{
    match fault {
        TextFault::Lex { at }
        | TextFault::Grammar { at }
        | TextFault::IntRange { at }
        | TextFault::Float { at }
        | TextFault::Deep { at } => Target::Byte { at },
        TextFault::Memory => Target::File,
    }
}

fn json_target(fault: JsonFault) -> Target
    ensures { result ≡ json_target fault }
{
    match fault {
        JsonFault::IntRange { func, item } => Target::Keys {
            func,
            item: Some(item),
        },
        JsonFault::Shape {
            func: Some(func),
            item,
        }
        | JsonFault::Float {
            func: Some(func),
            item,
        }
        | JsonFault::Deep {
            func: Some(func),
            item,
        } => Target::Keys { func, item },
        JsonFault::Shape { func: None, .. }
        | JsonFault::Float { func: None, .. }
        | JsonFault::Deep { func: None, .. }
        | JsonFault::Syntax
        | JsonFault::Memory => Target::File,
    }
}

fn name_target(fault: NameFault) -> Target
    ensures { result ≡ name_target fault }
{
    match fault {
        NameFault::NoFunction { func, item }
        | NameFault::NoLabel { func, item }
        | NameFault::TwiceLabel { func, item } => Target::Item { func, item },
        NameFault::TwiceFunction { func } | NameFault::TwiceArg { func } => {
            Target::Function { func }
        }
        NameFault::NoMain | NameFault::Memory => Target::File,
    }
}

fn check_target(main: u32, fault: CheckFault) -> Target
    ensures { result ≡ check_target main fault }
{
    match fault {
        CheckFault::Types { func, item }
        | CheckFault::Arity { func, item }
        | CheckFault::MaybeUnassigned { func, item, .. }
        | CheckFault::Nest { func, item }
        | CheckFault::SpecCall { func, item }
        | CheckFault::NoReturn { func, item }
        | CheckFault::PrintPtr { func, item } => Target::Item { func, item },
        CheckFault::MainType => Target::Function { func: main },
        CheckFault::Memory => Target::File,
    }
}
