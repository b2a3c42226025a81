// What is told of how a command ended: its number, and its line on the error output.

ghost use Rattle.std.specs.Prelude.{◌≡◌, [], ◌∷◌, ◌++◌, codes, None, Some, IfOk, IfErr};
ghost use Rattle.std.specs.Fmt.{decimal};
ghost use Rattle.bril_report.specs.Lines.{text_front, text_position, json_front, json_position, name_front, name_position, number_or_dash, position_of, variable_name, fault_line, misuse_line, trap_kind, trap_pc};
ghost use Rattle.bril_report.specs.Report.{status_number, status_pieces, position_pieces, number_pieces, misread_pieces, misnamed_pieces, item_pieces, main_pieces, unassigned_pieces, unaccepted_pieces, count_pieces, pass_pieces, trap_pieces, room_pieces};
ghost use Rattle.bril_report.specs.Told.{Tells};

use crate::error_output::ErrorOutput;
use crate::status::Status;
use bril_checker::CheckFault;
use bril_json::JsonFault;
use bril_names::NameFault;
use bril_outside::sink::Sink;
use bril_text::TextFault;
use bril_tree::limits::Fault;
use bril_tree::name::Name;
use bril_tree::program::Prog;
use bril_tree::text::Text;
use bril_words::{Misuse, Setting};
use import_linker::formats::ReadFault;
use itoa::Buffer;
use rv64_words::trap::Trap;
use std::alloc::AllocError;

// A function and an item by their numbers, where a fault stands in one.
#[derive(Clone, Copy, Drop)]
struct FaultPlace {
    func: Option<u32>,
    item: Option<u32>,
}

/// The number of a status.
pub fn status_number(status: &Status) -> u8
    ensures { result ≡ status_number status.now }
{
    match status {
        Status::Done => 0,
        Status::Faulted { .. } => 2,
        Status::Spent { .. } => 3,
        Status::Trapped { .. } => 4,
        Status::Misused { .. } => 64,
        Status::Misread { .. }
        | Status::NotThere { .. }
        | Status::Clash { .. }
        | Status::Misnamed { .. }
        | Status::Unaccepted { .. }
        | Status::MisreadListing { .. }
        | Status::MisreadElf { .. } => 65,
        Status::CannotRead { .. } => 66,
        Status::MisreadProfile { .. } => 67,
        Status::TooManyBytes
        | Status::TooManyFiles
        | Status::ProfileTooLarge
        | Status::ScriptTooLarge
        | Status::CodeTooBig { .. }
        | Status::StackTooBig { .. }
        | Status::PassTooLarge { .. } => 68,
        Status::ArgumentCount { .. } | Status::BadArgument { .. } | Status::ArgumentRoom { .. } =>
            69,
        Status::UnknownPass { .. } => 70,
        Status::OutOfMemory => 71,
        Status::MisreadScript { .. } => 72,
        Status::CannotWrite => 74,
    }
}

/// The exit status of a call that was answered with this number, or had no memory for what it needs before it begins: 71.
pub fn exit_number(ended: Result<u8, AllocError>) -> u8
    ensures answered { IfOk ended (λ status. result ≡ status) }
    ensures memory { IfErr ended (λ _. result ≡ 71) }
{
    match ended {
        Ok(status) => status,
        Err(AllocError) => status_number(&Status::OutOfMemory),
    }
}

/// Puts the line of a status on the error output, in its pieces: all of them, or those up to one whose put fails, and nothing where
/// a put failed before. Where all was done nothing is put.
pub fn say<E: Sink>(err: &mut ErrorOutput<'_, E>, status: &Status)
    ensures { Tells E.seen err.old (status_pieces status.now) err.new }
{
    match status {
        Status::Done => {}
        Status::Faulted { fault } => err.put(fault_line(*fault)),
        Status::Spent { steps } => put_number(err, b"spent ", *steps),
        Status::Trapped { trap } => put_trap(err, *trap),
        Status::Misused { misuse } => err.put(misuse_line(misuse)),
        Status::Misread { path, fault } => put_misread(err, path.as_bytes(), *fault),
        Status::NotThere { path, name } => put_name(err, b"link 3 ", path, name),
        Status::Clash { path, name } => put_name(err, b"link 4 ", path, name),
        Status::Misnamed { fault } => put_misnamed(err, *fault),
        Status::Unaccepted { program, fault } => put_unaccepted(err, program, *fault),
        Status::MisreadListing { path, line } => put_at(
            err,
            path.as_bytes(),
            b": listing ",
            u64::from(*line),
        ),
        Status::MisreadElf { path, at } => put_at(err, path.as_bytes(), b": elf ", *at),
        Status::CannotRead { path } => err.put_all(&[b"cannot read ", path.as_bytes(), b"\n"]),
        Status::TooManyBytes => err.put(b"too large: bytes\n"),
        Status::TooManyFiles => err.put(b"too large: files\n"),
        Status::CodeTooBig { words } => put_number(err, b"too large: code ", *words),
        Status::StackTooBig { words } => put_number(err, b"too large: stack ", *words),
        Status::PassTooLarge { place, bound } => put_bound(err, *place, *bound),
        Status::ArgumentCount { given, wanted } => put_counts(err, *given, *wanted),
        Status::BadArgument { position } => put_number(err, b"argument ", u64::from(*position)),
        Status::ArgumentRoom { given, room } => put_room(err, *given, *room),
        Status::ProfileTooLarge => err.put(b"too large: profile\n"),
        Status::MisreadProfile { line } => put_number(err, b"profile line ", u64::from(*line)),
        Status::ScriptTooLarge => err.put(b"too large: script\n"),
        Status::MisreadScript { line } => put_number(err, b"script line ", u64::from(*line)),
        Status::UnknownPass { place } => put_number(err, b"unknown pass ", u64::from(*place)),
        Status::OutOfMemory => err.put(b"out of memory\n"),
        Status::CannotWrite => err.put(b"cannot write\n"),
    }
}

// What is told of words that ask for nothing.
fn misuse_line(misuse: &Misuse) -> &[u8]
    ensures { result.now ≡ misuse_line misuse.now }
{
    match misuse {
        Misuse::Words { text } => text.as_bytes(),
        Misuse::Value {
            setting: Setting::Passes,
        } => b"usage: --passes\n",
        Misuse::Value {
            setting: Setting::Profile,
        } => b"usage: --profile\n",
        Misuse::Value {
            setting: Setting::Frames,
        } => b"usage: --frames\n",
        Misuse::Value {
            setting: Setting::Cells,
        } => b"usage: --cells\n",
        Misuse::Value {
            setting: Setting::Steps,
        } => b"usage: --steps\n",
        Misuse::Value {
            setting: Setting::Hot,
        } => b"usage: --hot\n",
        Misuse::Value {
            setting: Setting::Most,
        } => b"usage: --most\n",
        Misuse::Functions => b"usage: N\n",
        Misuse::Memory => b"out of memory\n",
    }
}

// The line of a fault of a run.
fn fault_line(fault: Fault) -> &'static [u8]
    ensures { result.now ≡ fault_line fault }
{
    match fault {
        Fault::DivZero => b"fault 1 DivZero\n",
        Fault::BadChar => b"fault 2 BadChar\n",
        Fault::BadAlloc => b"fault 3 BadAlloc\n",
        Fault::BadFree => b"fault 4 BadFree\n",
        Fault::Access => b"fault 5 Access\n",
        Fault::Uninit => b"fault 6 Uninit\n",
        Fault::Leak => b"fault 7 Leak\n",
        Fault::Frames => b"fault 8 Frames\n",
        Fault::Cells => b"fault 9 Cells\n",
        Fault::PtrRange => b"fault 10 PtrRange\n",
        Fault::Allocs => b"fault 11 Allocs\n",
    }
}

// Puts the line of a trap.
fn put_trap<E: Sink>(err: &mut ErrorOutput<'_, E>, trap: Trap)
    ensures { Tells E.seen err.old (trap_pieces trap) err.new }
{
    let mut first = Buffer::new();
    let mut second = Buffer::new();
    err.put_all(&[
        b"trap ",
        first.format(trap_kind(trap)).as_bytes(),
        b" pc ",
        second.format(trap_pc(trap)).as_bytes(),
        b"\n",
    ]);
}

// The kind of a trap, by its number.
fn trap_kind(trap: Trap) -> u32
    ensures { result ≡ trap_kind trap }
{
    match trap {
        Trap::Fetch { .. } => 1,
        Trap::Word { .. } => 2,
        Trap::Address { .. } => 3,
        Trap::Call { .. } => 4,
        Trap::NoScalar { .. } => 5,
    }
}

// The pc of the word at which it comes.
fn trap_pc(trap: Trap) -> u64
    ensures { result ≡ trap_pc trap }
{
    match trap {
        Trap::Fetch { pc }
        | Trap::Word { pc }
        | Trap::Address { pc, .. }
        | Trap::Call { pc, .. }
        | Trap::NoScalar { pc, .. } => pc,
    }
}

// Puts the line of a pass that may make too many items.
fn put_bound<E: Sink>(err: &mut ErrorOutput<'_, E>, place: u32, bound: u64)
    ensures { Tells E.seen err.old (pass_pieces place bound) err.new }
{
    let mut first = Buffer::new();
    let mut second = Buffer::new();
    err.put_all(&[
        b"too large: pass ",
        first.format(place).as_bytes(),
        b" ",
        second.format(bound).as_bytes(),
        b"\n",
    ]);
}

// Puts the line of a wrong number of arguments.
fn put_counts<E: Sink>(err: &mut ErrorOutput<'_, E>, given: u32, wanted: u32)
    ensures { Tells E.seen err.old (count_pieces given wanted) err.new }
{
    let mut first = Buffer::new();
    let mut second = Buffer::new();
    err.put_all(&[
        b"arguments: ",
        first.format(given).as_bytes(),
        b" given, ",
        second.format(wanted).as_bytes(),
        b" wanted\n",
    ]);
}

// Puts the line of more arguments than a stack has room for.
fn put_room<E: Sink>(err: &mut ErrorOutput<'_, E>, given: u64, room: u64)
    ensures { Tells E.seen err.old (room_pieces given room) err.new }
{
    let mut words = Buffer::new();
    let mut most = Buffer::new();
    err.put_all(&[
        b"arguments: ",
        words.format(given).as_bytes(),
        b" given, ",
        most.format(room).as_bytes(),
        b" room\n",
    ]);
}

// Puts the line of a fault of the bytes of the file at a path.
fn put_misread<E: Sink>(err: &mut ErrorOutput<'_, E>, path: &[u8], fault: ReadFault)
    ensures { Tells E.seen err.old (misread_pieces path.now fault) err.new }
{
    match fault {
        ReadFault::Text(fault) => put_text_fault(err, path, fault),
        ReadFault::Json(fault) => put_after(err, path, json_front(fault), json_position(fault)),
    }
}

// Puts a piece, a path, a name that is wrong in the file at the path, and LF.
fn put_name<E: Sink>(err: &mut ErrorOutput<'_, E>, front: &[u8], path: &Text, name: &Name)
    ensures { Tells E.seen err.old (front.now ∷ path.now ∷ codes " " ∷ name.now ∷ codes "\n" ∷ []) err.new }
{
    err.put_all(&[front, path.as_bytes(), b" ", name.as_bytes(), b"\n"]);
}

// Puts the line of a fault of the names.
fn put_misnamed<E: Sink>(err: &mut ErrorOutput<'_, E>, fault: NameFault)
    ensures { Tells E.seen err.old (misnamed_pieces fault) err.new }
{
    put_placed(err, name_front(fault), name_position(fault), b"\n");
}

// Puts the line of a fault of the checker, which the program has.
fn put_unaccepted<E: Sink>(err: &mut ErrorOutput<'_, E>, program: &Prog, fault: CheckFault)
    ensures { Tells E.seen err.old (unaccepted_pieces program.now fault) err.new }
{
    match fault {
        CheckFault::Types { func, item } => put_item(err, b"check 1 function ", func, item),
        CheckFault::Arity { func, item } => put_item(err, b"check 2 function ", func, item),
        CheckFault::MaybeUnassigned { func, item, var } => {
            put_unassigned(err, variable_name(program, func, var), func, item)
        }
        CheckFault::Nest { func, item } => put_item(err, b"check 4 function ", func, item),
        CheckFault::SpecCall { func, item } => put_item(err, b"check 5 function ", func, item),
        CheckFault::NoReturn { func, item } => put_item(err, b"check 6 function ", func, item),
        CheckFault::MainType => put_main(err, program.main),
        CheckFault::PrintPtr { func, item } => put_item(err, b"check 8 function ", func, item),
        CheckFault::Memory => err.put(b"check 0 function - item -\n"),
    }
}

// Puts the line of a `main` that returns a value or takes a pointer.
fn put_main<E: Sink>(err: &mut ErrorOutput<'_, E>, main: u32)
    ensures { Tells E.seen err.old (main_pieces main) err.new }
{
    put_placed(err, b"check 7 function ", function_position(main), b"\n");
}

// Puts a piece, a function and an item, and LF.
fn put_item<E: Sink>(err: &mut ErrorOutput<'_, E>, front: &[u8], func: u32, item: u32)
    ensures { Tells E.seen err.old (item_pieces front.now func item) err.new }
{
    put_placed(err, front, item_position(func, item), b"\n");
}

// Puts the line of a variable of this name that may be unassigned.
fn put_unassigned<E: Sink>(err: &mut ErrorOutput<'_, E>, name: &[u8], func: u32, item: u32)
    ensures { Tells E.seen err.old (unassigned_pieces name.now func item) err.new }
{
    put_named(
        err,
        b"check 3 function ",
        item_position(func, item),
        b" variable ",
        name,
    );
}

// Puts a piece, a position and what follows it, a name, and LF.
fn put_named<E: Sink>(
    err: &mut ErrorOutput<'_, E>,
    front: &[u8],
    position: FaultPlace,
    rest: &[u8],
    name: &[u8],
)
    ensures { Tells E.seen err.old (front.now ∷ (position_pieces position rest.now ++ name.now ∷ codes "\n" ∷ [])) err.new }
{
    put_placed(err, front, position, rest);
    err.put_all(&[name, b"\n"]);
}

// The name of a variable of a function.
fn variable_name(program: &Prog, func: u32, var: u32) -> &[u8]
    ensures { result.now ≡ variable_name program.now func var }
{
    match program.funcs.as_slice().get(func as usize) {
        None => b"",
        Some(func) => match func.vars.as_slice().get(var as usize) {
            None => b"",
            Some(variable) => variable.name.as_bytes(),
        },
    }
}

// Puts the line of a fault of the text of the file at a path.
fn put_text_fault<E: Sink>(err: &mut ErrorOutput<'_, E>, path: &[u8], fault: TextFault)
    ensures { Tells E.seen err.old (misread_pieces path.now (ReadFault.Text fault)) err.new }
{
    put_at(err, path, text_front(fault), text_position(fault));
}

// Puts a path, a piece, the byte or the line at which a fault stands, and LF.
fn put_at<E: Sink>(err: &mut ErrorOutput<'_, E>, path: &[u8], front: &[u8], at: u64)
    ensures { Tells E.seen err.old (path.now ∷ front.now ∷ decimal at ∷ codes "\n" ∷ []) err.new }
{
    let mut buffer = Buffer::new();
    err.put_all(&[path, front, buffer.format(at).as_bytes(), b"\n"]);
}

// Puts a path, a piece, a position and LF.
fn put_after<E: Sink>(err: &mut ErrorOutput<'_, E>, path: &[u8], front: &[u8], position: FaultPlace)
    ensures { Tells E.seen err.old (path.now ∷ front.now ∷ position_pieces position (codes "\n")) err.new }
{
    err.put(path);
    put_placed(err, front, position, b"\n");
}

// Puts a piece, a position and what follows it.
fn put_placed<E: Sink>(
    err: &mut ErrorOutput<'_, E>,
    front: &[u8],
    position: FaultPlace,
    rest: &[u8],
)
    ensures { Tells E.seen err.old (front.now ∷ position_pieces position rest.now) err.new }
{
    let mut func = Buffer::new();
    let mut item = Buffer::new();
    err.put_all(&[
        front,
        number_or_dash(&mut func, position.func),
        b" item ",
        number_or_dash(&mut item, position.item),
        rest,
    ]);
}

// The position of an item.
fn item_position(func: u32, item: u32) -> FaultPlace
    ensures { result ≡ position_of (Some func) (Some item) }
{
    FaultPlace {
        func: Some(func),
        item: Some(item),
    }
}

// The position of a function.
fn function_position(func: u32) -> FaultPlace
    ensures { result ≡ position_of (Some func) None }
{
    FaultPlace {
        func: Some(func),
        item: None,
    }
}

// The position of what stands in no function.
fn no_position() -> FaultPlace
    ensures { result ≡ position_of None None }
{
    FaultPlace {
        func: None,
        item: None,
    }
}

// A number as a decimal, or `-` for none.
fn number_or_dash(buffer: &mut Buffer, number: Option<u32>) -> &[u8]
    ensures { result.now ≡ number_or_dash number }
{
    match number {
        Some(number) => buffer.format(number).as_bytes(),
        None => b"-",
    }
}

// The kind of a fault of the JSON, by its number.
fn json_front(fault: JsonFault) -> &'static [u8]
    ensures { result.now ≡ json_front fault }
{
    match fault {
        JsonFault::Syntax => b": json 1 function ",
        JsonFault::Shape { .. } => b": json 2 function ",
        JsonFault::IntRange { .. } => b": json 3 function ",
        JsonFault::Float { .. } => b": json 4 function ",
        JsonFault::Deep { .. } => b": json 5 function ",
        JsonFault::Memory => b": json 0 function ",
    }
}

// The position of a fault of the JSON.
fn json_position(fault: JsonFault) -> FaultPlace
    ensures { result ≡ json_position fault }
{
    match fault {
        JsonFault::Shape { func, item }
        | JsonFault::Float { func, item }
        | JsonFault::Deep { func, item } => FaultPlace { func, item },
        JsonFault::IntRange { func, item } => item_position(func, item),
        JsonFault::Syntax | JsonFault::Memory => no_position(),
    }
}

// The kind of a fault of the names, by its number.
fn name_front(fault: NameFault) -> &'static [u8]
    ensures { result.now ≡ name_front fault }
{
    match fault {
        NameFault::NoFunction { .. } => b"name 1 function ",
        NameFault::TwiceFunction { .. } => b"name 2 function ",
        NameFault::NoLabel { .. } => b"name 3 function ",
        NameFault::TwiceLabel { .. } => b"name 4 function ",
        NameFault::NoMain => b"name 5 function ",
        NameFault::TwiceArg { .. } => b"name 6 function ",
        NameFault::Memory => b"name 0 function ",
    }
}

// The position of a fault of the names.
fn name_position(fault: NameFault) -> FaultPlace
    ensures { result ≡ name_position fault }
{
    match fault {
        NameFault::NoFunction { func, item }
        | NameFault::NoLabel { func, item }
        | NameFault::TwiceLabel { func, item } => item_position(func, item),
        NameFault::TwiceFunction { func } | NameFault::TwiceArg { func } => function_position(func),
        NameFault::NoMain | NameFault::Memory => no_position(),
    }
}

// The kind of a fault of the text, by its number.
fn text_front(fault: TextFault) -> &'static [u8]
    ensures { result.now ≡ text_front fault }
{
    match fault {
        TextFault::Lex { .. } => b": text 1 at ",
        TextFault::Grammar { .. } => b": text 2 at ",
        TextFault::IntRange { .. } => b": text 3 at ",
        TextFault::Float { .. } => b": text 4 at ",
        TextFault::Deep { .. } => b": text 5 at ",
        TextFault::Memory => b": text 0 at ",
    }
}

// The byte at which it stands.
fn text_position(fault: TextFault) -> u64
    ensures { result ≡ text_position fault }
{
    match fault {
        TextFault::Lex { at }
        | TextFault::Grammar { at }
        | TextFault::IntRange { at }
        | TextFault::Float { at }
        | TextFault::Deep { at } => u64::from(at),
        TextFault::Memory => 0,
    }
}

// Puts a line that ends with a number.
pub(crate) fn put_number<E: Sink>(err: &mut ErrorOutput<'_, E>, front: &[u8], number: u64)
    ensures { Tells E.seen err.old (number_pieces front.now number) err.new }
{
    let mut buffer = Buffer::new();
    err.put_all(&[front, buffer.format(number).as_bytes(), b"\n"]);
}
