// The message on a fault.

ghost use Rattle.std.specs.Prelude.{◌≡◌, ◌≤◌, ◌++◌, IfOk, OnOk, length};
ghost use Rattle.std.specs.List.{flat_map};
ghost use Rattle.bril_explain.specs.Message.{IsByteMessage, IsInside, IsMessage, blank, file_message, headed, item_key, keys_message, placed_message, rest_of};
ghost use Rattle.source_places.specs.Place.{IsPlace};

use crate::located::{Located, Spot};
use bril_tree::bytes::Bytes;
use itoa::Buffer;
use source_places::{Place, begins_character, place_of};
use std::alloc::{AllocError, Global};

// The message that something is wrong at a place, and what would mend it.
pub fn message(
    alloc: Global,
    located: &Located,
    problem: &[u8],
    help: &[u8],
) -> Result<Bytes, AllocError>
    requires { IsInside located.now.spot }
    ensures { IfOk result (IsMessage located.now problem.now help.now) }
{
    let path = located.path.as_bytes();
    match &located.spot {
        Spot::Byte { source, at } => {
            byte_message(alloc, path, source.as_slice(), *at, problem, help)
        }
        Spot::Keys { func, item } => keys_message(alloc, path, *func, *item, problem, help),
        Spot::File => file_message(alloc, path, problem, help),
    }
}

// The message at a byte of a source: its line and column, the line, and a caret below the byte.
fn byte_message(
    alloc: Global,
    path: &[u8],
    source: &[u8],
    at: usize,
    problem: &[u8],
    help: &[u8],
) -> Result<Bytes, AllocError>
    requires { at ≤ length source.now }
    ensures { IfOk result (IsByteMessage path.now source.now at problem.now help.now) }
{
    let place = place_of(source, at);
    let message = placed_message(alloc, path, source, at, place, problem, help)?;
    Ok(message)
}

// The same, where the byte has this place.
fn placed_message(
    alloc: Global,
    path: &[u8],
    source: &[u8],
    at: usize,
    place: Place,
    problem: &[u8],
    help: &[u8],
) -> Result<Bytes, AllocError>
    requires { IsPlace source.now at place }
    ensures { IfOk result (λ message. message ≡ placed_message path.now source.now at place problem.now help.now) }
{
    let mut message = headed(alloc, path, place, problem)?;
    message.add(b"  ")?;
    message.add(&source[place.from..place.to])?;
    message.add(b"\n  ")?;
    message.add(blanks(alloc, &source[place.from..at])?.as_slice())?;
    message.add(b"^\nhelp: ")?;
    message.add(help)?;
    message.add(b"\n")?;
    Ok(message)
}

// The first line of a message at a place of a source.
fn headed(alloc: Global, path: &[u8], place: Place, problem: &[u8]) -> Result<Bytes, AllocError>
    ensures { IfOk result (λ message. message ≡ headed path.now place problem.now) }
{
    let mut line = Buffer::new();
    let mut column = Buffer::new();
    let mut message = Bytes::new(alloc);
    message.add(path)?;
    message.add(b":")?;
    message.add(line.format(place.line).as_bytes())?;
    message.add(b":")?;
    message.add(column.format(place.column).as_bytes())?;
    message.add(b": error: ")?;
    message.add(problem)?;
    message.add(b"\n")?;
    Ok(message)
}

// As many blanks as there are characters; a tab stays one.
fn blanks(alloc: Global, bytes: &[u8]) -> Result<Bytes, AllocError>
    ensures { IfOk result (λ made. made ≡ flat_map blank bytes.now) }
{
    let mut made = Bytes::new(alloc);
    for byte in bytes {
        made.add(blank(*byte))?;
    }
    Ok(made)
}

// The blank below a byte: a tab, a space, or nothing where it begins no character.
fn blank(byte: u8) -> &'static [u8]
    ensures { result.now ≡ blank byte }
{
    if byte == b'\t' {
        b"\t"
    } else if begins_character(byte) {
        b" "
    } else {
        b""
    }
}

// The message at a function or an item of a JSON file.
fn keys_message(
    alloc: Global,
    path: &[u8],
    func: usize,
    item: Option<u32>,
    problem: &[u8],
    help: &[u8],
) -> Result<Bytes, AllocError>
    ensures { IfOk result (λ message. message ≡ keys_message path.now func item problem.now help.now) }
{
    let mut number = Buffer::new();
    let mut message = Bytes::new(alloc);
    message.add(path)?;
    message.add(b": functions[")?;
    message.add(number.format(func).as_bytes())?;
    message.add(b"]")?;
    add_item(&mut message, item)?;
    add_rest(&mut message, problem, help)?;
    Ok(message)
}

// Adds the key of an item, where there is one.
fn add_item(message: &mut Bytes, item: Option<u32>) -> Result<(), AllocError>
    ensures { OnOk result (message.new ≡ message.old ++ item_key item) }
{
    let Some(item) = item else {
        return Ok(());
    };
    let mut number = Buffer::new();
    message.add(b".instrs[")?;
    message.add(number.format(item).as_bytes())?;
    message.add(b"]")?;
    Ok(())
}

// The message on a file.
fn file_message(
    alloc: Global,
    path: &[u8],
    problem: &[u8],
    help: &[u8],
) -> Result<Bytes, AllocError>
    ensures { IfOk result (λ message. message ≡ file_message path.now problem.now help.now) }
{
    let mut message = Bytes::new(alloc);
    message.add(path)?;
    add_rest(&mut message, problem, help)?;
    Ok(message)
}

// Adds what is wrong, and what would mend it.
fn add_rest(message: &mut Bytes, problem: &[u8], help: &[u8]) -> Result<(), AllocError>
    ensures { OnOk result (message.new ≡ message.old ++ rest_of problem.now help.now) }
{
    message.add(b": error: ")?;
    message.add(problem)?;
    message.add(b"\nhelp: ")?;
    message.add(help)?;
    message.add(b"\n")?;
    Ok(())
}
