// The lines that a script puts, in pieces of which each is one put. After a put that failed there is none.

ghost use Rattle.std.specs.Prelude.{◌≡◌, [], ◌∷◌, codes, map, OnOk, OnErr, Some};
ghost use Rattle.bril_commands.specs.commands.Monitor.{absent_pieces, end_pieces, place_pieces, stop_pieces, variable_pieces};
ghost use Rattle.bril_outside.specs.Sink.{PutSome};
ghost use Rattle.bril_report.specs.Lines.{variable_name};
ghost use Rattle.bril_report.specs.Puts.{PutsAll};
ghost use Rattle.bril_report.specs.Stats.{function_name};
ghost use Rattle.bril_tree.specs.Value.{bool_text};
ghost use Rattle.bril_tree.specs.declared.value.Value.TheVariants.{Char, Int, Ptr};

use bril_outside::sink::{Failed, Sink};
use bril_tree::limits::End;
use bril_tree::program::Prog;
use bril_tree::value::Value;
use itoa::Buffer;

/// Puts the pieces in their order, each by one put.
fn put_pieces<O: Sink>(pieces: &[&[u8]], out: &mut O) -> Result<(), Failed>
    ensures ok { OnOk result (PutsAll (O.seen out.old) (map (λ piece. piece.now) pieces.now) (O.seen out.new)) }
    ensures err { OnErr result (PutSome (O.seen out.old) (map (λ piece. piece.now) pieces.now) (O.seen out.new)) }
{
    match pieces.split_first() {
        None => Ok(()),
        Some((piece, rest)) => {
            out.put(*piece)?;
            put_pieces(rest, out)?;
            Ok(())
        }
    }
}

// ---- places

// Puts the line of an item of a function, behind these first bytes.
fn put_place<O: Sink>(front: &[u8], name: &[u8], item: u32, out: &mut O) -> Result<(), Failed>
    ensures ok { OnOk result (PutsAll (O.seen out.old) (place_pieces front.now name.now item) (O.seen out.new)) }
    ensures err { OnErr result (PutSome (O.seen out.old) (place_pieces front.now name.now item) (O.seen out.new)) }
{
    let mut number = Buffer::new();
    put_pieces(
        &[front, name, b" ", number.format(item).as_bytes(), b"\n"],
        out,
    )
}

/// Puts the line that tells that no point is that of the item of the function of this name.
pub fn put_absent<O: Sink>(name: &[u8], item: u32, out: &mut O) -> Result<(), Failed>
    ensures ok { OnOk result (PutsAll (O.seen out.old) (absent_pieces name.now item) (O.seen out.new)) }
    ensures err { OnErr result (PutSome (O.seen out.old) (absent_pieces name.now item) (O.seen out.new)) }
{
    put_place(b"no point @", name, item, out)
}

/// Puts the line that tells at which item the machine stopped.
pub fn put_stop<O: Sink>(program: &Prog, func: u32, item: u32, out: &mut O) -> Result<(), Failed>
    ensures ok { OnOk result (PutsAll (O.seen out.old) (stop_pieces (function_name program.now func) item) (O.seen out.new)) }
    ensures err { OnErr result (PutSome (O.seen out.old) (stop_pieces (function_name program.now func) item) (O.seen out.new)) }
{
    put_place(b"stop @", function_name(program, func), item, out)
}

/// Puts the line that tells that the program ended; none of a fault.
pub fn put_end<O: Sink>(end: End, out: &mut O) -> Result<(), Failed>
    ensures ok { OnOk result (PutsAll (O.seen out.old) (end_pieces end) (O.seen out.new)) }
    ensures err { OnErr result (PutSome (O.seen out.old) (end_pieces end) (O.seen out.new)) }
{
    match end {
        End::Ended => put_pieces(&[b"end\n"], out),
        End::Faulted(_) => Ok(()),
    }
}

// ---- values

/// Puts the line of a variable of a function, which has this value.
pub fn put_variable<O: Sink>(
    program: &Prog,
    func: u32,
    var: u32,
    value: Value,
    out: &mut O,
) -> Result<(), Failed>
    ensures ok { OnOk result (PutsAll (O.seen out.old) (variable_pieces (variable_name program.now func var) (Some value)) (O.seen out.new)) }
    ensures err { OnErr result (PutSome (O.seen out.old) (variable_pieces (variable_name program.now func var) (Some value)) (O.seen out.new)) }
{
    let name = variable_name(program, func, var);
    match value {
        Value::Int(number) => put_int(name, number, out),
        Value::Bool(truth) => put_shown(name, truth_text(truth), out),
        Value::Char(letter) => put_char(name, letter, out),
        Value::Ptr { block, offset } => put_pointer(name, block, offset, out),
    }
}

// Puts the line of a variable whose value is shown so.
fn put_shown<O: Sink>(name: &[u8], shown: &[u8], out: &mut O) -> Result<(), Failed>
    ensures ok { OnOk result (PutsAll (O.seen out.old) (name.now ∷ codes ": " ∷ shown.now ∷ codes "\n" ∷ []) (O.seen out.new)) }
    ensures err { OnErr result (PutSome (O.seen out.old) (name.now ∷ codes ": " ∷ shown.now ∷ codes "\n" ∷ []) (O.seen out.new)) }
{
    put_pieces(&[name, b": ", shown, b"\n"], out)
}

// Puts the line of an int.
fn put_int<O: Sink>(name: &[u8], number: i64, out: &mut O) -> Result<(), Failed>
    ensures ok { OnOk result (PutsAll (O.seen out.old) (variable_pieces name.now (Some (Int number))) (O.seen out.new)) }
    ensures err { OnErr result (PutSome (O.seen out.old) (variable_pieces name.now (Some (Int number))) (O.seen out.new)) }
{
    let mut text = Buffer::new();
    put_shown(name, text.format(number).as_bytes(), out)
}

// Puts the line of a char.
fn put_char<O: Sink>(name: &[u8], letter: char, out: &mut O) -> Result<(), Failed>
    ensures ok { OnOk result (PutsAll (O.seen out.old) (variable_pieces name.now (Some (Char letter))) (O.seen out.new)) }
    ensures err { OnErr result (PutSome (O.seen out.old) (variable_pieces name.now (Some (Char letter))) (O.seen out.new)) }
{
    let mut units = [0; 4];
    put_shown(name, letter.encode_utf8(&mut units).as_bytes(), out)
}

// Puts the line of a pointer.
fn put_pointer<O: Sink>(name: &[u8], block: u32, offset: i32, out: &mut O) -> Result<(), Failed>
    ensures ok { OnOk result (PutsAll (O.seen out.old) (variable_pieces name.now (Some (Ptr block offset))) (O.seen out.new)) }
    ensures err { OnErr result (PutSome (O.seen out.old) (variable_pieces name.now (Some (Ptr block offset))) (O.seen out.new)) }
{
    let mut first = Buffer::new();
    let mut second = Buffer::new();
    put_pieces(
        &[
            name,
            b": ",
            b"ptr ",
            first.format(block).as_bytes(),
            b" ",
            second.format(offset).as_bytes(),
            b"\n",
        ],
        out,
    )
}

// How `print` shows a bool.
fn truth_text<'a>(truth: bool) -> &'a [u8]
    ensures { result.now ≡ bool_text truth }
{
    if truth { b"true" } else { b"false" }
}

// ---- names

// The name of a function.
fn function_name(program: &Prog, func: u32) -> &[u8]
    ensures { result.now ≡ function_name program.now func }
{
    match program.funcs.as_slice().get(func as usize) {
        None => b"",
        Some(func) => func.name.as_bytes(),
    }
}

// The name of a variable of a function.
fn variable_name(program: &Prog, func: u32, var: u32) -> &[u8]
    ensures { result.now ≡ variable_name program.now func var }
{
    match program.funcs.as_slice().get(func as usize) {
        None => b"",
        Some(func) => match func.vars.as_slice().get(var as usize) {
            None => b"",
            Some(variable) => variable.name.as_bytes(),
        },
    }
}
