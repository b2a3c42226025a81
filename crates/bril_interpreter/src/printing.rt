// What is printed.

ghost use Rattle.std.specs.Prelude.{Some, [], ◌∷◌, ◌++◌, map, OnOk, OnErr};
ghost use Rattle.bril_outside.specs.Sink.{PutAll, PutSome, PutTimes, Rose, TookAll, TookSome};
ghost use Rattle.bril_tree.specs.State.{read};
ghost use Rattle.bril_tree.specs.Value.{shown};
ghost use Rattle.bril_heap.specs.Heap.{entries_of};
ghost use Rattle.bril_interpreter.specs.Line.{line_pieces};

use crate::interp::Interp;
use crate::locals::Locals;
use bril_nums::put_int;
use bril_outside::sink::{Failed, Sink};
use bril_tree::value::Value;
use bril_values::PrintedValue;

// Puts a value as `print` shows it and a byte behind it, by one put. An int, which is the most frequent value, is put from where it
// is written.
#[inline(always)]
fn put_value<S: Sink>(value: Value, end: u8, out: &mut S) -> Result<(), Failed>
    ensures ok { OnOk result (TookAll (S.seen out.old) (shown value ++ end ∷ []) (S.seen out.new)) }
    ensures err { OnErr result (TookSome (S.seen out.old) (shown value ++ end ∷ []) (S.seen out.new)
        × Rose (S.seen out.old).faults (S.seen out.new).faults) }
    ensures times { PutTimes (S.seen out.old) 1 (S.seen out.new) }
{
    if let Value::Int(number) = value {
        let mut text = [0; 20];
        let length = put_int(number, &mut text);
        if length < text.len() {
            text[length] = end;
            return out.put(&text[..length + 1]);
        }
    }
    out.put(PrintedValue::of(value, end).as_bytes())
}

// Puts the values of variables, with one space between two, and LF: by one put for each value and the byte after it, and
// by one for LF alone. After a put that failed there is none.
fn put_line<S: Sink>(locations: &Locals, args: &[u32], out: &mut S) -> Result<(), Failed>
    ensures ok { OnOk result (PutAll (S.seen out.old) (line_pieces (map (read (entries_of locations.now.vars)) args.now)) (S.seen out.new)) }
    ensures err { OnErr result (PutSome (S.seen out.old) (line_pieces (map (read (entries_of locations.now.vars)) args.now)) (S.seen out.new)) }
{
    let Some((last, others)) = args.split_last() else {
        return out.put(b"\n");
    };
    for x in others {
        put_value(locations.variable(*x), b' ', out)?;
    }
    put_value(locations.variable(*last), b'\n', out)
}

impl<'a> Interp<'a> {
    ghost use Rattle.bril_tree.specs.Step.{prints};
    ghost use Rattle.bril_interpreter.specs.Interpreter.{under};
    ghost use Rattle.bril_interpreter.specs.Steps.{values_in, changed, IsAtItem, Executed, CannotWrite};

    // The values of variables are printed. Where that fails nothing else is done.
    pub(crate) fn print<S: Sink>(&mut self, args: &[u32], out: &mut S) -> Result<(), Failed>
        requires { IsAtItem self.old }
        ensures ok { let values = values_in self.old args.now in let t = changed self.old (under self.old prints values) in
            OnOk result (Executed t (Some values) self.old self.new (S.seen out.old) (S.seen out.new)) }
        ensures err { let values = values_in self.old args.now in let t = changed self.old (under self.old prints values) in
            OnErr result (CannotWrite t (Some values) self.old self.new (S.seen out.old) (S.seen out.new)) }
    {
        put_line(self.newest.locations(), args, out)?;
        self.advance();
        Ok(())
    }
}
