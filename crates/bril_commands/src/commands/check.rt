// `check`: how many functions and items the accepted program of a file has.

ghost use Rattle.std.specs.Prelude.{◌≡◌, [], IfOk};
ghost use Rattle.bril_commands.specs.Driver.{DoesSource};
ghost use Rattle.bril_commands.specs.commands.Check.{accepted_line, checks};
ghost use Rattle.bril_report.specs.StageFaults.{status_of};
ghost use Rattle.bril_tree.specs.Size.{IsCounted};

use crate::output::put_alone;
use bril_checker::Checked;
use bril_outside::sink::Sink;
use bril_report::Status;
use bril_tree::bytes::Bytes;
use bril_tree::program::Prog;
use itoa::Buffer;
use std::alloc::{AllocError, Global};

/// Puts the line of an accepted program on the output, by one put: how many functions and items it has.
pub fn put_counts<O: Sink>(alloc: Global, checked: &Checked, out: &mut O) -> Result<(), Status>
    ensures { DoesSource checks (status_of result) checked.now.prog [] (O.seen out.old) (O.seen out.new) }
{
    let line = accepted_line(alloc, checked.prog())?;
    put_alone(line.as_slice(), out)
}

// The line of an accepted program: how many functions and items it has.
fn accepted_line(alloc: Global, program: &Prog) -> Result<Bytes, AllocError>
    requires { IsCounted program.now }
    ensures { IfOk result (λ line. line ≡ accepted_line program.now) }
{
    let functions = program.funcs.as_slice().len() as u64;
    let items = program.size();
    let mut line = Bytes::new(alloc);
    let mut buffer = Buffer::new();
    line.add(b"ok ")?;
    line.add(buffer.format(functions).as_bytes())?;
    line.add(b" ")?;
    line.add(buffer.format(items).as_bytes())?;
    line.add(b"\n")?;
    Ok(line)
}
