// What is put on the output, and what is answered of a run.

ghost use Rattle.std.specs.Prelude.{◌≡◌, [], ◌∷◌, OnOk, OnErr};
ghost use Rattle.bril_commands.specs.Outcome.{Works, WritesPieces, end_status, writes_text};
ghost use Rattle.bril_outside.specs.Sink.{Rose, Flushed, HandedOn};
ghost use Rattle.bril_report.specs.StageFaults.{status_of};

use bril_outside::sink::{Failed, Sink};
use bril_report::Status;
use bril_tree::limits::End;

/// Puts a text on the output by one put, and has the output hand it on. Takes no memory.
///
/// `CannotWrite`: the put failed, or the output failed to hand it on.
pub fn put_text<O: Sink>(text: &[u8], out: &mut O) -> Result<(), Status>
    ensures { WritesPieces (status_of result) (text.now ∷ []) (O.seen out.old) (O.seen out.new) }
{
    out.put(text)?;
    hand_on(out)?;
    Ok(())
}

/// Does the work of a command that puts this text alone, as `put_text` does.
///
/// `CannotWrite`: the put failed, or the output failed to hand it on.
pub fn put_alone<O: Sink>(text: &[u8], out: &mut O) -> Result<(), Status>
    ensures { Works (writes_text text.now) (status_of result) [] (O.seen out.old) (O.seen out.new) }
{
    put_text(text, out)
}

/// Has the output hand on all that it holds back. Takes no memory.
///
/// `Failed`: it failed to, and counted a fault.
pub fn hand_on<O: Sink>(out: &mut O) -> Result<(), Failed>
    ensures kept { Flushed (O.seen out.old) (O.seen out.new) }
    ensures ok { OnOk result (HandedOn (O.seen out.old) (O.seen out.new)) }
    ensures err { OnErr result (Rose (O.seen out.old).faults (O.seen out.new).faults) }
{
    out.flush()
}

/// What is answered of a run that ended so, or goes on after so many steps, or words of the machine, for `None`.
pub fn answer(ended: Option<End>, steps: u64) -> Result<(), Status>
    ensures { status_of result ≡ end_status ended steps }
{
    match ended {
        Some(End::Ended) => Ok(()),
        Some(End::Faulted(fault)) => Err(Status::Faulted { fault }),
        None => Err(Status::Spent { steps }),
    }
}
