// The orders of a script are carried out, one after another. This takes no memory.

ghost use Rattle.std.specs.Prelude.{◌≡◌, ◌-◌, ◌<◌, ◌^◌, ℕ, [], List, IfOk, OnErr, OnOk, if◌then◌else◌};
ghost use Rattle.bril_commands.specs.Outcome.{ShowsPartly, ShowsPut};
ghost use Rattle.bril_commands.specs.commands.Monitor.{Session, first_session};
ghost use Rattle.bril_outside.specs.Sink.{PutSome};
ghost use Rattle.bril_report.specs.Puts.{PutsAll};
ghost use Rattle.bril_tree.specs.Numbered.{names_of_functions};
ghost use Rattle.monitor_command.specs.Carried.{Became, BreaksOff, Follows, FollowsSome, GoesOn, IsShown, ShowsEntries, ShowsLines, scripted};
ghost use Rattle.monitor_script.specs.declared.order.Order.{Order as OrderMeant};
ghost use Rattle.monitor_script.specs.declared.order.Order.TheVariants as order;
ghost use Rattle.step_monitor.specs.MonitorView.{IsSpotAt, LeftSo, StopSo, from_in, is_left, machine_in, spots_in};
ghost use Rattle.step_monitor.specs.Went.{Went as CallWent};

use crate::function_names::FunctionNames;
use crate::lines::{put_absent, put_end, put_stop, put_variable};
use crate::progress::{Progress, Went};
use crate::target::Target;
use bril_outside::sink::{Failed, Sink};
use bril_tree::limits::End;
use bril_tree::program::Prog;
use monitor_script::Order;
use step_monitor::monitor::Monitor;
use step_monitor::stop::Stop;

/// Carries out the orders, in their order, with a monitor that hasn't run yet and has no mark. `Ok`: how the program ended, or that it
/// goes on after all its words, for `None`; it has ended also where all orders were carried out. `Failed`: a put failed, and none was
/// made after it. Takes no memory.
pub fn carry_out<O: Sink>(
    on: Target<'_>,
    names: &FunctionNames<'_>,
    orders: &[Order],
    progress: &mut Progress,
    out: &mut O,
) -> Result<Option<End>, Failed>
    requires shown { IsShown on }
    requires named { names.now ≡ names_of_functions on.program.now.funcs }
    requires first { Follows on first_session progress.old }
    ensures ok { IfOk result (λ ended. (is : IsShown on.entry) → ShowsPut (scripted on.entry is orders.now) ended [] (O.seen out.old) (O.seen out.new)) }
    ensures err { OnErr result ((is : IsShown on.entry) → ShowsPartly (scripted on.entry is orders.now) (O.seen out.old) (O.seen out.new)) }
{
    for order in orders {
        match carry_order(on, names, order, progress, out)? {
            Went::On => {}
            Went::Over(ended) => return Ok(ended),
        }
    }
    Ok(Some(End::Ended))
}

// Carries out an order.
fn carry_order<O: Sink>(
    on: Target<'_>,
    names: &FunctionNames<'_>,
    order: &Order,
    progress: &mut Progress,
    out: &mut O,
) -> Result<Went, Failed>
    requires shown { IsShown on }
    requires named { names.now ≡ names_of_functions on.program.now.funcs }
    requires follows { FollowsSome on progress.old }
    ensures ok { IfOk result (λ went. (is : IsShown on.entry) (s : Session) → Follows on.entry s progress.old → Became on.entry is order.now s went progress.new (O.seen out.old) (O.seen out.new)) }
    ensures err { OnErr result ((is : IsShown on.entry) (s : Session) (rest : List OrderMeant) → Follows on.entry s progress.old → BreaksOff on.entry is order.now s rest (O.seen out.old) (O.seen out.new)) }
{
    match order {
        Order::Break { func, item } => {
            mark(on, names, func.as_bytes(), *item, true, progress, out)?;
            Ok(Went::On)
        }
        Order::Clear { func, item } => {
            mark(on, names, func.as_bytes(), *item, false, progress, out)?;
            Ok(Went::On)
        }
        Order::Go => run(on, false, progress, out),
        Order::Step => run(on, true, progress, out),
        Order::Show => {
            show(on, progress, out)?;
            Ok(Went::On)
        }
    }
}

// ---- marks

// Marks an item of the function of this name, or takes its mark away; tells where it has no point.
fn mark<O: Sink>(
    on: Target<'_>,
    names: &FunctionNames<'_>,
    name: &[u8],
    item: u32,
    marked: bool,
    progress: &mut Progress,
    out: &mut O,
) -> Result<(), Failed>
    requires { names.now ≡ names_of_functions on.program.now.funcs }
    ensures ok { OnOk result ((is : IsShown on.entry) (s : Session) → Follows on.entry s progress.old → GoesOn on.entry is (if marked then order.Break name.now item else order.Clear name.now item) s progress.new (O.seen out.old) (O.seen out.new)) }
    ensures err { OnErr result ((is : IsShown on.entry) (s : Session) (rest : List OrderMeant) → Follows on.entry s progress.old → BreaksOff on.entry is (if marked then order.Break name.now item else order.Clear name.now item) s rest (O.seen out.old) (O.seen out.new)) }
{
    let Some(func) = names.find(name) else {
        return put_absent(name, item, out);
    };
    if progress.monitor.mark(func, item, marked) {
        return Ok(());
    }
    put_absent(name, item, out)
}

// ---- runs

// Runs the machine to the next point, any or a marked one, and tells how it stopped.
fn run<O: Sink>(
    on: Target<'_>,
    any: bool,
    progress: &mut Progress,
    out: &mut O,
) -> Result<Went, Failed>
    requires shown { IsShown on }
    requires follows { FollowsSome on progress.old }
    ensures ok { IfOk result (λ went. (is : IsShown on.entry) (s : Session) → Follows on.entry s progress.old → Became on.entry is (if any then order.Step else order.Go) s went progress.new (O.seen out.old) (O.seen out.new)) }
    ensures err { OnErr result ((is : IsShown on.entry) (s : Session) (rest : List OrderMeant) → Follows on.entry s progress.old → BreaksOff on.entry is (if any then order.Step else order.Go) s rest (O.seen out.old) (O.seen out.new)) }
{
    let words = words_left(on.settings.steps, progress.monitor.done());
    match run_monitor(&mut progress.monitor, any, words, out) {
        Stop::Break { func, item } => {
            progress.func = Some(func);
            put_stop(on.program, func, item, out)?;
            Ok(Went::On)
        }
        Stop::End(end) => {
            put_end(end, out)?;
            Ok(Went::Over(Some(end)))
        }
        Stop::Spent => Ok(Went::Over(None)),
        Stop::WriteFault => Err(Failed),
        Stop::Trap(_) => unreachable!(),
    }
}

// How many of so many words are left after these. A number of 64 bits counts them.
fn words_left(steps: u64, done: u64) -> u64
    ensures left { result ≡ steps - done }
    ensures counted { steps < 2 ^ 64 }
{
    steps.saturating_sub(done)
}

// Runs a monitor by at most so many words, to the next point, any or a marked one.
fn run_monitor<O: Sink>(monitor: &mut Monitor, any: bool, words: u64, out: &mut O) -> Stop
    ensures went { CallWent (IsSpotAt (spots_in monitor.old) any) result (from_in monitor.old) words (machine_in monitor.old) (machine_in monitor.new) (O.seen out.old) (O.seen out.new) }
    ensures spots { spots_in monitor.new ≡ spots_in monitor.old }
    ensures left { LeftSo result words (is_left monitor.old) (is_left monitor.new) }
    ensures stop { StopSo result monitor.new }
{
    if any {
        monitor.step(words, out)
    } else {
        monitor.go(words, out)
    }
}

// ---- values

// Puts the variables at the last stop; nothing where there is none.
fn show<O: Sink>(on: Target<'_>, progress: &Progress, out: &mut O) -> Result<(), Failed>
    ensures ok { OnOk result ((lines : List (List ℕ)) → ShowsLines on.entry.program.now progress.now lines → PutsAll (O.seen out.old) lines (O.seen out.new)) }
    ensures err { OnErr result ((lines : List (List ℕ)) → ShowsLines on.entry.program.now progress.now lines → PutSome (O.seen out.old) lines (O.seen out.new)) }
{
    let Some(func) = progress.func else {
        return Ok(());
    };
    put_entries(on.program, func, &progress.monitor, out)
}

// Puts the variables that have an entry at the point at which the monitor has stopped, which is one of this function.
fn put_entries<O: Sink>(
    program: &Prog,
    func: u32,
    monitor: &Monitor,
    out: &mut O,
) -> Result<(), Failed>
    ensures ok { OnOk result ((lines : List (List ℕ)) → ShowsEntries program.now func monitor.now lines → PutsAll (O.seen out.old) lines (O.seen out.new)) }
    ensures err { OnErr result ((lines : List (List ℕ)) → ShowsEntries program.now func monitor.now lines → PutSome (O.seen out.old) lines (O.seen out.new)) }
{
    for place in 0..monitor.entries() {
        match monitor.entry_value(place) {
            Some(entry) => put_variable(program, func, entry.var, entry.value, out)?,
            None => {}
        }
    }
    Ok(())
}
