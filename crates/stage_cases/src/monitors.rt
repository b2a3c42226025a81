// Runs of an image that stop at items.

ghost use Rattle.std.specs.Prelude.{◌<◌, ◌≤◌, ◌^◌, IfOk, length};
ghost use Rattle.rv64_words.specs.Points.{ArePointsIn};
ghost use Rattle.rv64_words.specs.Region.{most_words};

use crate::row::add_line;
use crate::steps::values_of;
use bril_checker::Checked;
use bril_outside::mem_sink::MemSink;
use bril_tree::limits::Limits;
use bril_tree::sequence::Seq;
use bril_tree::value::Value;
use case_text::{LineFault, add_lines, add_unescaped, checked_of};
use rv64_emit::emit_points;
use rv64_words::fault::EmitFault;
use rv64_words::image::Image;
use rv64_words::points::Points;
use std::alloc::{AllocError, Global};
use step_monitor::monitor::Monitor;
use step_monitor::stop::Stop;

const LIMITS: Limits = Limits {
    frames: 8,
    cells: 8,
};

// The image of a program, and its points.
#[derive(Drop)]
struct Pointed {
    image: Image,
    points: Points,
}

/// Appends what a monitor of a source's program, whose `main` has no arguments, answers to orders, and the output. The line has the
/// orders, with commas between them, and the source.
pub fn add_monitored(alloc: Global, line: &str, shown: &mut Vec<u8>) -> Result<(), LineFault> {
    let (orders, rest) = line.split_once(' ').ok_or(LineFault::Form)?;
    let mut source = Vec::new(alloc);
    add_unescaped(alloc, rest, 0, &mut source)?;
    if source.len() > 100_000 {
        return Err(LineFault::Form);
    }
    let mut monitor = monitor_of_source(alloc, source.as_slice())?;
    add_orders(alloc, &mut monitor, orders, shown)
}

// Follows orders, and appends the answers and the output.
fn add_orders(
    alloc: Global,
    monitor: &mut Monitor,
    orders: &str,
    shown: &mut Vec<u8>,
) -> Result<(), LineFault> {
    let mut out = MemSink::new(alloc, 100, Seq::new(alloc))?;
    for order in orders.split(',') {
        follow(alloc, monitor, order, &mut out, shown)?;
    }
    Ok(add_lines(alloc, "", out.bytes(), shown)?)
}

// A monitor of the image of a source's program.
fn monitor_of_source(alloc: Global, source: &[u8]) -> Result<Monitor, LineFault>
    requires { length source.now < 2 ^ 32 }
{
    let checked = checked_of(alloc, source)?;
    let values = values_of(alloc, &checked)?;
    let pointed = image_of(alloc, &checked)?;
    monitor_of(alloc, &pointed, values.as_slice())
}

// The image of a program with its points.
fn image_of(alloc: Global, checked: &Checked) -> Result<Pointed, LineFault>
    ensures words { IfOk result (λ pointed. length pointed.image.words ≤ most_words) }
    ensures points { IfOk result (λ pointed. ArePointsIn pointed.image pointed.points) }
{
    match emit_points(alloc, checked, LIMITS) {
        Ok((image, points)) => Ok(Pointed { image, points }),
        Err(EmitFault::Memory) => Err(LineFault::Memory),
        Err(_) => Err(LineFault::Form),
    }
}

// A monitor of the image, where its stack has room for the arguments.
fn monitor_of(alloc: Global, pointed: &Pointed, values: &[Value]) -> Result<Monitor, LineFault>
    requires words { length pointed.now.image.words ≤ most_words }
    requires points { ArePointsIn pointed.now.image pointed.now.points }
{
    let stack = pointed.image.stack;
    if stack > 8_388_608 || values.len() > 100 || (values.len() + 2) as u32 > stack {
        return Err(LineFault::Form);
    }
    Ok(Monitor::new(alloc, &pointed.image, &pointed.points, values, LIMITS)?)
}

// Follows an order, and appends the answer.
fn follow(
    alloc: Global,
    monitor: &mut Monitor,
    order: &str,
    out: &mut MemSink,
    shown: &mut Vec<u8>,
) -> Result<(), LineFault> {
    let (name, operand) = order.split_once('=').ok_or(LineFault::Form)?;
    match name {
        "mark" => add_mark(alloc, monitor, operand, true, shown),
        "clear" => add_mark(alloc, monitor, operand, false, shown),
        "go" => {
            let stop = monitor.go(words_of(operand)?, out);
            Ok(add_stop(alloc, stop, shown)?)
        }
        "step" => {
            let stop = monitor.step(words_of(operand)?, out);
            Ok(add_stop(alloc, stop, shown)?)
        }
        "show" => Ok(add_values(alloc, monitor, number_of(operand)?, shown)?),
        "done" => Ok(add_done(alloc, monitor.done(), shown)?),
        _ => Err(LineFault::Form),
    }
}

// Appends where a run stopped.
fn add_stop(alloc: Global, stop: Stop, shown: &mut Vec<u8>) -> Result<(), AllocError> {
    let line = format!(in alloc; "{stop:?}")?;
    add_line(line.as_str(), shown)
}

// Appends how many words were executed.
fn add_done(alloc: Global, done: u64, shown: &mut Vec<u8>) -> Result<(), AllocError> {
    let line = format!(in alloc; "done {done}")?;
    add_line(line.as_str(), shown)
}

// Marks an item of a function, or takes its mark away, and appends whether it has a point.
fn add_mark(
    alloc: Global,
    monitor: &mut Monitor,
    operand: &str,
    on: bool,
    shown: &mut Vec<u8>,
) -> Result<(), LineFault> {
    let (func, item) = operand.split_once('.').ok_or(LineFault::Form)?;
    let is_point = monitor.mark(number_of(func)?, number_of(item)?, on);
    let line = format!(in alloc; "{is_point}")?;
    Ok(add_line(line.as_str(), shown)?)
}

// Appends the values of the first variables.
fn add_values(
    alloc: Global,
    monitor: &Monitor,
    count: u32,
    shown: &mut Vec<u8>,
) -> Result<(), AllocError> {
    shown.extend_from_slice(b"values")?;
    for var in 0..count {
        let value = monitor.value(var);
        let shown_value = format!(in alloc; " {value:?}")?;
        shown.extend_from_slice(shown_value.as_bytes())?;
    }
    add_line("", shown)
}

// A number in decimal.
fn number_of(word: &str) -> Result<u32, LineFault> {
    word.parse::<u32>().map_err(|_| LineFault::Form)
}

// How many words, in decimal.
fn words_of(word: &str) -> Result<u64, LineFault> {
    word.parse::<u64>().map_err(|_| LineFault::Form)
}
