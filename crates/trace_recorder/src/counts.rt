// How often each label of each function was arrived at, and which entry it has.

ghost use Rattle.std.specs.Prelude.{◌≡◌, ◌==◌, ◌+◌, ◌-◌, ◌^◌, suc, map, min, slice_index, slice_set, IfOk};
ghost use Rattle.trace_recorder.specs.Counts.{counted_in, with_number, zero_counts};
ghost use Rattle.trace_recorder.specs.Standing.{count_in};

use crate::arrival::Arrival;
use bril_tree::numbered_function::Func;
use std::alloc::{AllocError, Global};

// How often each label of each function was arrived at, and the number of its entry, counted from 1, 0 where it has none.
#[derive(Drop)]
pub struct Tables {
    pub counts: Vec<Vec<u32>>,
    pub numbers: Vec<Vec<u32>>,
}

// The tables before the first arrival.
pub fn first_tables(alloc: Global, funcs: &[Func]) -> Result<Tables, AllocError>
    ensures counts { IfOk result (λ tables. map (λ c. c.items) tables.counts.items ≡ zero_counts funcs.now) }
    ensures numbers { IfOk result (λ tables. map (λ c. c.items) tables.numbers.items ≡ zero_counts funcs.now) }
{
    Ok(Tables {
        counts: zero_counts(alloc, funcs)?,
        numbers: zero_counts(alloc, funcs)?,
    })
}

// A count of 0 for each label of each function.
fn zero_counts(alloc: Global, funcs: &[Func]) -> Result<Vec<Vec<u32>>, AllocError>
    ensures { IfOk result (λ counts. map (λ c. c.items) counts.items ≡ zero_counts funcs.now) }
{
    let mut counts = Vec::with_capacity(alloc, funcs.len())?;
    for func in funcs {
        counts.push(vec![in alloc; 0; func.labels.as_slice().len()]?)?;
    }
    Ok(counts)
}

// How often the label was arrived at; 0 where it has no count.
pub fn count_at(counts: &Vec<Vec<u32>>, arrival: Arrival) -> u32
    ensures { result ≡ count_in (map (λ c. c.items) counts.now.items) arrival.func arrival.label }
{
    let Some(row) = counts.get(arrival.func as usize) else {
        return 0;
    };
    match row.get(arrival.label as usize) {
        Some(count) => *count,
        None => 0,
    }
}

// The arrival is counted; a count stays at the end of its type.
pub fn count(counts: &mut Vec<Vec<u32>>, arrival: Arrival)
    ensures { map (λ c. c.items) counts.new.items ≡ counted_in (map (λ c. c.items) counts.old.items) arrival }
{
    let func = arrival.func as usize;
    if func < counts.len() {
        count_label(&mut counts[func], arrival.label as usize);
    }
}

// The same among the labels of a function.
fn count_label(counts: &mut Vec<u32>, label: usize)
    ensures { counts.new.items ≡ slice_set counts.old.items label (min (slice_index counts.old.items label + 1) (2 ^ 32 - 1)) }
{
    if label < counts.len() {
        counts[label] = counts[label].saturating_add(1);
    }
}

// The label of the arrival gets this number.
pub fn set_number(numbers: &mut Vec<Vec<u32>>, arrival: Arrival, number: u32)
    ensures { map (λ c. c.items) numbers.new.items ≡ with_number (map (λ c. c.items) numbers.old.items) arrival number }
{
    let func = arrival.func as usize;
    if func < numbers.len() {
        set_at(&mut numbers[func], arrival.label as usize, number);
    }
}

// The same among the labels of a function.
fn set_at(numbers: &mut Vec<u32>, label: usize, number: u32)
    ensures { numbers.new.items ≡ slice_set numbers.old.items label number }
{
    if label < numbers.len() {
        numbers[label] = number;
    }
}

// Whether one arrival more is the `hot`-th.
pub fn is_hot(count: u32, hot: u32) -> bool
    ensures { result ≡ (suc count == hot) }
{
    count < hot && count + 1 == hot
}
