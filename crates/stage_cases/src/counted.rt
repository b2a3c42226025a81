// Placements of large functions, told by counts.

use crate::placed::place_of;
use crate::row::add_line;
use bril_checker::Checked;
use bril_tree::home::Home;
use case_text::{LineFault, add_unescaped, checked_of};
use shadow_place::{Placed, all_lives, place};
use slot_code::{Slot, SlotFunction, lower};
use std::alloc::{AllocError, Global};

// A source has no more bytes.
const MOST_BYTES: usize = 16_777_216;

// Numbers that grow: how many there are, the first one and the last one.
#[derive(Clone, Copy, Drop)]
struct Seen {
    count: u32,
    first: u32,
    last: u32,
}

impl Seen {
    // No number.
    fn none() -> Seen {
        Seen {
            count: 0,
            first: 0,
            last: 0,
        }
    }

    // One number more.
    fn take(&mut self, number: u32) {
        if self.count == 0 {
            self.first = number;
        }
        self.last = number;
        self.count = self.count.saturating_add(1);
    }

    // Appends a line with the name of the numbers, how many there are, and the first and the last one, if there is one.
    fn show(self, alloc: Global, name: &str, shown: &mut Vec<u8>) -> Result<(), AllocError> {
        let Seen { count, first, last } = self;
        let line = if count == 0 {
            format!(in alloc; "{name}: 0")?
        } else {
            format!(in alloc; "{name}: {count}, {first} to {last}")?
        };
        add_line(line.as_str(), shown)
    }
}

/// Places the locations of a source's program, and appends of the first function how many slots are in registers, how many in
/// words of the frame, and how many each of its speculations saves. The line has how often the program is placed, a count, and the
/// source in pieces with bars between them, each second of which stands so many times, `\#` being 0, 1 and so on.
pub fn add_counted(alloc: Global, line: &str, shown: &mut Vec<u8>) -> Result<(), LineFault> {
    let (times, rest) = line.split_once(' ').ok_or(LineFault::Form)?;
    let (count, pieces) = rest.split_once(' ').ok_or(LineFault::Form)?;
    let source = repeated(alloc, number_of(count)?, pieces)?;
    if source.len() > MOST_BYTES {
        return Err(LineFault::Form);
    }
    let checked = checked_of(alloc, source.as_slice())?;
    add_placements(alloc, &checked, number_of(times)?, shown)
}

// Places the locations of a program so many times, and appends the counts of its first function.
fn add_placements(
    alloc: Global,
    checked: &Checked,
    times: u32,
    shown: &mut Vec<u8>,
) -> Result<(), LineFault> {
    let slots = lower(alloc, checked)?;
    let lives = all_lives(alloc, checked)?;
    for _ in 1..times {
        place(alloc, checked, &slots, &lives)?;
    }
    let placed = place(alloc, checked, &slots, &lives)?;
    let Some(lowered) = slots.funcs.as_slice().first() else {
        return Err(LineFault::Form);
    };
    add_counts(alloc, &placed, lowered, shown)?;
    Ok(())
}

// Appends where a function's slots are, and which of them each of its speculations saves.
fn add_counts(
    alloc: Global,
    placed: &Placed,
    lowered: &SlotFunction,
    shown: &mut Vec<u8>,
) -> Result<(), AllocError> {
    let slots = lowered.slots.as_slice();
    add_homes(alloc, placed, slots, shown)?;
    let mut point = 0u32;
    for _item in lowered.code.as_slice() {
        add_saved(alloc, placed, slots, point, shown)?;
        point = point.saturating_add(1);
    }
    Ok(())
}

// A number in decimal.
fn number_of(word: &str) -> Result<u32, LineFault> {
    word.parse::<u32>().map_err(|_| LineFault::Form)
}

// The bytes of pieces, each second of which stands so many times.
fn repeated(alloc: Global, count: u32, pieces: &str) -> Result<Vec<u8>, LineFault> {
    let mut source = Vec::new(alloc);
    let mut is_repeated = false;
    for piece in pieces.split('|') {
        let times = if is_repeated { count } else { 1 };
        add_repeated(alloc, piece, times, &mut source)?;
        is_repeated = !is_repeated;
    }
    Ok(source)
}

// Appends the bytes of a piece so many times, with its number for `\#`.
fn add_repeated(
    alloc: Global,
    piece: &str,
    times: u32,
    source: &mut Vec<u8>,
) -> Result<(), LineFault> {
    for number in 0..times {
        add_unescaped(alloc, piece, u64::from(number), source)?;
    }
    Ok(())
}

// Appends the numbers of the slots in registers, and the words of the others.
fn add_homes(
    alloc: Global,
    placed: &Placed,
    slots: &[Slot],
    shown: &mut Vec<u8>,
) -> Result<(), AllocError> {
    let mut registers = Seen::none();
    let mut words = Seen::none();
    let mut number = 0u32;
    for slot in slots {
        match placed.home(0, place_of(*slot)) {
            Home::Reg(_) => registers.take(number),
            Home::Frame(word) => words.take(word),
        }
        number = number.saturating_add(1);
    }
    registers.show(alloc, "slots in registers", shown)?;
    words.show(alloc, "words of the frame", shown)
}

// Appends the numbers of the slots that the speculation of the `speculate` at a point saves, where it saves some.
fn add_saved(
    alloc: Global,
    placed: &Placed,
    slots: &[Slot],
    site: u32,
    shown: &mut Vec<u8>,
) -> Result<(), AllocError> {
    let mut saved = Seen::none();
    let mut number = 0u32;
    for slot in slots {
        if placed.saved(0, site, place_of(*slot)) {
            saved.take(number);
        }
        number = number.saturating_add(1);
    }
    if saved.count == 0 {
        return Ok(());
    }
    let name = format!(in alloc; "saved by speculate {site}")?;
    saved.show(alloc, name.as_str(), shown)
}
