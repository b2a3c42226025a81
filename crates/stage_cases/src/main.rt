//! A proved program that calls lower crates for what no command line shows. `stdin` has its calls, `stdout` what must come,
//! written by hand, and for profiles by programs in another language.
//!
//! 1. The rows, by their calls (`src/row.rt`).
//! 2. The calls, a file for each topic: flow graphs (`src/graph.rt`), live locations (`src/live.rt`), constants
//!    (`src/constants.rt`), SSA form (`src/ssa.rt`), profiles and their recorder (`src/profiles.rt`), single steps
//!    (`src/steps.rt`), homes (`src/placed.rt`, `src/counted.rt`), machine words (`src/machine.rt`, `src/groups.rt`),
//!    their listings (`src/listings.rt`), their files (`src/elf.rt`), and runs that stop at items (`src/monitors.rt`).
#![tactic(auto)]

// Makes the calls of standard input that no command line makes or shows, and shows what they answer.
//
// Standard input is lines of text, each with a call; `stdin` beside src/ has all of them, and `stdout` what they must come
// to, by hand; of profiles, by a reader and a recorder in another language.
//
//     # a comment
//     == what the rows show
//     tokens SOURCE          each token of the source: its kind, and its bytes from and to
//     numbered SOURCE        the canonical text of the program that the source is numbered as
//     graph SOURCE           of the first function's flow graph the edges, from, leaving and to; and of each point the open
//                            sites, the newest first, and where the edges to it come from
//     live SOURCE            of each point of the first function the variables and the shadows that are live there
//     placed SOURCE          the home of each location of the first function, and what each of its speculations saves
//     counted TIMES COUNT PIECE|PIECE|..
//                            of the first function how many locations are in registers and in words of the frame, and how many each of
//                            its speculations saves, where the source is these pieces, each second one COUNT times with its number,
//                            from 0, for `\#`; placed so many times, for a clock
//     groups SOURCE          the words of the image of the source's program with which groups begin, each by its number and the name
//                            of the group
//     constants SOURCE       the table of constants of the first function: what each variable and its shadow hold, and which points
//                            are reached
//     steps SOURCE           the words of each function's frame; each step of the run of `main`: the answer, where the run then
//                            is, and what the first variable holds; the guards of the first function that failed, and how
//                            often; and the output
//     profile TEXT           the entries of the text's profile, each with its choices, 1 for a first label and 0 for a second,
//                            and its count, and the text that is written of them; or the first line that isn't of the form
//     record HOT MOST SOURCE the text of what a recorder takes of the run of `main`: HOT arrivals make a label hot, and there
//                            are at most MOST entries
//     count PIECE PIECE ..   how many bytes a sink that counts took, after each piece
//     decode BITS            the machine word of eight hexadecimal digits
//     listing BITS BITS ..   the listing of these machine words
//     words SOURCE           the machine words of a listing, or the first line that tells none
//     wrapped WORDS BITS ..  the ELF file of the image of these machine words with a stack of so many words of 64 bits; what it opens
//                            as; what fronts of it open as, where they aren't said to end too early; what it opens as with each byte
//                            in turn changed in bits 0, 2, 4 and 6, where that isn't as for the byte before; and with a byte more
//     filled WORDS COUNT     what the file of the image of so many words 0 opens as, with a stack of so many words of 64 bits
//     opened SOURCE          what a file opens as: the stack and the words, or the fault
//     ssa ARG ARG .. SOURCE  the canonical text of the source's program in SSA form, how a run of it with these arguments ends and what
//                            it prints, and whether the program in SSA form does the same
//     monitor ORDERS SOURCE  what a monitor of the image of the source's program answers, and the output; ORDERS are, with commas
//                            between them, `mark=F.I`, `clear=F.I`, `go=WORDS`, `step=WORDS`, `show=COUNT` for the values of the
//                            first variables, and `done=` for how many words were executed
//     machine STEPS PUT ARG BITS BITS ..
//                            a run of so many steps of the image with one argument, where the put of that number, from 1, fails,
//                            and another run after it: each answer, and how many words were executed; and the output
//
// A source, a piece and an argument may have the escapes `\n`, `\r`, `\t`, `\\`, `\xHH` and `\e`.

mod constants;
mod counted;
mod elf;
mod first;
mod graph;
mod groups;
mod listings;
mod live;
mod machine;
mod monitors;
mod numbered;
mod placed;
mod profiles;
mod row;
mod ssa;
mod steps;

use anyhow::Context;
use std::io::{self, Write};

fn main(rt: HostRuntime) -> anyhow::Result<()> {
    let alloc = rt.alloc();
    let text = io::read_to_string(alloc, rt.reader())?;
    let mut shown = Vec::new(alloc);
    let mut number = 0u64;
    for line in text.as_str().lines() {
        number = number.saturating_add(1);
        row::add_row(alloc, line, &mut shown).context(format_args!("line {number}"))?;
    }
    io::writer(&rt).write_all(shown.as_slice())?;
    Ok(())
}
