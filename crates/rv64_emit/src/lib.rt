//! Makes the machine words of an accepted program. `emit` gives exactly the image of `rv64_emit_laws::layout`, or answers the
//! bound that is passed; `emit_points` gives besides where each item begins, and where its live variables are.
//!
//! The program becomes code over slots, and `shadow_place` gives each of them a home: a register, or its own word of the
//! frame. A first pass over the code tells where functions and items begin, a second one appends their words; both take time
//! in proportion to the words. `rv64_emit_laws` says that an image laid out so does what the program does.
//!
//! 1. Words by their mnemonics (`src/assembly.rt`), what emitted code keeps in which register (`src/registers.rt`), short
//!    sequences (`src/sequences.rt`), operations and cells (`src/operations.rt`).
//! 2. Words of the frame (`src/frame.rt`), and the homes of slots, by a placement (`src/homes.rt`, `specs/Placed.antt`).
//! 3. What homes have into registers and words of the frame, and back (`src/moves.rt`); which slots calls, `speculate` and
//!    guards move, and these moves (`src/moved.rt`, `src/saves.rt`).
//! 4. The words of items (`src/item.rt`, `src/items.rt`, `src/passing.rt`), how many they have, and where they begin (`src/sizes.rt`,
//!    `src/places.rt`).
//! 5. The whole image (`src/image.rt`), and the two bounds (`src/bounds.rt`).
//! 6. The points at which a stepping monitor may stop (`src/points.rt`), with what is live there (`src/live_variables.rt`).
#![tactic(auto)]

ghost use Rattle.std.specs.Prelude.{◌≡◌, ◌≤◌, length, IfOk, IfErr};
ghost use Rattle.rv64_image_laws.specs.ListsPoints.{ListsPoints};
ghost use Rattle.rv64_emit.specs.Refusal.{EmitRefuses};
ghost use Rattle.rv64_emit.specs.PlacedImage.{ImplementsPlaced};
ghost use Rattle.rv64_image_laws.specs.Implements.{Implements};
ghost use Rattle.rv64_image_laws.specs.PointsShown.{Shows};
ghost use Rattle.rv64_image_laws.specs.WordBounds.{IsStackSize, IsWithin};
ghost use Rattle.rv64_words.specs.Region.{most_words};

mod assembly;
mod bounds;
mod frame;
mod front;
mod homes;
mod image;
mod item;
mod items;
mod live_variables;
mod moved;
mod moves;
mod operations;
mod passing;
mod places;
mod points;
mod registers;
mod saves;
mod sequences;
mod sizes;

use crate::front::front_of;
use crate::homes::ProgramHomes;
use crate::image::image_of;
use crate::points::points_of;
use bril_checker::Checked;
use bril_tree::limits::Limits;
use bril_tree::literals::literals_are_in_range;
use rv64_words::fault::EmitFault;
use rv64_words::image::Image;
use rv64_words::points::Points;
use std::alloc::Global;

/// The image of an accepted program for runs under these limits: it does what the program does, on the machine of
/// `rv64_words`, with each location at a home of which all holds that `shadow_place::place` promises; so each location of a
/// function of at most 23 locations is in a register. It has at most 250,000 words, and its stack has the words of the largest
/// frame, `limits.frames` times.
///
/// `CodeTooBig` comes exactly where the sum of the word bounds passes 250,000: 32, 40 for each function, and each item's.
/// `StackTooBig` comes exactly where the code fits and the stack would pass 8,388,608 words. `Memory` comes only where both are
/// within their bounds, or where the program has a `speculate` or a `guard`: the bounds of these depend on the number of a
/// function's locations, and memory is taken to count them. In any other program both bounds are told before any memory is taken.
pub fn emit(alloc: Global, prog: &Checked, limits: Limits) -> Result<Image, EmitFault>
    ensures implements { IfOk result (λ image. Implements image prog.now.prog limits) }
    ensures placed { IfOk result (λ image. ImplementsPlaced image prog.now.prog limits) }
    ensures words { IfOk result (λ image. length image.words ≤ most_words) }
    ensures guards { IfOk result (λ image. length image.guards ≤ length image.words) }
    ensures stack { IfOk result (λ image. IsStackSize prog.now.prog limits image.stack) }
    ensures within { IfOk result (λ _. IsWithin prog.now.prog limits) }
    ensures fault { IfErr result (EmitRefuses prog.now.prog limits) }
{
    literals_are_in_range(prog.prog());
    let front = front_of(alloc, prog, limits)?;
    let homes = ProgramHomes::of(false, &front.slots, &front.placed, front.lives.as_slice());
    Ok(image_of(alloc, &homes, &front.slots, limits, front.stack)?)
}

/// An image of an accepted program, in which each item other than a label and `nop` has a word, with the points at which a stepping monitor may stop: one for each item
/// other than a label and `nop` that some walk leads to, in order, with the word at which the item begins and the variables that
/// are live there, in order, with their types and homes. The machine is before the word of a point exactly where the program is
/// at its item; then each of these variables is at its home, and both have printed the same.
///
/// The refusals are those of `emit`, at the same numbers; `Memory` comes also where there is none for the points.
pub fn emit_points(
    alloc: Global,
    prog: &Checked,
    limits: Limits,
) -> Result<(Image, Points), EmitFault>
    ensures shows { IfOk result (λ made. Shows made.0 made.1 prog.now.prog limits) }
    ensures lists { IfOk result (λ made. ListsPoints prog.now.prog made.1) }
    ensures words { IfOk result (λ made. length made.0.words ≤ most_words) }
    ensures guards { IfOk result (λ made. length made.0.guards ≤ length made.0.words) }
    ensures stack { IfOk result (λ made. IsStackSize prog.now.prog limits made.0.stack) }
    ensures within { IfOk result (λ _. IsWithin prog.now.prog limits) }
    ensures fault { IfErr result (EmitRefuses prog.now.prog limits) }
{
    literals_are_in_range(prog.prog());
    let front = front_of(alloc, prog, limits)?;
    let lives = front.lives.as_slice();
    let homes = ProgramHomes::of(true, &front.slots, &front.placed, lives);
    let image = image_of(alloc, &homes, &front.slots, limits, front.stack)?;
    let points = points_of(alloc, prog.prog(), &homes, &front.slots, lives)?;
    Ok((image, points))
}
