// How a call passes its arguments: which way each of them goes, the words for it, and how many they are.

ghost use Rattle.std.specs.Prelude.{◌≡◌, ◌*◌, ◌^◌, ◌<◌, ◌≤◌, ◌==◌, if◌then◌else◌, ◌∷◌, [], ◌++◌, ℕ, Some, map, length, OnOk};
ghost use Rattle.std.specs.List.{AllByRecursion};
ghost use Rattle.bril_tree.specs.declared.home.Home.TheVariants.{Reg};
ghost use Rattle.rv64_emit.specs.PassingParts as passing;
ghost use Rattle.rv64_emit.specs.Placed.{homes_in};
ghost use Rattle.rv64_emit_laws.specs.layout.Fits.{IsReached, frame_reach};
ghost use Rattle.rv64_emit_laws.specs.layout.Homes.{variable_home};
ghost use Rattle.rv64_words_laws.specs.sequences.Sequences.{copied_word};
ghost use Rattle.rv64_emit_laws.specs.layout.Passing as laws;
ghost use Rattle.rv64_words.specs.Encoding.{encoded};

use crate::assembly::srli;
use crate::frame::argument_word;
use crate::homes::SlotHomes;
use crate::moves::{Transfer, put_transfer, transfer_size_of};
use crate::sequences::put;
use bril_tree::home::Home;
use bril_tree::sequence::Seq;
use slot_code::SlotFunction;
use std::alloc::AllocError;

// ---- ways

/// The parts of the words that pass arguments, in their order.
#[derive(Clone, Copy, Drop)]
pub enum Part {
    Stores,
    Copies,
    Loads,
}

/// The way of an argument: it isn't passed, into its word of the new frame, to a register by that word, from one register to
/// another, or from a word of the caller's frame to a register.
#[derive(Clone, Copy, Drop)]
enum Way {
    Nowhere,
    Stored,
    Swapped { to: u8 },
    Copied { to: u8, from: u8 },
    Loaded { to: u8, word: u32 },
}

// Whether a home is this register.
fn is_register(register: u8, home: Home) -> bool
    ensures { result ≡ laws.is_register register home }
{
    match home {
        Home::Reg(own) => register == own,
        Home::Frame(_) => false,
    }
}

// Whether one of these arguments comes from this register.
fn comes_from(homes: &SlotHomes<'_>, register: u8, args: &[u32]) -> bool
    ensures { result ≡ laws.comes_from (homes_in homes.now) register args.now }
{
    args.iter()
        .any(|arg| is_register(register, homes.variable(*arg)))
}

// By where an argument goes, where it comes from, and the arguments after it.
fn way_given(homes: &SlotHomes<'_>, given: Option<Home>, from: Home, later: &[u32]) -> Way
    requires given { (r : ℕ) → given ≡ Some (Reg r) → r < 32 }
    requires from { IsReached from }
    ensures value { passing.way_as result ≡ laws.way (homes_in homes.now) given from later.now }
    ensures fits { passing.FitsWay result }
{
    match given {
        None => Way::Nowhere,
        Some(Home::Frame(_)) => Way::Stored,
        Some(Home::Reg(to)) => way_to(homes, to, from, later),
    }
}

// The same, where it goes to a register.
fn way_to(homes: &SlotHomes<'_>, to: u8, from: Home, later: &[u32]) -> Way
    requires to { to < 32 }
    requires from { IsReached from }
    ensures value { passing.way_as result ≡ laws.way (homes_in homes.now) (Some (Reg to)) from later.now }
    ensures fits { passing.FitsWay result }
{
    match from {
        Home::Frame(word) => Way::Loaded { to, word },
        Home::Reg(own) => {
            if comes_from(homes, to, later) {
                return Way::Swapped { to };
            }
            Way::Copied { to, from: own }
        }
    }
}

// ---- words

// A register into another one, unless the two are one.
fn put_moved(code: &mut Seq<u32>, to: u8, from: u8) -> Result<(), AllocError>
    requires to { to < 32 }
    requires from { from < 32 }
    ensures { OnOk result (code.new ≡ code.old ++ map encoded (if to == from then [] else copied_word to from ∷ [])) }
{
    if to == from {
        return Ok(());
    }
    put(code, &[srli(to, from, 0)])
}

// What one part has for an argument that is at a home and has a word of the new frame.
fn put_one(
    code: &mut Seq<u32>,
    part: Part,
    way: Way,
    from: Home,
    word: u64,
) -> Result<(), AllocError>
    requires way { passing.FitsWay way }
    requires from { IsReached from }
    requires word { word < 2 ^ 28 }
    ensures { OnOk result (code.new ≡ code.old ++ map encoded (passing.one_words part (passing.way_as way) from word)) }
{
    match (part, way) {
        (Part::Stores, Way::Stored) => put_transfer(code, Transfer::Save, from, word),
        (Part::Stores, Way::Swapped { .. }) => put_transfer(code, Transfer::Save, from, word),
        (Part::Copies, Way::Copied { to, from: own }) => put_moved(code, to, own),
        (Part::Loads, Way::Swapped { to }) => {
            put_transfer(code, Transfer::Restore, Home::Reg(to), word)
        }
        (Part::Loads, Way::Loaded { to, word: own }) => {
            put_transfer(code, Transfer::Restore, Home::Reg(to), own as u64)
        }
        _ => Ok(()),
    }
}

/// One part of the words that pass arguments to the function of a number.
pub fn put_part(
    code: &mut Seq<u32>,
    part: Part,
    homes: &SlotHomes<'_>,
    func: &SlotFunction,
    function: u32,
    args: &[u32],
) -> Result<(), AllocError>
    requires frame { func.now.words < frame_reach }
    requires few { length args.now < frame_reach }
    requires args { AllByRecursion (λ x. IsReached (variable_home (homes_in homes.now) x)) args.now }
    requires given { (k r : ℕ) → (homes_in homes.now).given function k ≡ Some (Reg r) → r < 32 }
    ensures { OnOk result (code.new ≡ code.old ++ map encoded (passing.part_words part (homes_in homes.now) func.now function 0 args.now)) }
{
    for (k, arg) in args.iter().enumerate() {
        let from = homes.variable(*arg);
        let own = way_given(homes, homes.given(function, k as u32), from, &args[k + 1..]);
        put_one(code, part, own, from, argument_word(func, k))?;
    }
    Ok(())
}

// ---- how many they are

fn one_size_of(part: Part, way: Way, from: Home, word: u64) -> u32
    ensures value { result ≡ passing.one_size part (passing.way_as way) from word }
    ensures few { result ≤ 6 }
{
    match (part, way) {
        (Part::Stores, Way::Stored) => transfer_size_of(Transfer::Save, from, word),
        (Part::Stores, Way::Swapped { .. }) => transfer_size_of(Transfer::Save, from, word),
        (Part::Copies, Way::Copied { to, from: own }) => if to == own { 0 } else { 1 },
        (Part::Loads, Way::Swapped { to }) => {
            transfer_size_of(Transfer::Restore, Home::Reg(to), word)
        }
        (Part::Loads, Way::Loaded { to, word: own }) => {
            transfer_size_of(Transfer::Restore, Home::Reg(to), own as u64)
        }
        _ => 0,
    }
}

/// How many words one part has.
pub fn size_of_part(
    part: Part,
    homes: &SlotHomes<'_>,
    func: &SlotFunction,
    function: u32,
    args: &[u32],
) -> u32
    requires frame { func.now.words < frame_reach }
    requires few { length args.now < frame_reach }
    requires args { AllByRecursion (λ x. IsReached (variable_home (homes_in homes.now) x)) args.now }
    requires given { (k r : ℕ) → (homes_in homes.now).given function k ≡ Some (Reg r) → r < 32 }
    ensures value { result ≡ passing.part_size part (homes_in homes.now) func.now function 0 args.now }
    ensures few { result ≤ 6 * length args.now }
{
    let mut size = 0;
    for (k, arg) in args.iter().enumerate() {
        let from = homes.variable(*arg);
        let own = way_given(homes, homes.given(function, k as u32), from, &args[k + 1..]);
        size += one_size_of(part, own, from, argument_word(func, k));
    }
    size
}
