// A list of names, each given to the first pass that answers to it.

ghost use Rattle.std.specs.Prelude.{◌≡◌, ◌<◌, ◌^◌, None, IsSome, is_some, IfOk, IfErr, OnErr, map, length};
ghost use Rattle.bril_tree.specs.Size.{item_count};
ghost use Rattle.pass_law.specs.Chains.{first_answering, first_unknown, tallied, IsLinked, Ran, AllSame};
ghost use Rattle.pass_law.specs.Meaning.{HasNumbers, Link, IsRefused, SameMeaning};
ghost use Rattle.pass_law.specs.Stops.{IsRefusedBy, IsStopped};
ghost use Rattle.pass_law.specs.Tallies.{grown};

use crate::fault::{ListFault, PassFault};
use crate::pass::Pass;
use bril_checker::Checked;
use bril_profile::Profile;
use bril_tree::sequence::Seq;
use bril_tree::text::Text;
use std::alloc::Global;

/// Runs a list of passes: each name is given to the first pass that answers to it, and each pass gets the program that
/// the one before it made. The result comes from the given program by a chain of links, one for each name, and each
/// pass's tally grew by its links. `Unknown` comes exactly where no pass answers to some name, before any pass ran;
/// `TooLarge` exactly where a pass answers it. Passes that ran before an error keep their tallies, and no pass changes
/// what it means.
pub fn run_list(
    alloc: Global,
    passes: &mut [Box<dyn Pass>],
    names: &Seq<Text>,
    prog: Checked,
    profile: &Profile,
) -> Result<Checked, ListFault>
    requires { length names.now < 2 ^ 32 }
    ensures known { IfOk result (λ _. first_unknown (λ p. meaning p) passes.old profile.now names.now ≡ None) }
    ensures ran { IfOk result (λ made. Ran (λ p. meaning p) passes.old profile.now (λ p. counts p) names.now prog.prog made.prog passes.new) }
    ensures stopped { IfErr result (IsStopped (λ p. meaning p) passes.old profile.now (λ p. counts p) names.now prog.prog passes.new) }
    ensures same { AllSame (λ p. meaning p) passes.old passes.new }
{
    if let Some(place) = unknown_place(passes, names.as_slice()) {
        return Err(ListFault::Unknown { place, prog });
    }
    let mut prog = prog;
    for (i, name) in names.as_slice().iter().enumerate() {
        match run_named(alloc, passes, name.as_bytes(), &prog, profile) {
            Ok(made) => prog = made,
            Err(PassFault::TooLarge { bound }) => {
                let place = i as u32 + 1;
                return Err(ListFault::TooLarge { place, bound, prog });
            }
            Err(PassFault::Memory) => return Err(ListFault::Memory),
        }
    }
    Ok(prog)
}

// The place, from 1, of the first name that no pass answers to.
fn unknown_place(passes: &[Box<dyn Pass>], names: &[Text]) -> Option<u32>
    requires { length names.now < 2 ^ 32 }
    ensures { (profile : _) → result ≡ first_unknown (λ p. meaning p) passes.now profile names.now }
{
    for (i, name) in names.iter().enumerate() {
        if !is_answered(passes, name.as_bytes()) {
            return Some(i as u32 + 1);
        }
    }
    None
}

/// Whether a pass answers to the name. Takes no memory.
pub fn is_answered(passes: &[Box<dyn Pass>], name: &[u8]) -> bool
    ensures { result ≡ is_some (first_answering (λ p. meaning p) passes.now name.now) }
{
    match passes.split_first() {
        None => false,
        Some((first, rest)) => first.is_named(name) || is_answered(rest, name),
    }
}

// Runs the first pass that answers to the name.
fn run_named(
    alloc: Global,
    passes: &mut [Box<dyn Pass>],
    name: &[u8],
    prog: &Checked,
    profile: &Profile,
) -> Result<Checked, PassFault>
    requires { IsSome (first_answering (λ p. meaning p) passes.old name.now) }
    ensures linked { IfOk result (λ made. IsLinked (λ p. meaning p) passes.old profile.now name.now prog.now.prog made.prog) }
    ensures counted { IfOk result (λ made. map (λ p. counts p) passes.new ≡ tallied (λ p. meaning p) passes.old name.now (item_count prog.now.prog) (item_count made.prog) (map (λ p. counts p) passes.old)) }
    ensures refused { IfErr result (IsRefusedBy (λ p. meaning p) passes.old profile.now name.now prog.now.prog) }
    ensures uncounted { OnErr result (map (λ p. counts p) passes.new ≡ map (λ p. counts p) passes.old) }
    ensures same { AllSame (λ p. meaning p) passes.old passes.new }
{
    match passes.split_first_mut() {
        None => unreachable!(),
        Some((first, rest)) => {
            if first.is_named(name) {
                run_one(alloc, first, prog, profile)
            } else {
                run_named(alloc, rest, name, prog, profile)
            }
        }
    }
}

// Runs the pass. It has a function of its own since the prover learns nothing of the slice after a call of `run` at an
// element of it.
fn run_one(
    alloc: Global,
    pass: &mut Box<dyn Pass>,
    prog: &Checked,
    profile: &Profile,
) -> Result<Checked, PassFault>
    ensures numbers { HasNumbers (meaning pass.old) }
    ensures link { IfOk result (λ made. Link (meaning pass.old) profile.now prog.now.prog made.prog) }
    ensures counted { IfOk result (λ made. counts pass.new ≡ grown (counts pass.old) (item_count prog.now.prog) (item_count made.prog)) }
    ensures refused { IfErr result (λ fault. IsRefused ((meaning pass.old).IsBound prog.now.prog profile.now) (item_count prog.now.prog) fault) }
    ensures uncounted { OnErr result (counts pass.new ≡ counts pass.old) }
    ensures same { SameMeaning (meaning pass.old) (meaning pass.new) }
{
    pass.run(alloc, prog, profile)
}
