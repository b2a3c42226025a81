// Lists of passes, and each law of passes at a pass.

ghost use Rattle.std.specs.Prelude.{◌≡◌, [], codes, IfOk};
ghost use Rattle.shipped_passes.specs.Shipped.{MakesAsShipped};
ghost use Rattle.bril_tree.specs.Size.{item_count};
ghost use Rattle.pass_law.specs.Meaning.{IsRefused, is_name};
ghost use Rattle.pass_law.specs.Tallies.{zero_tally};
ghost use Rattle.pass_pad.specs.Pad.{pad_meaning};
ghost use Rattle.pass_pad.specs.Plan.{padding, pad_plan};

use bril_checker::{Checked, check};
use bril_names::number;
use bril_profile::Profile;
use bril_text::read_text;
use bril_tree::sequence::Seq;
use bril_tree::text::Text;
use pass_budget_laws::chains_are_within_budget;
use pass_edit_laws::acceptance::{edit_accepted, result_is_accepted};
use pass_edit_laws::names::{PlannedByNames, Renamed, names_preserve, renaming_preserves};
use pass_edit_laws::plan::{
    Narrowed, Planned, Widened, items_are_spliced, narrowing_preserves, widening_preserves,
};
use pass_edit_laws::steps::plan_refines;
use pass_edit_laws::walks::walks_are_accepted;
use pass_law::{ListFault, Pass, PassFault, Tally, chains_refine, room, run_list};
use pass_pad::Pad;
use std::alloc::{AllocError, Global};
use std::test::Fail;

// A pass of the plan of `pad`, which makes nothing: where its bound isn't too large it is out of memory.
#[derive(Drop)]
struct Lacking {
    bound: u64,
}

impl Planned for Lacking {
    ghost plan = { pad_plan };
}

impl Widened for Lacking {
    ghost more = { λ P Q f i j a b. ⊥ };
}

impl Narrowed for Lacking {
    ghost visited = { λ P Q f i. Unit {0} };

    ghost regular = { λ P Q f i j. Unit {0} };

    ghost known = { λ P Q f i a v. ⊥ };
}

impl PlannedByNames for Lacking {
    ghost names = { padding };
}

impl Renamed for Lacking {
    ghost renamed = { λ P Q f. [] };
}

impl Pass for Lacking {
    ghost meaning = { λ pass. record pad_meaning { answers = is_name (codes "lacking"); IsBound = λ P profile k. k ≡ pass.bound } };

    ghost counts = { λ _. zero_tally };

    fn is_named(&self, name: &[u8]) -> bool {
        name == b"lacking".as_slice()
    }

    fn tally(&self) -> Tally {
        Tally::zero()
    }

    #[tactic(auto, using(crate::proofs::Numbers::bounded_numbers))]
    fn run(
        &mut self,
        _alloc: Global,
        prog: &Checked,
        _profile: &Profile,
    ) -> Result<Checked, PassFault> {
        Err(refusal(prog, self.bound))
    }
}

// The refusal of a program by a pass that makes nothing: its bound is too large, or it is out of memory.
pub(crate) fn refusal(prog: &Checked, bound: u64) -> PassFault
    ensures { IsRefused (λ b. b ≡ bound) (item_count prog.now.prog) result }
{
    match room(prog.prog(), bound) {
        Ok(()) => PassFault::Memory,
        Err(fault) => fault,
    }
}

#[test]
fn each_law_is_called_at_a_pass() {
    widening_preserves::<Lacking>();
    narrowing_preserves::<Lacking>();
    names_preserve::<Lacking>();
    renaming_preserves::<Lacking>();
    plan_refines::<Lacking>();
    walks_are_accepted::<Lacking>();
    result_is_accepted();
    edit_accepted::<Lacking>();
    chains_refine::<Lacking>();
    chains_are_within_budget::<Lacking>();
    items_are_spliced::<u8>();
}

#[test]
fn a_name_is_given_to_the_first_pass_that_answers_to_it(rt: HostRuntime) -> Result<(), Fail> {
    let alloc = rt.alloc();
    let mut passes = [boxed_pad(alloc)?, boxed_pad(alloc)?];
    match run_names(alloc, passes.as_mut_slice(), &["pad", "pad"])? {
        Ok(made) => assert_eq!(rt; items_of(&made), 2),
        Err(_) => assert!(rt; false, "stopped"),
    }
    assert_eq!(rt; passes[0].tally(), tally(2, 1, 3));
    assert_eq!(rt; passes[1].tally(), Tally::zero());
    Ok(())
}

#[test]
fn a_name_without_a_pass_stops_the_list_before_it_begins(rt: HostRuntime) -> Result<(), Fail> {
    let alloc = rt.alloc();
    let mut passes = [boxed_pad(alloc)?];
    match run_names(alloc, passes.as_mut_slice(), &["pad", ""])? {
        Err(fault) => assert_eq!(rt; stop_of(fault), stop(2, 0, 0)),
        Ok(_made) => assert!(rt; false, "ran"),
    }
    assert_eq!(rt; passes[0].tally(), Tally::zero());
    Ok(())
}

#[test]
fn a_bound_that_is_too_large_stops_the_list_at_its_pass(rt: HostRuntime) -> Result<(), Fail> {
    let alloc = rt.alloc();
    let mut passes = [boxed_pad(alloc)?, boxed_lacking(alloc, 1_000_001)?];
    match run_names(alloc, passes.as_mut_slice(), &["pad", "lacking", "pad"])? {
        Err(fault) => assert_eq!(rt; stop_of(fault), stop(2, 1_000_001, 1)),
        Ok(_made) => assert!(rt; false, "ran"),
    }
    assert_eq!(rt; passes[0].tally(), tally(1, 0, 1));
    Ok(())
}

#[test]
fn a_pass_that_is_out_of_memory_stops_the_list(rt: HostRuntime) -> Result<(), Fail> {
    let alloc = rt.alloc();
    let mut passes = [boxed_pad(alloc)?, boxed_lacking(alloc, 1_000_000)?];
    match run_names(alloc, passes.as_mut_slice(), &["pad", "lacking", "pad"])? {
        Err(fault) => assert_eq!(rt; stop_of(fault), stop(0, 0, 0)),
        Ok(_made) => assert!(rt; false, "ran"),
    }
    assert_eq!(rt; passes[0].tally(), tally(1, 0, 1));
    Ok(())
}

// What the list of passes answers for the names, on a `main` without items.
fn run_names(
    alloc: Global,
    passes: &mut [Box<dyn Pass>],
    names: &[&str],
) -> Result<Result<Checked, ListFault>, AllocError> {
    let mut list = Seq::new(alloc);
    for name in names {
        list.push(Text::of(alloc, name)?)?;
    }
    if list.as_slice().len() > 3 {
        return Err(AllocError);
    }
    let profile = Profile::without_entries(alloc);
    let prog = program_of(alloc, b"@main { }").ok_or(AllocError)?;
    Ok(run_list(alloc, passes, &list, prog, &profile))
}

// The pass `pad`, in a box.
pub(crate) fn boxed_pad(alloc: Global) -> Result<Box<dyn Pass>, AllocError>
    ensures { IfOk result (λ pass. MakesAsShipped (meaning pass)) }
{
    let pad: Box<dyn Pass> = Box::new(alloc, Pad::new())?;
    Ok(pad)
}

// A pass that makes nothing, in a box.
pub(crate) fn boxed_lacking(alloc: Global, bound: u64) -> Result<Box<dyn Pass>, AllocError>
    ensures { IfOk result (λ pass. MakesAsShipped (meaning pass)) }
{
    let lacking: Box<dyn Pass> = Box::new(alloc, Lacking { bound })?;
    Ok(lacking)
}

// How a list of passes stopped: the place of the name, the bound, and the items of the program that was handed back; all 0
// where it was out of memory.
#[derive(Clone, Copy, PartialEq, Eq, Debug, Drop)]
struct Stopped {
    place: u32,
    bound: u64,
    items: usize,
}

fn stop_of(fault: ListFault) -> Stopped {
    match fault {
        ListFault::Unknown { place, prog } => stop(place, 0, items_of(&prog)),
        ListFault::TooLarge { place, bound, prog } => stop(place, bound, items_of(&prog)),
        ListFault::Memory => stop(0, 0, 0),
    }
}

fn stop(place: u32, bound: u64, items: usize) -> Stopped {
    Stopped {
        place,
        bound,
        items,
    }
}

pub(crate) fn tally(runs: u64, seen: u64, made: u64) -> Tally {
    Tally { runs, seen, made }
}

// The number of items of `main`, which is the only function.
fn items_of(prog: &Checked) -> usize {
    match prog.prog().funcs.as_slice() {
        [main] => main.code.as_slice().len(),
        _ => 0,
    }
}

// The accepted program of a source without imports.
fn program_of(alloc: Global, source: &[u8]) -> Option<Checked> {
    if source.len() > 16_777_216 {
        return None;
    }
    let tree = read_text(alloc, source).ok()?;
    if !tree.imports.as_slice().is_empty() {
        return None;
    }
    let prog = number(alloc, &tree).ok()?;
    if !prog.is_counted() {
        return None;
    }
    check(alloc, prog).ok()
}
