// Lists of passes on the top call, with passes that the program doesn't have.

ghost use Rattle.pass_law.specs.Tallies.{zero_tally};
ghost use Rattle.pass_pad.specs.Pad.{pad_meaning};
ghost use Rattle.std.specs.Prelude.{◌≡◌, true, IfOk};
ghost use Rattle.std.specs.List.{All};
ghost use Rattle.shipped_passes.specs.Shipped.{MakesAsShipped};

use crate::passes::{boxed_lacking, boxed_pad, refusal, tally};
use bril_checker::Checked;
use bril_cli::top::bril_top;
use bril_outside::mem_files::MemFiles;
use bril_outside::mem_sink::MemSink;
use bril_profile::Profile;
use bril_tree::sequence::Seq;
use bril_tree::text::Text;
use pass_law::{Pass, PassFault, Tally};
use std::alloc::{AllocError, Global};
use std::test::Fail;

// A program of two items.
const ONE: &[u8] = b"@main { v: int = const 4; print v; }\n";

// A pass that answers to every name, and makes nothing: where its bound isn't too large it is out of memory.
#[derive(Drop)]
struct Every {
    bound: u64,
}

impl Pass for Every {
    ghost meaning = { λ pass. record pad_meaning { answers = λ name. true; IsBound = λ P profile k. k ≡ pass.bound; Makes = λ P profile Q. ⊥ } };

    ghost counts = { λ _. zero_tally };

    fn is_named(&self, _name: &[u8]) -> bool {
        true
    }

    fn tally(&self) -> Tally {
        Tally::zero()
    }

    #[tactic(auto, using(crate::proofs::Numbers::bounded_numbers))]
    fn run(
        &mut self,
        _alloc: Global,
        prog: &Checked,
        _profile: &Profile,
    ) -> Result<Checked, PassFault> {
        Err(refusal(prog, self.bound))
    }
}

// What a call ended with.
#[derive(Drop)]
pub(crate) struct Ended {
    pub(crate) status: u8,
    pub(crate) out: MemSink,
    pub(crate) err: MemSink,
}

#[test]
fn each_pass_of_a_list_gets_what_the_one_before_it_made(rt: HostRuntime) -> Result<(), Fail> {
    let alloc = rt.alloc();
    let mut passes = [boxed_pad(alloc)?, boxed_pad(alloc)?];
    let ended = call(
        alloc,
        &["passes", "one.bril", "--passes", "pad,pad"],
        passes.as_mut_slice(),
    )?;
    assert_eq!(rt; ended.status, 0);
    assert_eq!(rt;
        ended.out.bytes(),
        b"@main {\n  nop;\n  nop;\n  v: int = const 4;\n  print v;\n}\n".as_slice()
    );
    // The first of two passes of one name is taken.
    assert_eq!(rt; ended.err.bytes(), b"pad runs 2 seen 5 made 7\n".as_slice());
    assert_eq!(rt; passes[1].tally(), Tally::zero());
    Ok(())
}

#[test]
fn an_empty_name_of_a_list_is_that_of_no_pass(rt: HostRuntime) -> Result<(), Fail> {
    let alloc = rt.alloc();
    let mut passes = [boxed_pad(alloc)?];
    let ended = call(
        alloc,
        &["run", "one.bril", "--passes", "pad,,pad"],
        passes.as_mut_slice(),
    )?;
    assert_eq!(rt; ended.status, 70);
    assert_eq!(rt; ended.err.bytes(), b"unknown pass 2\n".as_slice());
    assert_eq!(rt; passes[0].tally(), Tally::zero());
    Ok(())
}

#[test]
fn a_pass_that_may_make_too_many_items_is_told_by_its_place_and_bound(
    rt: HostRuntime,
) -> Result<(), Fail> {
    let alloc = rt.alloc();
    let mut passes = [boxed_pad(alloc)?, boxed_lacking(alloc, 1_000_001)?];
    let ended = call(
        alloc,
        &["emit", "one.bril", "--passes", "pad,lacking,pad"],
        passes.as_mut_slice(),
    )?;
    assert_eq!(rt; ended.status, 68);
    assert!(rt; ended.out.bytes().is_empty());
    assert_eq!(rt;
        ended.err.bytes(),
        b"too large: pass 2 1000001\n".as_slice()
    );
    // The pass before it ran.
    assert_eq!(rt; passes[0].tally(), tally(1, 2, 3));
    Ok(())
}

#[test]
fn a_pass_that_is_out_of_memory_ends_the_call(rt: HostRuntime) -> Result<(), Fail> {
    let alloc = rt.alloc();
    let mut passes = [boxed_lacking(alloc, 1_000_000)?];
    let ended = call(
        alloc,
        &["passes", "one.bril", "--passes", "lacking"],
        passes.as_mut_slice(),
    )?;
    assert_eq!(rt; ended.status, 71);
    assert_eq!(rt; ended.err.bytes(), b"out of memory\n".as_slice());
    Ok(())
}

#[test]
fn a_pass_that_answers_to_every_name_is_given_an_empty_one(rt: HostRuntime) -> Result<(), Fail> {
    let alloc = rt.alloc();
    let mut passes = [boxed_pad(alloc)?, boxed_every(alloc, 1_000_001)?];
    let ended = call(
        alloc,
        &["passes", "one.bril", "--passes", "pad,"],
        passes.as_mut_slice(),
    )?;
    assert_eq!(rt; ended.status, 68);
    assert_eq!(rt;
        ended.err.bytes(),
        b"too large: pass 2 1000001\n".as_slice()
    );
    Ok(())
}

#[test]
fn tallies_go_on_from_call_to_call(rt: HostRuntime) -> Result<(), Fail> {
    let alloc = rt.alloc();
    let mut passes = [boxed_pad(alloc)?];
    let first = call(
        alloc,
        &["passes", "one.bril", "--passes", "pad"],
        passes.as_mut_slice(),
    )?;
    assert_eq!(rt; first.err.bytes(), b"pad runs 1 seen 2 made 3\n".as_slice());
    let second = call(
        alloc,
        &["passes", "one.bril", "--passes", "pad"],
        passes.as_mut_slice(),
    )?;
    assert_eq!(rt;
        second.err.bytes(),
        b"pad runs 2 seen 4 made 6\n".as_slice()
    );
    assert_eq!(rt; passes[0].tally(), tally(2, 4, 6));
    Ok(())
}

#[test]
fn a_command_that_takes_no_list_leaves_tallies(rt: HostRuntime) -> Result<(), Fail> {
    let alloc = rt.alloc();
    let mut passes = [boxed_pad(alloc)?];
    let first = call(
        alloc,
        &["passes", "one.bril", "--passes", "pad"],
        passes.as_mut_slice(),
    )?;
    assert_eq!(rt; first.status, 0);
    let checked = call(alloc, &["check", "one.bril"], passes.as_mut_slice())?;
    assert_eq!(rt; checked.status, 0);
    assert_eq!(rt; passes[0].tally(), tally(1, 2, 3));
    Ok(())
}

#[test]
fn no_pass_runs_where_the_arguments_are_refused(rt: HostRuntime) -> Result<(), Fail> {
    let alloc = rt.alloc();
    let mut passes = [boxed_pad(alloc)?];
    let first = call(
        alloc,
        &["passes", "one.bril", "--passes", "pad"],
        passes.as_mut_slice(),
    )?;
    assert_eq!(rt; first.status, 0);
    let refused = call(
        alloc,
        &["run", "one.bril", "--passes", "pad", "--", "1"],
        passes.as_mut_slice(),
    )?;
    assert_eq!(rt; refused.status, 69);
    assert_eq!(rt; passes[0].tally(), tally(1, 2, 3));
    Ok(())
}

// Calls the top call with these words after the program's name, over a file of two items and outputs that take all, and lends it
// the passes, which can be lent again.
pub(crate) fn call(
    alloc: Global,
    words: &[&str],
    passes: &mut [Box<dyn Pass>],
) -> Result<Ended, AllocError>
    requires { All (λ p. MakesAsShipped (meaning p)) passes.old }
    ensures { All (λ p. MakesAsShipped (meaning p)) passes.new }
{
    let mut files = MemFiles::new(alloc, Seq::new(alloc));
    files.add(&Text::of(alloc, "one.bril")?, ONE)?;
    let mut given = Seq::new(alloc);
    given.push(Text::of(alloc, "roolvist")?)?;
    for word in words {
        given.push(Text::of(alloc, word)?)?;
    }
    let out = MemSink::new(alloc, 4096, Seq::new(alloc))?;
    let err = MemSink::new(alloc, 4096, Seq::new(alloc))?;
    Ok(call_on(alloc, &given, &mut files, out, err, passes))
}

// The same with all words, over these files and outputs.
pub(crate) fn call_on(
    alloc: Global,
    words: &Seq<Text>,
    files: &mut MemFiles,
    mut out: MemSink,
    mut err: MemSink,
    passes: &mut [Box<dyn Pass>],
) -> Ended
    requires { All (λ p. MakesAsShipped (meaning p)) passes.old }
    ensures { All (λ p. MakesAsShipped (meaning p)) passes.new }
{
    let status = bril_top(alloc, words.as_slice(), files, &mut out, &mut err, passes);
    Ended { status, out, err }
}

// A pass that answers to every name, in a box.
fn boxed_every(alloc: Global, bound: u64) -> Result<Box<dyn Pass>, AllocError>
    ensures { IfOk result (λ pass. MakesAsShipped (meaning pass)) }
{
    let pass: Box<dyn Pass> = Box::new(alloc, Every { bound })?;
    Ok(pass)
}
