// The demo: the number of words that it tells, and the passes that it needs.

ghost use Rattle.std.specs.Prelude.{◌<◌, ◌^◌, length};

use crate::lists::{Ended, call};
use crate::passes::{boxed_pad, tally};
use bril_checker::{Checked, check};
use bril_cli::end::end;
use bril_demo::demo_tree;
use bril_names::number;
use bril_outside::count_sink::CountSink;
use bril_outside::mem_files::MemFiles;
use bril_outside::mem_sink::MemSink;
use bril_profile::Profile;
use bril_text::write_text;
use bril_tree::bytes::Bytes;
use bril_tree::limits::{End, Limits};
use bril_tree::sequence::Seq;
use bril_tree::text::Text;
use bril_tree::tree::Tree;
use pass_law::{Pass, run_list};
use profile_text::read_profile;
use rv64_emit::emit;
use rv64_machine::answer::RunAnswer;
use rv64_machine::machine::Machine;
use shipped_passes::{Job, with_shipped_passes};
use std::alloc::{AllocError, Global};
use std::test::Fail;

#[test]
fn the_demo_tells_how_many_words_the_machine_executes(rt: HostRuntime) -> Result<(), Fail> {
    let alloc = rt.alloc();
    let mut files = MemFiles::new(alloc, Seq::new(alloc));
    let words = ["roolvist", "demo", "1"];
    let ended = call_shipped(alloc, words.as_slice(), &mut files)?;
    assert_eq!(rt; ended.status, 0);
    assert_eq!(rt;
        ended.out.bytes(),
        b"demo 1: 2 functions, 24 items, 5 bytes, status 0\n".as_slice()
    );
    let executed = demo_by_calls(alloc);
    assert!(rt; executed.is_some());
    let line = format!(in alloc; "words {}\n", executed.unwrap_or(0))?;
    assert_eq!(rt; ended.err.bytes(), line.as_bytes());
    Ok(())
}

#[test]
fn the_demo_uses_the_passes_that_were_lent(rt: HostRuntime) -> Result<(), Fail> {
    let alloc = rt.alloc();
    let mut passes = [boxed_pad(alloc)?];
    let ended = call(alloc, &["demo", "1"], passes.as_mut_slice())?;
    assert_eq!(rt; ended.status, 70);
    assert!(rt; ended.out.bytes().is_empty());
    assert_eq!(rt; ended.err.bytes(), b"unknown pass 1\n".as_slice());
    assert_eq!(rt; passes[0].tally(), tally(0, 0, 0));
    Ok(())
}

// A command line, as what is done with the shipped passes.
#[derive(Drop)]
struct CommandLine<'a> {
    alloc: Global,
    words: Seq<Text>,
    files: &'a mut MemFiles,
    out: &'a mut MemSink,
    err: &'a mut MemSink,
}

impl<'a> Job for CommandLine<'a> {
    type Answer = u8;

    fn work(self, passes: &mut [Box<dyn Pass>]) -> u8 {
        let CommandLine {
            alloc,
            words,
            files,
            out,
            err,
        } = self;
        end(alloc, Ok(words), files, out, err, passes)
    }
}

// Calls the command line with these words and the shipped passes.
fn call_shipped(alloc: Global, given: &[&str], files: &mut MemFiles) -> Result<Ended, AllocError> {
    let mut words = Seq::new(alloc);
    for word in given {
        words.push(Text::of(alloc, word)?)?;
    }
    let mut out = MemSink::new(alloc, 4096, Seq::new(alloc))?;
    let mut err = MemSink::new(alloc, 4096, Seq::new(alloc))?;
    let line = CommandLine {
        alloc,
        words,
        files,
        out: &mut out,
        err: &mut err,
    };
    let status = with_shipped_passes(alloc, line)?;
    Ok(Ended { status, out, err })
}

// How many words the machine executes on the image of what the passes of the demo make of the demo program of one function.
fn demo_by_calls(alloc: Global) -> Option<u64> {
    let tree = demo_tree(alloc, 1).ok()?;
    let profile = recorded_profile(alloc, &tree)?;
    let made = made_by_calls(alloc, &tree, &profile)?;
    let limits = Limits {
        frames: 8192,
        cells: 1_048_576,
    };
    let image = emit(alloc, &made, limits).ok()?;
    if image.stack < 2 || image.stack > 8_388_608 {
        return None;
    }
    let mut machine = Machine::new(alloc, &image, &[], limits).ok()?;
    match machine.run(1_000_000_000_000, &mut CountSink::new()) {
        RunAnswer::End(End::Ended) => Some(machine.done()),
        _ => None,
    }
}

// The profile that `record` writes of a tree's run, with the numbers of the demo. It has some entries.
fn recorded_profile(alloc: Global, tree: &Tree) -> Option<Profile> {
    let mut text = Bytes::new(alloc);
    write_text(tree, &mut text).ok()?;
    let mut files = MemFiles::new(alloc, Seq::new(alloc));
    let path = Text::of(alloc, "demo.bril").ok()?;
    files.add(&path, text.as_slice()).ok()?;
    let words = [
        "roolvist",
        "record",
        "demo.bril",
        "--hot=16",
        "--most=64",
        "--steps=1000000000000",
    ];
    let ended = call_shipped(alloc, words.as_slice(), &mut files).ok()?;
    let profile = read_profile(alloc, ended.out.bytes()).ok()?;
    if profile.entries.as_slice().is_empty() {
        return None;
    }
    Some(profile)
}

// What the passes of the demo make of a tree's program, with a profile.
fn made_by_calls(alloc: Global, tree: &Tree, profile: &Profile) -> Option<Checked> {
    if !tree.imports.as_slice().is_empty() {
        return None;
    }
    let prog = number(alloc, tree).ok()?;
    if !prog.is_counted() {
        return None;
    }
    let checked = check(alloc, prog).ok()?;
    let mut names = Seq::new(alloc);
    names.push(Text::of(alloc, "trace").ok()?).ok()?;
    names.push(Text::of(alloc, "const").ok()?).ok()?;
    names.push(Text::of(alloc, "dead").ok()?).ok()?;
    names.push(Text::of(alloc, "tidy").ok()?).ok()?;
    if names.as_slice().len() > 64 {
        return None;
    }
    let list = List {
        alloc,
        names,
        checked,
        profile,
    };
    with_shipped_passes(alloc, list).ok()?
}

// A list of passes on a program with a profile, as what is done with the shipped passes.
#[derive(Drop)]
struct List<'a> {
    alloc: Global,
    names: Seq<Text>,
    checked: Checked,
    profile: &'a Profile,
    ghost few: { length names < 2 ^ 32 },
}

impl<'a> Job for List<'a> {
    type Answer = Option<Checked>;

    fn work(self, passes: &mut [Box<dyn Pass>]) -> Option<Checked> {
        let checked = self.checked;
        run_list(self.alloc, passes, &self.names, checked, self.profile).ok()
    }
}
