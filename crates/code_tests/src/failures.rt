// After each call in which something is broken or fails outside, the same passes and files do what they always do.

ghost use Rattle.std.specs.List.{All};
ghost use Rattle.shipped_passes.specs.Shipped.{AreShipped, MakesAsShipped};

use crate::lists::{Ended, call_on};
use bril_outside::mem_files::MemFiles;
use bril_outside::mem_sink::MemSink;
use bril_tree::sequence::Seq;
use bril_tree::text::Text;
use pass_law::Pass;
use shipped_passes::{Job, with_shipped_passes};
use std::alloc::{AllocError, Global};
use std::test::Fail;

// What fails outside in a call: the read, the put or the put on the error output of this number, or all bytes after so many.
#[derive(Clone, Copy, Drop)]
enum Failing {
    Nothing,
    Read(u64),
    Put(u64),
    ErrorPut(u64),
    Room(u32),
}

// A call: its words after the program's name, a blank between two, what fails in it, and what it must leave.
#[derive(Clone, Copy, Drop)]
struct Case {
    words: &'static str,
    failing: Failing,
    status: u8,
    out: &'static str,
    err: &'static str,
}

// Files with their bytes; those of `add_made` are beside them.
const FILES: [(&str, &str); 13] = [
    (
        "sum.bril",
        "@main(n: int) {\n  one: int = const 1;\n  s: int = const 0;\n  i: int = const 0;\n.head:\n  c: bool = lt i n;\n  br c .body .done;\n.body:\n  i: int = add i one;\n  s: int = add s i;\n  jmp .head;\n.done:\n  print s;\n}\n",
    ),
    ("t.prof", "bril-profile 1\ntrace @main .head T\n"),
    (
        "a.bril",
        "from \"b.bril\" import @two as @second; @main { call @second; } @one { x: int = const 1; print x; }\n",
    ),
    (
        "b.bril",
        "from \"a.bril\" import @one; @two { call @one; y: int = const 2; print y; }\n",
    ),
    (
        "cells.bril",
        "@main { k: int = const 3; one: int = const 1; i: int = const 0; p: ptr<int> = alloc k; w: ptr<int> = id p; .fill: store w i; w: ptr<int> = ptradd w one; i: int = add i one; f: bool = lt i k; br f .fill .scan; .scan: r: ptr<int> = id p; .turn: v: int = load r; r: ptr<int> = ptradd r one; print v; jmp .turn; }\n",
    ),
    (
        "zero.bril",
        "@main { one: int = const 1; zero: int = const 0; print one; q: int = div one zero; }\n",
    ),
    (
        "cut.bril",
        "@main(n: int) {\n  one: int = const 1;\n  s: int = const 0;\n  i: int = const 0;\n.head:\n  c: bool = lt ",
    ),
    ("empty.bril", ""),
    (
        "cut.json",
        "{\"functions\":[{\"name\":\"main\",\"instrs\":[{\"op\":\"const\",\"dest\":\"v\",\"type\":\"int\",\"value\":4,\"pos\":{\"row\":",
    ),
    ("short.prof", "bril-profile 1"),
    ("empty.prof", ""),
    ("first.script", "go\nbreak main 1\n"),
    ("first.lst", "word 00000000\nadd x1\n"),
];

// The program of sum.bril with the trace of t.prof.
const TRACED: &str =
    "@main(n: int) {\n  one: int = const 1;\n  s: int = const 0;\n  i: int = const 0;\n.head:\n  speculate;\n  c: bool = lt i n;\n  guard c .trace1.bail;\n  i: int = add i one;\n  s: int = add s i;\n  commit;\n  jmp .head;\n.trace1.bail:\n  c: bool = lt i n;\n  br c .body .done;\n.body:\n  i: int = add i one;\n  s: int = add s i;\n  jmp .head;\n.done:\n  print s;\n}\n";

const CASES: [Case; 22] = [
    Case {
        words: "run a.bril",
        failing: Failing::Read(1),
        status: 66,
        out: "",
        err: "cannot read a.bril\n",
    },
    Case {
        words: "run a.bril",
        failing: Failing::Read(2),
        status: 66,
        out: "",
        err: "cannot read b.bril\n",
    },
    Case {
        words: "run sum.bril --passes trace,ssa,const,dead,unssa,merge,tidy,side,color --profile t.prof -- 100",
        failing: Failing::Read(2),
        status: 66,
        out: "",
        err: "cannot read t.prof\n",
    },
    Case {
        words: "interp cells.bril",
        failing: Failing::Room(3),
        status: 74,
        out: "0\n1",
        err: "cannot write\n",
    },
    Case {
        words: "interp cells.bril",
        failing: Failing::Room(6),
        status: 2,
        out: "0\n1\n2\n",
        err: "fault 5 Access\n",
    },
    Case {
        words: "run cells.bril",
        failing: Failing::Put(4),
        status: 74,
        out: "0\n1",
        err: "cannot write\n",
    },
    Case {
        words: "run zero.bril",
        failing: Failing::ErrorPut(1),
        status: 2,
        out: "1\n",
        err: "",
    },
    Case {
        words: "interp cut.bril -- 10",
        failing: Failing::Nothing,
        status: 65,
        out: "",
        err: "cut.bril: text 2 at 100\n",
    },
    Case {
        words: "interp empty.bril",
        failing: Failing::Nothing,
        status: 65,
        out: "",
        err: "name 5 function - item -\n",
    },
    Case {
        words: "interp cut.json",
        failing: Failing::Nothing,
        status: 65,
        out: "",
        err: "cut.json: json 1 function - item -\n",
    },
    Case {
        words: "run lists.json",
        failing: Failing::Nothing,
        status: 65,
        out: "",
        err: "lists.json: json 1 function - item -\n",
    },
    Case {
        words: "run deep.json",
        failing: Failing::Nothing,
        status: 65,
        out: "",
        err: "deep.json: json 5 function 0 item 0\n",
    },
    Case {
        words: "run bytes.bril",
        failing: Failing::Nothing,
        status: 65,
        out: "",
        err: "bytes.bril: text 1 at 0\n",
    },
    Case {
        words: "run sum.bril --profile short.prof -- 10",
        failing: Failing::Nothing,
        status: 67,
        out: "",
        err: "profile line 1\n",
    },
    Case {
        words: "run sum.bril --profile empty.prof -- 10",
        failing: Failing::Nothing,
        status: 67,
        out: "",
        err: "profile line 1\n",
    },
    Case {
        words: "run sum.bril --profile long.prof -- 10",
        failing: Failing::Nothing,
        status: 68,
        out: "",
        err: "too large: profile\n",
    },
    Case {
        words: "run c0.bril",
        failing: Failing::Nothing,
        status: 68,
        out: "",
        err: "too large: files\n",
    },
    Case {
        words: "list sum.bril",
        failing: Failing::Put(1),
        status: 74,
        out: "",
        err: "cannot write\n",
    },
    Case {
        words: "asm first.lst",
        failing: Failing::Nothing,
        status: 65,
        out: "",
        err: "first.lst: listing 2\n",
    },
    Case {
        words: "exec first.lst",
        failing: Failing::Nothing,
        status: 65,
        out: "",
        err: "first.lst: elf 0\n",
    },
    Case {
        words: "monitor sum.bril first.script -- 3",
        failing: Failing::Nothing,
        status: 72,
        out: "",
        err: "script line 2\n",
    },
    Case {
        words: "elf sum.bril --passes none",
        failing: Failing::Nothing,
        status: 70,
        out: "",
        err: "unknown pass 1\n",
    },
];

#[test]
fn the_same_passes_do_the_same_after_each_call_that_fails(rt: HostRuntime) -> Result<(), Fail> {
    let came = with_shipped_passes(rt.alloc(), Calls { alloc: rt.alloc() })??;
    // The first case that comes otherwise, or is followed by something else.
    assert_eq!(rt; came, CASES.len());
    Ok(())
}

// The calls of all cases, each followed by two that trace the program of sum.bril, as what is done with the shipped passes.
#[derive(Drop)]
struct Calls {
    alloc: Global,
}

impl Job for Calls {
    type Answer = Result<usize, AllocError>;

    fn work(self, passes: &mut [Box<dyn Pass>]) -> Result<usize, AllocError> {
        try_shipped(self.alloc, passes)
    }
}

// Tries the cases with the shipped passes.
fn try_shipped(alloc: Global, passes: &mut [Box<dyn Pass>]) -> Result<usize, AllocError>
    requires { AreShipped (λ p. meaning p) passes.old }
{
    try_all(alloc, passes)
}

// Tries the cases one after another, and answers how many came as they must before the first that didn't.
fn try_all(alloc: Global, passes: &mut [Box<dyn Pass>]) -> Result<usize, AllocError>
    requires { All (λ p. MakesAsShipped (meaning p)) passes.old }
{
    for (before, case) in CASES.iter().enumerate() {
        if !try_case(alloc, case, before, passes)? {
            return Ok(before);
        }
    }
    Ok(CASES.len())
}

// Whether a call comes as it must, and those after it with the same files and passes do what they always do, and tell tallies that
// go on; so many cases were tried before.
fn try_case(
    alloc: Global,
    case: &Case,
    before: usize,
    passes: &mut [Box<dyn Pass>],
) -> Result<bool, AllocError>
    requires { All (λ p. MakesAsShipped (meaning p)) passes.old }
    ensures { All (λ p. MakesAsShipped (meaning p)) passes.new }
{
    let mut files = files_of(alloc, case)?;
    let ended = call_in(alloc, case.words, case.failing, &mut files, passes)?;
    let came = ended.status == case.status
        && ended.out.bytes() == case.out.as_bytes()
        && ended.err.bytes() == case.err.as_bytes();
    let run = "run sum.bril --passes trace --profile t.prof --stats -- 10";
    let ran = call_in(alloc, run, Failing::Nothing, &mut files, passes)?;
    let same = ran.status == 0
        && ran.out.bytes() == b"55\n".as_slice()
        && ran.err.bytes().ends_with(b"\nguard @main 6 fails 1\n");
    let write = "passes sum.bril --passes trace --profile t.prof";
    let written = call_in(alloc, write, Failing::Nothing, &mut files, passes)?;
    let runs = before.saturating_add(1).saturating_mul(2);
    let tallies = format!(in alloc;
        "trace runs {} seen {} made {}\n",
        runs,
        runs.saturating_mul(12),
        runs.saturating_mul(20)
    )?;
    let goes_on = written.status == 0
        && written.out.bytes() == TRACED.as_bytes()
        && written.err.bytes() == tallies.as_bytes();
    Ok(came && same && goes_on)
}

// A call with these words, in which this fails; a read fails by the files.
fn call_in(
    alloc: Global,
    line: &str,
    failing: Failing,
    files: &mut MemFiles,
    passes: &mut [Box<dyn Pass>],
) -> Result<Ended, AllocError>
    requires { All (λ p. MakesAsShipped (meaning p)) passes.old }
    ensures { All (λ p. MakesAsShipped (meaning p)) passes.new }
{
    let mut words = Seq::new(alloc);
    words.push(Text::of(alloc, "roolvist")?)?;
    for word in line.split(' ') {
        words.push(Text::of(alloc, word)?)?;
    }
    let room = match failing {
        Failing::Room(room) => room,
        _ => 4096,
    };
    let mut puts = Seq::new(alloc);
    let mut errs = Seq::new(alloc);
    match failing {
        Failing::Put(number) => puts.push(number)?,
        Failing::ErrorPut(number) => errs.push(number)?,
        _ => {}
    }
    let out = MemSink::new(alloc, room, puts)?;
    let err = MemSink::new(alloc, 4096, errs)?;
    Ok(call_on(alloc, &words, files, out, err, passes))
}

// The files of a case, of which a read may fail.
fn files_of(alloc: Global, case: &Case) -> Result<MemFiles, AllocError> {
    let mut reads = Seq::new(alloc);
    if let Failing::Read(number) = case.failing {
        reads.push(number)?;
    }
    let mut files = MemFiles::new(alloc, reads);
    for file in FILES.iter() {
        let (path, source) = *file;
        files.add(&Text::of(alloc, path)?, source.as_bytes())?;
    }
    files.add(&Text::of(alloc, "bytes.bril")?, &[0xff, 0xff, 0xff])?;
    add_json(alloc, &mut files)?;
    if case.words.contains("long.prof") {
        let mut long = Vec::new(alloc);
        add_times(61_681, b"bbbbbbbbbbbbbbbbb", &mut long)?;
        files.add(&Text::of(alloc, "long.prof")?, long.as_slice())?;
    }
    if case.words.contains("c0.bril") {
        add_chain(alloc, &mut files)?;
    }
    Ok(files)
}

// Adds 200 nested lists, and a program with 33 `ptr` round a type.
fn add_json(alloc: Global, files: &mut MemFiles) -> Result<(), AllocError> {
    let mut lists = Vec::new(alloc);
    add_times(200, b"[", &mut lists)?;
    add_times(200, b"]", &mut lists)?;
    files.add(&Text::of(alloc, "lists.json")?, lists.as_slice())?;
    let mut deep = Vec::new(alloc);
    deep.extend_from_slice(
        br#"{"functions":[{"name":"main","instrs":[{"op":"const","dest":"v","type":"#,
    )?;
    add_times(33, br#"{"ptr":"#, &mut deep)?;
    deep.extend_from_slice(br#""int""#)?;
    add_times(33, b"}", &mut deep)?;
    deep.extend_from_slice(br#","value":4}]}]}"#)?;
    files.add(&Text::of(alloc, "deep.json")?, deep.as_slice())
}

// Adds 257 files of which each imports the next.
fn add_chain(alloc: Global, files: &mut MemFiles) -> Result<(), AllocError> {
    for number in 0..257u32 {
        let next = number.saturating_add(1);
        let path = format!(in alloc; "c{number}.bril")?;
        let source = format!(in alloc;
            "from \"c{next}.bril\" import @main as @next; @main {{ call @next; }}\n"
        )?;
        files.add(&Text::of(alloc, path.as_str())?, source.as_bytes())?;
    }
    Ok(())
}

// Appends the bytes so many times.
fn add_times(count: u32, bytes: &[u8], to: &mut Vec<u8>) -> Result<(), AllocError> {
    for _ in 0..count {
        to.extend_from_slice(bytes)?;
    }
    Ok(())
}
