// A case: the files and outputs that its lines set up, and its command lines.

use crate::guards::add_fails;
use crate::listing::execute;
use bril_cli::end::end;
use bril_outside::files::{FileFault, Files};
use bril_outside::mem_files::MemFiles;
use bril_outside::mem_sink::MemSink;
use bril_tree::bytes::Bytes;
use bril_tree::sequence::Seq;
use bril_tree::text::Text;
use bril_tree::value::Value;
use case_text::{LineFault, add_lines, add_unescaped};
use pass_law::Pass;
use shipped_passes::{Job, with_shipped_passes};
use std::alloc::{AllocError, Global};
use std::mem;

// How many bytes an output takes where a case doesn't say it.
const ROOM: u32 = 65_536;

// A command line, as what is done with the shipped passes.
#[derive(Drop)]
struct CommandLine<'a> {
    alloc: Global,
    words: Seq<Text>,
    files: &'a mut MemFiles,
    out: &'a mut MemSink,
    err: &'a mut MemSink,
}

impl<'a> Job for CommandLine<'a> {
    type Answer = u8;

    fn work(self, passes: &mut [Box<dyn Pass>]) -> u8 {
        let CommandLine {
            alloc,
            words,
            files,
            out,
            err,
        } = self;
        end(alloc, Ok(words), files, out, err, passes)
    }
}

/// What the lines of a case have set up so far.
#[derive(Drop)]
pub struct Case {
    alloc: Global,
    files: MemFiles,
    // The path of the file that is being written, and its bytes so far.
    path: Option<Text>,
    content: Vec<u8>,
    // For the next command line.
    puts: Seq<u64>,
    errs: Seq<u64>,
    room: u32,
}

impl Case {
    /// A case without files.
    pub fn new(alloc: Global) -> Case {
        Case {
            alloc,
            files: MemFiles::new(alloc, Seq::new(alloc)),
            path: None,
            content: Vec::new(alloc),
            puts: Seq::new(alloc),
            errs: Seq::new(alloc),
            room: ROOM,
        }
    }

    /// Takes the next line, and appends what it shows.
    pub fn take(&mut self, line: &str, shown: &mut Vec<u8>) -> Result<(), LineFault> {
        if let Some(text) = line.strip_prefix('|') {
            self.content.extend_from_slice(text.as_bytes())?;
            self.content.extend_from_slice(b"\n")?;
            return Ok(());
        }
        let (word, rest) = line.split_once(' ').unwrap_or((line, ""));
        match word {
            "+" => add_unescaped(self.alloc, rest, 0, &mut self.content),
            "fill" => self.fill(rest),
            "file" => self.begin_file(rest),
            "chain" => self.add_chain(rest),
            "reads" => self.fail_reads(rest),
            "puts" => {
                self.puts = numbers_of(self.alloc, rest)?;
                Ok(())
            }
            "errs" => {
                self.errs = numbers_of(self.alloc, rest)?;
                Ok(())
            }
            "room" => {
                self.room = rest.parse::<u32>().map_err(|_| LineFault::Form)?;
                Ok(())
            }
            "==" | "$" | "keeps" | "executes" | "counts" | "fails" | "cuts" => {
                add_line(line, shown)?;
                self.show(word, rest, shown)
            }
            "#" | "" => Ok(()),
            _ => Err(LineFault::Form),
        }
    }

    // Does what a line that is shown asks for, and appends what it leaves.
    fn show(&mut self, word: &str, rest: &str, shown: &mut Vec<u8>) -> Result<(), LineFault> {
        match word {
            "==" => {
                *self = Case::new(self.alloc);
                Ok(())
            }
            "cuts" => self.run_cut(rest, shown),
            _ => {
                self.end_file()?;
                match word {
                    "keeps" => self.keep(rest, shown),
                    "executes" => self.execute(rest, shown),
                    "counts" => self.run_counted(rest, shown),
                    "fails" => self.count_fails(rest, shown),
                    _ => self.run(rest, shown),
                }
            }
        }
    }

    // Appends the bytes of the line so many times to the file.
    fn fill(&mut self, line: &str) -> Result<(), LineFault> {
        let (count, text) = line.split_once(' ').ok_or(LineFault::Form)?;
        let count = count.parse::<u64>().map_err(|_| LineFault::Form)?;
        if text.contains("\\#") {
            for number in 0..count {
                add_unescaped(self.alloc, text, number, &mut self.content)?;
            }
            return Ok(());
        }
        let mut piece = Vec::new(self.alloc);
        add_unescaped(self.alloc, text, 0, &mut piece)?;
        for _ in 0..count {
            self.content.extend_from_slice(piece.as_slice())?;
        }
        Ok(())
    }

    // Begins the file at the path.
    fn begin_file(&mut self, path: &str) -> Result<(), LineFault> {
        self.end_file()?;
        self.path = Some(text_of(self.alloc, path)?);
        Ok(())
    }

    // Puts the file that was being written.
    fn end_file(&mut self) -> Result<(), LineFault> {
        if let Some(path) = self.path.take() {
            self.files.add(&path, self.content.as_slice())?;
        }
        self.content.clear();
        Ok(())
    }

    // Puts so many files, of which each imports `main` of the next and calls it, and the last prints 7.
    fn add_chain(&mut self, line: &str) -> Result<(), LineFault> {
        self.end_file()?;
        let alloc = self.alloc;
        let last = line
            .parse::<u32>()
            .map_err(|_| LineFault::Form)?
            .saturating_sub(1);
        for number in 0..last {
            let next = number.saturating_add(1);
            let path = format!(in alloc; "c{number}.bril")?;
            let source = format!(in alloc;
                "from \"c{next}.bril\" import @main as @next; @main {{ call @next; }}\n"
            )?;
            self.add_file(path.as_str(), source.as_bytes())?;
        }
        let path = format!(in alloc; "c{last}.bril")?;
        self.add_file(path.as_str(), b"@main { v: int = const 7; print v; }\n")
    }

    // Puts the file at the path.
    fn add_file(&mut self, path: &str, bytes: &[u8]) -> Result<(), LineFault> {
        let path = text_of(self.alloc, path)?;
        Ok(self.files.add(&path, bytes)?)
    }

    // No files, of which the reads of these numbers fail.
    fn fail_reads(&mut self, line: &str) -> Result<(), LineFault> {
        let fails = numbers_of(self.alloc, line)?;
        self.files = MemFiles::new(self.alloc, fails);
        Ok(())
    }

    // Runs a command line for each length of the file that is being written but its own, with so many of its bytes, and
    // appends what they leave: once for lengths in a row that leave the same, after a line with the first and the last.
    fn run_cut(&mut self, line: &str, shown: &mut Vec<u8>) -> Result<(), LineFault> {
        let alloc = self.alloc;
        let path = self.path.take().ok_or(LineFault::Form)?;
        let content = mem::replace(&mut self.content, Vec::new(alloc));
        let mut answer = Vec::new(alloc);
        let mut first = 0;
        for (length, _) in content.iter().enumerate() {
            self.files.add(&path, content.get(..length).unwrap_or(&[]))?;
            let mut next = Vec::new(alloc);
            self.run(line, &mut next)?;
            hide_length(alloc, length, &mut next)?;
            if next != answer {
                add_answer(alloc, first, length, &answer, shown)?;
                first = length;
                answer = next;
            }
        }
        add_answer(alloc, first, content.len(), &answer, shown)?;
        self.files.add(&path, content.as_slice())?;
        Ok(())
    }

    // Runs a command line, puts what it writes as the file at the path that stands before it, and appends the rest of what it leaves.
    fn keep(&mut self, line: &str, shown: &mut Vec<u8>) -> Result<(), LineFault> {
        let alloc = self.alloc;
        let (path, command) = line.split_once(' ').ok_or(LineFault::Form)?;
        let path = text_of(alloc, path)?;
        let words = words_of(alloc, command)?;
        let mut out = MemSink::new(alloc, ROOM, Seq::new(alloc))?;
        let mut err = MemSink::new(alloc, ROOM, Seq::new(alloc))?;
        let status = self.call(words, &mut out, &mut err)?;
        self.files.add(&path, out.bytes())?;
        add_status(alloc, status, shown)?;
        add_lines(alloc, "err ", err.bytes(), shown)?;
        Ok(())
    }

    // Runs a command line, executes the machine words that it writes, with the ints after `--` as their arguments, and appends
    // what they leave.
    fn execute(&mut self, line: &str, shown: &mut Vec<u8>) -> Result<(), LineFault> {
        let alloc = self.alloc;
        let (command, numbers) = line.split_once(" -- ").unwrap_or((line, ""));
        let words = words_of(alloc, command)?;
        let mut args = Seq::new(alloc);
        for word in numbers.split_whitespace() {
            args.push(Value::Int(word.parse::<i64>().map_err(|_| LineFault::Form)?))?;
        }
        let mut out = MemSink::new(alloc, ROOM, Seq::new(alloc))?;
        let mut err = MemSink::new(alloc, ROOM, Seq::new(alloc))?;
        let _status = self.call(words, &mut out, &mut err)?;
        execute(alloc, out.bytes(), args.as_slice(), shown)
    }

    // Runs a command line, and appends what it leaves, with `#` as the number of words that it tells.
    fn run_counted(&mut self, line: &str, shown: &mut Vec<u8>) -> Result<(), LineFault> {
        let mut left = Vec::new(self.alloc);
        self.run(line, &mut left)?;
        let left = str::from_utf8(left.as_slice()).map_err(|_| LineFault::Form)?;
        for told in left.lines() {
            if told.starts_with("err |words ") {
                add_line("err |words #", shown)?;
            } else {
                add_line(told, shown)?;
            }
        }
        Ok(())
    }

    // Interprets the program of a file with the words after `--` as its arguments, and appends how often each of its guards
    // failed.
    fn count_fails(&mut self, line: &str, shown: &mut Vec<u8>) -> Result<(), LineFault> {
        let alloc = self.alloc;
        let (path, arguments) = line.split_once(" -- ").unwrap_or((line, ""));
        let path = text_of(alloc, path)?;
        let words = words_of(alloc, arguments)?;
        let mut source = Bytes::new(alloc);
        match self.files.read(alloc, &path, ROOM as u64, &mut source) {
            Ok(true) => {}
            Ok(false) | Err(FileFault::Failed) => return Err(LineFault::Form),
            Err(FileFault::Memory) => return Err(LineFault::Memory),
        }
        let bytes = source.as_slice();
        if bytes.len() > 1_000_000 || words.as_slice().len() > 1_000 {
            return Err(LineFault::Form);
        }
        add_fails(alloc, bytes, words.as_slice(), shown)
    }

    // Runs a command line, and appends what it leaves.
    fn run(&mut self, line: &str, shown: &mut Vec<u8>) -> Result<(), LineFault> {
        let alloc = self.alloc;
        let words = words_of(alloc, line)?;
        let puts = mem::replace(&mut self.puts, Seq::new(alloc));
        let errs = mem::replace(&mut self.errs, Seq::new(alloc));
        let room = mem::replace(&mut self.room, ROOM);
        let mut out = MemSink::new(alloc, room, puts)?;
        let mut err = MemSink::new(alloc, ROOM, errs)?;
        let status = self.call(words, &mut out, &mut err)?;
        add_status(alloc, status, shown)?;
        add_lines(alloc, "", out.bytes(), shown)?;
        add_lines(alloc, "err ", err.bytes(), shown)?;
        Ok(())
    }

    // Gives the words to the top call by `end`, as the program does, with its passes, of which none has run yet.
    fn call(
        &mut self,
        words: Seq<Text>,
        out: &mut MemSink,
        err: &mut MemSink,
    ) -> Result<u8, AllocError> {
        let alloc = self.alloc;
        let files = &mut self.files;
        with_shipped_passes(
            alloc,
            CommandLine {
                alloc,
                words,
                files,
                out,
                err,
            },
        )
    }
}

// Where what a command line leaves ends with the length, a blank before it, writes `#` in its stead.
fn hide_length(alloc: Global, length: usize, answer: &mut Vec<u8>) -> Result<(), AllocError> {
    let end = format!(in alloc; " {length}\n")?;
    if answer.ends_with(end.as_bytes()) {
        answer.truncate(answer.len() - end.len());
        answer.extend_from_slice(b" #\n")?;
    }
    Ok(())
}

// Appends what the command line left for the lengths from the first on and below the end, where there are some.
fn add_answer(
    alloc: Global,
    first: usize,
    end: usize,
    answer: &[u8],
    shown: &mut Vec<u8>,
) -> Result<(), AllocError> {
    if first < end {
        let last = end - 1;
        let lengths = format!(in alloc; "bytes {first} to {last}")?;
        add_line(lengths.as_str(), shown)?;
        shown.extend_from_slice(answer)?;
    }
    Ok(())
}

// Appends the line of a status.
fn add_status(alloc: Global, status: u8, shown: &mut Vec<u8>) -> Result<(), AllocError> {
    let told = format!(in alloc; "status {status}")?;
    add_line(told.as_str(), shown)
}

// Appends the line and LF.
fn add_line(line: &str, shown: &mut Vec<u8>) -> Result<(), AllocError> {
    shown.extend_from_slice(line.as_bytes())?;
    shown.extend_from_slice(b"\n")
}

// The words between blanks.
fn words_of(alloc: Global, line: &str) -> Result<Seq<Text>, LineFault> {
    let mut words = Seq::new(alloc);
    if line.is_empty() {
        return Ok(words);
    }
    for word in line.split(' ') {
        words.push(text_of(alloc, word)?)?;
    }
    Ok(words)
}

// The text that is written with escapes.
fn text_of(alloc: Global, written: &str) -> Result<Text, LineFault> {
    let mut bytes = Vec::new(alloc);
    add_unescaped(alloc, written, 0, &mut bytes)?;
    let text = str::from_utf8(bytes.as_slice()).map_err(|_| LineFault::Form)?;
    Ok(Text::of(alloc, text)?)
}

// The numbers between blanks.
fn numbers_of(alloc: Global, line: &str) -> Result<Seq<u64>, LineFault> {
    let mut numbers = Seq::new(alloc);
    for word in line.split_whitespace() {
        numbers.push(word.parse::<u64>().map_err(|_| LineFault::Form)?)?;
    }
    Ok(numbers)
}
