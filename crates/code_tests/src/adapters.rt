// The adapters over the system's files and outputs, and over streams that fail.

use crate::weak::{Failing, Weak, WeakFiles};
use bril_outside::count_sink::CountSink;
use bril_outside::files::{FileFault, Files};
use bril_outside::mem_sink::MemSink;
use bril_outside::os_files::OsFiles;
use bril_outside::os_sink::OsSink;
use bril_outside::sink::{Failed, Sink, put_three, put_two};
use bril_tree::bytes::Bytes;
use bril_tree::sequence::Seq;
use bril_tree::text::Text;
use std::test::Fail;
use std::{fs, io};

#[test]
fn reads_system_files(rt: HostRuntime) -> Result<(), Fail> {
    let alloc = rt.alloc();
    // The blanks at both ends belong to the name.
    let name = " code_tests reads.tmp ";
    let long = vec![in alloc; 97u8; 10000]?;
    fs::write(&rt, name, long.as_slice())?;
    let path = Text::of(alloc, name)?;
    let mut files = OsFiles::new(&rt);
    let mut into = Bytes::new(alloc);
    into.add(b"<")?;
    assert!(rt; !files.read(alloc, &path, 9999, &mut into)?);
    assert_eq!(rt; into.as_slice().len(), 1);
    assert!(rt; files.read(alloc, &path, 10000, &mut into)?);
    assert_eq!(rt; into.as_slice().len(), 10001);
    assert!(rt; into.as_slice().starts_with(b"<aaaa"));
    for other in [".", "code_tests missing.tmp", "code_tests reads.tmp"] {
        let path = Text::of(alloc, other)?;
        assert_eq!(rt;
            files.read(alloc, &path, 10000, &mut into),
            Err(FileFault::Failed)
        );
    }
    assert_eq!(rt; into.as_slice().len(), 10001);
    fs::remove_file(&rt, name)?;
    Ok(())
}

#[test]
fn writes_system_files(rt: HostRuntime) -> Result<(), Fail> {
    let alloc = rt.alloc();
    let name = "code_tests writes.tmp";
    let mut sink = OsSink::new(alloc, fs::create(&rt, name)?);
    put_three(&mut sink, b"one ", b"two ", b"three")?;
    put_two(&mut sink, b"", b"!")?;
    let mut into = Bytes::new(alloc);
    OsFiles::new(&rt).read(alloc, &Text::of(alloc, name)?, 100, &mut into)?;
    assert_eq!(rt; into.as_slice(), b"one two three!".as_slice());
    fs::remove_file(&rt, name)?;
    let mut sink = OsSink::new(alloc, io::writer(&rt));
    assert_eq!(rt; sink.put(b"written to standard output\n"), Ok(()));
    assert_eq!(rt; sink.flush(), Ok(()));
    Ok(())
}

#[test]
fn holds_back_until_it_is_flushed(rt: HostRuntime) -> Result<(), Fail> {
    let alloc = rt.alloc();
    let name = "code_tests holds.tmp";
    let path = Text::of(alloc, name)?;
    let mut sink = OsSink::buffered(alloc, 8, fs::create(&rt, name)?)?;
    put_two(&mut sink, b"one\n", b"two")?;
    let mut into = Bytes::new(alloc);
    OsFiles::new(&rt).read(alloc, &path, 100, &mut into)?;
    assert_eq!(rt; into.as_slice(), b"".as_slice());
    // The buffer is full, and nothing is lost at its end.
    put_two(
        &mut sink,
        b" three",
        b" and a piece that is longer than the buffer",
    )?;
    sink.flush()?;
    OsFiles::new(&rt).read(alloc, &path, 100, &mut into)?;
    assert_eq!(rt;
        into.as_slice(),
        b"one\ntwo three and a piece that is longer than the buffer".as_slice()
    );
    let mut lines = OsSink::by_line(alloc, 100, fs::create(&rt, name)?)?;
    put_three(&mut lines, b"a line", b" with its end\n", b"and the next")?;
    let mut into = Bytes::new(alloc);
    OsFiles::new(&rt).read(alloc, &path, 100, &mut into)?;
    assert_eq!(rt; into.as_slice(), b"a line with its end\n".as_slice());
    fs::remove_file(&rt, name)?;
    Ok(())
}

#[test]
fn tells_what_fails_at_the_last_write(rt: HostRuntime) -> Result<(), Fail> {
    let alloc = rt.alloc();
    let mut late = OsSink::buffered(alloc, 100, Weak::new(Failing::After))?;
    assert_eq!(rt; late.put(b"fours"), Ok(()));
    assert_eq!(rt; late.flush(), Err(Failed));
    let mut line = OsSink::by_line(alloc, 100, Weak::new(Failing::After))?;
    assert_eq!(rt; line.put(b"four"), Ok(()));
    assert_eq!(rt; line.put(b"\n"), Err(Failed));
    // An interruption is no fault.
    let mut whole = OsSink::buffered(alloc, 100, Weak::new(Failing::After))?;
    assert_eq!(rt; whole.put(b"four"), Ok(()));
    assert_eq!(rt; whole.flush(), Ok(()));
    // What holds nothing back is flushed at once.
    let mut memory = MemSink::new(alloc, 4, Seq::new(alloc))?;
    assert_eq!(rt; memory.put(b"five!"), Err(Failed));
    assert_eq!(rt; memory.flush(), Ok(()));
    assert_eq!(rt; CountSink::new().flush(), Ok(()));
    Ok(())
}

#[test]
fn streams_that_fail(rt: HostRuntime) -> Result<(), Fail> {
    let alloc = rt.alloc();
    let path = Text::of(alloc, "any")?;
    let mut into = Bytes::new(alloc);
    let after = WeakFiles(Failing::After);
    let mut files = OsFiles::new(&after);
    assert!(rt; !files.read(alloc, &path, 3, &mut into)?);
    assert_eq!(rt;
        files.read(alloc, &path, 4, &mut into),
        Err(FileFault::Failed)
    );
    assert!(rt; into.as_slice().is_empty());
    let mut sink = OsSink::new(alloc, Weak::new(Failing::After));
    assert_eq!(rt; sink.put(b"four"), Ok(()));
    assert_eq!(rt; sink.put(b""), Ok(()));
    assert_eq!(rt; sink.put(b"more"), Err(Failed));
    assert_eq!(rt; sink.put(b""), Ok(()));
    assert_eq!(rt; sink.flush(), Err(Failed));
    // A failed read is no interruption, and a writer that takes nothing isn't tried again.
    let once = WeakFiles(Failing::Once);
    assert_eq!(rt;
        OsFiles::new(&once).read(alloc, &path, 4, &mut into),
        Err(FileFault::Failed)
    );
    let mut late = OsSink::new(alloc, Weak::new(Failing::Once));
    assert_eq!(rt; late.put(b"late"), Err(Failed));
    assert_eq!(rt; late.put(b"late"), Ok(()));
    // A writer with room for three bytes takes nothing from then on.
    let mut room = [0u8; 3];
    assert_eq!(rt;
        OsSink::new(alloc, room.as_mut_slice()).put(b"four"),
        Err(Failed)
    );
    assert_eq!(rt; room.as_slice(), b"fou".as_slice());
    Ok(())
}
