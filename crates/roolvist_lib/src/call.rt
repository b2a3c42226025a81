// The call.

ghost use Rattle.std.specs.Prelude.{◌≡◌, IfOk, OnErr, length};
ghost use Rattle.bril_outside.specs.Memory.{files_seen};
ghost use Rattle.roolvist_lib.specs.Answered.{IsAnswered, IsDoneSo};
ghost use Rattle.roolvist_lib.specs.Given.{given_by};

use crate::buffer_sink::{BufferSink, Room};
use crate::calling::Calling;
use crate::given::{Given, read_given};
use crate::reader::Reader;
use crate::untold::Untold;
use crate::written::{Written, copied};
use bril_report::{Status, status_number};
use bril_words::Misuse;
use shipped_passes::with_shipped_passes;
use std::alloc::{AllocError, Global};
use std::marker::{Brand, PhantomData};

/// What `roolvist_call` does. Whatever `K` reads of the program's promises holds of the status and of what was written.
pub fn call_as<K: Reader>(
    alloc: Global,
    bytes: &[u8],
    lengths: &[usize],
    words: usize,
    out: &mut [u8],
    err: &mut [u8],
    written: &mut Written,
) -> u8
    ensures { IsAnswered K.reading.Says (given_by bytes.now lengths.now words) result (record { out = out.old; out_after = out.new; out_count = written.new.out; err = err.old; err_after = err.new; err_count = written.new.err }) }
{
    *written = Written { out: 0, err: 0 };
    match read_given(alloc, bytes, lengths, words) {
        Err(Untold::Misfit) => misfit_number(alloc),
        Err(Untold::Memory) => memory_number(),
        Ok(given) => match answer::<K, Brand, Brand>(alloc, given, out, err, written) {
            Ok(status) => status,
            Err(AllocError) => memory_number(),
        },
    }
}

// Does what the call asks for, with the shipped passes. Where there is no memory for these or for the outputs, nothing is done.
fn answer<K: Reader, O: Room, E: Room>(
    alloc: Global,
    given: Given,
    out: &mut [u8],
    err: &mut [u8],
    written: &mut Written,
) -> Result<u8, AllocError>
    requires out { length out.old ≡ O.room }
    requires err { length err.old ≡ E.room }
    ensures ok { IfOk result (λ status. IsDoneSo K.reading.Says given.words (files_seen given.files) status (record { out = out.old; out_after = out.new; out_count = written.new.out; err = err.old; err_after = err.new; err_count = written.new.err })) }
    ensures out { OnErr result (out.new ≡ out.old) }
    ensures err { OnErr result (err.new ≡ err.old) }
    ensures written { OnErr result (written.new ≡ written.old) }
{
    let calling = Calling::<K, O, E> {
        alloc,
        given,
        out: BufferSink::new(alloc, out.len())?,
        err: BufferSink::new(alloc, err.len())?,
        reader: PhantomData,
    };
    let ended = with_shipped_passes(alloc, calling)?;
    *written = Written {
        out: copied(ended.out.bytes(), out),
        err: copied(ended.err.bytes(), err),
    };
    Ok(ended.status)
}

// The status where the pieces of a call don't fit: that of a faulty command line.
fn misfit_number(alloc: Global) -> u8
    ensures { result ≡ 64 }
{
    status_number(&Status::Misused {
        misuse: Misuse::Words {
            text: String::new(alloc),
        },
    })
}

// The status where memory runs out.
fn memory_number() -> u8
    ensures { result ≡ 71 }
{
    status_number(&Status::OutOfMemory)
}
