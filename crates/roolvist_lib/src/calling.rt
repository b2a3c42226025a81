// A call with the shipped passes, as a job.

ghost use Rattle.bril_outside.specs.Memory.{files_seen};
ghost use Rattle.shipped_passes.specs.Shipped.{AreShipped};
ghost use Rattle.roolvist_lib.specs.Answered.{EndsSo};
ghost use Rattle.roolvist_lib.specs.Buffers.{held_seen};

use crate::buffer_sink::{BufferSink, Room};
use crate::given::Given;
use crate::reader::Reader;
use bril_cli::end::end;
use bril_outside::mem_files::MemFiles;
use pass_law::Pass;
use shipped_passes::Job;
use std::alloc::Global;
use std::marker::PhantomData;

/// How the words of a call ended, and its two outputs.
#[derive(Drop)]
pub struct Ended<O: Room, E: Room> {
    pub status: u8,
    pub out: BufferSink<O>,
    pub err: BufferSink<E>,
}

/// A call with its two outputs, as what is done with the shipped passes. It is known to keep what `K` reads of the program's promises.
#[derive(Drop)]
pub struct Calling<K, O: Room, E: Room> {
    pub alloc: Global,
    pub given: Given,
    pub out: BufferSink<O>,
    pub err: BufferSink<E>,
    pub reader: PhantomData<K>,
}

impl<K: Reader, O: Room, E: Room> Job for Calling<K, O, E> {
    type Answer = Ended<O, E>;

    ghost done = { λ call answer. EndsSo K.reading.Says call.given.words (files_seen call.given.files) answer.status (held_seen call.out) (held_seen answer.out) (held_seen call.err) (held_seen answer.err) };

    fn work(self, passes: &mut [Box<dyn Pass>]) -> Ended<O, E> {
        let alloc = self.alloc;
        let Calling {
            given,
            mut out,
            mut err,
            ..
        } = self;
        let Given { words, mut files } = given;
        let status = end::<MemFiles, BufferSink<O>, BufferSink<E>>(
            alloc,
            Ok(words),
            &mut files,
            &mut out,
            &mut err,
            passes,
        );
        Ended { status, out, err }
    }
}
