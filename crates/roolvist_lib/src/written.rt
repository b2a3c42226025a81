// What is written to the buffers of a call.

ghost use Rattle.std.specs.Prelude.{◌≡◌, length};
ghost use Rattle.roolvist_lib.specs.Buffers.{HoldsFirst};

/// How many bytes were put into each of the two outputs.
#[repr(C)]
#[derive(Clone, Copy, Drop)]
pub struct Written {
    pub out: usize,
    pub err: usize,
}

/// Copies the bytes into the buffer, as far as it has room, and says how many.
pub fn copied(bytes: &[u8], buffer: &mut [u8]) -> usize
    ensures { HoldsFirst bytes.now buffer.old buffer.new result }
{
    let count = bytes.len().min(buffer.len());
    buffer[..count].copy_from_slice(&bytes[..count]);
    count
}
