// The canonical text of programs.

ghost use Rattle.std.specs.Prelude.{◌<◌, ◌^◌, length};

use bril_names::unnumber;
use bril_text::write_text;
use bril_tree::bytes::Bytes;
use case_text::{LineFault, add_lines, program_of};
use std::alloc::Global;

/// Appends the canonical text of the source's program.
pub fn add_numbered(alloc: Global, source: &[u8], shown: &mut Vec<u8>) -> Result<(), LineFault>
    requires { length source.now < 2 ^ 32 }
{
    let prog = program_of(alloc, source)?;
    let tree = unnumber(alloc, &prog)?;
    let mut text = Bytes::new(alloc);
    write_text(&tree, &mut text)?;
    add_lines(alloc, "", text.as_slice(), shown)?;
    Ok(())
}
