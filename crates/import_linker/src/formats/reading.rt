// The reading of a file's bytes.

ghost use Rattle.std.specs.Prelude.{◌≤◌, length, IfOk, IfErr};
ghost use Rattle.import_linker.specs.formats.Format.{format_of};
ghost use Rattle.import_linker.specs.formats.Reading.{IsOnlyTree, RefusesTree, most_bytes};

use crate::formats::fault::TreeFault;
use crate::formats::format::{Format, format_of};
use bril_json::read_json;
use bril_text::read_text;
use bril_tree::tree::Tree;
use std::alloc::Global;

/// The tree that the bytes of the file at a path read as: in JSON where the path ends in `.json`, and in text
/// anywhere else.
///
/// `Misread`: the bytes read as no tree, for this fault. `Memory`: memory was wanting.
pub fn read_tree(alloc: Global, path: &[u8], source: &[u8]) -> Result<Tree, TreeFault>
    requires { length source.now ≤ most_bytes }
    ensures ok { IfOk result (IsOnlyTree (format_of path.now) source.now) }
    ensures err { IfErr result (λ fault. RefusesTree fault (format_of path.now) source.now) }
{
    match format_of(path) {
        Format::InText => Ok(read_text(alloc, source)?),
        Format::InJson => Ok(read_json(alloc, source)?),
    }
}
