// An import of functions from another file.

ghost use Rattle.std.specs.Prelude.{◌<◌, length, IsTrue};
ghost use Rattle.bril_tree.specs.Path.{IsImportPath};

use crate::name::Name;
use crate::sequence::Seq;
use crate::text::Text;

/// A function that an import takes, and the name that it has here, where that is another.
#[derive(Drop)]
pub struct Taken {
    pub name: Name,
    pub alias: Option<Name>,
}

/// `from "path" import ..`. The path has 1 to 4,096 bytes, none of them `"`, `\` or below 0x20, and at
/// least one function is taken.
#[derive(Drop)]
pub struct Import {
    pub path: Text,
    pub names: Seq<Taken>,
    pub ghost has_path: { IsImportPath path },
    pub ghost takes_some: { 0 < length names },
}
