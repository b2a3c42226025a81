// Writing the canonical text of a file.

ghost use Rattle.std.specs.Prelude.{◌≡◌, ◌++◌, OnOk, OnErr, All, IfSome};
ghost use Rattle.bril_text.specs.Canonical.{alias_text, taken_text, import_text, typed_text, args_text, ret_text, function_text, canonical_text};
ghost use Rattle.bril_tree.specs.TreeForm.{IsName, IsTaken, IsImport, IsDest, IsFunction, IsTree};
ghost use Rattle.bril_text.specs.Reading.{Spells};

pub mod laws;
mod line;
mod part;
mod terminal;

use bril_tree::bytes::Bytes;
use bril_tree::function_tree::{Dest, FuncTree};
use bril_tree::import::{Import, Taken};
use bril_tree::name::Name;
use bril_tree::tree::Tree;
use bril_tree::types::Ty;
use part::{Part, put_each, put_first_and_rest, put_list};
use std::alloc::AllocError;
use terminal::{put_type, put_typed};

/// Appends the canonical text of the tree to `into`: its imports, one a line, then its functions, with each label and
/// instruction on a line of its own.
///
/// In Bril's text form (the Bril documentation, "text format") the text spells this tree and no other. An error means
/// out of memory, and leaves `into` as it was.
pub fn write_text(tree: &Tree, into: &mut Bytes) -> Result<(), AllocError>
    ensures text { OnOk result (into.new ≡ into.old ++ canonical_text tree.now) }
    ensures err { OnErr result (into.new ≡ into.old) }
    ensures valid { OnOk result (IsTree tree.now) }
    ensures reads { OnOk result (Spells (canonical_text tree.now) tree.now) }
    ensures alone { OnOk result ((other : Tree) → Spells (canonical_text tree.now) other → other ≡ tree.now) }
{
    let mut text = into.fresh();
    put_each(tree.imports.as_slice(), &mut text)?;
    put_each(tree.funcs.as_slice(), &mut text)?;
    into.add(text.as_slice())
}

impl Part for Import {
    ghost canonical = { import_text };

    ghost is_part = { IsImport };

    fn put(&self, into: &mut Bytes) -> Result<(), AllocError> {
        into.add(b"from \"")?;
        into.add(self.path.as_bytes())?;
        into.add(b"\" import ")?;
        put_list(self.names.as_slice(), into)?;
        into.add(b";\n")
    }
}

impl Part for Taken {
    ghost canonical = { taken_text };

    ghost is_part = { IsTaken };

    // The function's name, and its other name here if it has one.
    fn put(&self, into: &mut Bytes) -> Result<(), AllocError> {
        into.add(b"@")?;
        into.add(self.name.as_bytes())?;
        put_alias(&self.alias, into)
    }
}

// Appends ` as @g` if there is another name.
fn put_alias(alias: &Option<Name>, into: &mut Bytes) -> Result<(), AllocError>
    ensures text { OnOk result (into.new ≡ into.old ++ alias_text alias.now) }
    ensures valid { OnOk result (IfSome alias.now IsName) }
{
    match alias {
        None => Ok(()),
        Some(alias) => {
            into.add(b" as @")?;
            into.add(alias.as_bytes())
        }
    }
}

impl Part for FuncTree {
    ghost canonical = { function_text };

    ghost is_part = { IsFunction };

    fn put(&self, into: &mut Bytes) -> Result<(), AllocError> {
        into.add(b"@")?;
        into.add(self.name.as_bytes())?;
        put_args(self.args.as_slice(), into)?;
        put_ret(&self.ret, into)?;
        into.add(b" {\n")?;
        put_each(self.code.as_slice(), into)?;
        into.add(b"}\n")
    }
}

// Appends the arguments between parentheses, if there are any.
fn put_args(args: &[Dest], into: &mut Bytes) -> Result<(), AllocError>
    ensures text { OnOk result (into.new ≡ into.old ++ args_text args.now) }
    ensures valid { OnOk result (All IsDest args.now) }
{
    let Some((first, rest)) = args.split_first() else {
        return Ok(());
    };
    into.add(b"(")?;
    put_first_and_rest(first, rest, into)?;
    into.add(b")")
}

impl Part for Dest {
    ghost canonical = { typed_text };

    ghost is_part = { IsDest };

    // Its name and its type.
    fn put(&self, into: &mut Bytes) -> Result<(), AllocError> {
        put_typed(&self.name, &self.ty, into)
    }
}

// Appends `: type` if there is a return type.
fn put_ret(ret: &Option<Ty>, into: &mut Bytes) -> Result<(), AllocError>
    ensures { OnOk result (into.new ≡ into.old ++ ret_text ret.now) }
{
    match ret {
        None => Ok(()),
        Some(ty) => {
            into.add(b": ")?;
            put_type(ty, into)
        }
    }
}
