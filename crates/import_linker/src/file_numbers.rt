// The files that the imports of one file name, each path looked up once.

ghost use Rattle.std.specs.Prelude.{◌≡◌, [], IfOk, OnOk};
ghost use Rattle.import_linker.specs.Looked.{AreNumbers};
ghost use Rattle.import_linker.specs.Order.{file_at, joined};

use crate::known_paths::KnownPaths;
use crate::paths::joined;
use crate::table::Table;
use bril_tree::sequence::Seq;
use bril_tree::text::Text;
use std::alloc::{AllocError, Global};

/// Paths as the imports of a file have them, and beside each the number of its file.
#[derive(Drop)]
pub(crate) struct FileNumbers<'t> {
    pub(crate) paths: Table<'t>,
    pub(crate) numbers: Seq<usize>,
}

impl<'t> FileNumbers<'t> {
    /// None so far. Takes no memory.
    pub(crate) fn new(alloc: Global) -> FileNumbers<'t>
        ensures paths { result.paths ≡ [] }
        ensures numbers { result.numbers ≡ [] }
    {
        FileNumbers {
            paths: Table::new(alloc),
            numbers: Seq::new(alloc),
        }
    }

    /// The number of the file that a path names in the file of the importer, and the number of all where it isn't known.
    pub(crate) fn number_of(
        &mut self,
        alloc: Global,
        known: &KnownPaths,
        importer: &Text,
        path: &'t Text,
    ) -> Result<usize, AllocError>
        requires { AreNumbers known.now importer.now self.old.paths self.old.numbers }
        ensures number { IfOk result (λ number. number ≡ file_at known.now (joined importer.now path.now)) }
        ensures numbers { OnOk result (AreNumbers known.now importer.now self.new.paths self.new.numbers) }
    {
        if let Some(place) = self.paths.find(path.as_bytes()) {
            return Ok(self.numbers.as_slice()[place]);
        }
        let whole = joined(alloc, importer, path)?;
        let number = known.number_of(whole.as_str());
        self.numbers.push(number)?;
        self.paths.add(path.as_bytes())?;
        Ok(number)
    }
}
