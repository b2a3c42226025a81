// Reading imports.

ghost use Rattle.std.specs.Prelude.{◌≡◌, ◌<◌, ◌≤◌, ◌++◌, ◌∷◌, [], ℕ, List, IfOk, length, IsTrue};
ghost use Rattle.bril_tree.specs.declared.import.Import.{Import};
ghost use Rattle.bril_tree.specs.Path.{ImportPath, IsImportPath};
ghost use Rattle.bril_grammar.specs.Machine.{run};
ghost use Rattle.bril_grammar.specs.State.{Importing, AtImport, AtPath, AtImportKeyword, AtTaken, AfterAlias, AfterTaken, AtFunction};
ghost use Rattle.bril_grammar.specs.Terminal.{terminals_of};
ghost use Rattle.bril_text.specs.Parse.{Runs, LeadsTo, begin_import};

use crate::parse::{ParseFault, comma_or, fault_at, function_name, name_of};
use crate::terminal::TerminalRef;
use crate::terminals::Terminals;
use bril_grammar::fault::FaultKind;
use bril_grammar::keyword::Keyword;
use bril_grammar::mark::Mark;
use bril_tree::import::{Import, Taken};
use bril_tree::name::Name;
use bril_tree::sequence::Seq;
use bril_tree::text::Text;
use std::alloc::Global;

// The imports that come next, and the terminals after them.
pub fn imports_at<'a>(
    alloc: Global,
    terminals: Terminals<'a>,
) -> Result<(Seq<Import>, Terminals<'a>), ParseFault>
    ensures { Runs (run (AtImport []) (terminals_of terminals.entry)) result (λ x. run (AtFunction x.0 []) (terminals_of x.1)) }
{
    let mut imports = Seq::new(alloc);
    let mut terminals = terminals;
    'imports: while matches!(terminals.keyword(), Keyword::From) {
        let (import, rest) = import_at(alloc, terminals.skip())?;
        imports.push(import)?;
        terminals = rest;
    }
    Ok((imports, terminals))
}

// The rest of an import, after `from`.
fn import_at<'a>(
    alloc: Global,
    terminals: Terminals<'a>,
) -> Result<(Import, Terminals<'a>), ParseFault>
    ensures runs { (imports : List Import) → Runs (run (AtPath imports) (terminals_of terminals.entry)) result
        (λ x. run (AtImport (imports ++ (x.0 ∷ []))) (terminals_of x.1)) }
    ensures shorter { IfOk result (λ x. length x.1 < length terminals.entry) }
{
    let (path, terminals) = path_at(terminals)?;
    let terminals = import_keyword(terminals)?;
    let (names, terminals) = taken_list(alloc, terminals)?;
    let text = Text::of(alloc, path)?;
    Ok((Import { path: text, names }, terminals))
}

// The path that comes next.
fn path_at(terminals: Terminals<'_>) -> Result<(&str, Terminals<'_>), ParseFault>
    ensures runs { (imports : List Import) → LeadsTo (run (AtPath imports) (terminals_of terminals.entry)) result
        (λ x. (path : ImportPath) → path.bytes ≡ x.0.now → run (AtPath imports) (terminals_of terminals.entry) ≡ run (AtImportKeyword imports path) (terminals_of x.1)) }
    ensures path { IfOk result (λ x. IsImportPath x.0.now) }
    ensures shorter { IfOk result (λ x. length x.1 < length terminals.entry) }
{
    let left = terminals.left();
    match terminals.split() {
        Some((TerminalRef::Path(path), rest)) => Ok((path, rest)),
        _ => Err(fault_at(FaultKind::Grammar, left)),
    }
}

// The terminals after the keyword `import`, which must come next.
fn import_keyword(terminals: Terminals<'_>) -> Result<Terminals<'_>, ParseFault>
    ensures runs { (imports : List Import) (path : ImportPath) →
        Runs (run (AtImportKeyword imports path) (terminals_of terminals.entry)) result
        (λ rest. run (AtTaken (begin_import imports path [])) (terminals_of rest)) }
    ensures shorter { IfOk result (λ rest. length rest ≤ length terminals.entry) }
{
    if matches!(terminals.keyword(), Keyword::Import) {
        Ok(terminals.skip())
    } else {
        Err(fault_at(FaultKind::Grammar, terminals.left()))
    }
}

// One or more imported functions, up to `;`, and the terminals after it.
fn taken_list<'a>(
    alloc: Global,
    terminals: Terminals<'a>,
) -> Result<(Seq<Taken>, Terminals<'a>), ParseFault>
    ensures runs { (imports : List Import) (path : ImportPath) →
        LeadsTo (run (AtTaken (begin_import imports path [])) (terminals_of terminals.entry)) result
        (λ x. (import : Import) → import.path ≡ path.bytes → import.names ≡ x.0 →
        run (AtTaken (begin_import imports path [])) (terminals_of terminals.entry) ≡ run (AtImport (imports ++ (import ∷ []))) (terminals_of x.1)) }
    ensures some { IfOk result (λ x. 0 < length x.0) }
    ensures shorter { IfOk result (λ x. length x.1 < length terminals.entry) }
{
    let mut names = Seq::new(alloc);
    let mut terminals = terminals;
    'taken: loop {
        let (taken, rest) = taken_at(alloc, terminals)?;
        names.push(taken)?;
        let (more, rest) = comma_or(Mark::Semicolon, rest)?;
        if !more {
            return Ok((names, rest));
        }
        terminals = rest;
    }
}

// An imported function.
fn taken_at<'a>(
    alloc: Global,
    terminals: Terminals<'a>,
) -> Result<(Taken, Terminals<'a>), ParseFault>
    ensures runs { (i : Importing) → Runs (run (AtTaken i) (terminals_of terminals.entry)) result
        (λ x. run (AfterAlias i x.0) (terminals_of x.1)) }
    ensures shorter { IfOk result (λ x. length x.1 < length terminals.entry) }
{
    let (text, terminals) = function_name(terminals)?;
    let (alias, terminals) = alias_at(alloc, terminals)?;
    let name = name_of(alloc, text)?;
    Ok((Taken { name, alias }, terminals))
}

// The name after `as`, if that comes next.
fn alias_at<'a>(
    alloc: Global,
    terminals: Terminals<'a>,
) -> Result<(Option<Name>, Terminals<'a>), ParseFault>
    ensures runs { (i : Importing) (name : List ℕ) → Runs (run (AfterTaken i name) (terminals_of terminals.entry)) result
        (λ x. run (AfterAlias i (record { name = name; alias = x.0 })) (terminals_of x.1)) }
    ensures shorter { IfOk result (λ x. length x.1 ≤ length terminals.entry) }
{
    match terminals.keyword() {
        Keyword::As => {
            let (text, terminals) = function_name(terminals.skip())?;
            Ok((Some(name_of(alloc, text)?), terminals))
        }
        _ => Ok((None, terminals)),
    }
}
