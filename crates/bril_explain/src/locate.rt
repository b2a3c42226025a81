// Where the fault of a status stands.

ghost use Rattle.std.specs.Prelude.{◌≡◌, ◌≤◌, ◌<◌, ◌^◌, Some, None, IfErr, IfOk, List, find, length};
ghost use Rattle.std.specs.List.{All};
ghost use Rattle.std.specs.Option.{option_copied};
ghost use Rattle.bril_lex.specs.Cut.{AreTokens};
ghost use Rattle.bril_lex.specs.declared.token.Token.{Token};
ghost use Rattle.bril_text.specs.Terminals.{IsTokenIn};
ghost use Rattle.bril_explain.specs.Held.{HoldTarget, HoldsByte, HoldsFunction, HoldsSource};
ghost use Rattle.bril_explain.specs.Kept.{bytes_at};
ghost use Rattle.bril_explain.specs.Locate.{BeginsThere, IsByteOf, IsInProgram, IsLocated, IsNamedIn, StandsInFile, is_name, is_named, spot_at};
ghost use Rattle.bril_explain.specs.Message.{IsInside};
ghost use Rattle.bril_explain.specs.Target.{fault_name, fault_path, target_of};
ghost use Rattle.bril_explain.specs.declared.located.Spot.TheVariants as spot;

use crate::kept::{KeptFile, bytes_at, function_in};
use crate::located::{Located, Spot};
use crate::target::{Target, fault_name, fault_path, target_of};
use bril_lex::token::Token;
use bril_lex::{LexFault, tokens};
use bril_report::Status;
use bril_tree::bytes::Bytes;
use bril_tree::text::Text;
use source_places::{function_at, item_at};
use std::alloc::{AllocError, Global};

// Where the fault of a status stands, in the program whose first file is at the path `root`, by its files as they were read.
pub fn locate(
    alloc: Global,
    root: &str,
    status: &Status,
    kept: &[KeptFile],
) -> Result<Located, AllocError>
    requires { HoldTarget kept.now root.now (fault_path root.now status.now) (target_of status.now) }
    ensures located { IfOk result (IsLocated (bytes_at kept.now) root.now (fault_path root.now status.now) (fault_name status.now) (target_of status.now)) }
    ensures inside { IfOk result (λ located. IsInside located.spot) }
{
    let path = fault_path(root, status);
    match target_of(status) {
        Target::Byte { at } => at_byte(alloc, path, at as usize, kept),
        Target::Keys { func, item } => Ok(Located {
            path: Text::of(alloc, path)?,
            spot: Spot::Keys {
                func: func as usize,
                item,
            },
        }),
        Target::Function { func } => in_program(alloc, root, func as usize, None, kept),
        Target::Item { func, item } => in_program(alloc, root, func as usize, Some(item), kept),
        Target::Named => named_in(alloc, path, fault_name(status), kept),
        Target::File => Ok(Located {
            path: Text::of(alloc, path)?,
            spot: Spot::File,
        }),
    }
}

// The first token that is `@` and a name in the file at a path, or the file where it has none or is in JSON.
fn named_in(
    alloc: Global,
    path: &str,
    name: &[u8],
    kept: &[KeptFile],
) -> Result<Located, AllocError>
    requires { HoldsSource (bytes_at kept.now) path.now }
    ensures named { IfOk result (IsNamedIn (bytes_at kept.now) path.now name.now) }
    ensures inside { IfOk result (λ located. IsInside located.spot) }
{
    let own = Text::of(alloc, path)?;
    if path.as_bytes().ends_with(b".json") {
        return Ok(Located {
            path: own,
            spot: Spot::File,
        });
    }
    let Some(bytes) = bytes_at(kept, path.as_bytes()) else {
        unreachable!()
    };
    let spot = named_spot(alloc, bytes.as_slice(), name)?;
    Ok(Located { path: own, spot })
}

// Where the first token of a source begins that is `@` and the name, or in the file where there is none.
fn named_spot(alloc: Global, source: &[u8], name: &[u8]) -> Result<Spot, AllocError>
    requires few { length source.now < 2 ^ 32 }
    requires cut { (tokens : List Token) × AreTokens source.now tokens }
    ensures is { (tokens : List Token) → AreTokens source.now tokens → IfOk result (λ spot. spot ≡ spot_at source.now (find (is_named name.now source.now) tokens)) }
    ensures inside { IfOk result IsInside }
{
    match tokens(alloc, source) {
        Ok(found) => match named_among(source, found.list.as_slice(), name) {
            Some(token) => spot_in(alloc, source, token.from as usize),
            None => Ok(Spot::File),
        },
        Err(LexFault::Memory) => Err(AllocError),
        Err(LexFault::At { .. }) => unreachable!(),
    }
}

// The first of the tokens of a source that is `@` and the name.
fn named_among(source: &[u8], tokens: &[Token], name: &[u8]) -> Option<Token>
    requires { All (IsTokenIn source.now) tokens.now }
    ensures { result ≡ find (is_named name.now source.now) tokens.now }
{
    for token in tokens {
        if is_name(&source[token.from as usize..token.to as usize], name) {
            return Some(*token);
        }
    }
    None
}

// A byte of a source.
fn spot_in(alloc: Global, source: &[u8], at: usize) -> Result<Spot, AllocError>
    ensures { IfOk result (λ made. made ≡ spot.Byte source.now at) }
{
    let mut copy = Bytes::new(alloc);
    copy.add(source)?;
    Ok(Spot::Byte { source: copy, at })
}

// Whether a text is `@` and the name.
fn is_name(text: &[u8], name: &[u8]) -> bool
    ensures { result ≡ is_name name.now text.now }
{
    match text.split_first() {
        None => false,
        Some((first, rest)) => *first == b'@' && rest == name,
    }
}

// A byte of the file at a path.
fn at_byte(alloc: Global, path: &str, at: usize, kept: &[KeptFile]) -> Result<Located, AllocError>
    requires { HoldsByte (bytes_at kept.now) path.now at }
    ensures byte { IfOk result (IsByteOf (bytes_at kept.now) path.now at) }
    ensures inside { IfOk result (λ located. IsInside located.spot) }
{
    let Some(bytes) = bytes_at(kept, path.as_bytes()) else {
        unreachable!()
    };
    Ok(Located {
        path: Text::of(alloc, path)?,
        spot: spot_in(alloc, bytes.as_slice(), at)?,
    })
}

// A function of the linked program, or an item of it.
fn in_program(
    alloc: Global,
    root: &str,
    func: usize,
    item: Option<u32>,
    kept: &[KeptFile],
) -> Result<Located, AllocError>
    requires { HoldsFunction kept.now root.now func }
    ensures is { IfOk result (IsInProgram (bytes_at kept.now) root.now func item) }
    ensures inside { IfOk result (λ located. IsInside located.spot) }
{
    let Some(found) = function_in(kept, func) else {
        unreachable!()
    };
    let path = Text::of(alloc, found.file.path.as_str())?;
    let spot = in_file(alloc, path.as_bytes(), found.func, item, kept)?;
    Ok(Located { path, spot })
}

// Where a function of the file at a path begins, or an item of it.
fn in_file(
    alloc: Global,
    path: &[u8],
    func: usize,
    item: Option<u32>,
    kept: &[KeptFile],
) -> Result<Spot, AllocError>
    requires { HoldsSource (bytes_at kept.now) path.now }
    ensures stands { IfOk result (StandsInFile (bytes_at kept.now) path.now func item) }
    ensures inside { IfOk result IsInside }
{
    if path.ends_with(b".json") {
        return Ok(Spot::Keys { func, item });
    }
    let Some(bytes) = bytes_at(kept, path) else {
        unreachable!()
    };
    let source = bytes.as_slice();
    let at = byte_of(alloc, source, func, item)?;
    spot_in(alloc, source, at)
}

// The byte at which a function of a source begins, or an item of it, where the source has tokens.
fn byte_of(
    alloc: Global,
    source: &[u8],
    func: usize,
    item: Option<u32>,
) -> Result<usize, AllocError>
    requires few { length source.now < 2 ^ 32 }
    requires cut { (tokens : List Token) × AreTokens source.now tokens }
    ensures at { IfOk result (BeginsThere source.now func item) }
    ensures within { IfOk result (λ at. at ≤ length source.now) }
{
    match first_byte(alloc, source, func, item) {
        Ok(at) => Ok(at),
        Err(LexFault::Memory) => Err(AllocError),
        Err(LexFault::At { .. }) => unreachable!(),
    }
}

// The same, or why the source has no tokens.
fn first_byte(
    alloc: Global,
    source: &[u8],
    func: usize,
    item: Option<u32>,
) -> Result<usize, LexFault>
    requires { length source.now < 2 ^ 32 }
    ensures at { IfOk result (BeginsThere source.now func item) }
    ensures within { IfOk result (λ at. at ≤ length source.now) }
    ensures cut { (tokens : List Token) → AreTokens source.now tokens → IfErr result (λ fault. fault ≡ LexFault.Memory) }
{
    match item {
        None => function_at(alloc, source, func),
        Some(item) => item_at(alloc, source, func, item as usize),
    }
}
