// Where functions and items begin in a source.

ghost use Rattle.std.specs.Prelude.{◌≡◌, ◌≤◌, ◌<◌, ◌^◌, ◌-◌, List, length, drop, IfErr, IfOk};
ghost use Rattle.std.specs.List.{All};
ghost use Rattle.bril_lex.specs.Cut.{AreTokens};
ghost use Rattle.bril_lex.specs.declared.token.Token.{Token};
ghost use Rattle.bril_text.specs.Reading.{position_of};
ghost use Rattle.bril_text.specs.Terminals.{IsTokenIn};
ghost use Rattle.source_places.specs.Standing.{IsFunctionAt, IsItemAt};

use crate::search::{body, head, past_items};
use crate::sign::signs_of;
use bril_lex::token::Token;
use bril_lex::{LexFault, tokens};
use std::alloc::Global;

/// The byte at which the function of a number begins: its name, with the `@`. Where the source has no such function, some byte of it or
/// its end.
///
/// `At`: the source isn't cut into tokens. `Memory` may come at any time.
pub fn function_at(alloc: Global, source: &[u8], func: usize) -> Result<usize, LexFault>
    requires { length source.now < 2 ^ 32 }
    ensures at { IfOk result (IsFunctionAt source.now func) }
    ensures within { IfOk result (λ at. at ≤ length source.now) }
    ensures cut { (ts : List Token) → AreTokens source.now ts → IfErr result (λ fault. fault ≡ LexFault.Memory) }
{
    let found = tokens(alloc, source)?;
    let list = found.list.as_slice();
    let signs = signs_of(alloc, source, list)?;
    let left = head(signs.as_slice(), func).len();
    Ok(position_of(source, list, left))
}

/// The byte at which an item of the function of a number begins: its first token, or the closing brace for the number of all its items.
/// Where the source has no such item, some byte of it or its end.
///
/// `At`: the source isn't cut into tokens. `Memory` may come at any time.
pub fn item_at(alloc: Global, source: &[u8], func: usize, item: usize) -> Result<usize, LexFault>
    requires { length source.now < 2 ^ 32 }
    ensures at { IfOk result (IsItemAt source.now func item) }
    ensures within { IfOk result (λ at. at ≤ length source.now) }
    ensures cut { (ts : List Token) → AreTokens source.now ts → IfErr result (λ fault. fault ≡ LexFault.Memory) }
{
    let found = tokens(alloc, source)?;
    let list = found.list.as_slice();
    let signs = signs_of(alloc, source, list)?;
    let left = past_items(body(signs.as_slice(), func), item).len();
    Ok(position_of(source, list, left))
}

// The first byte of the token where this many are left, or the source's length where none is left.
fn position_of(source: &[u8], tokens: &[Token], left: usize) -> usize
    requires { All (IsTokenIn source.now) tokens.now }
    ensures at { result ≡ position_of source.now (drop (length tokens.now - left) tokens.now) }
    ensures within { result ≤ length source.now }
{
    match tokens[tokens.len().saturating_sub(left)..].first() {
        Some(token) => token.from as usize,
        None => source.len(),
    }
}
