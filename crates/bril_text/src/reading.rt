// Reading a whole source.

ghost use Rattle.std.specs.Prelude.{◌≡◌, ◌⊎◌, ◌^◌, ◌<◌, ◌≤◌, ◌-◌, length, drop, IfOk, IfErr, MatchResult, Ok};
ghost use Rattle.bril_tree.specs.declared.tree.Tree.{Tree};
ghost use Rattle.bril_grammar.specs.Machine.{read};
ghost use Rattle.bril_grammar.specs.Terminal.{terminals_of};
ghost use Rattle.bril_text.specs.declared.fault.TextFault.{TextFault};
ghost use Rattle.bril_text.specs.declared.fault.TextFault.TheVariants.{Memory};
ghost use Rattle.bril_text.specs.Parse.{Runs};
ghost use Rattle.bril_text.specs.Reading.{Spells, HasFault, IsFaultOf, position_of, fault_of_kind, text_fault, IsWithin};

use crate::fault::TextFault;
use crate::functions::functions_at;
use crate::imports::imports_at;
use crate::parse::ParseFault;
use crate::terminals::Terminals;
use bril_grammar::fault::FaultKind;
use bril_lex::cut::tokens;
use bril_lex::token::Token;
use bril_tree::tree::Tree;
use std::alloc::Global;

/// Reads a source in Bril's text form as the tree that it spells.
///
/// `source` has fewer than 2^32 bytes. Its tokens are those of `bril_lex::cut::tokens`: each is the longest that fits,
/// with blanks and comments between them. Imports come first, each `from "path" import @f, @g as @h;`. A function is
/// `@name`, then `(x: int, y: ptr<bool>)` if it has arguments (`()` or nothing if it has none), `: T` if it returns a
/// value, and its items between braces. An item is a label `.label:`, a constant `x: T = const LITERAL;` with a number,
/// `true`, `false` or a char, or another instruction: `x: T = ` if it has a destination, the operation, its operands
/// and `;`. A type has at most 32 `ptr`. Variables, functions and labels may be mixed among the operands; each kind
/// makes a list of its own, in order. No identifier is reserved: one that `:` follows is the name of a destination.
///
/// Errors:
///
/// - `Lex` comes before all others, exactly where nothing begins at byte `at` and everything before it is tokens,
///   blanks and comments.
/// - Otherwise the fault is at the first token to which one of these applies, in this order. `Float`: a float where a
///   literal may come, `float` where a type may come, or an operation on floats where an operation may come and `:`
///   doesn't follow. `IntRange`: a number that is not an int of 64 bits, where a literal may come. `Deep`: the 33rd
///   `ptr` of a type. `Grammar`: no program continues with this token. `at` is the byte at which the token begins, or
///   the source's length at its end.
/// - `Memory` may come at any time, when memory runs out.
///
/// The text form is that of the Bril documentation (Cornell's CS 6120), "text format", with its memory, character, SSA,
/// speculative execution and import extensions. Takes time in proportion to the source.
pub fn read_text(alloc: Global, source: &[u8]) -> Result<Tree, TextFault>
    requires { length source.now < 2 ^ 32 }
    // What is read is what the source spells, and what it spells is read.
    ensures found { IfOk result (Spells source.now) }
    ensures reads { (tree : Tree) → Spells source.now tree
        → MatchResult result (λ read. read ≡ tree) (λ fault. fault ≡ Memory) }

    // The fault is the source's, and the source's fault is returned.
    ensures fault { IfErr result (IsFaultOf source.now) }
    ensures faults { (why : TextFault) → HasFault source.now why
        → MatchResult result (λ _. ⊥) (λ fault. (fault ≡ why) ⊎ (fault ≡ Memory)) }
{
    let found = tokens(alloc, source)?;
    let list = found.list.as_slice();
    match program_at(alloc, Terminals::new(source, list)) {
        Ok(tree) => Ok(tree),
        Err(fault) => Err(text_fault(source, list, fault)),
    }
}

// The tree of all terminals.
fn program_at(alloc: Global, terminals: Terminals<'_>) -> Result<Tree, ParseFault>
    ensures { Runs (read terminals.entry) result (λ tree. Ok tree) }
{
    let (imports, terminals) = imports_at(alloc, terminals)?;
    let funcs = functions_at(alloc, terminals)?;
    Ok(Tree { imports, funcs })
}

// The fault at the byte where its token begins.
fn text_fault(source: &[u8], tokens: &[Token], fault: ParseFault) -> TextFault
    requires short { length source.now < 2 ^ 32 }
    requires within { IsWithin tokens.now fault }
    ensures { result ≡ text_fault source.now tokens.now fault }
{
    match fault {
        ParseFault::At(fault) => fault_of_kind(fault.kind, position_of(source, tokens, fault.left)),
        ParseFault::Memory => TextFault::Memory,
    }
}

// The first byte of the token where this many are left, or the source's length where none is left.
fn position_of(source: &[u8], tokens: &[Token], left: usize) -> u32
    requires short { length source.now < 2 ^ 32 }
    requires few { left ≤ length tokens.now }
    ensures { result ≡ position_of source.now (drop (length tokens.now - left) tokens.now) }
{
    match tokens[tokens.len() - left..].first() {
        Some(token) => token.from,
        None => source.len() as u32,
    }
}

// The fault of a kind at this byte.
fn fault_of_kind(kind: FaultKind, at: u32) -> TextFault
    ensures { result ≡ fault_of_kind kind at }
{
    match kind {
        FaultKind::Float => TextFault::Float { at },
        FaultKind::IntRange => TextFault::IntRange { at },
        FaultKind::Deep => TextFault::Deep { at },
        FaultKind::Grammar => TextFault::Grammar { at },
    }
}
