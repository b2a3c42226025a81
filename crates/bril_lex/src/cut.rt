// A source cut into its tokens.

ghost use Rattle.std.specs.Prelude.{◌≡◌, ◌+◌, ◌^◌, ◌<◌, ◌≤◌, ◌++◌, ◌⊎◌, ℕ, List, length, drop, IfOk, IfErr, IfSome, OnOk, OnErr, MatchResult};
ghost use Rattle.std.specs.List.{All};
ghost use Rattle.bril_lex.specs.Lexeme.{lexemes_of};
ghost use Rattle.bril_lex.specs.Spelling.{IsTokenOf};
ghost use Rattle.bril_lex.specs.Cut.{AreTokens, StopsAt, IsFaultOf, AreInOrder, token_at};
ghost use Rattle.bril_lex.specs.declared.token.Token.{Token};
ghost use Rattle.bril_lex.specs.declared.cut.LexFault.TheVariants.{Memory};

use crate::class::Class;
use crate::scan::first_piece;
use crate::token::{Token, Tokens};
use bril_tree::sequence::Seq;
use std::alloc::{AllocError, Global};
use thiserror::Error;

/// Why a source has no tokens.
#[derive(Clone, Copy, PartialEq, Eq, Debug, Drop, Error)]
pub enum LexFault {
    /// No token, blank or comment begins at byte `at`, counted from 0. Everything before it is tokens, blanks and
    /// comments.
    #[error("nothing begins at byte {at}")]
    At { at: u32 },
    /// Out of memory.
    #[error("out of memory")]
    Memory,
}

impl From<AllocError> for LexFault {
    ghost from_gives = { λ _ e. e ≡ Memory };

    fn from(_fault: AllocError) -> LexFault {
        LexFault::Memory
    }
}

/// The tokens of a source in Bril's text form, in order. The source has fewer than 2^32 bytes. Spans count bytes from 0
/// and don't overlap.
///
/// At each byte the longest token, blank (space, tab, CR, LF) or comment is taken; `Kind` lists the tokens. A comment
/// runs from `#` to the end of its line (before LF), or up to the first byte that is not valid UTF-8. Takes time in
/// proportion to the source.
///
/// `At` comes exactly where nothing begins at that byte and everything before it is cut, `Memory` when memory runs out.
///
/// The text form is that of the Bril documentation (Cornell's CS 6120), with chars, paths and comments as described
/// here.
pub fn tokens(alloc: Global, source: &[u8]) -> Result<Tokens, LexFault>
    requires { length source.now < 2 ^ 32 }
    ensures ok { IfOk result (λ found. AreTokens source.now found.list) }
    ensures reads { (ts : List Token) → AreTokens source.now ts → MatchResult result (λ found. found.list ≡ ts) (λ fault. fault ≡ LexFault.Memory) }
    ensures spelled { IfOk result (λ found. All (λ l. IsTokenOf l.kind l.text) (lexemes_of source.now found.list)) }
    ensures in_order { IfOk result (λ found. AreInOrder 0 found.list (length source.now)) }

    ensures fault { IfErr result (IsFaultOf source.now) }
    ensures stops { (at : ℕ) → StopsAt source.now at → MatchResult result (λ _. ⊥) (λ fault. (fault ≡ LexFault.At at) ⊎ (fault ≡ LexFault.Memory)) }
{
    cut(alloc, source)
}

// The cut, or what stops it.
fn cut(alloc: Global, source: &[u8]) -> Result<Tokens, LexFault>
    requires { length source.now < 2 ^ 32 }
    ensures ok { IfOk result (λ found. AreTokens source.now found.list) }
    ensures fault { IfErr result (IsFaultOf source.now) }
{
    let mut list = Seq::new(alloc);
    let mut at = 0;
    while at < source.len() {
        let Some(piece) = first_piece(&source[at..]) else {
            return Err(LexFault::At { at: at as u32 });
        };
        let to = at + piece.length;
        add(&mut list, piece.class, at as u32, to as u32)?;
        at = to;
    }
    Ok(Tokens { list })
}

// Adds the piece between two positions, if it is a token.
fn add(list: &mut Seq<Token>, class: Class, from: u32, to: u32) -> Result<(), AllocError>
    ensures ok { OnOk result (list.new ≡ list.old ++ token_at class from to) }
{
    match class {
        Class::OfKind(kind) => list.push(Token { kind, from, to }),
        Class::Blank => Ok(()),
        Class::Comment => Ok(()),
    }
}
