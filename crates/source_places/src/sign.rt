// What tokens are to a search for functions and items.

ghost use Rattle.std.specs.Prelude.{◌≡◌, IfOk, map};
ghost use Rattle.std.specs.List.{All};
ghost use Rattle.bril_grammar.specs.Terminal.{mark_terminal};
ghost use Rattle.bril_lex.specs.Spelling.{IsTokenOf};
ghost use Rattle.bril_text.specs.Terminals.{IsTokenIn};
ghost use Rattle.source_places.specs.Sign.{sign_in, sign_of};

use bril_lex::token::{Kind, Token};
use bril_tree::sequence::Seq;
use std::alloc::{AllocError, Global};

// What a token is to a search for functions and items.
#[derive(Clone, Copy, PartialEq, Eq, Debug, Drop)]
pub enum Sign {
    Function,
    Label,
    // `{`
    Opening,
    Semicolon,
    Other,
}

// The signs of the tokens of a source.
pub fn signs_of(alloc: Global, source: &[u8], tokens: &[Token]) -> Result<Seq<Sign>, AllocError>
    requires { All (IsTokenIn source.now) tokens.now }
    ensures { IfOk result (λ signs. signs ≡ map (sign_in source.now) tokens.now) }
{
    let mut signs = Seq::new(alloc);
    for token in tokens {
        signs.push(sign_of(source, *token))?;
    }
    Ok(signs)
}

// The sign of a token of a source.
fn sign_of(source: &[u8], token: Token) -> Sign
    requires { IsTokenIn source.now token }
    ensures { result ≡ sign_in source.now token }
{
    match token.kind {
        Kind::Function => Sign::Function,
        Kind::Label => Sign::Label,
        Kind::Mark => mark_sign(&source[token.from as usize..token.to as usize]),
        Kind::Identifier | Kind::Number | Kind::Float | Kind::Char | Kind::Path => Sign::Other,
    }
}

// The sign of a mark.
fn mark_sign(text: &[u8]) -> Sign
    requires { IsTokenOf Kind.Mark text.now }
    ensures { result ≡ sign_of (mark_terminal text.now) }
{
    match text[0] {
        b'{' => Sign::Opening,
        b';' => Sign::Semicolon,
        b'}' | b'(' | b')' | b':' | b',' | b'=' | b'<' | b'>' => Sign::Other,
        _ => unreachable!(),
    }
}
