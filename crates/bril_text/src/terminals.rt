// The tokens that are left to read, as terminals.

ghost use Rattle.std.specs.Prelude.{◌≡◌, [], length, drop, MatchOption};
ghost use Rattle.std.specs.List.{All};
ghost use Rattle.bril_lex.specs.Lexeme.{lexemes_of};
ghost use Rattle.std.specs.Option.{option_map};
ghost use Rattle.bril_grammar.specs.Fault.{front};
ghost use Rattle.bril_grammar.specs.Terminal.{terminals_of};
ghost use Rattle.bril_text.specs.Seen.{Splits, seen};
ghost use Rattle.bril_text.specs.Parse.{begins_with, keyword_at};
ghost use Rattle.bril_text.specs.Terminals.{IsTokenIn};

use crate::keyword::keyword;
use crate::terminal::{TerminalRef, terminal_of};
use bril_grammar::keyword::Keyword;
use bril_grammar::mark::Mark;
use bril_lex::token::Token;
use std::marker::Model;

// The tokens of a source from one of them on.
#[derive(Drop)]
pub struct Terminals<'a> {
    source: &'a [u8],
    tokens: &'a [Token],
}

impl<'a> Model for Terminals<'a> {
    ghost use Rattle.std.specs.Prelude.{List};
    ghost use Rattle.bril_lex.specs.Lexeme.{Lexeme};

    ghost Value = { List Lexeme };

    ghost use Rattle.std.specs.List.{All};
    ghost use Rattle.bril_lex.specs.Lexeme.{lexemes_of};
    ghost use Rattle.bril_text.specs.Terminals.{IsTokenIn};

    ghost view = { λ w. lexemes_of w.source.now w.tokens.now };

    ghost invariant = { λ w. All (IsTokenIn w.source.now) w.tokens.now };
}

impl<'a> Terminals<'a> {
    // The terminals of these tokens of a source.
    pub fn new(source: &'a [u8], tokens: &'a [Token]) -> Terminals<'a>
        requires { All (IsTokenIn source.now) tokens.now }
        ensures { result ≡ lexemes_of source.now tokens.now }
    {
        Terminals { source, tokens }
    }

    // How many are left.
    pub fn left(&self) -> usize
        ensures { result ≡ length self.now }
    {
        self.tokens.len()
    }

    // The next terminal and those after it, or None where none is left.
    pub fn split(self) -> Option<(TerminalRef<'a>, Terminals<'a>)>
        ensures { MatchOption result (self.entry ≡ []) (λ x. Splits self.entry x.0 x.1) }
    {
        let Terminals { source, tokens } = self;
        let (token, rest) = tokens.split_first()?;
        let text = &source[token.from as usize..token.to as usize];
        let terminal = terminal_of(token.kind, text);
        Some((
            terminal,
            Terminals {
                source,
                tokens: rest,
            },
        ))
    }

    // The next terminal, or None where none is left.
    pub fn peek(&self) -> Option<TerminalRef<'a>>
        ensures { option_map seen result ≡ front (terminals_of self.now) }
    {
        let (token, _) = self.tokens.split_first()?;
        let text = &self.source[token.from as usize..token.to as usize];
        Some(terminal_of(token.kind, text))
    }

    // Whether this mark comes next.
    pub fn begins_with(&self, mark: Mark) -> bool
        ensures { result ≡ begins_with mark (terminals_of self.now) }
    {
        match self.peek() {
            Some(TerminalRef::Mark(found)) => found == mark,
            _ => false,
        }
    }

    // What the next terminal is to the grammar, `Plain` where no identifier comes next.
    pub fn keyword(&self) -> Keyword
        ensures { result ≡ keyword_at (terminals_of self.now) }
    {
        match self.peek() {
            Some(TerminalRef::Name(text)) => keyword(text),
            _ => Keyword::Plain,
        }
    }

    // The terminals after the next one.
    pub fn skip(self) -> Terminals<'a>
        ensures { result ≡ drop 1 self.entry }
    {
        let Terminals { source, tokens } = self;
        match tokens.split_first() {
            None => Terminals { source, tokens },
            Some((_, rest)) => Terminals {
                source,
                tokens: rest,
            },
        }
    }
}
