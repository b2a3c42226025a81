// The terminals of the grammar that tokens are.

ghost use Rattle.std.specs.Prelude.{◌≡◌, IsTrue};
ghost use Rattle.bril_lex.specs.Spelling.{IsTokenOf, escaped, is_mark};
ghost use Rattle.bril_grammar.specs.Terminal.{terminal_as, char_value, scalar_at_front, mark_among, marks, Punctuation};
ghost use Rattle.bril_text.specs.Seen.{seen, IsWhole, IsInsideChar, IsScalarText, IsInsidePath, escape_of};

use bril_grammar::mark::Mark;
use bril_lex::token::Kind;
use bril_nums::read_int;
use std::str::from_utf8;

// An identifier by its text; a function and a label by their names, without `@` and `.`; a number by its value where
// that is an int of 64 bits; a char by its scalar value; a path without its quotes.
#[derive(Clone, Copy)]
pub enum TerminalRef<'a> {
    Name(&'a [u8]),
    Function(&'a [u8]),
    Label(&'a [u8]),
    Number(Option<i64>),
    Float,
    Char(char),
    Path(&'a str),
    Mark(Mark),
}

// The terminal that a token of this kind spells.
pub fn terminal_of(kind: Kind, text: &[u8]) -> TerminalRef<'_>
    requires { IsTokenOf kind text.now }
    ensures seen { seen result ≡ terminal_as kind text.now }
    ensures whole { IsWhole result }
{
    match kind {
        Kind::Identifier => TerminalRef::Name(text),
        Kind::Function => TerminalRef::Function(&text[1..]),
        Kind::Label => TerminalRef::Label(&text[1..]),
        Kind::Number => TerminalRef::Number(read_int(text)),
        Kind::Float => TerminalRef::Float,
        Kind::Char => TerminalRef::Char(char_of(&text[1..text.len() - 1])),
        Kind::Path => TerminalRef::Path(path_of(&text[1..text.len() - 1])),
        Kind::Mark => TerminalRef::Mark(mark_of(text[0])),
    }
}

// The scalar value of the text between the quotes of a char.
fn char_of(text: &[u8]) -> char
    requires { IsInsideChar text.now }
    ensures { result ≡ char_value text.now }
{
    match escape_of(text) {
        Some(value) => value,
        None => scalar_of(text),
    }
}

// The character of an escape, where the text is `\` and the letter of one.
fn escape_of(text: &[u8]) -> Option<char>
    ensures { result ≡ escape_of text.now }
{
    if text.len() == 2 && text[0] == b'\\' {
        escaped(text[1])
    } else {
        None
    }
}

// The character that `\` and this letter stand for.
fn escaped(letter: u8) -> Option<char>
    ensures { result ≡ escaped letter }
{
    match letter {
        b'0' => Some('\0'),
        b'a' => Some('\u{7}'),
        b'b' => Some('\u{8}'),
        b't' => Some('\t'),
        b'n' => Some('\n'),
        b'v' => Some('\u{b}'),
        b'f' => Some('\u{c}'),
        b'r' => Some('\r'),
        _ => None,
    }
}

// The scalar value that the bytes spell in UTF-8.
fn scalar_of(text: &[u8]) -> char
    requires { IsScalarText text.now }
    ensures { result ≡ scalar_at_front text.now }
{
    match from_utf8(text) {
        Ok(text) => match text.chars().next() {
            Some(scalar) => scalar,
            None => unreachable!(),
        },
        Err(_) => unreachable!(),
    }
}

// The path between the quotes.
fn path_of(text: &[u8]) -> &str
    requires { IsInsidePath text.now }
    ensures { result.now ≡ text.now }
{
    match from_utf8(text) {
        Ok(text) => text,
        Err(_) => unreachable!(),
    }
}

// The mark with this byte.
fn mark_of(byte: u8) -> Mark
    requires { IsTrue (is_mark byte) }
    ensures { Punctuation result ≡ mark_among marks byte }
{
    match byte {
        b'{' => Mark::OpenBrace,
        b'}' => Mark::CloseBrace,
        b'(' => Mark::OpenParen,
        b')' => Mark::CloseParen,
        b':' => Mark::Colon,
        b',' => Mark::Comma,
        b';' => Mark::Semicolon,
        b'=' => Mark::Equals,
        b'<' => Mark::Less,
        b'>' => Mark::Greater,
        _ => unreachable!(),
    }
}
