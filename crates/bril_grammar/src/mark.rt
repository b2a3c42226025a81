// The punctuation of Bril's text form.

/// A token of one byte, one of `{ } ( ) : , ; = < >`.
#[derive(Clone, Copy, PartialEq, Eq, Debug, Drop)]
pub enum Mark {
    OpenBrace,
    CloseBrace,
    OpenParen,
    CloseParen,
    Colon,
    Comma,
    Semicolon,
    Equals,
    Less,
    Greater,
}
