// Tokens of Bril's text form.

use bril_tree::sequence::Seq;

/// The kind of a token, by its spelling.
#[derive(Clone, Copy, PartialEq, Eq, Debug, Drop)]
pub enum Kind {
    /// One of `_`, `%` and the ASCII letters, then any number of these, `.` and digits.
    Identifier,
    /// `@` and an identifier.
    Function,
    /// `.` and an identifier.
    Label,
    /// An optional `+` or `-`, then one or more digits.
    Number,
    /// A number followed by `.`, `e` or `E`, with all ASCII letters, digits, `.`, `+` and `-` after that.
    Float,
    /// A char literal: `'`, then `\` and one of `0abtnvfr`, or one scalar value other than LF in UTF-8, then `'`.
    /// So `'''` is a quote and `'\'` a backslash.
    Char,
    /// An import's path: `"`, then 1 to 4,096 bytes of UTF-8 without `"`, `\` and bytes below 0x20, then `"`.
    Path,
    /// One of `{ } ( ) : , ; = < >`.
    Mark,
}

/// A token: its kind, and its bytes in the source, from `from` up to `to` (counted from 0, `to` excluded).
#[derive(Clone, Copy, PartialEq, Eq, Debug, Drop)]
pub struct Token {
    pub kind: Kind,
    pub from: u32,
    pub to: u32,
}

/// The tokens of a source, in order.
#[derive(Drop)]
pub struct Tokens {
    pub list: Seq<Token>,
}
