// Which keyword of the grammar an identifier spells.

ghost use Rattle.std.specs.Prelude.{◌≡◌, map};
ghost use Rattle.bril_grammar.specs.Keyword.{keyword_of, keyword_among};
ghost use Rattle.bril_text.specs.Table.{entry_of};

use bril_grammar::keyword::Keyword;
use bril_tree::operation::{Op, is_float_operation};
use bril_tree::types::Base;

// The keywords of imports, types and constants.
const KEYWORDS: [(&[u8], Keyword); 11] = [
    (b"from", Keyword::From),
    (b"import", Keyword::Import),
    (b"as", Keyword::As),
    (b"int", Keyword::BaseType(Base::Int)),
    (b"bool", Keyword::BaseType(Base::Bool)),
    (b"char", Keyword::BaseType(Base::Char)),
    (b"ptr", Keyword::Ptr),
    (b"float", Keyword::FloatType),
    (b"const", Keyword::Const),
    (b"true", Keyword::Truth(true)),
    (b"false", Keyword::Truth(false)),
];

// What an identifier is to the grammar.
pub fn keyword(text: &[u8]) -> Keyword
    ensures { result ≡ keyword_of text.now }
{
    match keyword_among(&KEYWORDS, text) {
        Some(keyword) => keyword,
        None => match Op::spelled(text) {
            Some(op) => Keyword::Operation(op),
            None if is_float_operation(text) => Keyword::FloatOperation,
            None => Keyword::Plain,
        },
    }
}

// The keyword of the first row with this text.
fn keyword_among(rows: &[(&[u8], Keyword)], text: &[u8]) -> Option<Keyword>
    ensures { result ≡ keyword_among (map entry_of rows.now) text.now }
{
    'rows: for row in rows {
        let (spelling, keyword) = *row;
        if text == spelling {
            return Some(keyword);
        }
    }
    None
}
