// The classes of what a source is cut into.

use crate::token::Kind;

/// What a piece of a source is: a token of some kind, one blank (space, tab, CR, LF), or a comment.
#[derive(Clone, Copy, PartialEq, Eq, Debug, Drop)]
pub enum Class {
    OfKind(Kind),
    Blank,
    Comment,
}
