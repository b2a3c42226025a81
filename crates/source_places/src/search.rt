// The search for a function and for an item among the signs of tokens.

ghost use Rattle.std.specs.Prelude.{◌≡◌, []};
ghost use Rattle.source_places.specs.Search.{body, head, past_item, past_items, past_semicolon};

use crate::sign::Sign;

// The signs behind the brace that opens the function of a number.
pub fn body(signs: &[Sign], func: usize) -> &[Sign]
    ensures { result.now ≡ body signs.now func }
{
    let mut rest = signs;
    let mut left = func;
    while let Some((sign, others)) = rest.split_first() {
        rest = others;
        if let Sign::Opening = *sign {
            if left == 0 {
                return rest;
            }
            left -= 1;
        }
    }
    rest
}

// The signs from the name of the function of a number on: it is the last function before the brace.
pub fn head(signs: &[Sign], func: usize) -> &[Sign]
    ensures { result.now ≡ head signs.now func [] }
{
    let mut found: &[Sign] = &signs[signs.len()..];
    let mut rest = signs;
    let mut left = func;
    while let Some((sign, others)) = rest.split_first() {
        match *sign {
            Sign::Function => found = rest,
            Sign::Opening => {
                if left == 0 {
                    return found;
                }
                left -= 1;
            }
            Sign::Label | Sign::Semicolon | Sign::Other => {}
        }
        rest = others;
    }
    &signs[signs.len()..]
}

// The signs after so many items.
pub fn past_items(signs: &[Sign], items: usize) -> &[Sign]
    ensures { result.now ≡ past_items items signs.now }
{
    let mut rest = signs;
    let mut left = items;
    while left > 0 {
        rest = past_item(rest);
        left -= 1;
    }
    rest
}

// The signs after an item: a label and its colon, or what ends with a semicolon.
fn past_item(signs: &[Sign]) -> &[Sign]
    ensures { result.now ≡ past_item signs.now }
{
    match signs {
        [Sign::Label, _, rest @ ..] => rest,
        _ => past_semicolon(signs),
    }
}

// The signs after the first semicolon.
fn past_semicolon(signs: &[Sign]) -> &[Sign]
    ensures { result.now ≡ past_semicolon signs.now }
{
    let mut rest = signs;
    while let Some((sign, others)) = rest.split_first() {
        rest = others;
        if let Sign::Semicolon = *sign {
            return rest;
        }
    }
    rest
}
