// The names of a list of passes.

ghost use Rattle.std.specs.Prelude.{◌≡◌, IfOk, ◌==◌};
ghost use Rattle.std.specs.List.{count_by};
ghost use Rattle.bril_words.specs.Names.{names_of, has_few_names};

use bril_tree::sequence::Seq;
use bril_tree::text::Text;
use std::alloc::{AllocError, Global};

/// The names of a list of passes: the parts between its commas, which may be empty. An empty list has none.
pub fn names_of(alloc: Global, list: &str) -> Result<Seq<Text>, AllocError>
    ensures { IfOk result (λ names. names ≡ names_of list.now) }
{
    let mut names = Seq::new(alloc);
    if list.is_empty() {
        return Ok(names);
    }
    let mut rest = list;
    while let Some((name, others)) = rest.split_once(',') {
        names.push(Text::of(alloc, name)?)?;
        rest = others;
    }
    names.push(Text::of(alloc, rest)?)?;
    Ok(names)
}

// Whether a list has 64 names at most.
pub(crate) fn has_few_names(list: &str) -> bool
    ensures { result ≡ has_few_names list.now }
{
    commas(list.as_bytes()) < 64
}

// How many commas there are.
fn commas(list: &[u8]) -> usize
    ensures { result ≡ count_by (λ b. b == 44) list.now }
{
    list.iter().filter(|byte| **byte == b',').count()
}
