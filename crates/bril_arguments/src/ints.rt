// Ints, read from words.

ghost use Rattle.std.specs.Prelude.{◌≡◌, ◌≢◌, ◌^◌, ◌<◌, List, length, IfOk, IfErr, MatchResult};
ghost use Rattle.std.specs.List.{All};
ghost use Rattle.bril_tree.specs.declared.value.Value.{Value};
ghost use Rattle.bril_arguments.specs.Ints.{AreInts, IsIntInRange, IsIntFaultOf};
ghost use Rattle.bril_arguments.specs.declared.fault.ArgFault.{ArgFault};
ghost use Rattle.bril_arguments.specs.declared.fault.ArgFault.TheVariants.{Memory};

use crate::fault::ArgFault;
use crate::spelling::read_value;
use bril_tree::sequence::Seq;
use bril_tree::text::Text;
use bril_tree::types::{Base, Ty};
use bril_tree::value::Value;
use std::alloc::Global;

/// The ints that the words spell, in order. An int is spelled as an argument of `main` is: by an optional `+` or `-` and one
/// decimal digit or more, leading zeros allowed, in the range of 64 bits.
///
/// `Spelling` comes exactly where a word spells no int, with the place of the first such word, from 1. `Memory` may come in
/// place of the values, where there are any, out of memory. `Count` never comes.
pub fn read_ints(alloc: Global, words: &[Text]) -> Result<Seq<Value>, ArgFault>
    requires { length words.now < 2 ^ 32 }
    // The values are those that the words spell: an int of 64 bits for each word.
    ensures ok { IfOk result (λ values. AreInts words.now values) }
    ensures ints { IfOk result (λ values. All IsIntInRange values) }
    ensures len { IfOk result (λ values. length values ≡ length words.now) }
    ensures reads { (values : List Value) → AreInts words.now values
        → MatchResult result (λ found. found ≡ values) (λ e. e ≡ Memory) }

    // A fault is the words', and the words' fault is answered.
    ensures fault { IfErr result (λ e. IsIntFaultOf words.now e) }
    ensures faults { (fault : ArgFault) → fault ≢ Memory → IsIntFaultOf words.now fault
        → MatchResult result (λ _. ⊥) (λ e. e ≡ fault) }
{
    read_each(alloc, words)
}

// The ints that the words spell; else the first fault.
fn read_each(alloc: Global, words: &[Text]) -> Result<Seq<Value>, ArgFault>
    requires { length words.now < 2 ^ 32 }
    ensures ok { IfOk result (λ values. AreInts words.now values) }
    ensures fault { IfErr result (λ e. IsIntFaultOf words.now e) }
{
    let ty = Some(Ty {
        depth: 0,
        base: Base::Int,
    });
    let mut values = Seq::new(alloc);
    // Out of memory is told after all words, so that it hides no fault of theirs.
    let mut wanting = false;
    for (index, word) in words.iter().enumerate() {
        let Some(value) = read_value(ty, word) else {
            return Err(ArgFault::Spelling {
                place: index as u32 + 1,
            });
        };
        if values.push(value).is_err() {
            wanting = true;
        }
    }
    if wanting {
        return Err(ArgFault::Memory);
    }
    Ok(values)
}
