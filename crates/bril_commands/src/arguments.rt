// The arguments of a program: the values that words spell.

ghost use Rattle.std.specs.Prelude.{IfOk, IfErr};
ghost use Rattle.bril_commands.specs.Arguments.{AreOnlyValues, RefusesArgs};
ghost use Rattle.bril_tree.specs.Run.{FitMain};

use bril_arguments::read_args;
use bril_report::Status;
use bril_tree::program::Prog;
use bril_tree::sequence::Seq;
use bril_tree::text::Text;
use bril_tree::value::Value;
use std::alloc::Global;

/// The values that the words spell as the arguments of `main`.
///
/// `ArgumentCount`, `BadArgument`: the words spell no such values.
pub fn values_of(alloc: Global, program: &Prog, words: &[Text]) -> Result<Seq<Value>, Status>
    ensures ok { IfOk result (λ values. AreOnlyValues program.now words.now values) }
    ensures fits { IfOk result (λ values. FitMain program.now values) }
    ensures err { IfErr result (λ status. RefusesArgs status program.now words.now) }
{
    // No command line has as many words.
    if words.len() > 4294967295 {
        return Err(Status::OutOfMemory);
    }
    Ok(read_args(alloc, program, words)?)
}
