// The list of passes: the program that it makes of an accepted program, and what is told of the passes that it used.

ghost use Rattle.std.specs.Prelude.{◌≡◌, ◌≤◌, [], length, take, drop, IfOk, IfErr};
ghost use Rattle.bril_commands.specs.PassList.{pass_list, IsMade, RefusesList, first_name, is_taken, is_used, used_pieces, pieces_from};
ghost use Rattle.bril_report.specs.Told.{Tells};
ghost use Rattle.pass_law.specs.Chains.{AllSame};
ghost use Rattle.std.specs.Option.{option_map};

use bril_checker::Checked;
use bril_outside::sink::Sink;
use bril_profile::Profile;
use bril_report::{ErrorOutput, Status, put_tally};
use bril_tree::sequence::Seq;
use bril_tree::text::Text;
use pass_law::{Pass, is_answered, run_list};
use std::alloc::Global;

/// The program that a list of passes makes of an accepted program, with a profile: each name is given to the first pass that answers to
/// it.
///
/// `UnknownPass`: no pass answers to the name at this place, the first such, and no pass ran. `PassTooLarge`: the pass at this place
/// refuses the program that it was given, for its bound on items.
pub fn transformed(
    alloc: Global,
    passes: &mut [Box<dyn Pass>],
    names: &Seq<Text>,
    checked: Checked,
    profile: &Profile,
) -> Result<Checked, Status>
    requires { length names.now ≤ 64 }
    ensures ok { IfOk result (λ made. IsMade (pass_list (λ p. meaning p) (λ p. counts p) passes.old passes.new names.now) profile.now.entries checked.prog made.prog) }
    ensures err { IfErr result (λ status. RefusesList status (pass_list (λ p. meaning p) (λ p. counts p) passes.old passes.new names.now) profile.now.entries checked.prog) }
    ensures same { AllSame (λ p. meaning p) passes.old passes.new }
{
    Ok(run_list(alloc, passes, names, checked, profile)?)
}

/// Tells the tallies of the passes that the list used, in their order, each piece of a line by one put.
pub fn tell_tallies<E: Sink>(passes: &[Box<dyn Pass>], names: &[Text], err: &mut ErrorOutput<'_, E>)
    ensures { Tells E.seen err.old (pieces_from (λ p. meaning p) (λ p. counts p) names.now [] passes.now) err.new }
{
    tell_from(passes, 0, names, err);
}

// Tells the lines of the passes from a place on.
fn tell_from<E: Sink>(
    passes: &[Box<dyn Pass>],
    place: usize,
    names: &[Text],
    err: &mut ErrorOutput<'_, E>,
)
    requires { place ≤ length passes.now }
    ensures { Tells E.seen err.old (pieces_from (λ p. meaning p) (λ p. counts p) names.now (take place passes.now) (drop place passes.now)) err.new }
{
    if place == passes.len() {
        return;
    }
    tell_used(&passes[..place], &passes[place], names, err);
    tell_from(passes, place + 1, names, err);
}

// Tells the line of a pass, where the list used it.
fn tell_used<E: Sink>(
    earlier: &[Box<dyn Pass>],
    pass: &Box<dyn Pass>,
    names: &[Text],
    err: &mut ErrorOutput<'_, E>,
)
    ensures { Tells E.seen err.old (used_pieces (λ p. meaning p) (λ p. counts p) names.now earlier.now pass.now) err.new }
{
    if !is_used(earlier, pass, names) {
        return;
    }
    if let Some(name) = first_name(pass, names) {
        let tally = pass.tally();
        put_tally(err, name, tally.runs, tally.seen, tally.made);
    }
}

// Whether the pass answers to a name to which no earlier one does.
fn is_used(earlier: &[Box<dyn Pass>], pass: &Box<dyn Pass>, names: &[Text]) -> bool
    ensures { result ≡ is_used (λ p. meaning p) earlier.now pass.now names.now }
{
    match names.split_first() {
        None => false,
        Some((name, rest)) => {
            is_taken(earlier, pass, name.as_bytes()) || is_used(earlier, pass, rest)
        }
    }
}

// Whether the pass answers to the name, and no earlier one does.
fn is_taken(earlier: &[Box<dyn Pass>], pass: &Box<dyn Pass>, name: &[u8]) -> bool
    ensures { result ≡ is_taken (λ p. meaning p) earlier.now pass.now name.now }
{
    pass.is_named(name) && !is_answered(earlier, name)
}

// The first of the names to which the pass answers.
fn first_name<'a>(pass: &Box<dyn Pass>, names: &'a [Text]) -> Option<&'a [u8]>
    ensures { option_map (λ name. name.now) result ≡ first_name (λ p. meaning p) pass.now names.now }
{
    match names.split_first() {
        None => None,
        Some((name, rest)) => {
            if pass.is_named(name.as_bytes()) {
                Some(name.as_bytes())
            } else {
                first_name(pass, rest)
            }
        }
    }
}
