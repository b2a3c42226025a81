// The passes that a command was lent, and a list of their names, as one.

ghost use Rattle.std.specs.Prelude.{◌≡◌, ◌≤◌, length};
ghost use Rattle.bril_commands.specs.CommandLine.{list_for};
ghost use Rattle.bril_words.specs.Names.{names_of};

use bril_tree::sequence::Seq;
use bril_tree::text::Text;
use bril_words::Action;
use image_commands::demo::PASSES;
use pass_law::Pass;

/// The passes that a command was lent, and the names of the list to which it gives its program: 64 at most.
#[derive(Drop)]
pub struct ListedPasses<'a, 'b> {
    pub boxes: &'a mut [Box<dyn Pass>],
    pub names: &'b Seq<Text>,
    ghost few: { length names.now ≤ 64 },
}

// The list of passes of an action, where the words give this one: the demo has its own.
pub(crate) fn list_for<'a>(action: Action, list: &'a str) -> &'a str
    requires { length (names_of list.now) ≤ 64 }
    ensures is { result.now ≡ list_for action list.now }
    ensures few { length (names_of result.now) ≤ 64 }
{
    match action {
        Action::Demo { .. } => PASSES,
        _ => list,
    }
}
