// What edits make.

use bril_checker::Checked;
use bril_tree::tree::Tree;

/// What an edit makes of a program: the tree of the result, or the result, where it had to be made on the way.
#[derive(Drop)]
pub enum Made {
    Tree(Tree),
    Program(Checked),
}
