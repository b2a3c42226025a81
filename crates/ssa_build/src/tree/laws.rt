// What follows of code that is laid out.

ghost use Rattle.ssa_build.specs.tree.Standing.{LaidItemsStand};

/// In laid code each item of the function stands behind what was put in before it, and each of these pieces in its order. A call does
/// nothing.
pub fn laid_items_stand()
    ensures { LaidItemsStand }
{}
