// The image of an accepted program with its points.

ghost use Rattle.std.specs.Prelude.{◌≤◌, length, IfOk, IfErr};
ghost use Rattle.bril_commands.specs.Images.{RefusesImage};
ghost use Rattle.rv64_image_laws.specs.ListsPoints.{ListsPoints};
ghost use Rattle.rv64_image_laws.specs.PointsShown.{Shows};
ghost use Rattle.rv64_image_laws.specs.WordBounds.{IsWithin};
ghost use Rattle.rv64_words.specs.Region.{most_words, most_stack};

use bril_checker::Checked;
use bril_report::Status;
use bril_tree::limits::Limits;
use rv64_emit::emit_points;
use rv64_words::image::Image;
use rv64_words::points::Points;
use std::alloc::Global;

/// The image of an accepted program under these limits, with the points of all its items that a walk leads to.
///
/// `CodeTooBig`, `StackTooBig`: it may have more than 250,000 words, or needs more than 8,388,608 words of stack. Out of memory
/// comes only where it has a `speculate` or a `guard`, or is within both bounds.
pub fn image_of(alloc: Global, checked: &Checked, limits: Limits) -> Result<(Image, Points), Status>
    ensures shows { IfOk result (λ made. Shows made.0 made.1 checked.now.prog limits) }
    ensures lists { IfOk result (λ made. ListsPoints checked.now.prog made.1) }
    ensures words { IfOk result (λ made. length made.0.words ≤ most_words) }
    ensures stack { IfOk result (λ made. made.0.stack ≤ most_stack) }
    ensures within { IfOk result (λ _. IsWithin checked.now.prog limits) }
    ensures err { IfErr result (λ status. RefusesImage status checked.now.prog limits) }
{
    match emit_points(alloc, checked, limits) {
        Ok(made) => Ok(made),
        Err(fault) => Err(Status::from(fault)),
    }
}
