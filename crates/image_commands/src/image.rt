// The image of an accepted program.

ghost use Rattle.std.specs.Prelude.{◌≤◌, length, IfOk, IfErr};
ghost use Rattle.bril_commands.specs.Images.{RefusesImage};
ghost use Rattle.rv64_image_laws.specs.Implements.{Implements};
ghost use Rattle.rv64_image_laws.specs.WordBounds.{IsWithin};
ghost use Rattle.rv64_words.specs.Region.{most_words, most_stack};

use bril_checker::Checked;
use bril_report::Status;
use bril_tree::limits::Limits;
use rv64_emit::emit;
use rv64_words::image::Image;
use std::alloc::Global;

/// The image of an accepted program under these limits.
///
/// `CodeTooBig`, `StackTooBig`: it may have more than 250,000 words, or needs more than 8,388,608 words of stack. Out of memory
/// comes only where it has a `speculate` or a `guard`, or is within both bounds.
pub fn image_of(alloc: Global, checked: &Checked, limits: Limits) -> Result<Image, Status>
    ensures implements { IfOk result (λ image. Implements image checked.now.prog limits) }
    ensures words { IfOk result (λ image. length image.words ≤ most_words) }
    ensures guards { IfOk result (λ image. length image.guards ≤ length image.words) }
    ensures stack { IfOk result (λ image. image.stack ≤ most_stack) }
    ensures within { IfOk result (λ _. IsWithin checked.now.prog limits) }
    ensures err { IfErr result (λ status. RefusesImage status checked.now.prog limits) }
{
    match emit(alloc, checked, limits) {
        Ok(image) => Ok(image),
        Err(fault) => Err(Status::from(fault)),
    }
}
