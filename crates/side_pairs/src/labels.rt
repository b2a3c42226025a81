// The points of labels.

ghost use Rattle.std.specs.Prelude.{◌≡◌, ◌<◌, ◌-◌, ◌^◌, length};
ghost use Rattle.bril_tree.specs.Step.{point_of};
ghost use Rattle.side_pairs.specs.Tables.{IsPointTable};

use bril_tree::numbered::Instr;

// The point of a label of the code, by the table.
pub(crate) fn label_point(code: &[Instr], points: &[u32], label: u32) -> u32
    requires points { IsPointTable code.now points.now }
    requires few { length code.now < 2 ^ 32 - 1 }
    ensures { result ≡ point_of label code.now }
{
    match points.get(label as usize) {
        Some(point) => *point,
        None => code.len() as u32,
    }
}
