// The numbers of operands.

ghost use Rattle.std.specs.Prelude.{◌≡◌, slice_index};

use bril_tree::sequence::Seq;

// The number at a place of the list, 0 past its end.
pub fn number_at(numbers: &Seq<u32>, place: usize) -> u32
    ensures { result ≡ slice_index numbers.now place }
{
    match numbers.as_slice().get(place) {
        Some(number) => *number,
        None => 0,
    }
}
