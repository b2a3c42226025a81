// Marks of numbers.

ghost use Rattle.std.specs.Prelude.{◌≡◌};
ghost use Rattle.graph_search.specs.Marks.{is_marked};

/// Whether the number is marked; none is past the end of the list. Takes no memory.
pub fn is_marked(marks: &[bool], number: usize) -> bool
    ensures { result ≡ is_marked marks.now number }
{
    number < marks.len() && marks[number]
}
