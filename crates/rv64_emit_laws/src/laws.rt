// The laws of emitted code. Each function states one, and does nothing when it is called.

ghost use Rattle.rv64_emit_laws.specs.Laws.{ImagesImplementPrograms, ImagesMeetItems, ImagesShowPoints};

/// The image of an accepted program, within the bounds of words and of the stack and laid out by homes that serve, does what the
/// program does, with all arguments that fit. It prints the same and ends alike, within the cost of a step for each step of the
/// program and one more, and it never traps. While it runs, live locations are at their homes, and each guard's word was executed
/// as often as the guard failed.
pub fn images_implement_programs()
    ensures { ImagesImplementPrograms }
{}

/// One count of words tells what that image does and when its machine is before the first words of items: exactly where the program
/// is at these items, in order. Labels and `nop`s have no words; nor have jumps to the next item, copies from a home to itself,
/// `commit`, and `speculate` where nothing is kept, unless items are marked.
pub fn images_meet_items()
    ensures { ImagesMeetItems }
{}

/// With a point for each item other than a label and `nop` that some walk leads to, that image, in which items are marked, shows the
/// program: its machine is at the points exactly where the program is at their items, in order, and each live variable is at its home.
pub fn images_show_points()
    ensures { ImagesShowPoints }
{}
