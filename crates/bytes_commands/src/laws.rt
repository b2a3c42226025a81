// What executing the file of an image shows. The function states the law, and does nothing when it is called.

ghost use Rattle.bytes_commands.specs.Laws.{ExecutionIsARun};

/// What is shown of executing the file of an image that implements a program is what the machine shows of the whole image: with arguments
/// that fit, and ints of which each has the word of the argument at its place, it stops alike, and prints the same by the same pieces. It
/// never traps.
pub fn execution_is_a_run()
    ensures { ExecutionIsARun }
{}
