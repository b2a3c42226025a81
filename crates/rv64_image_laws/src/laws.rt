// What an image that implements a program shows of it. Each function states a law, and does nothing when it is called.

ghost use Rattle.rv64_image_laws.specs.Laws.{ImagesCountFailures, ImagesEndInTime, ImagesShowPrograms};
ghost use Rattle.rv64_image_laws.specs.Stops.{FirstsAreLeast, NoneIsLeft, NoneIsPassed, ValuesAreShown};

/// However many words of an image that implements a program are executed, the machine doesn't trap. Where it has ended, the
/// program ends alike and prints the same. Where it runs on, the program has not ended after any number of steps n for which the
/// words are at least the cost of n + 1 steps, and what the machine printed is the first of what the program prints.
pub fn images_show_programs()
    ensures { ImagesShowPrograms }
{}

/// Where a program has ended after n steps, the machine has ended alike, and has printed the same, once it has executed as
/// many words as n + 1 steps cost, or more.
pub fn images_end_in_time()
    ensures { ImagesEndInTime }
{}

/// Where a program and the machine that runs its image have both ended, the word of each guard was executed as often as the
/// guard failed.
pub fn images_count_failures()
    ensures { ImagesCountFailures }
{}

/// Where the machine is first at a chosen point, the program is at the first chosen item ahead of it, which the point shows. Where it
/// comes to none, none is passed; where it has stopped, none is left.
pub fn stops_are_least()
    ensures least { FirstsAreLeast }
    ensures passed { NoneIsPassed }
    ensures left { NoneIsLeft }
{}

/// At a point that shows the program, the word at a variable's home is that of its value.
pub fn values_are_shown()
    ensures { ValuesAreShown }
{}
