// Laws of code over slots. Each function states some, and does nothing when it is called.

ghost use Rattle.slot_code.specs.Laws.{ItemsAssign, ItemsGo, ItemsRead, ItemsUseSlots, SlotsAreNumbered, SlotsHaveNumbers, StepsReadNoProgram};

/// Each slot of a function has a number of its own: its place in the list of the function's slots, which has no others.
pub fn slots_have_numbers()
    ensures numbers { SlotsHaveNumbers }
    ensures slots { SlotsAreNumbered }
{}

/// What an item of an accepted program reads or writes is a slot of its function.
pub fn items_use_slots()
    ensures { ItemsUseSlots }
{}

/// What an item reads and assigns, and where control goes from it, is what its instruction reads and assigns, and where it
/// goes from that one.
pub fn items_are_instructions()
    ensures read { ItemsRead }
    ensures assign { ItemsAssign }
    ensures go { ItemsGo }
{}

/// What a step of code over slots does depends on the code, and on no program.
pub fn steps_read_no_program()
    ensures { StepsReadNoProgram }
{}
