// The environment calls and the faults that they end with, by their numbers.

ghost use Rattle.std.specs.Prelude.{◌≡◌, ◌≢◌, ◌-◌, ◌<◌, ◌⊎◌, MatchOption};
ghost use Rattle.rv64_words.specs.Calls.{fault_number};
ghost use Rattle.rv64_words.specs.Environment.{fault_of};

use bril_tree::limits::Fault;

/// An environment call. Its number is in register 17, its argument in register 10.
#[derive(Clone, Copy, PartialEq, Eq, Debug, Drop)]
pub enum Call {
    /// Prints the argument as a signed decimal.
    PrintInt,
    /// Prints `false` where it is 0, else `true`.
    PrintBool,
    /// Prints it as a char, in UTF-8.
    PrintChar,
    /// Prints one space.
    PrintSpace,
    /// Prints one line feed.
    PrintLine,
    /// Allocates that many cells.
    Alloc,
    /// Frees the block of that pointer.
    Free,
    /// Ends the run: the program with 0, or by the fault of that number.
    End,
}

impl Call {
    ghost use Rattle.rv64_words.specs.Calls.{call_number};

    /// Its number, 1 to 8.
    pub fn number(self) -> u16
        ensures value { result ≡ call_number self }
        ensures range { result < 9 }
    {
        match self {
            Call::PrintInt => 1,
            Call::PrintBool => 2,
            Call::PrintChar => 3,
            Call::PrintSpace => 4,
            Call::PrintLine => 5,
            Call::Alloc => 6,
            Call::Free => 7,
            Call::End => 8,
        }
    }

    /// The call of a number; `None` where there is none.
    pub fn numbered(number: u64) -> Option<Call>
        ensures { MatchOption result ((number ≡ 0) ⊎ (8 < number)) (λ call. number ≡ call_number call) }
    {
        match number {
            1 => Some(Call::PrintInt),
            2 => Some(Call::PrintBool),
            3 => Some(Call::PrintChar),
            4 => Some(Call::PrintSpace),
            5 => Some(Call::PrintLine),
            6 => Some(Call::Alloc),
            7 => Some(Call::Free),
            8 => Some(Call::End),
            _ => None,
        }
    }
}

/// The number of a fault, 1 to 11.
pub fn number_of_fault(fault: Fault) -> u16
    ensures value { result ≡ fault_number fault }
    ensures range { result < 12 }
{
    match fault {
        Fault::DivZero => 1,
        Fault::BadChar => 2,
        Fault::BadAlloc => 3,
        Fault::BadFree => 4,
        Fault::Access => 5,
        Fault::Uninit => 6,
        Fault::Leak => 7,
        Fault::Frames => 8,
        Fault::Cells => 9,
        Fault::PtrRange => 10,
        Fault::Allocs => 11,
    }
}

/// The fault of a number, counted from 1; `None` where there is none.
pub fn fault_numbered(number: u64) -> Option<Fault>
    requires { number ≢ 0 }
    ensures { result ≡ fault_of (number - 1) }
{
    match number {
        1 => Some(Fault::DivZero),
        2 => Some(Fault::BadChar),
        3 => Some(Fault::BadAlloc),
        4 => Some(Fault::BadFree),
        5 => Some(Fault::Access),
        6 => Some(Fault::Uninit),
        7 => Some(Fault::Leak),
        8 => Some(Fault::Frames),
        9 => Some(Fault::Cells),
        10 => Some(Fault::PtrRange),
        11 => Some(Fault::Allocs),
        _ => None,
    }
}
