// How a command ends.

use bril_checker::CheckFault;
use bril_names::NameFault;
use bril_tree::limits::Fault;
use bril_tree::name::Name;
use bril_tree::program::Prog;
use bril_tree::text::Text;
use bril_words::Misuse;
use import_linker::formats::ReadFault;
use rv64_words::trap::Trap;

/// How a command that was asked for ends.
#[derive(Drop)]
pub enum Status {
    /// All was done.
    Done,
    /// The program stopped with this fault.
    Faulted { fault: Fault },
    /// The program still runs after so many steps, or the machine after so many words.
    Spent { steps: u64 },
    /// The machine came to this trap.
    Trapped { trap: Trap },
    /// The words ask for nothing.
    Misused { misuse: Misuse },
    /// The bytes of the file at this path read as no tree.
    Misread { path: Text, fault: ReadFault },
    /// The file at this path takes a function of this name from a file that doesn't have it, or names one that stands for none.
    NotThere { path: Text, name: Name },
    /// Two functions have this name in the file at this path, taken or its own.
    Clash { path: Text, name: Name },
    /// The names of the tree can't become numbers.
    Misnamed { fault: NameFault },
    /// The program isn't accepted.
    Unaccepted { program: Prog, fault: CheckFault },
    /// The bytes of the file at this path are no listing: this line, from 1, is the first that tells no word.
    MisreadListing { path: Text, line: u32 },
    /// The bytes of the file at this path are no ELF file of an image, at this byte offset first.
    MisreadElf { path: Text, at: u64 },
    /// The file at this path could not be read.
    CannotRead { path: Text },
    /// The files have too many bytes.
    TooManyBytes,
    /// The program has too many files.
    TooManyFiles,
    /// The program has too many words of code, by this bound of them.
    CodeTooBig { words: u64 },
    /// The program needs too many words of stack, this many.
    StackTooBig { words: u64 },
    /// The pass at this place of the list, from 1, may make too many items, by this bound of them.
    PassTooLarge { place: u32, bound: u64 },
    /// So many arguments were given, and `main` takes so many.
    ArgumentCount { given: u32, wanted: u32 },
    /// The argument at this position, from 1, spells no value of its type.
    BadArgument { position: u32 },
    /// So many arguments were given, and the stack of the image has room for so many.
    ArgumentRoom { given: u64, room: u64 },
    /// The file of the profile has too many bytes.
    ProfileTooLarge,
    /// The file of the profile breaks the form of a profile, in this line first, from 1.
    MisreadProfile { line: u32 },
    /// The script of a monitor has too many bytes.
    ScriptTooLarge,
    /// The script of a monitor breaks the form of a script, in this line first, from 1.
    MisreadScript { line: u32 },
    /// No pass answers to the name at this place of the list, from 1.
    UnknownPass { place: u32 },
    /// Memory ran out.
    OutOfMemory,
    /// A write to the output failed.
    CannotWrite,
}
