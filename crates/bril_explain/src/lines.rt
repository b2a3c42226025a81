// The lines that are written on the error output, and what each means: one table, from which the index of docs/COMMANDS.md is made too
// (`tools/lines`). Above the rows of a kind of line stand the line, with words in capitals for what differs, and where that page explains it.

/// A kind of line: how it begins, what it has behind that, and what it means.
#[derive(Clone, Copy, Drop)]
pub struct Row {
    pub begins: &'static str,
    pub has: &'static str,
    pub means: &'static str,
}

/// All kinds of lines. The first that fits a line counts.
pub static ROWS: [Row; 67] = [
    // `argument PLACE` | [69](#status-69-arguments-that-dont-fit)
    Row {
        begins: "argument ",
        has: "",
        means: "The word at this place, from 1, spells no value of its type. An int is decimal digits with an optional sign, a bool is true or false, and a char is one character.\n",
    },
    // `arguments: G given, R room` | [69](#status-69-arguments-that-dont-fit)
    Row {
        begins: "arguments: ",
        has: " room",
        means: "The stack of the ELF file has room for fewer arguments than were given. Give fewer, or make the file with a larger stack.\n",
    },
    // `arguments: G given, W wanted` | [69](#status-69-arguments-that-dont-fit)
    Row {
        begins: "arguments: ",
        has: " wanted",
        means: "Another number of arguments was given than main takes. They stand behind the word --.\n",
    },
    // `cannot read PATH` | [66](#status-66-a-file-that-cant-be-read)
    Row {
        begins: "cannot read ",
        has: "",
        means: "The file is missing, a folder, or not readable, or reading it failed. Look at its path and its permissions.\n",
    },
    // `cannot write` | [74](#status-74-output-that-cant-be-written)
    Row {
        begins: "cannot write",
        has: "",
        means: "Standard output took the first part of what belongs there alone. Look for a full disk or a closed pipe.\n",
    },
    // `check K function F item I` | [65](LANGUAGE.md#what-is-accepted)
    Row {
        begins: "check 1 ",
        has: "",
        means: "An operand or the destination of an item has a wrong type. Functions and items count from 0: roolvist-explain FILE shows the place.\n",
    },
    Row {
        begins: "check 2 ",
        has: "",
        means: "An item has a wrong number of operands, or a destination too many or too few. Look also for a missing semicolon: roolvist-explain FILE shows the place.\n",
    },
    Row {
        begins: "check 3 ",
        has: "",
        means: "A variable may be read before it is assigned: some way to the item doesn't assign it. roolvist-explain FILE shows the place.\n",
    },
    Row {
        begins: "check 4 ",
        has: "",
        means: "The open speculations don't fit together at an item. Each way there needs the same open speculate, at most 8 are open, and each ends once.\n",
    },
    Row {
        begins: "check 5 ",
        has: "",
        means: "There is a call, a ret or the end of a function while a speculation is open. Commit before it.\n",
    },
    Row {
        begins: "check 6 ",
        has: "",
        means: "A function that returns a value can come to its end without one. End each way through it with ret and a value.\n",
    },
    Row {
        begins: "check 7 ",
        has: "",
        means: "main returns a value or takes a pointer. It has to return nothing, and to take ints, bools and chars alone.\n",
    },
    Row {
        begins: "check 8 ",
        has: "",
        means: "A pointer is printed. Load what it points to, and print that.\n",
    },
    // `error: ...`, or help | [64](#status-64-usage)
    Row {
        begins: "error: ",
        has: "",
        means: "The command line is no command of roolvist. roolvist COMMAND --help lists the options of a command.\n",
    },
    // `fault K NAME` | [2](LANGUAGE.md#faults)
    Row {
        begins: "fault 1 ",
        has: "",
        means: "The program divided a number by 0. What it printed before stays.\n",
    },
    Row {
        begins: "fault 2 ",
        has: "",
        means: "int2char got a number that is no character of Unicode. What the program printed before stays.\n",
    },
    Row {
        begins: "fault 3 ",
        has: "",
        means: "alloc got a count below 1. What the program printed before stays.\n",
    },
    Row {
        begins: "fault 4 ",
        has: "",
        means: "free got something else than the first cell of a live block, as in a second free of a block. What the program printed before stays.\n",
    },
    Row {
        begins: "fault 5 ",
        has: "",
        means: "load or store went outside a block, or to a block that was freed. Compare the offsets of ptradd with the size of the alloc.\n",
    },
    Row {
        begins: "fault 6 ",
        has: "",
        means: "load read a cell of a block that was never stored. Store to it first.\n",
    },
    Row {
        begins: "fault 7 ",
        has: "",
        means: "main ended while a block was live. Free each block that was allocated.\n",
    },
    Row {
        begins: "fault 8 ",
        has: "",
        means: "A call would have opened one frame more than the limit. Give more --frames, or look for a recursion that doesn't end.\n",
    },
    Row {
        begins: "fault 9 ",
        has: "",
        means: "alloc would have passed the limit of live cells. Give more --cells, or free blocks earlier.\n",
    },
    Row {
        begins: "fault 10 ",
        has: "",
        means: "ptradd came to an offset that doesn't fit 32 bits. Look at how the offset is computed.\n",
    },
    Row {
        begins: "fault 11 ",
        has: "",
        means: "alloc came after 262,144 others. Allocate fewer and larger blocks.\n",
    },
    // `guard @NAME I fails K` | 0, 2 or 3: [counts of `run --stats`](#what-each-command-does)
    Row {
        begins: "guard ",
        has: "",
        means: "So often the guard at this item of the program after the passes failed. Items count from 0, as passes shows them.\n",
    },
    // `link K PATH NAME` | [65](FORMATS.md#faults-of-linking)
    Row {
        begins: "link 3 ",
        has: "",
        means: "A function of this name is imported from a file that doesn't have it, or an item names one that is none. Define it, or correct the name.\n",
    },
    Row {
        begins: "link 4 ",
        has: "",
        means: "Two functions have this name in the file at the path, imported or its own. Give one another name; an import can do so by as.\n",
    },
    // `name K function F item I` | [65](FORMATS.md#names)
    Row {
        begins: "name 1 ",
        has: "",
        means: "An item names a function that is missing. Functions and items count from 0: roolvist-explain FILE shows the place.\n",
    },
    Row {
        begins: "name 2 ",
        has: "",
        means: "Two functions have one name. Give one another name.\n",
    },
    Row {
        begins: "name 3 ",
        has: "",
        means: "An item names a label that its function doesn't have. roolvist-explain FILE shows the place.\n",
    },
    Row {
        begins: "name 4 ",
        has: "",
        means: "A label stands twice in its function. roolvist-explain FILE shows the second.\n",
    },
    Row {
        begins: "name 5 ",
        has: "",
        means: "No function is named main. A program begins there.\n",
    },
    Row {
        begins: "name 6 ",
        has: "",
        means: "Two arguments of a function have one name. roolvist-explain FILE shows the function.\n",
    },
    // `NAME runs R seen S made M` | 0 or 74: [tallies of `passes`](#what-each-command-does)
    Row {
        begins: "",
        has: " runs ",
        means: "The pass ran so often, was given so many items in all its runs, and made so many. It is no error.\n",
    },
    // `out of memory` | [71](#status-71-out-of-memory)
    Row {
        begins: "out of memory",
        has: "",
        means: "There was too little memory. End other programs, or take a smaller program.\n",
    },
    // `PATH: elf AT` | [65](FORMATS.md#elf-files)
    Row {
        begins: "",
        has: ": elf ",
        means: "The file is no ELF file that the command elf writes: the byte at this offset is the first that differs.\n",
    },
    // `PATH: json K function F item I` | [65](FORMATS.md#faults-of-a-json-file)
    Row {
        begins: "",
        has: ": json 1 ",
        means: "The file is no JSON. Look for a bracket, a quote or a comma that is missing or stands too much.\n",
    },
    Row {
        begins: "",
        has: ": json 2 ",
        means: "Something isn't as the JSON form of a program has it, such as an unknown operation or a missing key. roolvist-explain FILE shows the path of keys.\n",
    },
    Row {
        begins: "",
        has: ": json 3 ",
        means: "A number doesn't fit 64 bits. An int goes from -9223372036854775808 to 9223372036854775807.\n",
    },
    Row {
        begins: "",
        has: ": json 4 ",
        means: "The file has a float. There are int, bool, char and ptr alone.\n",
    },
    Row {
        begins: "",
        has: ": json 5 ",
        means: "A type has more than 32 ptr. Take some away.\n",
    },
    // `PATH: listing L` | [65](FORMATS.md#listings)
    Row {
        begins: "",
        has: ": listing ",
        means: "The line of this number, from 1, is the first that is no line of a listing of machine words.\n",
    },
    // `PATH: text K at AT` | [65](FORMATS.md#faults-of-a-text)
    Row {
        begins: "",
        has: ": text 1 ",
        means: "Nothing in the text form begins with the byte at this offset. roolvist-explain FILE shows the line.\n",
    },
    Row {
        begins: "",
        has: ": text 2 ",
        means: "The program can't go on with what stands at this byte, or ends too early. Look for a misspelled word or a missing semicolon: roolvist-explain FILE shows the line.\n",
    },
    Row {
        begins: "",
        has: ": text 3 ",
        means: "The number at this byte doesn't fit 64 bits. An int goes from -9223372036854775808 to 9223372036854775807.\n",
    },
    Row {
        begins: "",
        has: ": text 4 ",
        means: "There is a float at this byte. There are int, bool, char and ptr alone.\n",
    },
    Row {
        begins: "",
        has: ": text 5 ",
        means: "A type has more than 32 ptr. Take some away.\n",
    },
    // `profile line L` | [67](#status-67-a-file-that-is-no-profile)
    Row {
        begins: "profile line ",
        has: "",
        means: "The line of this number, from 1, isn't of the form of a profile. Look for a second space, a count out of range, or a missing line end.\n",
    },
    // `roolvist: ...` | [1](#status-1-the-launcher)
    Row {
        begins: "roolvist: ",
        has: "",
        means: "The launcher can start no program: the line says why. tools/prove builds one from changed sources.\n",
    },
    // `script line L` | [72](#status-72-a-file-that-is-no-script)
    Row {
        begins: "script line ",
        has: "",
        means: "The line of this number, from 1, is none of a monitor's script. Each is break, clear, go, step or show, with single spaces.\n",
    },
    // `spent N` | [3](#status-3-the-steps-are-spent)
    Row {
        begins: "spent ",
        has: "",
        means: "The program still runs after so many steps, or machine words for run. Give more --steps, or look for a loop that doesn't end.\n",
    },
    // `too large: ...` | [68](#status-68-a-file-or-program-that-is-too-large)
    Row {
        begins: "too large: bytes",
        has: "",
        means: "The files of the program have more than 16,777,216 bytes together.\n",
    },
    Row {
        begins: "too large: files",
        has: "",
        means: "The program has more than 256 files. Put functions that belong together into one file, and name each file by one path.\n",
    },
    Row {
        begins: "too large: profile",
        has: "",
        means: "The file of the profile has more than 1,048,576 bytes.\n",
    },
    Row {
        begins: "too large: script",
        has: "",
        means: "The script has more than 1,048,576 bytes.\n",
    },
    Row {
        begins: "too large: pass ",
        has: "",
        means: "The pass at this place of the list may make more items than a program can have. Leave it out, or shorten the program.\n",
    },
    Row {
        begins: "too large: code ",
        has: "",
        means: "The bounds on the machine words of the program after the passes add up to more than 250,000. Shorten it, by --passes dead,tidy if that is enough, or use interp.\n",
    },
    Row {
        begins: "too large: stack ",
        has: "",
        means: "The stack of the program needs more than 8,388,608 words. Give fewer --frames, or use interp.\n",
    },
    // `trap K pc P` | [4](#status-4-a-trap)
    Row {
        begins: "trap 1 ",
        has: "",
        means: "The machine came to an address that has no word. Only words of your own can do so, by exec.\n",
    },
    Row {
        begins: "trap 2 ",
        has: "",
        means: "The bits at this address are no machine word. Only words of your own can do so, by exec.\n",
    },
    Row {
        begins: "trap 3 ",
        has: "",
        means: "A load or a store went to a wrong address. Only words of your own can do so, by exec.\n",
    },
    Row {
        begins: "trap 4 ",
        has: "",
        means: "A call of the environment has no such number. Only words of your own can do so, by exec.\n",
    },
    Row {
        begins: "trap 5 ",
        has: "",
        means: "A number that was to be printed as a character is none. Only words of your own can do so, by exec.\n",
    },
    // `unknown pass PLACE` | [70](#status-70-an-unknown-pass)
    Row {
        begins: "unknown pass ",
        has: "",
        means: "No pass has the name at this place of the list, from 1. Look for a wrong letter, a space, or a comma too many.\n",
    },
    // `usage: ...` | [64](#status-64-usage)
    Row {
        begins: "usage: ",
        has: "",
        means: "The value of this option is no number, or out of its range; a list of passes has at most 64 names. docs/COMMANDS.md has the ranges.\n",
    },
    // `words W` | 0, 2 or 3: [counts of `run --stats`, and of `demo` at 0](#what-each-command-does)
    Row {
        begins: "words ",
        has: "",
        means: "So many machine words were executed. It is no error.\n",
    },
];
