// Registers as text.

ghost use Rattle.std.specs.Prelude.{◌≡◌, ◌<◌};
ghost use Rattle.rv64_listing.specs.Line.{register_text};
ghost use Rattle.rv64_listing.specs.Reading.{register_told};

use rv64_words::field::Register;

// The text of the register of this number.
pub fn register_name(number: u8) -> &'static [u8]
    requires { number < 32 }
    ensures { result.now ≡ register_text number }
{
    match number {
        0 => b"x0",
        1 => b"x1",
        2 => b"x2",
        3 => b"x3",
        4 => b"x4",
        5 => b"x5",
        6 => b"x6",
        7 => b"x7",
        8 => b"x8",
        9 => b"x9",
        10 => b"x10",
        11 => b"x11",
        12 => b"x12",
        13 => b"x13",
        14 => b"x14",
        15 => b"x15",
        16 => b"x16",
        17 => b"x17",
        18 => b"x18",
        19 => b"x19",
        20 => b"x20",
        21 => b"x21",
        22 => b"x22",
        23 => b"x23",
        24 => b"x24",
        25 => b"x25",
        26 => b"x26",
        27 => b"x27",
        28 => b"x28",
        29 => b"x29",
        30 => b"x30",
        _ => b"x31",
    }
}

// The register of a text.
pub fn register_named(text: &[u8]) -> Option<Register>
    ensures { result ≡ register_told text.now }
{
    'numbers: for number in 0..32u8 {
        if text == register_name(number) {
            return Some(Register::of(number));
        }
    }
    None
}
