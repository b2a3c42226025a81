// What the environment calls print.

ghost use Rattle.std.specs.Prelude.{◌≡◌, [], ◌∷◌, true, false, OnOk, OnErr, MatchOption, suc, encode_utf8};
ghost use Rattle.std.specs.Int.{w64, cast_signed};
ghost use Rattle.std.specs.Fmt.{signed_decimal};
ghost use Rattle.bril_outside.specs.Sink.{TookBy};
ghost use Rattle.rv64_words.specs.Environment.{truth_text};
ghost use Rattle.rv64_machine.specs.StepAnswers.{Written, NotWritten};
ghost use lib.Utf8.{scalar};

use bril_outside::sink::{Failed, Sink};
use itoa::Buffer;

/// Prints the number as a signed decimal, by one `put`.
pub fn print_number<S: Sink>(number: u64, out: &mut S) -> Result<(), Failed>
    ensures ok { OnOk result (Written (signed_decimal (cast_signed w64 number)) (S.seen out.old) (S.seen out.new)) }
    ensures err { OnErr result (NotWritten (signed_decimal (cast_signed w64 number)) (S.seen out.old) (S.seen out.new)) }
{
    let mut buffer = Buffer::new();
    let text = buffer.format(number.cast_signed());
    out.put(text.as_bytes())
}

/// Prints `false` for 0, else `true`, by one `put`.
pub fn print_truth<S: Sink>(number: u64, out: &mut S) -> Result<(), Failed>
    ensures ok { OnOk result (Written (truth_text number) (S.seen out.old) (S.seen out.new)) }
    ensures err { OnErr result (NotWritten (truth_text number) (S.seen out.old) (S.seen out.new)) }
{
    if number == 0 {
        out.put(b"false")
    } else {
        out.put(b"true")
    }
}

/// Prints one byte, by one `put`.
pub fn print_byte<S: Sink>(byte: u8, out: &mut S) -> Result<(), Failed>
    ensures ok { OnOk result (Written (byte ∷ []) (S.seen out.old) (S.seen out.new)) }
    ensures err { OnErr result (NotWritten (byte ∷ []) (S.seen out.old) (S.seen out.new)) }
{
    out.put(&[byte])
}

/// Prints the char in UTF-8, by one `put`.
pub fn print_char<S: Sink>(letter: char, out: &mut S) -> Result<(), Failed>
    ensures ok { OnOk result (Written (encode_utf8 letter) (S.seen out.old) (S.seen out.new)) }
    ensures err { OnErr result (NotWritten (encode_utf8 letter) (S.seen out.old) (S.seen out.new)) }
{
    let mut units = [0; 4];
    out.put(letter.encode_utf8(&mut units).as_bytes())
}

/// The char of a scalar value; `None` where the number is none.
pub fn char_numbered(number: u64) -> Option<char>
    ensures { MatchOption result (scalar number ≡ false) (λ c. (scalar number ≡ true) × (c ≡ number)) }
{
    if number > 0x10FFFF {
        return None;
    }
    char::from_u32(number as u32)
}
