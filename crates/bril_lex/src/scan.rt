// The longest piece at the front of the bytes.

ghost use Rattle.std.specs.Prelude.{◌≡◌, ◌<◌, ◌≤◌, ◌+◌, ◌-◌, ◌^◌, length, is_some, IfSome};
ghost use Rattle.std.specs.List.{prefix_len};
ghost use Rattle.std.specs.Char.{is_ascii_digit};
ghost use Rattle.std.specs.Str.{is_utf8, continuation_len};
ghost use Rattle.std.specs.Str.Lossy.{utf8_valid_len};
ghost use Rattle.bril_tree.specs.Identifier.{continues_identifier};
ghost use Rattle.bril_tree.specs.Path.{is_path_byte};
ghost use Rattle.bril_lex.specs.Spelling.{is_mark, is_blank, makes_float, continues_float, escaped};
ghost use Rattle.bril_lex.specs.Piece.{stays_in_line};
ghost use Rattle.bril_lex.specs.Scan.{is_sign, lead_of, stands_at, front_after, identifier_len, sign_len, digits_len, fraction_len, front_of_digits, number_front, scalar_len, begins_escape, plain_len, char_len, path_len, comment_len, front_of};

use crate::class::Class;
use crate::token::Kind;
use bril_tree::name::{begins_name, continues_name};
use std::str::from_utf8;

/// A piece at the front of the bytes: its class, and its length in bytes.
#[derive(Clone, Copy, PartialEq, Eq, Debug, Drop)]
pub struct Front {
    pub class: Class,
    pub length: usize,
}

// What a byte begins.
#[derive(Clone, Copy, PartialEq, Eq, Debug, Drop)]
enum Lead {
    Mark,
    Blank,
    Identifier,
    Number,
    Function,
    Label,
    Char,
    Path,
    Comment,
    Nothing,
}

// The longest piece of any class at the front, None where no piece begins.
pub fn first_piece(bytes: &[u8]) -> Option<Front>
    ensures value { result ≡ front_of bytes.now }
    ensures some { IfSome result (λ front. 0 < front.length) }
    ensures within { IfSome result (λ front. front.length ≤ length bytes.now) }
{
    let (first, rest) = bytes.split_first()?;
    match lead_of(*first) {
        Lead::Mark => Some(Front {
            class: Class::OfKind(Kind::Mark),
            length: 1,
        }),
        Lead::Blank => Some(Front {
            class: Class::Blank,
            length: 1,
        }),
        Lead::Identifier => Some(Front {
            class: Class::OfKind(Kind::Identifier),
            length: name_bytes(rest) + 1,
        }),
        Lead::Number => number_front(bytes),
        Lead::Function => front_after(Kind::Function, identifier_len(rest)),
        Lead::Label => front_after(Kind::Label, identifier_len(rest)),
        Lead::Char => front_after(Kind::Char, char_len(rest)),
        Lead::Path => front_after(Kind::Path, path_len(rest)),
        Lead::Comment => Some(Front {
            class: Class::Comment,
            length: comment_len(rest) + 1,
        }),
        Lead::Nothing => None,
    }
}

// What the byte begins.
fn lead_of(byte: u8) -> Lead
    ensures { result ≡ lead_of byte }
{
    if is_mark(byte) {
        Lead::Mark
    } else if is_blank(byte) {
        Lead::Blank
    } else if begins_name(byte) {
        Lead::Identifier
    } else if is_sign(byte) || byte.is_ascii_digit() {
        Lead::Number
    } else {
        match byte {
            b'@' => Lead::Function,
            b'.' => Lead::Label,
            b'\'' => Lead::Char,
            b'"' => Lead::Path,
            b'#' => Lead::Comment,
            _ => Lead::Nothing,
        }
    }
}

fn is_mark(byte: u8) -> bool
    ensures { result ≡ is_mark byte }
{
    matches!(
        byte,
        b'{' | b'}' | b'(' | b')' | b':' | b',' | b';' | b'=' | b'<' | b'>'
    )
}

fn is_blank(byte: u8) -> bool
    ensures { result ≡ is_blank byte }
{
    matches!(byte, b' ' | b'\t' | b'\r' | b'\n')
}

fn is_sign(byte: u8) -> bool
    ensures { result ≡ is_sign byte }
{
    byte == b'-' || byte == b'+'
}

fn makes_float(byte: u8) -> bool
    ensures { result ≡ makes_float byte }
{
    matches!(byte, b'.' | b'e' | b'E')
}

fn continues_float(byte: u8) -> bool
    ensures { result ≡ continues_float byte }
{
    byte.is_ascii_alphabetic() || byte.is_ascii_digit() || matches!(byte, b'.' | b'+' | b'-')
}

// How many bytes at the front continue an identifier.
fn name_bytes(bytes: &[u8]) -> usize
    ensures count { result ≡ prefix_len continues_identifier bytes.now }
    ensures within { result ≤ length bytes.now }
{
    bytes
        .iter()
        .take_while(|byte| continues_name(**byte))
        .count()
}

// How many bytes at the front are digits.
fn digit_bytes(bytes: &[u8]) -> usize
    ensures count { result ≡ prefix_len is_ascii_digit bytes.now }
    ensures within { result ≤ length bytes.now }
{
    bytes
        .iter()
        .take_while(|byte| byte.is_ascii_digit())
        .count()
}

// How many bytes at the front continue a float.
fn float_bytes(bytes: &[u8]) -> usize
    ensures count { result ≡ prefix_len continues_float bytes.now }
    ensures within { result ≤ length bytes.now }
{
    bytes
        .iter()
        .take_while(|byte| continues_float(**byte))
        .count()
}

// How many bytes at the front may be part of a path.
fn path_bytes(bytes: &[u8]) -> usize
    ensures count { result ≡ prefix_len is_path_byte bytes.now }
    ensures within { result ≤ length bytes.now }
{
    bytes
        .iter()
        .take_while(|byte| **byte >= 0x20 && **byte != b'"' && **byte != b'\\')
        .count()
}

// How many bytes come before the first LF.
fn line_bytes(bytes: &[u8]) -> usize
    ensures count { result ≡ prefix_len stays_in_line bytes.now }
    ensures within { result ≤ length bytes.now }
{
    bytes.iter().take_while(|byte| **byte != b'\n').count()
}

// A token of one byte and `others` more, None where there are no others.
fn front_after(kind: Kind, others: usize) -> Option<Front>
    requires { others < 2 ^ 64 - 1 }
    ensures { result ≡ front_after kind others }
{
    if others == 0 {
        None
    } else {
        Some(Front {
            class: Class::OfKind(kind),
            length: others + 1,
        })
    }
}

// The length of the identifier at the front, 0 where there is none.
fn identifier_len(bytes: &[u8]) -> usize
    ensures value { result ≡ identifier_len bytes.now }
    ensures within { result ≤ length bytes.now }
{
    match bytes.split_first() {
        None => 0,
        Some((first, rest)) => {
            if begins_name(*first) {
                name_bytes(rest) + 1
            } else {
                0
            }
        }
    }
}

// The length of a sign at the front.
fn sign_len(bytes: &[u8]) -> usize
    ensures value { result ≡ sign_len bytes.now }
    ensures within { result ≤ length bytes.now }
{
    match bytes.split_first() {
        None => 0,
        Some((first, _)) => { if is_sign(*first) { 1 } else { 0 } }
    }
}

// The length of what turns the number before it into a float, 0 where nothing does.
fn fraction_len(bytes: &[u8]) -> usize
    ensures value { result ≡ fraction_len bytes.now }
    ensures within { result ≤ length bytes.now }
{
    match bytes.split_first() {
        None => 0,
        Some((first, rest)) => {
            if makes_float(*first) {
                float_bytes(rest) + 1
            } else {
                0
            }
        }
    }
}

// The number or float at the front.
fn number_front(bytes: &[u8]) -> Option<Front>
    ensures value { result ≡ number_front bytes.now }
    ensures within { IfSome result (λ front. front.length ≤ length bytes.now) }
{
    let sign = sign_len(bytes);
    let digits = digit_bytes(&bytes[sign..]);
    if digits == 0 {
        return None;
    }
    let fraction = fraction_len(&bytes[sign + digits..]);
    Some(front_of_digits(sign + digits, fraction))
}

// A number of this length, or the float that continues it.
fn front_of_digits(number: usize, fraction: usize) -> Front
    requires { number + fraction < 2 ^ 64 }
    ensures value { result ≡ front_of_digits number fraction }
    ensures whole { result.length ≡ number + fraction }
{
    if fraction == 0 {
        Front {
            class: Class::OfKind(Kind::Number),
            length: number,
        }
    } else {
        Front {
            class: Class::OfKind(Kind::Float),
            length: number + fraction,
        }
    }
}

// Whether the byte at this index is there and equals `byte`.
fn stands_at(byte: u8, index: usize, bytes: &[u8]) -> bool
    ensures { result ≡ stands_at byte index bytes.now }
{
    index < bytes.len() && bytes[index] == byte
}

// Whether the bytes are UTF-8.
fn is_utf8(bytes: &[u8]) -> bool
    ensures { result ≡ is_utf8 bytes.now }
{
    from_utf8(bytes).is_ok()
}

// The length of a character by its first byte, where the bytes are UTF-8.
fn char_bytes(first: u8) -> usize
    ensures value { result ≡ continuation_len first + 1 }
    ensures few { result ≤ 4 }
{
    if first < 0x80 {
        1
    } else if first < 0xE0 {
        2
    } else if first < 0xF0 {
        3
    } else {
        4
    }
}

// The length of the UTF-8 of the scalar value at the front, 0 where there is none.
fn scalar_len(bytes: &[u8]) -> usize
    ensures value { result ≡ scalar_len bytes.now }
    ensures within { result ≤ length bytes.now }
{
    if bytes.is_empty() {
        return 0;
    }
    let length = char_bytes(bytes[0]);
    if length <= bytes.len() && is_utf8(&bytes[..length]) {
        length
    } else {
        0
    }
}

// Whether `\` and this letter are an escape.
fn is_escape_letter(letter: u8) -> bool
    ensures { result ≡ is_some (escaped letter) }
{
    matches!(
        letter,
        b'0' | b'a' | b'b' | b't' | b'n' | b'v' | b'f' | b'r'
    )
}

// Whether the bytes begin with `\`, the letter of an escape and a quote.
fn begins_escape(bytes: &[u8]) -> bool
    ensures { result ≡ begins_escape bytes.now }
{
    stands_at(b'\\', 0, bytes) && stands_at(b'\'', 2, bytes) && is_escape_letter(bytes[1])
}

// The length of a scalar value other than LF and a quote at the front, 0 where there is none.
fn plain_len(bytes: &[u8]) -> usize
    ensures value { result ≡ plain_len bytes.now }
    ensures within { result ≤ length bytes.now }
{
    let length = scalar_len(bytes);
    if length > 0 && !stands_at(b'\n', 0, bytes) && stands_at(b'\'', length, bytes) {
        length + 1
    } else {
        0
    }
}

// The length of a char literal after its first quote, 0 where there is none.
fn char_len(bytes: &[u8]) -> usize
    ensures value { result ≡ char_len bytes.now }
    ensures within { result ≤ length bytes.now }
{
    if begins_escape(bytes) {
        3
    } else {
        plain_len(bytes)
    }
}

// The length of a path after its first quote, 0 where there is none.
fn path_len(bytes: &[u8]) -> usize
    ensures value { result ≡ path_len bytes.now }
    ensures within { result ≤ length bytes.now }
{
    let length = path_bytes(bytes);
    if length > 0 && length <= 4096 && stands_at(b'"', length, bytes) && is_utf8(&bytes[..length]) {
        length + 1
    } else {
        0
    }
}

// The length of a comment after `#`: up to the LF, the end, or the first byte that is not valid UTF-8.
fn comment_len(bytes: &[u8]) -> usize
    ensures value { result ≡ comment_len bytes.now }
    ensures within { result ≤ length bytes.now }
{
    let line = &bytes[..line_bytes(bytes)];
    match from_utf8(line) {
        Ok(_) => line.len(),
        Err(fault) => fault.valid_up_to(),
    }
}
