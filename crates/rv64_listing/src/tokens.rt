// The tokens at the front of what is left of a line. None of these functions takes memory.

ghost use Rattle.std.specs.Prelude.{◌≡◌, option_map};
ghost use Rattle.rv64_listing.specs.Line.{is_blank};
ghost use Rattle.rv64_listing.specs.Reading.{behind_close, behind_comma, behind_open, behind_space, is_end, run_in};
ghost use Rattle.rv64_listing.specs.Tokens.{IsPlainLength, Skips, cut, is_plain_byte};

// What stands behind blanks.
pub fn behind_blanks(rest: &[u8]) -> &[u8]
    ensures { Skips rest.now result.now }
{
    for (i, byte) in rest.iter().enumerate() {
        if !is_blank(*byte) {
            return &rest[i..];
        }
    }
    &rest[rest.len()..]
}

// Whether nothing is left but blanks and a comment.
pub fn is_end(rest: &[u8]) -> bool
    ensures { result ≡ is_end (cut rest.now) }
{
    let after = behind_blanks(rest);
    if after.is_empty() {
        return true;
    }
    after[0] == b'#'
}

// What stands behind the blanks before a token.
pub fn space(rest: &[u8]) -> Option<&[u8]>
    ensures { option_map (λ after. cut after.now) result ≡ behind_space (cut rest.now) }
{
    if rest.is_empty() {
        return None;
    }
    if !is_blank(rest[0]) {
        return None;
    }
    if is_end(rest) {
        return None;
    }
    Some(behind_blanks(rest))
}

// What stands behind a comma.
pub fn comma(rest: &[u8]) -> Option<&[u8]>
    ensures { option_map (λ after. cut after.now) result ≡ behind_comma (cut rest.now) }
{
    rest.strip_prefix(b",")
}

// What stands behind an opening parenthesis.
pub fn open(rest: &[u8]) -> Option<&[u8]>
    ensures { option_map (λ after. cut after.now) result ≡ behind_open (cut rest.now) }
{
    rest.strip_prefix(b"(")
}

// What stands behind a closing parenthesis.
pub fn close(rest: &[u8]) -> Option<&[u8]>
    ensures { option_map (λ after. cut after.now) result ≡ behind_close (cut rest.now) }
{
    rest.strip_prefix(b")")
}

// A run of other bytes, and what stands behind it.
pub fn run(rest: &[u8]) -> Option<(&[u8], &[u8])>
    ensures { option_map (λ p. (p.0.now, cut p.1.now)) result ≡ run_in (cut rest.now) }
{
    let len = plain_len(rest);
    if len == 0 {
        return None;
    }
    Some((&rest[..len], &rest[len..]))
}

fn is_blank(byte: u8) -> bool
    ensures { result ≡ is_blank byte }
{
    byte == b' ' || byte == b'\t'
}

// How many bytes at the front are no blanks, marks or `#`.
fn plain_len(rest: &[u8]) -> usize
    ensures { IsPlainLength rest.now result }
{
    for (i, byte) in rest.iter().enumerate() {
        if !is_plain(*byte) {
            return i;
        }
    }
    rest.len()
}

fn is_plain(byte: u8) -> bool
    ensures { result ≡ is_plain_byte byte }
{
    !matches!(byte, b' ' | b'\t' | b',' | b'(' | b')' | b'#')
}
