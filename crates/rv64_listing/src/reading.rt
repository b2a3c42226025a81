// Reading listings.

ghost use Rattle.std.specs.Prelude.{◌≡◌, ◌≢◌, ◌⊎◌, ◌<◌, ◌-◌, ◌^◌, [], ◌∷◌, ◌++◌, ℕ, List, length, true, None, IfOk, IfErr, IsErrOf, OnOk, MatchOption, MatchResult};
ghost use Rattle.rv64_listing.specs.Listing.{IsFaultOf, IsFirstFault, IsListing, lacks_lf};
ghost use Rattle.rv64_listing.specs.Reading.{Adds, IsLineFault, IsToldFault, Words, fault_told, listing_told, told, told_as};
ghost use Rattle.rv64_listing.specs.declared.fault.ListingFault.TheVariants.{Line, Memory};

use crate::fault::ListingFault;
use crate::line::{Told, read_line};
use bril_tree::sequence::Seq;
use std::alloc::Global;

/// The words of a listing, as `write_listing` writes it, in order. The source has fewer than 2^32 bytes.
///
/// A line is a mnemonic of the RISC-V manual in lower case with its operands: registers `x0` to `x31`, and decimal numbers in
/// the ranges of their fields, `lui x5, 74565` as `ld x10, 8(x2)`. Or it is `word` with eight hexadecimal digits in lower case, of
/// any 32 bits. Blanks are spaces and tabs: one or more where `write_listing` writes one, and any before and after a line. A
/// number may have a sign and leading zeros. A comment goes from `#` to the end of its line. LF ends a line, and may be missing
/// at the end; a line that is empty but for blanks and a comment tells nothing.
///
/// Errors: `Line` with the first line, counted from 1, that is none of these. `Memory`, when memory runs out for a source without
/// such a line: all lines are looked at before any memory is taken.
///
/// Takes time in proportion to the source.
pub fn read_listing(alloc: Global, source: &[u8]) -> Result<Seq<u32>, ListingFault>
    requires { length source.now < 2 ^ 32 }

    // What is read are the words of which the source is a listing, and a listing is read.
    ensures found { IfOk result (λ words. IsListing source.now words) }
    ensures reads { (words : List ℕ) → IsListing source.now words → MatchResult result (λ found. found ≡ words) (λ fault. fault ≡ Memory) }

    // The line is the first that tells no word, and the first that does is answered. Memory is wanting for a listing alone.
    ensures fault { IfErr result (IsFaultOf source.now) }
    ensures faults { (line : ℕ) → IsFirstFault source.now line → IsErrOf result (Line line) }
{
    listing_of(alloc, source)
}

// The words of a listing.
fn listing_of(alloc: Global, source: &[u8]) -> Result<Seq<u32>, ListingFault>
    requires { length source.now < 2 ^ 32 }
    ensures found { IfOk result (λ words. listing_told source.now ≡ Words words) }
    ensures fault { IfErr result (IsToldFault source.now) }
{
    look_at_lines(source)?;
    read_lines(alloc, source)
}

// Looks for a fault in the lines. Takes no memory.
fn look_at_lines(source: &[u8]) -> Result<(), ListingFault>
    requires { length source.now < 2 ^ 32 }
    ensures none { OnOk result (fault_told (listing_told source.now) ≡ None) }
    ensures fault { IfErr result (IsToldFault source.now) }
{
    let mut rest = source;
    let mut before: u32 = 0;
    'lines: while let Some((line, after)) = first_line(rest) {
        word_of(line, before)?;
        rest = after;
        before += 1;
    }
    word_of(rest, before)?;
    Ok(())
}

// The words of the lines, in which there is no fault.
fn read_lines(alloc: Global, source: &[u8]) -> Result<Seq<u32>, ListingFault>
    requires size { length source.now < 2 ^ 32 }
    requires none { fault_told (listing_told source.now) ≡ None }
    ensures found { IfOk result (λ words. listing_told source.now ≡ Words words) }
    ensures fault { IfErr result (IsToldFault source.now) }
{
    let mut words = Seq::new(alloc);
    let mut rest = source;
    let mut before: u32 = 0;
    'lines: while let Some((line, after)) = first_line(rest) {
        add_line(line, before, &mut words)?;
        rest = after;
        before += 1;
    }
    add_line(rest, before, &mut words)?;
    Ok(words)
}

// Adds the word that a line behind so many tells, where it tells one.
fn add_line(line: &[u8], before: u32, words: &mut Seq<u32>) -> Result<(), ListingFault>
    requires { line.now ≢ [] → before < 2 ^ 32 - 1 }
    ensures added { OnOk result (Adds (told line.now) words.old words.new) }
    ensures fault { IfErr result (λ fault. (fault ≡ Memory) ⊎ IsLineFault (told line.now) before fault) }
{
    match word_of(line, before)? {
        Some(bits) => {
            words.push(bits)?;
            Ok(())
        }
        None => Ok(()),
    }
}

// The word that a line behind so many tells, and none where it is empty. Takes no memory.
fn word_of(line: &[u8], before: u32) -> Result<Option<u32>, ListingFault>
    requires { line.now ≢ [] → before < 2 ^ 32 - 1 }
    ensures word { IfOk result (λ word. told line.now ≡ told_as word) }
    ensures fault { IfErr result (IsLineFault (told line.now) before) }
{
    match read_line(line) {
        Told::Empty => Ok(None),
        Told::Word(bits) => Ok(Some(bits)),
        Told::Bad => Err(ListingFault::Line { line: before + 1 }),
    }
}

// The first line, and what stands behind its LF; None where there is no LF.
fn first_line(source: &[u8]) -> Option<(&[u8], &[u8])>
    ensures { MatchOption result (lacks_lf source.now ≡ true) (λ p. (source.now ≡ p.0.now ++ 10 ∷ p.1.now) × (lacks_lf p.0.now ≡ true)) }
{
    for (i, byte) in source.iter().enumerate() {
        if *byte == b'\n' {
            return Some((&source[..i], &source[i + 1..]));
        }
    }
    None
}
