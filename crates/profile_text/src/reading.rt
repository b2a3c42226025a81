// Reading a profile.

ghost use Rattle.std.specs.Prelude.{◌≡◌, ◌≤◌, ◌∷◌, ◌++◌, ℕ, List, map, IfOk, IfErr, OnOk, IsErrOf, MatchResult};
ghost use Rattle.bril_profile.specs.declared.profile.Entry.{Entry};
ghost use Rattle.profile_text.specs.Form.{AreEntries, AreParts, IsCount, IsProfileText, entry_line, first_line, line_of, text_of};
ghost use Rattle.profile_text.specs.Fault.{HasNoEntry, IsFaultOf, IsFirstFault, IsText};
ghost use Rattle.profile_text.specs.declared.fault.ProfileFault.TheVariants.{Line, Memory};

use crate::entry::{Parts, entry_of, entry_parts};
use crate::fault::ProfileFault;
use crate::lines::split_at_byte;
use crate::version::{Version, version_of};
use bril_profile::{Entry, Profile};
use bril_tree::sequence::Seq;
use std::alloc::Global;

/// The profile of a text.
///
/// The first line is `bril-profile 1` or `bril-profile 2`. Each further line is `trace @f .l CHOICES` in version 1 and
/// `trace @f .l CHOICES N` in version 2, with single spaces, where `f` and `l` are identifiers, CHOICES is 1 to 256 letters,
/// `T` for a first label and `F` for a second, or `-` for none, and N is the count: 1 to 4,294,967,295 in decimal digits
/// without a leading zero. An entry of version 1 has the count 1. Every line ends with LF, there are at most 64 entries, and
/// there is nothing else.
///
/// Errors: `Line` with the first line that breaks this, counted from 1. An empty source breaks it in line 1, a last line
/// without LF in that line, a 65th entry in line 66. `Memory`, when memory runs out for the text of a profile: all lines are
/// looked at before any memory is taken.
///
/// Takes time in proportion to the source.
pub fn read_profile(alloc: Global, source: &[u8]) -> Result<Profile, ProfileFault>
    // What is read is what the source is the text of, and a text is read.
    ensures text { IfOk result (λ profile. IsProfileText source.now profile.entries) }
    ensures reads { (entries : List Entry) → IsProfileText source.now entries
        → MatchResult result (λ profile. profile.entries ≡ entries) (λ fault. fault ≡ Memory) }

    // The line is the first that breaks the form, and the first that does is answered. Memory is wanting for a text alone.
    ensures fault { IfErr result (IsFaultOf source.now) }
    ensures faults { (line : ℕ) → IsFirstFault source.now line → IsErrOf result (Line line) }
{
    profile_of(alloc, source)
}

// The profile of a text.
fn profile_of(alloc: Global, source: &[u8]) -> Result<Profile, ProfileFault>
    ensures text { IfOk result (λ profile. IsProfileText source.now profile.entries) }
    ensures fault { IfErr result (IsFaultOf source.now) }
{
    let Some((first, rest)) = split_at_byte(source, b'\n') else {
        return Err(ProfileFault::Line { line: 1 });
    };
    let Some(version) = version_of(first) else {
        return Err(ProfileFault::Line { line: 1 });
    };
    look_at_lines(version, rest)?;
    let entries = read_entries(alloc, version, rest)?;
    Ok(Profile { entries })
}

// Looks for a fault in the lines behind the first. Takes no memory.
fn look_at_lines(version: Version, source: &[u8]) -> Result<(), ProfileFault>
    ensures text { OnOk result (IsText (first_line version ++ 10 ∷ source.now)) }
    ensures fault { IfErr result (IsFaultOf (first_line version ++ 10 ∷ source.now)) }
{
    let mut rest = source;
    let mut line: u32 = 2;
    'lines: while !rest.is_empty() {
        let (_, after) = next_parts(version, rest, line)?;
        rest = after;
        line += 1;
    }
    Ok(())
}

// The entries of the lines behind the first, in which there is no fault.
fn read_entries(alloc: Global, version: Version, source: &[u8]) -> Result<Seq<Entry>, ProfileFault>
    requires { IsText (first_line version ++ 10 ∷ source.now) }
    ensures found { IfOk result (λ entries. text_of (map (entry_line version) entries) ≡ source.now) }
    ensures valid { IfOk result (AreEntries version) }
    ensures fault { IfErr result (IsFaultOf (first_line version ++ 10 ∷ source.now)) }
{
    let mut entries = Seq::new(alloc);
    let mut rest = source;
    let mut line: u32 = 2;
    'lines: while !rest.is_empty() {
        let (parts, after) = next_parts(version, rest, line)?;
        entries.push(entry_of(alloc, parts)?)?;
        rest = after;
        line += 1;
    }
    Ok(entries)
}

// The parts of the entry in the first line of `rest`, which is that line of the source, and what stands behind it. Takes no
// memory.
fn next_parts(version: Version, rest: &[u8], line: u32) -> Result<(Parts<'_>, &[u8]), ProfileFault>
    ensures found { IfOk result (λ p. rest.now ≡ line_of version p.0 ++ 10 ∷ p.1.now) }
    ensures valid { IfOk result (λ p. AreParts p.0) }
    ensures count { IfOk result (λ p. IsCount version p.0.count) }
    ensures few { OnOk result (line ≤ 65) }
    ensures fault { IfErr result (λ fault. (fault ≡ Line line) × (line ≤ 65 → HasNoEntry version rest.now)) }
{
    if line > 65 {
        return Err(ProfileFault::Line { line });
    }
    let Some((next, after)) = split_at_byte(rest, b'\n') else {
        return Err(ProfileFault::Line { line });
    };
    match entry_parts(version, next) {
        Some(parts) => Ok((parts, after)),
        None => Err(ProfileFault::Line { line }),
    }
}
