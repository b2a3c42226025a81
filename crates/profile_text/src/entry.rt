// The line of an entry.

ghost use Rattle.std.specs.Prelude.{◌≡◌, ◌<◌, ◌^◌, ◌++◌, ◌∷◌, [], ℕ, List, IsTrue, IfOk, OnOk, MatchBool, MatchOption};
ghost use Rattle.bril_tree.specs.Identifier.{is_identifier};
ghost use Rattle.bril_profile.specs.declared.profile.Entry.{Entry};
ghost use Rattle.profile_text.specs.Form.{Lacks, ending, parts_line, line_of, entry_line, AreCut, AreParts, IsCount, IsEntry};
ghost use Rattle.profile_text.specs.declared.version.Version.TheVariants.{Second};

use crate::choices::{put_choices, read_choices, spell_choices};
use crate::count::{put_count, read_count};
use crate::lines::{behind, split_at_byte};
use crate::version::Version;
use bril_profile::Entry;
use bril_tree::bytes::Bytes;
use bril_tree::name::{Name, is_ident};
use std::alloc::{AllocError, Global};

// The two names in a line, and what stands behind them.
#[derive(Clone, Copy, Drop)]
pub struct Names<'a> {
    pub func: &'a [u8],
    pub label: &'a [u8],
    pub ending: &'a [u8],
}

// The parts of a line: the two names, the letters of the choices, and the count.
#[derive(Clone, Copy, Drop)]
pub struct Parts<'a> {
    pub func: &'a [u8],
    pub label: &'a [u8],
    pub letters: &'a [u8],
    pub count: u32,
}

// The parts of an entry's line in this version; None where it is no entry's. Takes no memory.
pub fn entry_parts(version: Version, line: &[u8]) -> Option<Parts<'_>>
    ensures { MatchOption result
        ((entry : Entry) → IsEntry version entry → entry_line version entry ≡ line.now → ⊥)
        (λ parts. (line.now ≡ line_of version parts) × (AreParts parts × IsCount version parts.count)) }
{
    let Some(names) = names_of(line) else {
        return None;
    };
    let Some((letters, count)) = ending_of(version, names.ending) else {
        return None;
    };
    let parts = Parts {
        func: names.func,
        label: names.label,
        letters,
        count,
    };
    if are_parts(parts) {
        return Some(parts);
    }
    None
}

// The letters and the count behind a label; None where the version has none there.
fn ending_of(version: Version, rest: &[u8]) -> Option<(&[u8], u32)>
    ensures { MatchOption result
        ((letters : List ℕ) (count : ℕ) → AreCut version letters → IsCount version count → rest.now ≡ ending version letters count → ⊥)
        (λ p. (rest.now ≡ ending version p.0.now p.1) × (AreCut version p.0.now × IsCount version p.1)) }
{
    match version {
        Version::First => Some((rest, 1)),
        Version::Second => letters_and_count(rest),
    }
}

// The letters before the first space, and the count behind it.
fn letters_and_count(rest: &[u8]) -> Option<(&[u8], u32)>
    ensures { MatchOption result
        ((letters : List ℕ) (count : ℕ) → AreCut Second letters → IsCount Second count → rest.now ≡ ending Second letters count → ⊥)
        (λ p. (rest.now ≡ ending Second p.0.now p.1) × (AreCut Second p.0.now × IsCount Second p.1)) }
{
    let Some((letters, digits)) = split_at_byte(rest, b' ') else {
        return None;
    };
    let Some(count) = read_count(digits) else {
        return None;
    };
    Some((letters, count))
}

// Whether the names and the letters are an entry's.
fn are_parts(parts: Parts<'_>) -> bool
    ensures { MatchBool result (AreParts parts.entry) (AreParts parts.entry → ⊥) }
{
    is_ident(parts.func) && is_ident(parts.label) && spell_choices(parts.letters)
}

// The names in a line, and what stands behind them; None where it isn't of the form.
fn names_of(line: &[u8]) -> Option<Names<'_>>
    ensures { MatchOption result
        ((func label ending : List ℕ) → Lacks 32 func → Lacks 32 label → line.now ≡ parts_line func label ending → ⊥)
        (λ names. (line.now ≡ parts_line names.func.now names.label.now names.ending.now) × (Lacks 32 names.func.now × Lacks 32 names.label.now)) }
{
    let Some(rest) = behind(line, b"trace @") else {
        return None;
    };
    let Some((func, rest)) = split_at_byte(rest, b' ') else {
        return None;
    };
    let Some(rest) = behind(rest, b".") else {
        return None;
    };
    let Some((label, ending)) = split_at_byte(rest, b' ') else {
        return None;
    };
    Some(Names {
        func,
        label,
        ending,
    })
}

// The entry of these parts. It is one of each version that has such a count.
pub fn entry_of(alloc: Global, parts: Parts<'_>) -> Result<Entry, AllocError>
    requires { AreParts parts }
    ensures line { (version : Version) → IfOk result (λ entry. entry_line version entry ≡ line_of version parts.entry) }
    ensures valid { (version : Version) → IsCount version parts.entry.count → IfOk result (IsEntry version) }
{
    Ok(Entry {
        func: Name::of_identifier(alloc, parts.func)?,
        label: Name::of_identifier(alloc, parts.label)?,
        choices: read_choices(alloc, parts.letters)?,
        count: parts.count,
    })
}

// Appends the line of an entry in version 2, with its LF.
pub fn put_entry(entry: &Entry, into: &mut Bytes) -> Result<(), AllocError>
    ensures text { OnOk result (into.new ≡ into.old ++ (entry_line Second entry.now ++ 10 ∷ [])) }
    ensures func { OnOk result (IsTrue (is_identifier entry.now.func)) }
    ensures label { OnOk result (IsTrue (is_identifier entry.now.label)) }
    ensures low { OnOk result (entry.now.count < 2 ^ 32) }
{
    into.add(b"trace @")?;
    into.add(entry.func.as_bytes())?;
    into.add(b" .")?;
    into.add(entry.label.as_bytes())?;
    into.add(b" ")?;
    put_choices(entry.choices.as_slice(), into)?;
    put_count(entry.count, into)
}
