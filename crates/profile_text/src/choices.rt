// The choices of an entry, as letters.

ghost use Rattle.std.specs.Prelude.{◌≡◌, ◌≤◌, ◌==◌, ◌||◌, ◌++◌, ◌∷◌, [], length, IfOk, OnOk, MatchBool, map};
ghost use Rattle.std.specs.List.{list_all};
ghost use Rattle.profile_text.specs.Form.{SpellChoices, choice_letter, choices_text, is_letter};

use bril_tree::bytes::Bytes;
use bril_tree::sequence::Seq;
use std::alloc::{AllocError, Global};

// Whether the letters spell choices, 256 at most. Takes no memory.
pub fn spell_choices(letters: &[u8]) -> bool
    ensures { MatchBool result (SpellChoices letters.now) (SpellChoices letters.now → ⊥) }
{
    if letters == b"-".as_slice() {
        return true;
    }
    if letters.is_empty() || letters.len() > 256 {
        return false;
    }
    are_letters(letters)
}

// Whether each byte is the letter of a choice.
fn are_letters(letters: &[u8]) -> bool
    ensures { result ≡ list_all is_letter letters.now }
{
    letters.iter().all(|letter| is_choice(*letter))
}

// Whether the byte is the letter of a choice.
fn is_choice(letter: u8) -> bool
    ensures { result ≡ is_letter letter }
{
    letter == b'T' || letter == b'F'
}

// The choices that the letters spell.
pub fn read_choices(alloc: Global, letters: &[u8]) -> Result<Seq<bool>, AllocError>
    requires spelled { SpellChoices letters.now }
    ensures text { IfOk result (λ choices. choices_text choices ≡ letters.now) }
    ensures short { IfOk result (λ choices. length choices ≤ 256) }
{
    let mut choices = Seq::new(alloc);
    if letters == b"-".as_slice() {
        return Ok(choices);
    }
    for letter in letters {
        choices.push(*letter == b'T')?;
    }
    Ok(choices)
}

// Appends the letters of the choices.
pub fn put_choices(choices: &[bool], into: &mut Bytes) -> Result<(), AllocError>
    ensures { OnOk result (into.new ≡ into.old ++ choices_text choices.now) }
{
    if choices.is_empty() {
        return into.add(b"-");
    }
    put_letters(choices, into)
}

// Appends a letter for each choice.
fn put_letters(choices: &[bool], into: &mut Bytes) -> Result<(), AllocError>
    ensures { OnOk result (into.new ≡ into.old ++ map choice_letter choices.now) }
{
    for choice in choices {
        into.add(letter_of(*choice))?;
    }
    Ok(())
}

// The letter of a choice.
fn letter_of(choice: bool) -> &'static [u8]
    ensures { result.now ≡ choice_letter choice ∷ [] }
{
    match choice {
        true => b"T",
        false => b"F",
    }
}
