// What a call is given: the words of a command line, and files.

ghost use Rattle.std.specs.Prelude.{◌≡◌, ◌≤◌, ◌++◌, [], true, false, None, Some, IfOk, IfErr, OnOk, length, take, drop, map};
ghost use Rattle.std.specs.List.{list_all};
ghost use Rattle.std.specs.Str.{is_utf8};
ghost use Rattle.bril_outside.specs.Memory.{files_seen};
ghost use Rattle.roolvist_lib.specs.Given.{pieces_of, are_files, given_by, files_given, AreGiven};
ghost use Rattle.roolvist_lib.specs.declared.untold.Untold.TheVariants.{Misfit};

use crate::untold::Untold;
use bril_outside::mem_files::MemFiles;
use bril_tree::bytes::Bytes;
use bril_tree::sequence::Seq;
use bril_tree::text::Text;
use std::alloc::{AllocError, Global};

/// The words of a command line, and the files that it may read.
#[derive(Drop)]
pub struct Given {
    pub words: Seq<Text>,
    pub files: MemFiles,
}

/// What a call is given by bytes that are cut into pieces of these lengths, of which so many are words.
pub fn read_given(
    alloc: Global,
    bytes: &[u8],
    lengths: &[usize],
    words: usize,
) -> Result<Given, Untold>
    ensures ok { IfOk result (λ it. AreGiven (given_by bytes.now lengths.now words) it.words (files_seen it.files)) }
    ensures misfit { IfErr result (λ why. why ≡ Misfit → given_by bytes.now lengths.now words ≡ None) }
{
    let pieces = cut(alloc, bytes, lengths)?;
    let Some((of_words, of_files)) = pieces.as_slice().split_at_checked(words) else {
        return Err(Untold::Misfit);
    };
    Ok(Given {
        words: texts(alloc, of_words)?,
        files: files(alloc, of_files)?,
    })
}

// The bytes cut into pieces of these lengths, one after another. `Misfit`: they are too few.
fn cut(alloc: Global, bytes: &[u8], lengths: &[usize]) -> Result<Seq<Bytes>, Untold>
    ensures pieces { IfOk result (λ pieces. pieces_of bytes.now lengths.now ≡ Some pieces) }
    ensures misfit { IfErr result (λ why. why ≡ Misfit → pieces_of bytes.now lengths.now ≡ None) }
{
    let mut pieces = Seq::new(alloc);
    let mut rest = bytes;
    let mut left = lengths;
    'pieces: while let Some((length, others)) = left.split_first() {
        let Some((piece, after)) = rest.split_at_checked(*length) else {
            return Err(Untold::Misfit);
        };
        pieces.push(copy_of(alloc, piece)?)?;
        rest = after;
        left = others;
    }
    Ok(pieces)
}

// A copy of the bytes.
fn copy_of(alloc: Global, bytes: &[u8]) -> Result<Bytes, AllocError>
    ensures { IfOk result (λ copy. copy ≡ bytes.now) }
{
    let mut copy = Bytes::new(alloc);
    copy.add(bytes)?;
    Ok(copy)
}

// The pieces as texts. `Misfit`: one is no UTF-8.
fn texts(alloc: Global, pieces: &[Bytes]) -> Result<Seq<Text>, Untold>
    ensures texts { IfOk result (λ texts. texts ≡ pieces.now) }
    ensures utf8 { OnOk result (list_all is_utf8 pieces.now ≡ true) }
    ensures misfit { IfErr result (λ why. why ≡ Misfit → list_all is_utf8 pieces.now ≡ false) }
{
    let mut texts = Seq::new(alloc);
    let mut left = pieces;
    'texts: while let Some((piece, others)) = left.split_first() {
        texts.push(text_of(alloc, piece.as_slice())?)?;
        left = others;
    }
    Ok(texts)
}

// The bytes as a text. `Misfit`: they are no UTF-8.
fn text_of(alloc: Global, bytes: &[u8]) -> Result<Text, Untold>
    ensures text { IfOk result (λ text. text ≡ bytes.now) }
    ensures utf8 { OnOk result (is_utf8 bytes.now ≡ true) }
    ensures misfit { IfErr result (λ why. why ≡ Misfit → is_utf8 bytes.now ≡ false) }
{
    match str::from_utf8(bytes) {
        Ok(text) => Ok(Text::of(alloc, text)?),
        Err(_) => Err(Untold::Misfit),
    }
}

// The pieces as files. `Misfit`: the last path has no bytes, or a path is no UTF-8.
fn files(alloc: Global, pieces: &[Bytes]) -> Result<MemFiles, Untold>
    ensures files { IfOk result (λ files. files_seen files ≡ files_given pieces.now) }
    ensures fit { OnOk result (are_files pieces.now ≡ true) }
    ensures misfit { IfErr result (λ why. why ≡ Misfit → are_files pieces.now ≡ false) }
{
    let mut files = MemFiles::new(alloc, Seq::new(alloc));
    let mut left = pieces;
    'files: while let Some((path, others)) = left.split_first() {
        let Some((bytes, rest)) = others.split_first() else {
            return Err(Untold::Misfit);
        };
        files.add(&text_of(alloc, path.as_slice())?, bytes.as_slice())?;
        left = rest;
    }
    Ok(files)
}
