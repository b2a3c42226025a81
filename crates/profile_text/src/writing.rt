// Writing a profile.

ghost use Rattle.std.specs.Prelude.{◌≡◌, ◌++◌, ◌∷◌, [], OnOk, OnErr, All, length, map, ◌≤◌};
ghost use Rattle.profile_text.specs.Form.{AreEntries, IsEntry, entry_line, profile_text, text_of};
ghost use Rattle.profile_text.specs.declared.version.Version.TheVariants.{Second};

use crate::entry::put_entry;
use bril_profile::{Entry, Profile};
use bril_tree::bytes::Bytes;
use std::alloc::AllocError;

/// Appends the text of the profile to `into`, in version 2: the line `bril-profile 2`, then a line `trace @f .l CHOICES N` for
/// each entry, in their order, each with LF. `read_profile` gives the profile back from it.
///
/// An error means out of memory, and leaves `into` as it was.
pub fn write_profile(profile: &Profile, into: &mut Bytes) -> Result<(), AllocError>
    ensures text { OnOk result (into.new ≡ into.old ++ profile_text Second profile.now.entries) }
    ensures err { OnErr result (into.new ≡ into.old) }
    ensures valid { OnOk result (AreEntries Second profile.now.entries) }
{
    let mut text = into.fresh();
    text.add(b"bril-profile 2\n")?;
    put_entries(profile.entries.as_slice(), &mut text)?;
    into.add(text.as_slice())
}

// Appends the lines of the entries.
fn put_entries(entries: &[Entry], into: &mut Bytes) -> Result<(), AllocError>
    requires short { All (λ entry. length entry.choices ≤ 256) entries.now }
    requires counted { All (λ entry. 1 ≤ entry.count) entries.now }
    ensures text { OnOk result (into.new ≡ into.old ++ text_of (map (entry_line Second) entries.now)) }
    ensures valid { OnOk result (All (IsEntry Second) entries.now) }
{
    for entry in entries {
        put_entry(entry, into)?;
    }
    Ok(())
}
