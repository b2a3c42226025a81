// The profile that a command gives to its list of passes.

ghost use Rattle.std.specs.Prelude.{◌≡◌, ◌≤◌, IfOk, IfErr};
ghost use Rattle.bril_commands.specs.ProfileFiles.{HoldsProfile, IsProfileAt, RefusesProfile, RefusesProfileFile};
ghost use Rattle.bril_words.specs.Seen.{text_seen};

use bril_outside::files::{FileFault, Files};
use bril_profile::Profile;
use bril_report::Status;
use bril_tree::bytes::Bytes;
use bril_tree::text::Text;
use profile_text::read_profile;
use std::alloc::Global;

// The most bytes that the file of a profile may have.
const MOST_PROFILE_BYTES: u64 = 1048576;

/// The profile of the file at the path, of at most 1,048,576 bytes; the one without entries where there is no path.
///
/// The first of `CannotRead`: the file is not there, or reading it failed; `ProfileTooLarge`: it has more bytes; `MisreadProfile`: this
/// is its first line that breaks the form of a profile.
pub fn profile_at<F: Files>(
    alloc: Global,
    path: Option<&str>,
    files: &mut F,
) -> Result<Profile, Status>
    ensures holds { (F.seen files.new).holds ≡ (F.seen files.old).holds }
    ensures faults { (F.seen files.old).faults ≤ (F.seen files.new).faults }
    ensures ok { IfOk result (λ profile. IsProfileAt (text_seen path.entry) (F.seen files.old).holds profile.entries) }
    ensures err { IfErr result (λ status. RefusesProfile (text_seen path.entry) status (F.seen files.old) (F.seen files.new)) }
{
    match path {
        None => Ok(Profile::without_entries(alloc)),
        Some(path) => profile_of(alloc, path, files),
    }
}

// The profile of the file at the path.
fn profile_of<F: Files>(alloc: Global, path: &str, files: &mut F) -> Result<Profile, Status>
    ensures holds { (F.seen files.new).holds ≡ (F.seen files.old).holds }
    ensures faults { (F.seen files.old).faults ≤ (F.seen files.new).faults }
    ensures ok { IfOk result (λ profile. HoldsProfile (F.seen files.old).holds path.now profile.entries) }
    ensures err { IfErr result (λ status. RefusesProfileFile status (F.seen files.old) (F.seen files.new) path.now) }
{
    let path = Text::of(alloc, path)?;
    let mut bytes = Bytes::new(alloc);
    match files.read(alloc, &path, MOST_PROFILE_BYTES, &mut bytes) {
        Ok(true) => Ok(read_profile(alloc, bytes.as_slice())?),
        Ok(false) => Err(Status::ProfileTooLarge),
        Err(FileFault::Failed) => Err(Status::CannotRead { path }),
        Err(FileFault::Memory) => Err(Status::OutOfMemory),
    }
}
