// `asm`: the machine words that a listing tells are written.

ghost use Rattle.std.specs.Prelude.{◌≡◌, ◌≤◌, ◌⊎◌, ℕ, List, [], length, IfOk, IfErr};
ghost use Rattle.bril_commands.specs.Driver.{DoesHeld};
ghost use Rattle.bril_commands.specs.commands.Assemble.{RefusesListing, assembles};
ghost use Rattle.bril_report.specs.StageFaults.{listing_status, status_of};
ghost use Rattle.bril_report.specs.declared.status.Status.TheVariants.{OutOfMemory};
ghost use Rattle.rv64_listing.specs.Listing.{IsListing};

use bril_outside::sink::Sink;
use bril_report::Status;
use bril_tree::sequence::Seq;
use bril_tree::text::Text;
use image_runs::listing::put_words;
use rv64_listing::{ListingFault, read_listing};
use std::alloc::{AllocError, Global};

/// Puts the words that the bytes of the file at the path tell as a listing on the output, each in eight hexadecimal digits and LF by one
/// put. The words of the command line after the path are not looked at.
///
/// `MisreadListing`: this line, from 1, is the first that isn't empty and tells no word. With it, and out of memory, nothing is put.
/// `CannotWrite`: a write failed.
pub fn put_assembled<O: Sink>(
    alloc: Global,
    path: &str,
    bytes: &[u8],
    out: &mut O,
) -> Result<(), Status>
    requires { length bytes.now ≤ 16777216 }
    ensures { (args : List (List ℕ)) → DoesHeld assembles (status_of result) path.now bytes.now args [] (O.seen out.old) (O.seen out.new) }
{
    let words = words_of(alloc, path, bytes)?;
    put_words(words.as_slice(), out)
}

// The words of a listing, or the status of its fault.
fn words_of(alloc: Global, path: &str, bytes: &[u8]) -> Result<Seq<u32>, Status>
    requires { length bytes.now ≤ 16777216 }
    ensures ok { IfOk result (λ words. IsListing bytes.now words) }
    ensures err { IfErr result (λ status. RefusesListing status path.now bytes.now) }
{
    match read_listing(alloc, bytes) {
        Ok(words) => Ok(words),
        Err(fault) => Err(refusal(alloc, path, fault)),
    }
}

// The status of a fault of the listing at the path; out of memory where there is none for a copy of the path.
fn refusal(alloc: Global, path: &str, fault: ListingFault) -> Status
    ensures { (result ≡ listing_status path.now fault) ⊎ (result ≡ OutOfMemory) }
{
    match Text::of(alloc, path) {
        Ok(path) => Status::from((path, fault)),
        Err(AllocError) => Status::OutOfMemory,
    }
}
