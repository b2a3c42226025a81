// Identifiers of Bril's text form.

ghost use Rattle.std.specs.Prelude.{◌≡◌, ◌↔◌, IsTrue, IsFalse, IfOk, IsErrOf, false};
ghost use Rattle.std.specs.List.{list_all};
ghost use Rattle.bril_tree.specs.Identifier.{is_identifier, begins_identifier, continues_identifier};
ghost use Rattle.bril_tree.specs.declared.name.IdentFault.TheVariants.{Memory};

use std::alloc::{AllocError, Global};
use std::marker::Model;
use thiserror::Error;

/// Why bytes did not become a name.
#[derive(Clone, Copy, PartialEq, Eq, Debug, Drop, Error)]
pub enum IdentFault {
    #[error("not an identifier")]
    NotIdent,
    #[error("out of memory")]
    Memory,
}

impl From<AllocError> for IdentFault {
    ghost from_gives = { λ _ e. e ≡ Memory };

    fn from(_fault: AllocError) -> IdentFault {
        IdentFault::Memory
    }
}

/// An identifier: one of `_`, `%` and the ASCII letters, then any of these, `.` and the digits.
#[derive(Drop)]
pub struct Name {
    held: Vec<u8>,
}

impl Model for Name {
    ghost use Rattle.std.specs.Prelude.{List, ℕ, IsTrue};
    ghost use Rattle.bril_tree.specs.Identifier.{is_identifier};

    ghost Value = { List ℕ };

    ghost view = { λ n. n.held.items };

    ghost invariant = { λ n. IsTrue (is_identifier n.held.items) };
}

impl Name {
    /// A copy of the bytes as a name. `NotIdent` comes exactly where the bytes are no identifier.
    pub fn ident(alloc: Global, bytes: &[u8]) -> Result<Name, IdentFault>
        ensures ok { IfOk result (λ name. name ≡ bytes.now) }
        ensures ident { IfOk result (λ _. IsTrue (is_identifier bytes.now)) }
        ensures not_ident { IsErrOf result IdentFault.NotIdent ↔ (is_identifier bytes.now ≡ false) }
    {
        if !is_ident(bytes) {
            return Err(IdentFault::NotIdent);
        }
        Ok(Name {
            held: Vec::from_slice(alloc, bytes)?,
        })
    }

    /// A copy of the bytes, which are an identifier, as a name. The only error is out of memory.
    pub fn of_identifier(alloc: Global, bytes: &[u8]) -> Result<Name, AllocError>
        requires { IsTrue (is_identifier bytes.now) }
        ensures { IfOk result (λ name. name ≡ bytes.now) }
    {
        Ok(Name {
            held: Vec::from_slice(alloc, bytes)?,
        })
    }

    /// The bytes of the name, which are an identifier. Takes no memory.
    pub fn as_bytes(&self) -> &[u8]
        ensures value { result.now ≡ self.now }
        ensures ident { IsTrue (is_identifier result.now) }
    {
        self.held.as_slice()
    }

    /// A copy of the name.
    pub fn copied(&self, alloc: Global) -> Result<Name, AllocError>
        ensures { IfOk result (λ name. name ≡ self.now) }
    {
        Ok(Name {
            held: Vec::from_slice(alloc, self.held.as_slice())?,
        })
    }
}

/// Whether the bytes are an identifier. Takes no memory.
pub fn is_ident(bytes: &[u8]) -> bool
    ensures { result ≡ is_identifier bytes.now }
{
    match bytes.split_first() {
        None => false,
        Some((first, rest)) => begins_name(*first) && all_continue(rest),
    }
}

// Whether each byte may stand behind the first of an identifier.
fn all_continue(bytes: &[u8]) -> bool
    ensures { result ≡ list_all continues_identifier bytes.now }
{
    bytes.iter().all(|byte| continues_name(*byte))
}

/// Whether the byte may begin an identifier. Takes no memory.
pub fn begins_name(byte: u8) -> bool
    ensures { result ≡ begins_identifier byte }
{
    byte.is_ascii_alphabetic() || byte == b'_' || byte == b'%'
}

/// Whether the byte may stand in an identifier behind its first. Takes no memory.
pub fn continues_name(byte: u8) -> bool
    ensures { result ≡ continues_identifier byte }
{
    begins_name(byte) || byte == b'.' || byte.is_ascii_digit()
}
