// The names of a trace, before any `_`.

ghost use Rattle.std.specs.Prelude.{◌≡◌, ◌++◌, IfOk, IsTrue, codes, decimal};
ghost use Rattle.std.specs.List.{list_all};
ghost use Rattle.bril_tree.specs.Identifier.{continues_identifier, is_identifier};
ghost use Rattle.trace_laws.specs.lines.Names.{trace_bases, trace_name};

use itoa::Buffer;
use std::alloc::{AllocError, Global};

/// `trace`, the number and what follows. The only error is out of memory.
pub fn trace_base(alloc: Global, number: u32, rest: &[u8]) -> Result<Vec<u8>, AllocError>
    requires { IsTrue (list_all continues_identifier rest.now) }
    ensures is { IfOk result (λ base. base.items ≡ trace_name number ++ rest.now) }
    ensures ident { IfOk result (λ base. IsTrue (is_identifier base.items)) }
{
    let mut digits = Buffer::new();
    let mut base = Vec::from_slice(alloc, b"trace".as_slice())?;
    base.extend_from_slice(digits.format(number).as_bytes())?;
    base.extend_from_slice(rest)?;
    Ok(base)
}

/// That of a `not`, which has a number of its own. The only error is out of memory.
pub fn not_base(alloc: Global, number: u32, turn: u32) -> Result<Vec<u8>, AllocError>
    ensures is { IfOk result (λ base. base.items ≡ trace_bases.not number turn) }
    ensures ident { IfOk result (λ base. IsTrue (is_identifier base.items)) }
{
    let mut digits = Buffer::new();
    let mut base = trace_base(alloc, number, b".not".as_slice())?;
    base.extend_from_slice(digits.format(turn).as_bytes())?;
    Ok(base)
}
