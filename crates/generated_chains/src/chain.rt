//! A chain of calls with its memory.

ghost use Rattle.std.specs.Prelude.{◌<◌, ◌≤◌, IfOk};
ghost use Rattle.generated_chains.specs.Outlines.{outlines};
ghost use Rattle.generated_chains.specs.Made.{IsMade, IsValidChain};

use crate::outline::outlines;
use crate::stack::{Registers, resumes, stack_of};
use crate::tables::{frame_table, header_table, language_tables};
use std::alloc::{AllocError, Global};

/// The memory of a chain of calls, its innermost state, and where its functions go on after their
/// cleanups.
///
/// Function i covers 64 bytes from 0x400000 + 64 * i on. One module covers them all; its header
/// table stands at 0x10000000, its frame table at 0x20000000, and its language tables at 0x30000000.
/// The stack ends at 0x7fff00000000.
#[derive(Drop)]
pub struct Chain {
    /// The bytes of the header table.
    pub header: Vec<u8>,
    /// The bytes of the frame table.
    pub frames: Vec<u8>,
    /// The bytes of the language tables.
    pub languages: Vec<u8>,
    /// The bytes of the stack, from the innermost stack pointer on.
    pub stack: Vec<u8>,
    /// The innermost state.
    pub innermost: Registers,
    /// Landing pads of cleanups, each with the return address at which its function goes on.
    pub resumes: Vec<(u64, u64)>,
}

/// The chain of so many calls that a seed gives. Its tables describe its functions, so that with
/// its innermost state it is a valid case, by its frame table and by its header table.
///
/// # Errors
///
/// `AllocError` where memory ran out.
pub fn chain_of(alloc: Global, count: u32, seed: u64) -> Result<Chain, AllocError>
    requires some { 0 < count }
    requires few { count ≤ 100000 }
    ensures made { IfOk result (λ chain. IsMade chain seed (outlines seed count)) }
    ensures valid { IfOk result (λ chain. IsValidChain chain seed count) }
{
    let functions = outlines(alloc, count, seed)?;
    let header = header_table(alloc, &functions)?;
    let frames = frame_table(alloc, &functions)?;
    let languages = Vec::from_slice(alloc, language_tables())?;
    let stack = stack_of(alloc, &functions, seed)?;
    let resumes = resumes(alloc, &functions)?;
    Ok(Chain {
        header,
        frames,
        languages,
        stack: stack.bytes,
        innermost: stack.innermost,
        resumes,
    })
}
