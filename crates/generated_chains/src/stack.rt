//! The stack that the calls of a chain leave.

ghost use Rattle.std.specs.Prelude.{◌≡◌, ◌<◌, ◌≤◌, ◌++◌, IfOk, OnOk, [], reverse, length};
ghost use Rattle.generated_chains.specs.Outlines.{AreNumbered};
ghost use Rattle.generated_chains.specs.Calls.{entered_from, frame_bytes, resume_in, resumes_of};
ghost use Rattle.std.specs.List.{cons_option};
ghost use Rattle.generated_chains.specs.Shown.{state_in, IsStackOf};

use crate::outline::{Handling, Kind, Outline};
use crate::spelled::put_word_down;
use crate::tables::start_of;
use std::alloc::{AllocError, Global};

/// The registers of a state that are not 0 throughout a chain: the return address, the stack
/// pointer, RBX and RBP.
#[derive(Clone, Copy, Debug, PartialEq, Eq, Drop)]
pub struct Registers {
    /// The return address.
    pub ra: u64,
    /// The stack pointer.
    pub sp: u64,
    /// RBX.
    pub rbx: u64,
    /// RBP.
    pub rbp: u64,
}

/// A stack: its bytes, and the registers of the innermost state, whose stack pointer is the address
/// of the first byte.
#[derive(Drop)]
pub struct Stack {
    /// From the innermost stack pointer to the end of the stack.
    pub bytes: Vec<u8>,
    /// The innermost state.
    pub innermost: Registers,
}

// The registers of a function that was called from a state.
fn entered_from(kind: Kind, index: u32, caller: Registers) -> Registers
    requires index { index < 100000 }
    requires room { 48 ≤ caller.sp }
    ensures { state_in result ≡ entered_from kind index (state_in caller) }
{
    let ra = u64::from(start_of(index)) + 32;
    let rbx = u64::from(index);
    match kind {
        Kind::Pushes => Registers {
            ra,
            sp: caller.sp - 16,
            rbx,
            rbp: caller.rbp,
        },
        Kind::PushesAndAllocates => Registers {
            ra,
            sp: caller.sp - 32,
            rbx,
            rbp: caller.rbp,
        },
        Kind::SetsFrame => Registers {
            ra,
            sp: caller.sp - 16,
            rbx: caller.rbx,
            rbp: caller.sp - 16,
        },
        Kind::SetsFrameAndPushes => Registers {
            ra,
            sp: caller.sp - 48,
            rbx,
            rbp: caller.sp - 16,
        },
    }
}

// Puts the words of a function's frame last, the highest first.
fn put_frame_down(bytes: &mut Vec<u8>, kind: Kind, caller: Registers) -> Result<(), AllocError>
    ensures { OnOk result (bytes.new.items ≡ bytes.old.items ++ reverse
        (frame_bytes kind (state_in caller))) }
{
    put_word_down(bytes, caller.ra)?;
    match kind {
        Kind::Pushes => put_word_down(bytes, caller.rbx),
        Kind::PushesAndAllocates => {
            put_word_down(bytes, caller.rbx)?;
            put_word_down(bytes, 0)?;
            put_word_down(bytes, 0)
        }
        Kind::SetsFrame => put_word_down(bytes, caller.rbp),
        Kind::SetsFrameAndPushes => {
            put_word_down(bytes, caller.rbp)?;
            put_word_down(bytes, caller.rbx)?;
            put_word_down(bytes, 0)?;
            put_word_down(bytes, 0)?;
            put_word_down(bytes, 0)
        }
    }
}

/// The stack of a chain of functions, which are called from the outermost state.
///
/// # Errors
///
/// `AllocError` where memory ran out.
pub fn stack_of(alloc: Global, functions: &[Outline], seed: u64) -> Result<Stack, AllocError>
    requires numbered { AreNumbered 0 functions.now }
    requires few { length functions.now ≤ 100000 }
    ensures { IfOk result (λ stack. IsStackOf stack seed functions.now) }
{
    let count = functions.len();
    let mut bytes = Vec::with_capacity(alloc, 48 * count)?;
    let mut state = Registers {
        ra: 0,
        sp: 0x7fff00000000,
        rbx: seed,
        rbp: 0,
    };
    for called in 0..count {
        let function = functions[count - 1 - called];
        put_frame_down(&mut bytes, function.kind, state)?;
        state = entered_from(function.kind, function.index, state);
    }
    bytes.as_mut_slice().reverse();
    Ok(Stack {
        bytes,
        innermost: state,
    })
}

// Puts a function's landing pad and return address last, where it cleans up.
fn put_resume(made: &mut Vec<(u64, u64)>, function: Outline) -> Result<(), AllocError>
    requires { function.index < 100000 }
    ensures { OnOk result
        (made.new.items ≡ made.old.items ++ cons_option (resume_in function) []) }
{
    let start = u64::from(start_of(function.index));
    match function.handling {
        Handling::PassesOn => Ok(()),
        Handling::CleansUp => {
            made.push((start + 48, start + 56))?;
            Ok(())
        }
        Handling::Catches => Ok(()),
    }
}

/// The landing pads of cleanups, each with the return address at which its function goes on.
///
/// # Errors
///
/// `AllocError` where memory ran out.
pub fn resumes(alloc: Global, functions: &[Outline]) -> Result<Vec<(u64, u64)>, AllocError>
    requires numbered { AreNumbered 0 functions.now }
    requires few { length functions.now ≤ 100000 }
    ensures { IfOk result (λ made. made.items ≡ resumes_of functions.now) }
{
    let mut made = Vec::new(alloc);
    for function in functions {
        put_resume(&mut made, *function)?;
    }
    Ok(made)
}
