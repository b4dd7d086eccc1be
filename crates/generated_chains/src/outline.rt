//! The functions of a chain in outline.

ghost use Rattle.std.specs.Prelude.{◌≡◌, IfOk, length};
ghost use Rattle.generated_chains.specs.Outlines.{following, kind_of, handling_of, outlines};
ghost use Rattle.generated_chains.specs.Outlines.{AreNumbered};

use std::alloc::{AllocError, Global};

/// What a function's prologue does.
#[derive(Clone, Copy, Debug, PartialEq, Eq, Drop)]
pub enum Kind {
    /// Pushes RBX.
    Pushes,
    /// Pushes RBX and allocates 16 bytes.
    PushesAndAllocates,
    /// Pushes RBP and sets it to the stack pointer.
    SetsFrame,
    /// The same, and then pushes RBX and allocates 24 bytes.
    SetsFrameAndPushes,
}

/// What a function does with an exception that passes its call.
#[derive(Clone, Copy, Debug, PartialEq, Eq, Drop)]
pub enum Handling {
    /// It has no language table.
    PassesOn,
    /// Its landing pad cleans up, and the exception goes on.
    CleansUp,
    /// Its landing pad catches.
    Catches,
}

/// A function of a chain: its number, from the innermost outwards, its prologue, and what it
/// does with an exception.
#[derive(Clone, Copy, Debug, PartialEq, Eq, Drop)]
pub struct Outline {
    /// 0 for the innermost.
    pub index: u32,
    /// Its prologue.
    pub kind: Kind,
    /// Its language table.
    pub handling: Handling,
}

// The word after another one of the sequence.
fn following(x: u64) -> u64
    ensures { result ≡ following x }
{
    x.wrapping_mul(6364136223846793005)
        .wrapping_add(1442695040888963407)
}

// The prologue that a word's two highest bits name.
fn kind_of(x: u64) -> Kind
    ensures { result ≡ kind_of x }
{
    match x / (1 << 62) {
        0 => Kind::Pushes,
        1 => Kind::PushesAndAllocates,
        2 => Kind::SetsFrame,
        _ => Kind::SetsFrameAndPushes,
    }
}

// What a function does with an exception, by its index and how many functions are outside it.
fn handling_of(index: u32, outer: u32) -> Handling
    ensures { result ≡ handling_of index outer }
{
    if outer == 0 {
        Handling::Catches
    } else if index % 4 == 3 {
        Handling::CleansUp
    } else {
        Handling::PassesOn
    }
}

/// The functions of a chain in outline, from the innermost outwards.
///
/// # Errors
///
/// `AllocError` where memory ran out.
pub fn outlines(alloc: Global, count: u32, seed: u64) -> Result<Vec<Outline>, AllocError>
    ensures items { IfOk result (λ made. made.items ≡ outlines seed count) }
    ensures numbered { IfOk result (λ made. AreNumbered 0 made.items) }
    ensures len { IfOk result (λ made. length made.items ≡ count) }
{
    let mut made = Vec::with_capacity(alloc, count as usize)?;
    let mut x = seed;
    for index in 0..count {
        x = following(x);
        made.push(Outline {
            index,
            kind: kind_of(x),
            handling: handling_of(index, count - 1 - index),
        })?;
    }
    Ok(made)
}
