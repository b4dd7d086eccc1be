//! The operations of expressions. DWARF 5 section 2.5.

ghost use Rattle.std.specs.Prelude.{◌≡◌, ◌≤◌};

use unwind_arch::Register;

/// How many bytes a number in memory has.
#[derive(Clone, Copy)]
pub(crate) struct ByteCount {
    pub(crate) count: u8,
    ghost in_range: { count ≤ 8 },
}

impl ByteCount {
    pub(crate) fn new(count: u8) -> ByteCount
        requires { count ≤ 8 }
        ensures { result.count ≡ count }
    {
        ByteCount { count }
    }
}

/// One operation of an expression. Numbers below 0 are words: they count from 2^64.
#[derive(Clone, Copy)]
pub(crate) enum Operation {
    Nop,
    Pop,
    Swap,
    Rotate,
    Push(u64),
    /// Pushes what a register holds and a number.
    PushRegister { register: Register, offset: u64 },
    /// Pushes the word that stands this many words under the top.
    Pick(u8),
    /// Puts the number of this many bytes in the place of its address.
    Load(ByteCount),
    Change(Change),
    Combine(Combination),
    Divide(Division),
    /// Goes on this many bytes further.
    Skip(u64),
    /// The same, where the top isn't 0.
    Branch(u64),
}

/// What is put in the place of the top.
#[derive(Clone, Copy)]
pub(crate) enum Change {
    Magnitude,
    Negate,
    Not,
    Add(u64),
}

/// What is put in the place of the second word and the top.
#[derive(Clone, Copy)]
pub(crate) enum Combination {
    And,
    Or,
    Xor,
    Add,
    Subtract,
    Multiply,
    ShiftLeft,
    ShiftRight,
    ShiftSigned,
    IsEqual,
    IsUnequal,
    IsLess,
    IsAtMost,
    IsGreater,
    IsAtLeast,
}

/// The same, where the top must not be 0.
#[derive(Clone, Copy)]
pub(crate) enum Division {
    /// Of signed numbers, rounded to 0.
    Quotient,
    Remainder,
}
