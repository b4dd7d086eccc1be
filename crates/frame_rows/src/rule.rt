//! Rules by which a row finds the caller's registers. DWARF 5 section 6.4.1.

use unwind_arch::Register;

/// How the canonical frame address (CFA) is found.
#[derive(Clone, Copy, Debug, PartialEq, Eq)]
pub enum CfaRule<'a> {
    /// A register's value plus an offset, as words that wrap.
    RegisterAndOffset {
        /// The register.
        register: Register,
        /// The offset, a word: one below 0 counts from 2^64.
        offset: u64,
    },
    /// The value of an expression's bytes, from an empty stack.
    Expression(&'a [u8]),
}

/// How a register's value in the caller is found. Offsets are words that wrap.
#[derive(Clone, Copy, Debug, Default, PartialEq, Eq)]
pub enum RegisterRule<'a> {
    /// The value isn't known.
    #[default]
    Undefined,
    /// The callee's value.
    SameValue,
    /// The word at the CFA plus this offset.
    Offset(u64),
    /// The CFA plus this offset.
    ValOffset(u64),
    /// The callee's value of a register.
    Register(Register),
    /// The word at the value of an expression's bytes, whose stack begins with the CFA.
    Expression(&'a [u8]),
    /// The value of an expression's bytes, whose stack begins with the CFA.
    ValExpression(&'a [u8]),
}
