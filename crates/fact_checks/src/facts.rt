//! What is claimed of ranges of code. System V x86-64 psABI, section 3.2.1.

/// Where the caller's value of a callee-saved register is known to be. Of a register that is neither
/// saved nor kept nothing is known.
#[derive(Clone, Copy, Debug, PartialEq, Eq)]
pub struct KnownRegister {
    /// How far below the CFA it is saved, where it is.
    pub slot: Option<u64>,
    /// Whether the register holds it.
    pub is_kept: bool,
}

/// What is known of each callee-saved register.
#[derive(Clone, Copy, Debug, PartialEq, Eq)]
pub struct KnownRegisters {
    /// RBX.
    pub rbx: KnownRegister,
    /// RBP.
    pub rbp: KnownRegister,
    /// R12.
    pub r12: KnownRegister,
    /// R13.
    pub r13: KnownRegister,
    /// R14.
    pub r14: KnownRegister,
    /// R15.
    pub r15: KnownRegister,
}

/// The addresses from `from` to before `to`, and what is known at each of them.
#[derive(Clone, Copy, Debug, PartialEq, Eq)]
pub struct ClaimedFacts {
    /// The first address.
    pub from: u64,
    /// The address after the last one.
    pub to: u64,
    /// How far the CFA lies above RSP, where that is known.
    pub rsp: Option<u64>,
    /// How far the CFA lies above RBP, where that is known.
    pub rbp: Option<u64>,
    /// The callee-saved registers.
    pub registers: KnownRegisters,
    /// Whether the frame is the outermost of its stack, as that of `_start` is.
    pub is_outermost: bool,
}
