/// Why call frame bytes can't be read or run: `.eh_frame`, `.eh_frame_hdr` and language tables.
///
/// Readings go from left to right, and the first condition that holds is the one that is reported.
/// Source: DWARF 5 section 6.4, the LSB forms of `.eh_frame` and `.eh_frame_hdr`, and level 1 of
/// the Itanium C++ ABI for exception handling.
#[derive(Clone, Copy, Debug, PartialEq, Eq, thiserror::Error)]
pub enum Error {
    /// A field, length, block, operand or table entry passes the end of what holds it.
    #[error("the bytes end too early")]
    UnexpectedEof,
    /// An encoding byte other than omit has an unknown format or application.
    #[error("unknown pointer encoding")]
    UnknownPointerEncoding,
    /// An aligned pointer is read, or an indirect one where a direct one is asked.
    #[error("unsupported pointer encoding")]
    UnsupportedPointerEncoding,
    /// A pointer is read by the encoding that says that there is none.
    #[error("an omitted pointer is asked")]
    CannotParseOmitPointerEncoding,
    /// A pointer is relative to a base that isn't known.
    #[error("a pointer's base isn't known")]
    UndefinedBase,
    /// The tenth byte of an unsigned LEB128 number isn't 00 or 01.
    #[error("bad unsigned LEB128 number")]
    BadUnsignedLeb128,
    /// The tenth byte of a signed LEB128 number isn't 00 or 7f.
    #[error("bad signed LEB128 number")]
    BadSignedLeb128,
    /// The version of a common information entry or of a header isn't known.
    #[error("unknown version")]
    UnknownVersion,
    /// An address isn't of 8 bytes, or there are segments.
    #[error("unsupported address size")]
    UnsupportedAddressSize,
    /// An augmentation that isn't known.
    #[error("unknown augmentation")]
    UnknownAugmentation,
    /// A description doesn't lead to a common information entry.
    #[error("no common information entry")]
    NotCie,
    /// No frame description entry stands where one is asked.
    #[error("no frame description entry")]
    NotFde,
    /// An address passes 2^64 - 1.
    #[error("an address overflows")]
    AddressOverflow,
    /// A program sets its location below the one before.
    #[error("the location goes back")]
    LocationGoesBack,
    /// An instruction byte that isn't known.
    #[error("unknown instruction")]
    UnknownInstruction,
    /// A part of the CFA is changed where it isn't a register with an offset, or a row has no CFA.
    #[error("the CFA is no register")]
    NoCfaRegister,
    /// A 33rd register gets a rule.
    #[error("too many register rules")]
    TooManyRegisterRules,
    /// A second state is remembered, or a 65th word is pushed.
    #[error("the stack is full")]
    StackFull,
    /// No state is remembered where one is restored, or an operation lacks its word.
    #[error("the stack is empty")]
    PopWithEmptyStack,
    /// A register above 65535, or one that the machine doesn't have.
    #[error("unsupported register")]
    UnsupportedRegister,
    /// An operation byte of an expression that isn't known.
    #[error("unknown operation")]
    UnknownOperation,
    /// An expression divides by 0.
    #[error("division by zero")]
    DivisionByZero,
    /// An expression branches out of its bytes.
    #[error("bad branch")]
    BadBranch,
    /// An expression doesn't come to its end.
    #[error("too many operations")]
    TooManyOperations,
    /// No description contains the address.
    #[error("no unwind information for the address")]
    NoUnwindInfoForAddress,
}
