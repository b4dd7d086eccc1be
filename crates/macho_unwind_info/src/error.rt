// Why a section can't be read.
ghost use Rattle.std.specs.Prelude.{◌≡◌};
ghost use Rattle.macho_unwind_info.specs.declared.error.Error.TheVariants as variants;

/// Why a section of compact unwinding, a page of it or an entry of a page can't be read.
#[derive(Clone, Copy, Debug, PartialEq, Eq, thiserror::Error)]
pub enum Error {
    /// A part of the section doesn't fit in its bytes.
    #[error("Read error: {0}")]
    ReadError(ReadError),

    /// The page that is searched for an address has no entry at or before it, though the page
    /// itself begins at or before it.
    #[error("The page entry's first_address didn't match the address of its first function")]
    InvalidPageEntryFirstAddress,

    /// A page's kind is none of 1, 2 and 3.
    #[error("Invalid page kind")]
    InvalidPageKind,

    /// A page other than the last has the kind of the sentinel, which is 1.
    #[error("Unexpected sentinel page")]
    UnexpectedSentinelPage,

    /// The address of a compressed entry passes 2^32 - 1.
    #[error("Address overflow")]
    AddressOverflow,
}

/// The part of a section that doesn't fit in its bytes.
#[derive(Clone, Copy, Debug, PartialEq, Eq, thiserror::Error)]
pub enum ReadError {
    /// The section's header.
    #[error("Could not read CompactUnwindInfoHeader")]
    Header,

    /// The opcodes that all compressed pages share.
    #[error("Could not read global opcodes")]
    GlobalOpcodes,

    /// The list of pages.
    #[error("Could not read pages")]
    Pages,

    /// The header of a regular page.
    #[error("Could not read RegularPage")]
    RegularPage,

    /// The entries of a regular page.
    #[error("Could not read RegularPage functions")]
    RegularPageFunctions,

    /// The header of a compressed page.
    #[error("Could not read CompressedPage")]
    CompressedPage,

    /// The entries of a compressed page.
    #[error("Could not read CompressedPage functions")]
    CompressedPageFunctions,

    /// The opcodes of a compressed page's own, or the one that an entry's index names.
    #[error("Could not read local opcodes")]
    LocalOpcodes,

    /// The word at a page's start that tells its kind.
    #[error("Could not read page kind")]
    PageKind,

    /// The list of personalities.
    #[error("Could not read personalities")]
    Personalities,

    /// A page's part of the list of language tables.
    #[error("Could not read language tables")]
    Lsda,
}

impl From<ReadError> for Error {
    ghost from_gives = { λ part error. error ≡ variants.ReadError part };

    fn from(part: ReadError) -> Error {
        Error::ReadError(part)
    }
}
