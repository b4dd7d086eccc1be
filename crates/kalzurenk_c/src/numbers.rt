// The numbers of errors, as the header `kalzurenk.h` names them.
ghost use Rattle.std.specs.Prelude.{◌≡◌};
ghost use Rattle.kalzurenk_c.specs.Numbers.{macho_number, refused_number, refused_detail, table_number};

use eh_frame::Error;
use macho_unwind_info::{Error as MachoError, ReadError};
use stack_steps::DeliverError;

/// The number of an error of call frame information, from 1 to 25.
pub(crate) fn table_number(error: Error) -> u32
    ensures { result ≡ table_number error }
{
    match error {
        Error::UnexpectedEof => 1,
        Error::UnknownPointerEncoding => 2,
        Error::UnsupportedPointerEncoding => 3,
        Error::CannotParseOmitPointerEncoding => 4,
        Error::UndefinedBase => 5,
        Error::BadUnsignedLeb128 => 6,
        Error::BadSignedLeb128 => 7,
        Error::UnknownVersion => 8,
        Error::UnsupportedAddressSize => 9,
        Error::UnknownAugmentation => 10,
        Error::NotCie => 11,
        Error::NotFde => 12,
        Error::AddressOverflow => 13,
        Error::LocationGoesBack => 14,
        Error::UnknownInstruction => 15,
        Error::NoCfaRegister => 16,
        Error::TooManyRegisterRules => 17,
        Error::StackFull => 18,
        Error::PopWithEmptyStack => 19,
        Error::UnsupportedRegister => 20,
        Error::UnknownOperation => 21,
        Error::DivisionByZero => 22,
        Error::BadBranch => 23,
        Error::TooManyOperations => 24,
        Error::NoUnwindInfoForAddress => 25,
    }
}

/// The number of an error of compact unwinding, from 101 to 115.
fn macho_number(error: MachoError) -> u32
    ensures { result ≡ macho_number error }
{
    match error {
        MachoError::ReadError(ReadError::Header) => 101,
        MachoError::ReadError(ReadError::GlobalOpcodes) => 102,
        MachoError::ReadError(ReadError::Pages) => 103,
        MachoError::ReadError(ReadError::RegularPage) => 104,
        MachoError::ReadError(ReadError::RegularPageFunctions) => 105,
        MachoError::ReadError(ReadError::CompressedPage) => 106,
        MachoError::ReadError(ReadError::CompressedPageFunctions) => 107,
        MachoError::ReadError(ReadError::LocalOpcodes) => 108,
        MachoError::ReadError(ReadError::PageKind) => 109,
        MachoError::InvalidPageEntryFirstAddress => 110,
        MachoError::InvalidPageKind => 111,
        MachoError::UnexpectedSentinelPage => 112,
        MachoError::AddressOverflow => 113,
        MachoError::ReadError(ReadError::Personalities) => 114,
        MachoError::ReadError(ReadError::Lsda) => 115,
    }
}

/// The number of a step's error, and the address that it has, which isn't mapped; else 0.
///
/// Walks answer those below 210: the others are of deliveries, or come to be the end of a walk by
/// another name.
pub(crate) fn refused_end(error: DeliverError) -> (u32, u64)
    ensures number { result.0 ≡ refused_number error }
    ensures detail { result.1 ≡ refused_detail error }
{
    match error {
        DeliverError::Table(error) => (table_number(error), 0),
        DeliverError::MachO(error) => (macho_number(error), 0),
        DeliverError::Unmapped(address) => (201, address),
        DeliverError::CompactForm => (202, 0),
        DeliverError::PeInfo => (203, 0),
        DeliverError::ChainLimit => (204, 0),
        DeliverError::NoMemory => (210, 0),
        DeliverError::FrameLimit => (211, 0),
        DeliverError::PassLimit => (212, 0),
        DeliverError::NoResume(pad) => (213, pad),
    }
}
