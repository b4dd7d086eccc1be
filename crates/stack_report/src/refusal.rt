// Why there is no report.
ghost use Rattle.std.specs.Prelude.{◌≡◌, ◌++◌, IfOk, OnOk};
ghost use Rattle.stack_report.specs.Refusals.{error_name, part_name, section_text};
ghost use Rattle.stack_report.specs.Refusals.{refusal_text, refused_line};

use crate::buffer::Report;
use macho_unwind_info::{Error as MachoError, ReadError};
use stack_deliver::{DeliverError, Error};
use std::alloc::{AllocError, Global};

/// The name of an error.
pub fn error_name(error: Error) -> &'static str
    ensures { result.now ≡ error_name error }
{
    match error {
        Error::UnexpectedEof => "UnexpectedEof",
        Error::UnknownPointerEncoding => "UnknownPointerEncoding",
        Error::UnsupportedPointerEncoding => "UnsupportedPointerEncoding",
        Error::CannotParseOmitPointerEncoding => "CannotParseOmitPointerEncoding",
        Error::UndefinedBase => "UndefinedBase",
        Error::BadUnsignedLeb128 => "BadUnsignedLeb128",
        Error::BadSignedLeb128 => "BadSignedLeb128",
        Error::UnknownVersion => "UnknownVersion",
        Error::UnsupportedAddressSize => "UnsupportedAddressSize",
        Error::UnknownAugmentation => "UnknownAugmentation",
        Error::NotCie => "NotCie",
        Error::NotFde => "NotFde",
        Error::AddressOverflow => "AddressOverflow",
        Error::LocationGoesBack => "LocationGoesBack",
        Error::UnknownInstruction => "UnknownInstruction",
        Error::NoCfaRegister => "NoCfaRegister",
        Error::TooManyRegisterRules => "TooManyRegisterRules",
        Error::StackFull => "StackFull",
        Error::PopWithEmptyStack => "PopWithEmptyStack",
        Error::UnsupportedRegister => "UnsupportedRegister",
        Error::UnknownOperation => "UnknownOperation",
        Error::DivisionByZero => "DivisionByZero",
        Error::BadBranch => "BadBranch",
        Error::TooManyOperations => "TooManyOperations",
        Error::NoUnwindInfoForAddress => "NoUnwindInfoForAddress",
    }
}

/// The name of a part of a section of compact unwinding that can't be read.
fn part_name(part: ReadError) -> &'static str
    ensures { result.now ≡ part_name part }
{
    match part {
        ReadError::Header => "Header",
        ReadError::GlobalOpcodes => "GlobalOpcodes",
        ReadError::Pages => "Pages",
        ReadError::RegularPage => "RegularPage",
        ReadError::RegularPageFunctions => "RegularPageFunctions",
        ReadError::CompressedPage => "CompressedPage",
        ReadError::CompressedPageFunctions => "CompressedPageFunctions",
        ReadError::LocalOpcodes => "LocalOpcodes",
        ReadError::PageKind => "PageKind",
        ReadError::Personalities => "Personalities",
        ReadError::Lsda => "Lsda",
    }
}

fn put_named(report: &mut Report, label: &str, name: &str) -> Result<(), AllocError>
    ensures { OnOk result (report.new ≡ report.old ++ (label.now ++ name.now)) }
{
    report.put(label)?;
    report.put(name)
}

fn put_section(report: &mut Report, error: MachoError) -> Result<(), AllocError>
    ensures { OnOk result (report.new ≡ report.old ++ section_text error) }
{
    match error {
        MachoError::ReadError(part) => put_named(report, "macho ReadError ", part_name(part)),
        MachoError::InvalidPageEntryFirstAddress => {
            report.put("macho InvalidPageEntryFirstAddress")
        }
        MachoError::InvalidPageKind => report.put("macho InvalidPageKind"),
        MachoError::UnexpectedSentinelPage => report.put("macho UnexpectedSentinelPage"),
        MachoError::AddressOverflow => report.put("macho AddressOverflow"),
    }
}

impl Report {
    /// Puts why a step, a walk or a delivery was refused last.
    pub fn put_refusal(&mut self, error: DeliverError) -> Result<(), AllocError>
        ensures { OnOk result (self.new ≡ self.old ++ refusal_text error) }
    {
        match error {
            DeliverError::NoMemory => self.put("no memory"),
            DeliverError::Unmapped(address) => self.put_field("unmapped ", address),
            DeliverError::FrameLimit => self.put("frame limit"),
            DeliverError::PassLimit => self.put("pass limit"),
            DeliverError::NoResume(pad) => self.put_field("no resume ", pad),
            DeliverError::Table(error) => put_named(self, "table ", error_name(error)),
            DeliverError::MachO(error) => put_section(self, error),
            DeliverError::CompactForm => self.put("compact form"),
            DeliverError::PeInfo => self.put("pe info"),
            DeliverError::ChainLimit => self.put("chain limit"),
        }
    }
}

/// Says why nothing was delivered or walked, in a line.
///
/// # Errors
///
/// `AllocError` where memory ran out.
pub fn refused_line(alloc: Global, error: DeliverError) -> Result<Report, AllocError>
    ensures { IfOk result (λ report. report ≡ refused_line error) }
{
    let mut report = Report::new(alloc);
    report.put("refused: ")?;
    report.put_refusal(error)?;
    report.end_line()?;
    Ok(report)
}
