//! How a pointer in call frame bytes is encoded. LSB, DWARF exception header encoding.

ghost use Rattle.std.specs.Prelude.{◌≡◌, ◌==◌, OnErr};
ghost use Rattle.unwind_definitions.specs.PointerEncodings.{DW_EH_PE_omit};
ghost use Rattle.unwind_definitions.specs.Pointers.{application_of, encoding, format_of};
ghost use Rattle.unwind_definitions.specs.Pointers.{is_indirect, is_known};
ghost use Rattle.encoded_pointers.specs.Readers.{GivesOr};
ghost use Rattle.encoded_pointers.specs.CursorViews.{at};

use crate::constants::*;
use crate::cursor::Cursor;
use unwind_definitions::Error;

/// How a pointer is encoded: a format, what its value is relative to, and whether it is the address
/// of the pointer. Or that there is none.
///
/// Source: LSB, DWARF exception header encoding.
#[derive(Clone, Copy, Debug, PartialEq, Eq)]
pub struct DwEhPe(pub u8);

// the format of an encoding
const FORMAT: u8 = 0x0f;

// its application
const APPLICATION: u8 = 0x70;

impl DwEhPe {
    /// `DW_EH_PE_absptr`: a word that is the address itself.
    pub const ABSPTR: DwEhPe = DwEhPe(DW_EH_PE_ABSPTR);

    /// `DW_EH_PE_pcrel | DW_EH_PE_sdata4`: four signed bytes, relative to their own place.
    pub const RELATIVE_SDATA4: DwEhPe = DwEhPe(DW_EH_PE_PCREL | DW_EH_PE_SDATA4);

    /// `DW_EH_PE_omit`: there is no pointer.
    pub const OMIT: DwEhPe = DwEhPe(DW_EH_PE_OMIT);

    /// How the value is spelled: the low four bits.
    pub fn format(self) -> DwEhPe
        ensures { result.0 ≡ format_of self.0 }
    {
        DwEhPe(self.0 & FORMAT)
    }

    /// What the value is relative to: the bits 0x70.
    pub fn application(self) -> DwEhPe
        ensures { result.0 ≡ application_of self.0 }
    {
        DwEhPe(self.0 & APPLICATION)
    }

    /// Whether the pointer stands at the address that is spelled: the bit 0x80 is set, and there is
    /// a pointer.
    pub fn is_indirect(self) -> bool
        ensures { result ≡ is_indirect self.0 }
    {
        !self.is_absent() && self.0 & DW_EH_PE_INDIRECT != 0
    }

    /// Whether there is no pointer: `DW_EH_PE_omit`.
    pub fn is_absent(self) -> bool
        ensures { result ≡ (self.0 == DW_EH_PE_omit) }
    {
        self == DwEhPe::OMIT
    }

    /// Whether format and application are known, or there is no pointer.
    pub fn is_valid_encoding(self) -> bool
        ensures { result ≡ is_known self.0 }
    {
        let is_format = matches!(
            self.format().0,
            DW_EH_PE_ABSPTR..=DW_EH_PE_UDATA8 | DW_EH_PE_SLEB128..=DW_EH_PE_SDATA8
        );
        let is_application = self.application().0 <= DW_EH_PE_ALIGNED;
        self.is_absent() || is_format && is_application
    }
}

/// Reads how a pointer is encoded.
///
/// # Errors
///
/// `UnexpectedEof` where no byte is left, and `UnknownPointerEncoding` where the format or the
/// application isn't known and the byte isn't that of no pointer. The cursor then stays.
pub fn parse_pointer_encoding(input: &mut Cursor) -> Result<DwEhPe, Error>
    ensures reads { GivesOr (λ e. e.0) result (encoding (at input.old)) (at input.new) }
    ensures unchanged { OnErr result (at input.new ≡ at input.old) }
{
    let mut rest = *input;
    let encoding = DwEhPe(rest.read_u8()?);
    if !encoding.is_valid_encoding() {
        return Err(Error::UnknownPointerEncoding);
    }
    *input = rest;
    Ok(encoding)
}
