//! Pointers in call frame bytes.

ghost use Rattle.std.specs.Prelude.{◌≡◌, OnErr};
ghost use Rattle.unwind_definitions.specs.Pointers.{application_of, base_of, direct, format_of};
ghost use Rattle.unwind_definitions.specs.Pointers.{base_if_known, pointer, value};
ghost use Rattle.encoded_pointers.specs.Readers.{Answers, GivesOr};
ghost use Rattle.encoded_pointers.specs.PointerViews.{bases_of, pointer_of};
ghost use Rattle.encoded_pointers.specs.CursorViews.{at};

use crate::bases::Bases;
use crate::constants::*;
use crate::cursor::Cursor;
use crate::encoding::DwEhPe;
use unwind_definitions::Error;

/// A pointer that call frame bytes spell.
///
/// Source: LSB, DWARF exception header encoding.
#[derive(Clone, Copy, Debug, PartialEq, Eq)]
pub enum Pointer {
    /// The address that it points to.
    Direct(u64),
    /// The address of eight bytes that hold the address that it points to.
    Indirect(u64),
}

/// Reads a pointer: what it is relative to plus the number that its bytes spell, as words.
///
/// A pointer that is relative to its own place counts from its first byte. A number of 0 has no
/// special meaning.
/// Source: LSB, DWARF exception header encoding.
///
/// # Errors
///
/// The first that holds of these, and then the cursor stays:
///
/// - `CannotParseOmitPointerEncoding` where the encoding says that there is no pointer;
/// - `UnknownPointerEncoding` where its format or its application isn't known;
/// - `UnsupportedPointerEncoding` where the pointer is aligned;
/// - `UndefinedBase` where `bases` doesn't have what it is relative to;
/// - the fault of reading the number.
pub fn parse_encoded_pointer(
    encoding: DwEhPe,
    bases: &Bases,
    input: &mut Cursor,
) -> Result<Pointer, Error>
    ensures reads { GivesOr pointer_of result
        (pointer encoding.0 (bases_of bases.now) (at input.old)) (at input.new) }
    ensures unchanged { OnErr result (at input.new ≡ at input.old) }
{
    if encoding.is_absent() {
        return Err(Error::CannotParseOmitPointerEncoding);
    }
    if !encoding.is_valid_encoding() {
        return Err(Error::UnknownPointerEncoding);
    }
    let base = base_address(encoding, bases, input.address())?;
    let number = read_value(encoding, input)?;
    let address = base.wrapping_add(number);
    if encoding.is_indirect() {
        Ok(Pointer::Indirect(address))
    } else {
        Ok(Pointer::Direct(address))
    }
}

// What a pointer at `place` is relative to, 0 where it is an address by itself.
fn base_address(encoding: DwEhPe, bases: &Bases, place: u64) -> Result<u64, Error>
    ensures { Answers (λ x. x) result
        (base_of (bases_of bases.now) place (application_of encoding.0)) }
{
    match encoding.application().0 {
        DW_EH_PE_ABSPTR => Ok(0),
        DW_EH_PE_PCREL => Ok(place),
        DW_EH_PE_TEXTREL => known_base(bases.text),
        DW_EH_PE_DATAREL => known_base(bases.data_base),
        DW_EH_PE_FUNCREL => known_base(bases.func),
        _ => Err(Error::UnsupportedPointerEncoding),
    }
}

fn known_base(base: Option<u64>) -> Result<u64, Error>
    ensures { Answers (λ x. x) result (base_if_known base) }
{
    base.ok_or(Error::UndefinedBase)
}

/// Reads the number of a pointer by the format of its encoding alone, as a word: numbers below 0
/// count from 2^64.
///
/// # Errors
///
/// The fault of reading the number. The cursor then stays.
pub fn read_value(encoding: DwEhPe, input: &mut Cursor) -> Result<u64, Error>
    ensures reads { GivesOr (λ x. x) result (value (format_of encoding.0) (at input.old))
        (at input.new) }
    ensures unchanged { OnErr result (at input.new ≡ at input.old) }
{
    match encoding.format().0 {
        DW_EH_PE_ULEB128 => input.read_uleb128(),
        DW_EH_PE_UDATA2 => Ok(u64::from(input.read_u16()?)),
        DW_EH_PE_UDATA4 => Ok(u64::from(input.read_u32()?)),
        DW_EH_PE_SLEB128 => input.read_sleb128_word(),
        DW_EH_PE_SDATA2 => Ok(i64::from(input.read_i16()?).cast_unsigned()),
        DW_EH_PE_SDATA4 => Ok(i64::from(input.read_i32()?).cast_unsigned()),
        // of the other formats those of whole words are known
        _ => input.read_u64(),
    }
}

/// Reads an address: a pointer that must not be indirect, which shows once it is read.
///
/// # Errors
///
/// Those of [`parse_encoded_pointer`], and then `UnsupportedPointerEncoding` where the pointer is
/// indirect. The cursor then stays.
pub fn parse_direct_pointer(
    encoding: DwEhPe,
    bases: &Bases,
    input: &mut Cursor,
) -> Result<u64, Error>
    ensures reads { GivesOr (λ x. x) result (direct encoding.0 (bases_of bases.now) (at input.old))
        (at input.new) }
    ensures unchanged { OnErr result (at input.new ≡ at input.old) }
{
    let mut rest = *input;
    match parse_encoded_pointer(encoding, bases, &mut rest)? {
        Pointer::Direct(address) => {
            *input = rest;
            Ok(address)
        }
        Pointer::Indirect(_) => Err(Error::UnsupportedPointerEncoding),
    }
}
