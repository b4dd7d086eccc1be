//! How call frame bytes name a column of the register rule table.

ghost use Rattle.unwind_definitions.specs.Instructions.{column};
ghost use Rattle.encoded_pointers.specs.Readers.{GivesOr};
ghost use Rattle.encoded_pointers.specs.CursorViews.{at};

use encoded_pointers::Cursor;
use unwind_arch::Register;
use unwind_definitions::Error;

/// Reads a register's number, an unsigned LEB128 number. After an error it isn't promised where the
/// cursor stands.
///
/// # Errors
///
/// Those of [`Cursor::read_uleb128`], and `UnsupportedRegister` where the number is above 65535.
pub fn read_register(input: &mut Cursor) -> Result<Register, Error>
    ensures { GivesOr (λ r. r.0) result (column (at input.old)) (at input.new) }
{
    let number = input.read_uleb128()?;
    if number > 0xffff {
        return Err(Error::UnsupportedRegister);
    }
    Ok(Register(number as u16))
}
