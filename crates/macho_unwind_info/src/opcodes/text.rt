// How saved registers of x86 and x86-64 are printed.
ghost use Rattle.std.specs.Prelude.{◌≡◌, ◌+◌, ◌*◌, ◌<◌, ◌≤◌, ◌^◌, ℕ, List, length};
ghost use Rattle.std.specs.Fmt.{WritesOnOk};
ghost use Rattle.macho_unwind_info.specs.RegisterText.{slot_text_of, fields_text, registers_text};
ghost use Rattle.macho_unwind_info.specs.RegisterText.{frame_text, return_text, size_text};
ghost use Rattle.macho_unwind_info.specs.RegisterText.{indirect_text};

use std::fmt;

/// A register that has a name.
pub trait Named: Copy {
    ghost name: { Self → List ℕ };

    fn name(&self) -> &'static str
        ensures { result.now ≡ name self.now };
}

/// The slot of a register, so far below the CFA. Nothing where there is no register.
pub fn write_slot<R: Named, W: fmt::Write>(
    f: &mut fmt::Formatter<W>,
    register: Option<R>,
    below: u32,
) -> fmt::Result
    ensures { WritesOnOk W.write_str_gives f.old result (slot_text_of R.name register below) f.new }
{
    match register {
        Some(register) => {
            let name = register.name();
            write!(f, ", {name}=[CFA-{below}]")
        }
        None => Ok(()),
    }
}

/// Fields, each of which has a slot, a word less far below the CFA than that of the field before.
pub fn write_fields<R: Named, W: fmt::Write>(
    f: &mut fmt::Formatter<W>,
    word: u32,
    mut below: u32,
    fields: &[Option<R>],
) -> fmt::Result
    requires { word * length fields.now ≤ below }
    ensures { WritesOnOk W.write_str_gives f.old result (fields_text R.name word below fields.now)
        f.new }
{
    for field in fields {
        write_slot(f, *field, below)?;
        below -= word;
    }
    Ok(())
}

/// Registers, each a word farther below the CFA than the one before.
pub fn write_registers<R: Named, W: fmt::Write>(
    f: &mut fmt::Formatter<W>,
    word: u32,
    mut below: u32,
    registers: &[Option<R>],
) -> fmt::Result
    requires { below + word * length registers.now < 2 ^ 32 }
    ensures { WritesOnOk W.write_str_gives f.old result
        (registers_text R.name word below registers.now) f.new }
{
    for register in registers {
        if register.is_some() {
            write_slot(f, *register, below)?;
            below += word;
        }
    }
    Ok(())
}

/// The frame pointer as CFA, its own slot and that of the return address.
pub fn write_frame<W: fmt::Write>(f: &mut fmt::Formatter<W>, word: u32) -> fmt::Result
    requires { word < 2 ^ 16 }
    ensures { WritesOnOk W.write_str_gives f.old result (frame_text word) f.new }
{
    let both = 2 * word;
    write!(f, "CFA=reg6+{both}: reg6=[CFA-{both}], reg16=[CFA-{word}]")
}

/// The slot of the return address.
pub fn write_return<W: fmt::Write>(f: &mut fmt::Formatter<W>, word: u32) -> fmt::Result
    ensures { WritesOnOk W.write_str_gives f.old result (return_text word) f.new }
{
    write!(f, " reg16=[CFA-{word}]")
}

/// The stack pointer plus a size as CFA.
pub fn write_size<W: fmt::Write>(f: &mut fmt::Formatter<W>, size: u16) -> fmt::Result
    ensures { WritesOnOk W.write_str_gives f.old result (size_text size) f.new }
{
    if size == 0 {
        write!(f, "CFA=reg7:")
    } else {
        write!(f, "CFA=reg7+{size}:")
    }
}

/// The stack pointer plus a size that lies in the code as CFA.
pub fn write_indirect<W: fmt::Write>(f: &mut fmt::Formatter<W>, after: u8, added: u8) -> fmt::Result
    ensures { WritesOnOk W.write_str_gives f.old result (indirect_text after added) f.new }
{
    write!(f, "CFA=[function_start+{after}]+{added}")
}
