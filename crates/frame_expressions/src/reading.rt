//! Decoding operations from their bytes. DWARF 5 section 7.7.1.

ghost use Rattle.std.specs.Int.{w16};
ghost use Rattle.unwind_definitions.specs.Pointers.{signed_number};
ghost use Rattle.unwind_definitions.specs.Operations.{operation, constant, rearrangement};
ghost use Rattle.unwind_definitions.specs.Operations.{arithmetic, decision, extension, loads};
ghost use Rattle.unwind_definitions.specs.Operations.{pushes_column};
ghost use Rattle.encoded_pointers.specs.Readers.{GivesOr};
ghost use Rattle.encoded_pointers.specs.CursorViews.{at};
ghost use Rattle.frame_expressions.specs.OperationViews.{meaning};

use crate::constants::*;
use crate::operation::{ByteCount, Change, Combination, Division, Operation};
use encoded_pointers::Cursor;
use unwind_arch::Register;
use unwind_definitions::Error;

// Numbers that the bytes hold, and the word at an address: first bytes up to 0x11.
#[tactic(auto, unfolding(unwind_definitions::specs::Operations::constant))]
fn read_constant(input: &mut Cursor, code: u8) -> Result<Operation, Error>
    ensures { GivesOr meaning result (constant code (at input.old)) (at input.new) }
{
    match code {
        DW_OP_DEREF => Ok(Operation::Load(ByteCount::new(8))),
        DW_OP_CONST1U => Ok(Operation::Push(input.read_u8()? as u64)),
        DW_OP_CONST1S => Ok(Operation::Push((input.read_i8()? as i64).cast_unsigned())),
        DW_OP_CONST2U => Ok(Operation::Push(input.read_u16()? as u64)),
        DW_OP_CONST2S => Ok(Operation::Push((input.read_i16()? as i64).cast_unsigned())),
        DW_OP_CONST4U => Ok(Operation::Push(input.read_u32()? as u64)),
        DW_OP_CONST4S => Ok(Operation::Push((input.read_i32()? as i64).cast_unsigned())),
        DW_OP_ADDR | DW_OP_CONST8U | DW_OP_CONST8S => Ok(Operation::Push(input.read_u64()?)),
        DW_OP_CONSTU => Ok(Operation::Push(input.read_uleb128()?)),
        DW_OP_CONSTS => Ok(Operation::Push(input.read_sleb128_word()?)),
        _ => Err(Error::UnknownOperation),
    }
}

// What only moves words on the stack: first bytes from 0x12 to 0x18.
#[tactic(auto, unfolding(unwind_definitions::specs::Operations::rearrangement))]
fn read_rearrangement(input: &mut Cursor, code: u8) -> Result<Operation, Error>
    ensures { GivesOr meaning result (rearrangement code (at input.old)) (at input.new) }
{
    match code {
        DW_OP_DUP => Ok(Operation::Pick(0)),
        DW_OP_DROP => Ok(Operation::Pop),
        DW_OP_OVER => Ok(Operation::Pick(1)),
        DW_OP_PICK => Ok(Operation::Pick(input.read_u8()?)),
        DW_OP_SWAP => Ok(Operation::Swap),
        DW_OP_ROT => Ok(Operation::Rotate),
        _ => Err(Error::UnknownOperation),
    }
}

// Arithmetic, logic and shifts: first bytes from 0x19 to 0x27.
#[tactic(auto, unfolding(unwind_definitions::specs::Operations::arithmetic))]
fn read_arithmetic(input: &mut Cursor, code: u8) -> Result<Operation, Error>
    ensures { GivesOr meaning result (arithmetic code (at input.old)) (at input.new) }
{
    match code {
        DW_OP_ABS => Ok(Operation::Change(Change::Magnitude)),
        DW_OP_AND => Ok(Operation::Combine(Combination::And)),
        DW_OP_DIV => Ok(Operation::Divide(Division::Quotient)),
        DW_OP_MINUS => Ok(Operation::Combine(Combination::Subtract)),
        DW_OP_MOD => Ok(Operation::Divide(Division::Remainder)),
        DW_OP_MUL => Ok(Operation::Combine(Combination::Multiply)),
        DW_OP_NEG => Ok(Operation::Change(Change::Negate)),
        DW_OP_NOT => Ok(Operation::Change(Change::Not)),
        DW_OP_OR => Ok(Operation::Combine(Combination::Or)),
        DW_OP_PLUS => Ok(Operation::Combine(Combination::Add)),
        DW_OP_PLUS_UCONST => Ok(Operation::Change(Change::Add(input.read_uleb128()?))),
        DW_OP_SHL => Ok(Operation::Combine(Combination::ShiftLeft)),
        DW_OP_SHR => Ok(Operation::Combine(Combination::ShiftRight)),
        DW_OP_SHRA => Ok(Operation::Combine(Combination::ShiftSigned)),
        DW_OP_XOR => Ok(Operation::Combine(Combination::Xor)),
        _ => Err(Error::UnknownOperation),
    }
}

// Comparisons and branches: first bytes from 0x28 to 0x2f.
#[tactic(auto, unfolding(unwind_definitions::specs::Operations::decision))]
fn read_decision(input: &mut Cursor, code: u8) -> Result<Operation, Error>
    ensures { GivesOr meaning result (decision code (at input.old)) (at input.new) }
{
    match code {
        DW_OP_BRA => Ok(Operation::Branch(read_distance(input)?)),
        DW_OP_EQ => Ok(Operation::Combine(Combination::IsEqual)),
        DW_OP_GE => Ok(Operation::Combine(Combination::IsAtLeast)),
        DW_OP_GT => Ok(Operation::Combine(Combination::IsGreater)),
        DW_OP_LE => Ok(Operation::Combine(Combination::IsAtMost)),
        DW_OP_LT => Ok(Operation::Combine(Combination::IsLess)),
        DW_OP_NE => Ok(Operation::Combine(Combination::IsUnequal)),
        _ => Ok(Operation::Skip(read_distance(input)?)),
    }
}

// How far a branch leads, as a word.
fn read_distance(input: &mut Cursor) -> Result<u64, Error>
    ensures { GivesOr (λ n. n) result (signed_number w16 16 (at input.old)) (at input.new) }
{
    let distance = input.read_i16()?;
    Ok((distance as i64).cast_unsigned())
}

// What a register holds, and a number. The register's number is judged before the other is read.
fn read_register_value(input: &mut Cursor) -> Result<Operation, Error>
    ensures { GivesOr meaning result (pushes_column (at input.old)) (at input.new) }
{
    let register = input.read_uleb128()?;
    if register > 0xffff {
        return Err(Error::UnsupportedRegister);
    }
    Ok(Operation::PushRegister {
        register: Register(register as u16),
        offset: input.read_sleb128_word()?,
    })
}

// The number of one to eight bytes at an address.
fn read_load(input: &mut Cursor) -> Result<Operation, Error>
    ensures { GivesOr meaning result (loads (at input.old)) (at input.new) }
{
    let count = input.read_u8()?;
    if count == 0 || count > 8 {
        return Err(Error::UnknownOperation);
    }
    Ok(Operation::Load(ByteCount::new(count)))
}

// First bytes from 0x90 on.
#[tactic(auto, unfolding(unwind_definitions::specs::Operations::extension))]
fn read_extension(input: &mut Cursor, code: u8) -> Result<Operation, Error>
    ensures { GivesOr meaning result (extension code (at input.old)) (at input.new) }
{
    match code {
        DW_OP_BREGX => read_register_value(input),
        DW_OP_DEREF_SIZE => read_load(input),
        DW_OP_NOP => Ok(Operation::Nop),
        _ => Err(Error::UnknownOperation),
    }
}

/// The next operation. After a fault the cursor is unspecified.
#[tactic(auto, unfolding(unwind_definitions::specs::Operations::operation_of))]
pub(crate) fn read_operation(input: &mut Cursor) -> Result<Operation, Error>
    ensures { GivesOr meaning result (operation (at input.old)) (at input.new) }
{
    let code = input.read_u8()?;
    match code {
        0x00..=0x11 => read_constant(input, code),
        0x12..=0x18 => read_rearrangement(input, code),
        0x19..=0x27 => read_arithmetic(input, code),
        0x28..=0x2f => read_decision(input, code),
        0x30..=0x4f => Ok(Operation::Push((code - DW_OP_LIT0) as u64)),
        0x70..=0x8f => Ok(Operation::PushRegister {
            register: Register((code - DW_OP_BREG0) as u16),
            offset: input.read_sleb128_word()?,
        }),
        0x90.. => read_extension(input, code),
        _ => Err(Error::UnknownOperation),
    }
}
