//! The instructions of frame programs. DWARF 5 sections 6.4.2 and 7.24.

ghost use Rattle.std.specs.Prelude.{◌≡◌, ◌*◌, ◌<◌, ◌^◌, IfSome, Ok, length};
ghost use Rattle.unwind_definitions.specs.Input.{uleb};
ghost use Rattle.unwind_definitions.specs.Instructions.{Coding as Operands, instruction};
ghost use Rattle.unwind_definitions.specs.Instructions.{Advance, Write};
ghost use Rattle.unwind_definitions.specs.Pointers.{direct};
ghost use Rattle.encoded_pointers.specs.Readers.{GivesOr};
ghost use Rattle.encoded_pointers.specs.CursorViews.{at};
ghost use Rattle.frame_rows.specs.InstructionViews.{meaning, short_meaning};
ghost use Rattle.frame_rows.specs.InstructionViews.{coding_in, unsigned_offset};
ghost use Rattle.frame_rows.specs.InstructionViews.{signed_offset, block};
ghost use Rattle.frame_rows.specs.InstructionViews.{operation_read, cfa_read, offset_read};
ghost use Rattle.frame_rows.specs.InstructionViews.{rule_read, state_read};
ghost use Rattle.frame_rows.specs.Rules.{rule_meaning};

use crate::coding::Coding;
use crate::constants::*;
use crate::register::read_register;
use crate::rule::RegisterRule;
use encoded_pointers::{Cursor, parse_direct_pointer};
use unwind_arch::Register;
use unwind_definitions::Error;

/// An instruction of a frame program.
#[derive(Clone, Copy)]
pub(crate) enum CallFrameInstruction<'a> {
    Nop,
    SetLocation(u64),
    /// Raises the location by a number that may pass 2^64.
    AdvanceLocation(u128),
    SetRule {
        register: Register,
        rule: RegisterRule<'a>,
    },
    RestoreInitialRule(Register),
    RememberState,
    RestoreState,
    DefineCfa {
        register: Register,
        offset: u64,
    },
    DefineCfaRegister(Register),
    DefineCfaOffset(u64),
    DefineCfaExpression(&'a [u8]),
    SetArgumentSize(u64),
}

/// An instruction that takes two words: of these most programs consist.
#[derive(Clone, Copy)]
pub(crate) enum ShortInstruction {
    Nop,
    /// Raises the location.
    Advance(u64),
    /// Says where the word that a register had is kept, as an offset from the CFA.
    Save { register: Register, offset: u64 },
    DefineCfaOffset(u64),
    RememberState,
    RestoreState,
}

#[inline(always)]
fn advance<'a>(coding: Coding, delta: u32) -> CallFrameInstruction<'a>
    ensures { meaning result ≡ Advance (delta * coding.entry.code_factor) }
{
    CallFrameInstruction::AdvanceLocation(delta as u128 * coding.code_factor as u128)
}

#[inline(always)]
fn set_rule<'a>(register: Register, rule: RegisterRule<'a>) -> CallFrameInstruction<'a>
    ensures { meaning result ≡ Write register.0 (rule_meaning rule.entry) }
{
    CallFrameInstruction::SetRule { register, rule }
}

// An offset that is spelled in data units, unsigned.
fn read_offset(input: &mut Cursor, coding: Coding) -> Result<u64, Error>
    ensures { GivesOr (λ n. n) result (unsigned_offset (coding_in coding.entry) (at input.old))
        (at input.new) }
{
    let units = input.read_uleb128()?;
    Ok(units.wrapping_mul(coding.data_factor))
}

// The same, signed.
fn read_signed_offset(input: &mut Cursor, coding: Coding) -> Result<u64, Error>
    ensures { GivesOr (λ n. n) result (signed_offset (coding_in coding.entry) (at input.old))
        (at input.new) }
{
    let units = input.read_sleb128_word()?;
    Ok(units.wrapping_mul(coding.data_factor))
}

// The location that an instruction sets, which few do. Not inlined: what tells the encodings apart
// would cost each program that sets none.
#[inline(never)]
fn read_location(input: &mut Cursor, coding: Coding) -> Result<u64, Error>
    ensures { GivesOr (λ a. a) result
        (direct (coding_in coding.entry).address (coding_in coding.entry).bases (at input.old))
        (at input.new) }
{
    parse_direct_pointer(coding.address, coding.bases, input)
}

// The bytes of an expression, after their number.
#[inline(never)]
fn read_expression<'a>(input: &mut Cursor<'a>) -> Result<&'a [u8], Error>
    ensures { GivesOr (λ bytes. bytes.now) result (block (at input.old)) (at input.new) }
{
    let length = input.read_uleb128()?;
    let block = input.split(length)?;
    Ok(block.bytes())
}

// The next instruction, whose first byte was read and is below 64. Those that most programs consist
// of are told apart first.
#[tactic(auto, unfolding(crate::specs::InstructionViews::operation_read, crate::specs::InstructionViews::cfa_read, crate::specs::InstructionViews::offset_read, crate::specs::InstructionViews::rule_read, crate::specs::InstructionViews::state_read))]
#[inline(always)]
fn read_operation<'a>(
    input: &mut Cursor<'a>,
    coding: Coding,
    operation: u8,
) -> Result<CallFrameInstruction<'a>, Error>
    ensures { GivesOr meaning result
        (operation_read (coding_in coding.entry) operation (at input.old)) (at input.new) }
{
    match operation {
        DW_CFA_NOP => Ok(CallFrameInstruction::Nop),
        DW_CFA_DEF_CFA_OFFSET => Ok(CallFrameInstruction::DefineCfaOffset(input.read_uleb128()?)),
        DW_CFA_REMEMBER_STATE => Ok(CallFrameInstruction::RememberState),
        DW_CFA_RESTORE_STATE => Ok(CallFrameInstruction::RestoreState),
        DW_CFA_ADVANCE_LOC1 => Ok(advance(coding, input.read_u8()? as u32)),
        _ => {
            // a copy is read, so that a cursor by which none is needed can stay in registers
            let mut rest = *input;
            let instruction = read_row_creation(&mut rest, coding, operation)?;
            *input = rest;
            Ok(instruction)
        }
    }
}

// The same, group by group: what begins a row first. Not inlined, as few instructions are of these.
// Those after it are, so that the byte is told apart once. DWARF 5 section 6.4.2.1.
#[tactic(auto, unfolding(crate::specs::InstructionViews::operation_read))]
#[inline(never)]
fn read_row_creation<'a>(
    input: &mut Cursor<'a>,
    coding: Coding,
    operation: u8,
) -> Result<CallFrameInstruction<'a>, Error>
    ensures { GivesOr meaning result
        (operation_read (coding_in coding.entry) operation (at input.old)) (at input.new) }
{
    match operation {
        DW_CFA_SET_LOC => Ok(CallFrameInstruction::SetLocation(read_location(input, coding)?)),
        DW_CFA_ADVANCE_LOC1 => Ok(advance(coding, input.read_u8()? as u32)),
        DW_CFA_ADVANCE_LOC2 => Ok(advance(coding, input.read_u16()? as u32)),
        DW_CFA_ADVANCE_LOC4 => Ok(advance(coding, input.read_u32()?)),
        _ => read_cfa_definition(input, coding, operation),
    }
}

// The same, where it begins no row. DWARF 5 section 6.4.2.2.
#[tactic(auto, unfolding(crate::specs::InstructionViews::cfa_read))]
#[inline(always)]
fn read_cfa_definition<'a>(
    input: &mut Cursor<'a>,
    coding: Coding,
    operation: u8,
) -> Result<CallFrameInstruction<'a>, Error>
    ensures { GivesOr meaning result (cfa_read (coding_in coding.entry) operation (at input.old))
        (at input.new) }
{
    Ok(match operation {
        DW_CFA_DEF_CFA => {
            let register = read_register(input)?;
            let offset = input.read_uleb128()?;
            CallFrameInstruction::DefineCfa { register, offset }
        }
        DW_CFA_DEF_CFA_SF => {
            let register = read_register(input)?;
            let offset = read_signed_offset(input, coding)?;
            CallFrameInstruction::DefineCfa { register, offset }
        }
        DW_CFA_DEF_CFA_REGISTER => CallFrameInstruction::DefineCfaRegister(read_register(input)?),
        DW_CFA_DEF_CFA_OFFSET => CallFrameInstruction::DefineCfaOffset(input.read_uleb128()?),
        DW_CFA_DEF_CFA_OFFSET_SF => {
            CallFrameInstruction::DefineCfaOffset(read_signed_offset(input, coding)?)
        }
        DW_CFA_DEF_CFA_EXPRESSION => {
            CallFrameInstruction::DefineCfaExpression(read_expression(input)?)
        }
        _ => return read_offset_rule(input, coding, operation),
    })
}

// The same, where it doesn't define the CFA either: rules by an offset. DWARF 5 section 6.4.2.3.
#[tactic(auto, unfolding(crate::specs::InstructionViews::offset_read))]
#[inline(always)]
fn read_offset_rule<'a>(
    input: &mut Cursor<'a>,
    coding: Coding,
    operation: u8,
) -> Result<CallFrameInstruction<'a>, Error>
    ensures { GivesOr meaning result (offset_read (coding_in coding.entry) operation (at input.old))
        (at input.new) }
{
    match operation {
        DW_CFA_OFFSET_EXTENDED => {
            let register = read_register(input)?;
            let offset = read_offset(input, coding)?;
            Ok(set_rule(register, RegisterRule::Offset(offset)))
        }
        DW_CFA_OFFSET_EXTENDED_SF => {
            let register = read_register(input)?;
            let offset = read_signed_offset(input, coding)?;
            Ok(set_rule(register, RegisterRule::Offset(offset)))
        }
        DW_CFA_VAL_OFFSET => {
            let register = read_register(input)?;
            let offset = read_offset(input, coding)?;
            Ok(set_rule(register, RegisterRule::ValOffset(offset)))
        }
        DW_CFA_VAL_OFFSET_SF => {
            let register = read_register(input)?;
            let offset = read_signed_offset(input, coding)?;
            Ok(set_rule(register, RegisterRule::ValOffset(offset)))
        }
        _ => read_register_rule(input, operation),
    }
}

// The same, where it gives no rule by an offset: other rules. DWARF 5 section 6.4.2.3.
#[tactic(auto, unfolding(crate::specs::InstructionViews::rule_read))]
#[inline(always)]
fn read_register_rule<'a>(
    input: &mut Cursor<'a>,
    operation: u8,
) -> Result<CallFrameInstruction<'a>, Error>
    ensures { GivesOr meaning result (rule_read operation (at input.old)) (at input.new) }
{
    match operation {
        DW_CFA_UNDEFINED => Ok(set_rule(read_register(input)?, RegisterRule::Undefined)),
        DW_CFA_SAME_VALUE => Ok(set_rule(read_register(input)?, RegisterRule::SameValue)),
        DW_CFA_REGISTER => {
            let register = read_register(input)?;
            let source = read_register(input)?;
            Ok(set_rule(register, RegisterRule::Register(source)))
        }
        DW_CFA_EXPRESSION => {
            let register = read_register(input)?;
            let expression = read_expression(input)?;
            Ok(set_rule(register, RegisterRule::Expression(expression)))
        }
        DW_CFA_VAL_EXPRESSION => {
            let register = read_register(input)?;
            let expression = read_expression(input)?;
            Ok(set_rule(register, RegisterRule::ValExpression(expression)))
        }
        DW_CFA_RESTORE_EXTENDED => {
            let register = read_register(input)?;
            Ok(CallFrameInstruction::RestoreInitialRule(register))
        }
        _ => read_row_state(input, operation),
    }
}

// The same, where it gives no register a rule. DWARF 5 sections 6.4.2.4 and 6.4.2.5.
#[tactic(auto, unfolding(crate::specs::InstructionViews::state_read))]
#[inline(always)]
fn read_row_state<'a>(
    input: &mut Cursor<'a>,
    operation: u8,
) -> Result<CallFrameInstruction<'a>, Error>
    ensures { GivesOr meaning result (state_read operation (at input.old)) (at input.new) }
{
    match operation {
        DW_CFA_REMEMBER_STATE => Ok(CallFrameInstruction::RememberState),
        DW_CFA_RESTORE_STATE => Ok(CallFrameInstruction::RestoreState),
        DW_CFA_NOP => Ok(CallFrameInstruction::Nop),
        DW_CFA_GNU_ARGS_SIZE => {
            let size = input.read_uleb128()?;
            Ok(CallFrameInstruction::SetArgumentSize(size))
        }
        _ => Err(Error::UnknownInstruction),
    }
}

/// The next instruction.
#[tactic(auto, unfolding(crate::specs::InstructionViews::operation_read, crate::specs::InstructionViews::cfa_read, crate::specs::InstructionViews::offset_read, crate::specs::InstructionViews::rule_read, crate::specs::InstructionViews::state_read, unwind_definitions::specs::Instructions::instruction_of))]
#[inline(always)]
pub(crate) fn read_instruction<'a>(
    input: &mut Cursor<'a>,
    coding: Coding,
) -> Result<CallFrameInstruction<'a>, Error>
    ensures { GivesOr meaning result (instruction (coding_in coding.entry) (at input.old))
        (at input.new) }
{
    let byte = input.read_u8()?;
    let low = byte % 64;
    match byte / 64 {
        DW_CFA_ADVANCE_LOC => Ok(advance(coding, low as u32)),
        DW_CFA_OFFSET => {
            let register = Register(low as u16);
            let rule = RegisterRule::Offset(read_offset(input, coding)?);
            Ok(CallFrameInstruction::SetRule { register, rule })
        }
        DW_CFA_RESTORE => Ok(CallFrameInstruction::RestoreInitialRule(Register(low as u16))),
        _ => read_operation(input, coding, low),
    }
}

// What an advance by so many code alignment units adds to the location.
#[inline(always)]
fn delta_of(units: u16, coding: Coding) -> u64
    requires { coding.code_factor < 2 ^ 32 }
    ensures { result ≡ units * coding.entry.code_factor }
{
    u64::from(units) * u64::from(coding.code_factor as u32)
}

// An unsigned LEB128 number of at most two bytes. Else the cursor is unspecified.
#[inline(always)]
fn read_few(input: &mut Cursor<'_>) -> Option<u64>
    ensures reads { IfSome result (λ n. uleb (at input.old) ≡ Ok (n, at input.new)) }
    ensures passes { IfSome result (λ _.
        length (at input.new).bytes < length (at input.old).bytes) }
{
    let byte = input.read_u8().ok()?;
    if byte < 128 {
        return Some(byte as u64);
    }
    let high = input.read_u8().ok()?;
    if high < 128 {
        Some((byte - 128) as u64 + 128 * high as u64)
    } else {
        None
    }
}

/// The next instruction, where it is one of those that most programs consist of: `DW_CFA_nop`,
/// `DW_CFA_def_cfa_offset`, `DW_CFA_offset`, `DW_CFA_remember_state`, `DW_CFA_restore_state`, or an
/// advance by a word whose operand has two bytes at most, and where no number takes more than two
/// bytes. Else the cursor is unspecified.
// Those that come most often are told apart first.
#[tactic(auto, unfolding(crate::specs::InstructionViews::operation_read, crate::specs::InstructionViews::cfa_read, crate::specs::InstructionViews::offset_read, crate::specs::InstructionViews::rule_read, crate::specs::InstructionViews::state_read, unwind_definitions::specs::Instructions::instruction_of))]
#[inline(always)]
pub(crate) fn read_short(input: &mut Cursor<'_>, coding: Coding) -> Option<ShortInstruction>
    requires { coding.code_factor < 2 ^ 32 }
    ensures reads { IfSome result (λ short. instruction (coding_in coding.entry) (at input.old) ≡
        Ok (short_meaning short, at input.new)) }
    ensures passes { IfSome result (λ _.
        length (at input.new).bytes < length (at input.old).bytes) }
{
    let byte = input.read_u8().ok()?;
    let low = byte % 64;
    if byte / 64 == DW_CFA_ADVANCE_LOC {
        return Some(ShortInstruction::Advance(delta_of(low as u16, coding)));
    }
    if byte == DW_CFA_DEF_CFA_OFFSET {
        return Some(ShortInstruction::DefineCfaOffset(read_few(input)?));
    }
    if byte / 64 == DW_CFA_OFFSET {
        let register = Register(low as u16);
        let offset = read_few(input)?.wrapping_mul(coding.data_factor);
        return Some(ShortInstruction::Save { register, offset });
    }
    match byte {
        DW_CFA_NOP => Some(ShortInstruction::Nop),
        DW_CFA_REMEMBER_STATE => Some(ShortInstruction::RememberState),
        DW_CFA_RESTORE_STATE => Some(ShortInstruction::RestoreState),
        DW_CFA_ADVANCE_LOC1 => {
            let units = input.read_u8().ok()?;
            Some(ShortInstruction::Advance(delta_of(units as u16, coding)))
        }
        DW_CFA_ADVANCE_LOC2 => {
            let units = input.read_u16().ok()?;
            Some(ShortInstruction::Advance(delta_of(units, coding)))
        }
        _ => None,
    }
}
