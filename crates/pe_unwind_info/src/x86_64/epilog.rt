// The instructions of epilogs.
ghost use Rattle.std.specs.Prelude.{◌≡◌, ◌≤◌, false, [], length, is_ok};
ghost use Rattle.std.specs.Option.{option_map};
ghost use Rattle.pe_unwind_info.specs.Epilog.{result_map, word_in, with_word, lea_from, lea_of};
ghost use Rattle.pe_unwind_info.specs.Epilog.{adjustment_of, pop_of, is_jump, two_bytes_of};
ghost use Rattle.pe_unwind_info.specs.Epilog.{pop_or_terminator_of, after_rex, rex_split, parsed_instruction};
ghost use Rattle.pe_unwind_info.specs.Epilog.{and_first, sequence_from, sequence_of};
ghost use Rattle.pe_unwind_info.specs.EpilogGrammar.{IsParsed, IsSequence};
ghost use Rattle.pe_unwind_info.specs.Numbers.{first_u32};
ghost use Rattle.pe_unwind_info.specs.declared.x86_64.epilog.FunctionEpilogInstruction.TheVariants.{AddSP};

use crate::x86_64::little_endian::split_u32;
use crate::x86_64::registers::{Register, register_at};
use arrayvec::ArrayVec;
use thiserror::Error;

/// How many instructions an epilog may have before its terminator.
pub const FUNCTION_EPILOG_LIMIT: usize = 12;

/// An instruction of an epilog before its terminator.
#[derive(Clone, Copy, Debug)]
pub enum FunctionEpilogInstruction {
    /// Adds so many bytes to the stack pointer.
    AddSP(u32),
    /// Sets the stack pointer to so many bytes above the frame register.
    AddSPFromFP(u32),
    /// Pops the register.
    Pop(Register),
}

impl Default for FunctionEpilogInstruction {
    ghost use Rattle.std.specs.Prelude.{◌≡◌};
    ghost use Rattle.pe_unwind_info.specs.declared.x86_64.epilog.FunctionEpilogInstruction.TheVariants.{AddSP};

    ghost is_default = { λ result. result ≡ AddSP 0 };

    /// An instruction that changes nothing.
    fn default() -> FunctionEpilogInstruction {
        FunctionEpilogInstruction::AddSP(0)
    }
}

// instructions that change nothing, to make a list of
const BLANK: [FunctionEpilogInstruction; FUNCTION_EPILOG_LIMIT] = [FunctionEpilogInstruction::AddSP(
    0,
); FUNCTION_EPILOG_LIMIT];

/// Why bytes aren't those of an epilog.
#[derive(Debug, Drop, Error)]
pub enum InstructionParseError {
    /// There are no bytes, or one to three bytes of a number of four.
    #[error("not enough data")]
    NotEnoughData,
    /// There is no instruction that an epilog may have.
    #[error("invalid instruction found")]
    InvalidInstruction,
    /// There are more instructions than an epilog may have before its terminator.
    #[error("too many instructions for epilog")]
    TooManyInstructions,
}

// a number of four bytes, and the bytes after it
fn split_word(bytes: &[u8]) -> Result<(u32, &[u8]), InstructionParseError>
    ensures { result_map (λ p. (p.0, p.1.now)) result ≡ word_in (first_u32 bytes.now) }
{
    split_u32(bytes).ok_or(InstructionParseError::NotEnoughData)
}

// an `add` of a number of four bytes, which these bytes begin with
fn parse_add_word(bytes: &[u8]) -> Result<(FunctionEpilogInstruction, &[u8]), InstructionParseError>
    ensures { result_map (λ p. (p.0, p.1.now)) result ≡ with_word AddSP bytes.now }
{
    let (number, rest) = split_word(bytes)?;
    Ok((FunctionEpilogInstruction::AddSP(number), rest))
}

// a `lea` of the stack pointer from the base register, from its ModRM byte on
fn parse_lea(
    base: u8,
    code: &[u8],
) -> Result<(FunctionEpilogInstruction, &[u8]), InstructionParseError>
    requires { 2 ≤ length code.now }
    ensures { result_map (λ p. (p.0, p.1.now)) result ≡ lea_from base code.now }
{
    let modrm = code[0];
    if modrm & 0x3f != 0x20 | (base & 0x7) {
        return Err(InstructionParseError::InvalidInstruction);
    }
    match modrm >> 6 {
        0b01 => {
            let number = u32::from(code[1]);
            Ok((FunctionEpilogInstruction::AddSPFromFP(number), &code[2..]))
        }
        0b10 => {
            let (number, rest) = split_word(&code[1..])?;
            Ok((FunctionEpilogInstruction::AddSPFromFP(number), rest))
        }
        _ => Err(InstructionParseError::InvalidInstruction),
    }
}

// the same where the REX byte names the frame register as its base; `None` where it doesn't
fn parse_frame_lea(
    frame: Option<Register>,
    rex: u8,
    code: &[u8],
) -> Option<Result<(FunctionEpilogInstruction, &[u8]), InstructionParseError>>
    requires { 2 ≤ length code.now }
    ensures { option_map (result_map (λ p. (p.0, p.1.now))) result ≡ lea_of frame rex code.now }
{
    let base = frame? as u8;
    if rex % 2 == base / 8 {
        Some(parse_lea(base, code))
    } else {
        None
    }
}

// an `add` to the stack pointer or a `lea` into it, after a REX byte for operands of 64 bits;
// `None` where the bytes begin with neither
fn parse_adjustment(
    frame: Option<Register>,
    rex: u8,
    code: &[u8],
) -> Option<Result<(FunctionEpilogInstruction, &[u8]), InstructionParseError>>
    ensures { option_map (result_map (λ p. (p.0, p.1.now))) result
        ≡ adjustment_of frame rex code.now }
{
    let [opcode, modrm, next, rest @ ..] = code else {
        return None;
    };
    match (*opcode, *modrm) {
        (0x81, 0xc4) => Some(parse_add_word(&code[2..])),
        (0x83, 0xc4) => {
            let number = u32::from(*next);
            Some(Ok((FunctionEpilogInstruction::AddSP(number), rest)))
        }
        (0x8d, _) => parse_frame_lea(frame, rex, &code[1..]),
        _ => None,
    }
}

// a pop of the register that the low three bits of a byte name, with the REX byte's lowest bit
// above them
fn pop(rex: u8, byte: u8) -> FunctionEpilogInstruction
    ensures { result ≡ pop_of rex byte }
{
    FunctionEpilogInstruction::Pop(register_at(byte % 8 + 8 * (rex % 2)))
}

fn is_jump(opcode: u8, next: u8) -> bool
    ensures { result ≡ is_jump opcode next }
{
    match opcode {
        0xeb | 0xe9 => true,
        0xff => next / 8 == 4 || next / 8 == 5,
        _ => false,
    }
}

// a pop or a jump whose opcode stands before these bytes
#[inline(always)]
fn parse_two_bytes(
    rex: u8,
    opcode: u8,
    code: &[u8],
) -> Result<Option<(FunctionEpilogInstruction, &[u8])>, InstructionParseError>
    ensures { result_map (option_map (λ p. (p.0, p.1.now))) result
        ≡ two_bytes_of rex opcode code.now }
{
    let [next, rest @ ..] = code else {
        return Err(InstructionParseError::InvalidInstruction);
    };
    if opcode == 0x8f && next / 8 == 0xc0 / 8 {
        Ok(Some((pop(rex, *next), rest)))
    } else if is_jump(opcode, *next) {
        Ok(None)
    } else {
        Err(InstructionParseError::InvalidInstruction)
    }
}

// a pop or a terminator
#[inline(always)]
fn parse_pop_or_terminator(
    rex: u8,
    code: &[u8],
) -> Result<Option<(FunctionEpilogInstruction, &[u8])>, InstructionParseError>
    ensures { result_map (option_map (λ p. (p.0, p.1.now))) result
        ≡ pop_or_terminator_of rex code.now }
{
    let [opcode, rest @ ..] = code else {
        return Err(InstructionParseError::InvalidInstruction);
    };
    if opcode / 8 == 0x58 / 8 {
        Ok(Some((pop(rex, *opcode), rest)))
    } else if *opcode == 0xc3 {
        Ok(None)
    } else {
        parse_two_bytes(rex, *opcode, rest)
    }
}

// the low four bits of a REX byte that the bytes begin with, or 0, and the bytes after it
fn split_rex(code: &[u8]) -> Option<(u8, &[u8])>
    ensures { option_map (λ p. (p.0, p.1.now)) result ≡ rex_split code.now }
{
    match code {
        [] => None,
        [first, rest @ ..] if first / 16 == 4 => Some((first % 16, rest)),
        _ => Some((0, code)),
    }
}

// an instruction after a REX byte
#[inline(always)]
fn parse_after_rex(
    frame: Option<Register>,
    allow_add_sp: bool,
    rex: u8,
    code: &[u8],
) -> Result<Option<(FunctionEpilogInstruction, &[u8])>, InstructionParseError>
    ensures { result_map (option_map (λ p. (p.0, p.1.now))) result
        ≡ after_rex frame allow_add_sp rex code.now }
{
    if allow_add_sp && rex / 8 == 1 {
        if let Some(adjustment) = parse_adjustment(frame, rex, code) {
            return Ok(Some(adjustment?));
        }
    }
    parse_pop_or_terminator(rex, code)
}

// an instruction, perhaps after a REX byte
#[inline(always)]
#[tactic(auto, unfolding(crate::specs::Epilog::parsed_instruction))]
fn parse_instruction(
    frame: Option<Register>,
    allow_add_sp: bool,
    code: &[u8],
) -> Result<Option<(FunctionEpilogInstruction, &[u8])>, InstructionParseError>
    ensures { result_map (option_map (λ p. (p.0, p.1.now))) result
        ≡ parsed_instruction frame allow_add_sp code.now }
{
    match split_rex(code) {
        Some((rex, code)) => parse_after_rex(frame, allow_add_sp, rex, code),
        None => Err(InstructionParseError::NotEnoughData),
    }
}

// no instructions yet: a list that is full and then cleared, as `ArrayVec::new` makes each place on
// its own, at several times the instructions
fn no_instructions() -> ArrayVec<FunctionEpilogInstruction, FUNCTION_EPILOG_LIMIT>
    ensures { result.items ≡ [] }
{
    let mut instructions = ArrayVec::from(BLANK);
    instructions.clear();
    instructions
}

// the first instruction and those after it, up to a terminator
#[tactic(auto, using(crate::proofs::EpilogSequences::continued_later, crate::proofs::EpilogSequences::continued_end, crate::proofs::EpilogSequences::continued_err, crate::proofs::EpilogSequences::continued_full, crate::proofs::EpilogSequences::continued_more))]
fn parse_later(
    frame: Option<Register>,
    first: FunctionEpilogInstruction,
    code: &[u8],
) -> Result<ArrayVec<FunctionEpilogInstruction, FUNCTION_EPILOG_LIMIT>, InstructionParseError>
    ensures { result_map (λ v. v.items) result
        ≡ and_first first (sequence_from frame 11 false code.now) }
{
    let mut instructions = no_instructions();
    instructions.push(first);
    let mut rest = code;
    while let Some((instruction, after)) = parse_instruction(frame, false, rest)? {
        if instructions.is_full() {
            return Err(InstructionParseError::TooManyInstructions);
        }
        instructions.push(instruction);
        rest = after;
    }
    Ok(instructions)
}

// The instructions up to a terminator. Most code that is tested is that of no epilog, so a list is
// made only where there is a first instruction.
#[tactic(auto, using(crate::proofs::EpilogSequences::first_end, crate::proofs::EpilogSequences::first_err, crate::proofs::EpilogSequences::first_more))]
fn parse_instructions(
    frame: Option<Register>,
    code: &[u8],
) -> Result<ArrayVec<FunctionEpilogInstruction, FUNCTION_EPILOG_LIMIT>, InstructionParseError>
    ensures { result_map (λ v. v.items) result ≡ sequence_of frame code.now }
{
    match parse_instruction(frame, true, code)? {
        Some((first, after)) => parse_later(frame, first, after),
        None => Ok(no_instructions()),
    }
}

// whether bytes begin with the instructions of an epilog and a terminator
#[inline(never)]
fn is_sequence(frame: Option<Register>, code: &[u8]) -> bool
    ensures { result ≡ is_ok (sequence_of frame code.now) }
{
    match parse_instructions(frame, code) {
        Ok(_) => true,
        Err(_) => false,
    }
}

/// Whether bytes begin with an epilog. Most code that is tested doesn't, and its first instruction
/// tells that, so no list is made for it.
#[tactic(auto, using(crate::proofs::EpilogSequences::first_err))]
pub(crate) fn begins_with_epilog(frame: Option<Register>, code: &[u8]) -> bool
    ensures { result ≡ is_ok (sequence_of frame code.now) }
{
    match parse_instruction(frame, true, code) {
        Ok(_) => is_sequence(frame, code),
        Err(_) => false,
    }
}

impl FunctionEpilogInstruction {
    /// The instruction that bytes begin with and the bytes after it, or `None` at a terminator:
    /// a return, or a jump. `fpreg` is the function's frame register. An adjustment of the stack
    /// pointer is taken only where `allow_add_sp` is true.
    pub fn parse(
        ip: &[u8],
        fpreg: Option<Register>,
        allow_add_sp: bool,
    ) -> Result<Option<(FunctionEpilogInstruction, &[u8])>, InstructionParseError>
        ensures value { result_map (option_map (λ p. (p.0, p.1.now))) result
            ≡ parsed_instruction fpreg allow_add_sp ip.now }
        ensures grammar { IsParsed fpreg allow_add_sp ip.now
            (result_map (option_map (λ p. (p.0, p.1.now))) result) }
    {
        parse_instruction(fpreg, allow_add_sp, ip)
    }

    /// The instructions of the epilog that bytes begin with, up to its terminator: at most
    /// `FUNCTION_EPILOG_LIMIT`, of which the first alone may adjust the stack pointer.
    pub fn parse_sequence(
        ip: &[u8],
        frame_register: Option<Register>,
    ) -> Result<ArrayVec<FunctionEpilogInstruction, FUNCTION_EPILOG_LIMIT>, InstructionParseError>
        ensures value { result_map (λ v. v.items) result ≡ sequence_of frame_register ip.now }
        ensures grammar { IsSequence frame_register ip.now (result_map (λ v. v.items) result) }
    {
        parse_instructions(frame_register, ip)
    }
}
