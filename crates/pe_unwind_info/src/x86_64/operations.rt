// Unwind operations, and the slots that spell them.
ghost use Rattle.std.specs.Prelude.{◌≡◌, ◌*◌, ◌<◌, ◌≤◌, None};
ghost use Rattle.std.specs.Bool.{OnFalse};
ghost use Rattle.std.specs.Option.{option_map};
ghost use Rattle.pe_unwind_info.specs.Numbers.{first_u16, number_in_units};
ghost use Rattle.pe_unwind_info.specs.EpilogList.{first_epilog};
ghost use Rattle.pe_unwind_info.specs.Operations.{code_number, code_information, code_of};
ghost use Rattle.pe_unwind_info.specs.Operations.{offset_value, head_by, first_of, slots_left};
ghost use Rattle.pe_unwind_info.specs.Operations.{frame_offset, large_size};
ghost use Rattle.pe_unwind_info.specs.Registers.{register_of, xmm_register_of};
ghost use Rattle.pe_unwind_info.specs.Operations.{operations_left, operations_of, first_code};
ghost use Rattle.pe_unwind_info.specs.Operations.{size_of_epilogs, ends_with_one, offset_of_epilog};
ghost use Rattle.pe_unwind_info.specs.Operations.{header_information};

use crate::x86_64::little_endian::{split_u16, split_u32};
use crate::x86_64::registers::{Register, XmmRegister, register_at, xmm_register_at};

/// What an epilog operation of a record of version 2 tells. Such operations come first in a
/// record.
#[derive(Clone, Copy, Debug)]
pub struct EpilogInformation {
    size_or_offset_low: u8,
    single_or_offset_high: u8,
}

impl EpilogInformation {
    /// What it tells as the first one of a record.
    pub fn as_header(&self) -> EpilogHeader
        ensures { header_information result ≡ self.now }
    {
        EpilogHeader(*self)
    }

    /// What it tells as a later one: how many bytes before the function's end an epilog begins,
    /// or 0 where it fills a slot.
    pub fn as_offset(&self) -> u16
        ensures { result ≡ offset_of_epilog self.now }
    {
        u16::from(self.size_or_offset_low) + u16::from(self.single_or_offset_high) * 256
    }
}

/// The first epilog operation of a record.
#[derive(Clone, Copy, Debug)]
pub struct EpilogHeader(EpilogInformation);

impl EpilogHeader {
    /// How many bytes each epilog takes.
    pub fn epilog_size(&self) -> u8
        ensures { result ≡ size_of_epilogs (header_information self.now) }
    {
        self.0.size_or_offset_low
    }

    /// Whether an epilog ends where the function ends.
    pub fn single_epilog(&self) -> bool
        ensures { result ≡ ends_with_one (header_information self.now) }
    {
        self.0.single_or_offset_high % 2 == 1
    }
}

/// An offset into a frame, in bytes.
#[derive(Clone, Copy, Debug)]
pub struct StackFrameOffset(u32);

impl StackFrameOffset {
    /// The number of bytes.
    pub fn value(&self) -> u32
        ensures { result ≡ offset_value self.now }
    {
        self.0
    }
}

/// What undoes a part of a prolog.
#[derive(Clone, Copy, Debug)]
pub enum UnwindOperation {
    /// Tells where the function's epilogs are, and undoes nothing.
    EpilogInformation(EpilogInformation),
    /// Pops the register.
    PopNonVolatile(Register),
    /// Takes back so many bytes of stack.
    UnStackAlloc(u32),
    /// Sets the stack pointer to what the frame register was set from.
    RestoreSPFromFP,
    /// Reads the register from an offset into the frame.
    ReadNonVolatile(Register, StackFrameOffset),
    /// Reads the XMM register from an offset into the frame.
    ReadXMM(XmmRegister, StackFrameOffset),
    /// Takes back what an interrupt or an exception pushed: the address, and further up the stack
    /// pointer.
    PopMachineFrame {
        /// An error code stands below the address.
        error_code: bool,
    },
}

/// The operations of unwind codes, 0 to 10.
#[derive(Clone, Copy, Debug, PartialEq, Eq, Hash)]
pub enum UnwindOperationCode {
    /// A push of a register.
    PushNonvol,
    /// An allocation whose size takes one further slot, or two.
    AllocLarge,
    /// An allocation of 8 to 128 bytes.
    AllocSmall,
    /// The frame register is set.
    SetFPReg,
    /// A register is stored; its offset takes one further slot.
    SaveNonvol,
    /// A register is stored; its offset takes two further slots.
    SaveNonvolFar,
    /// Tells of epilogs; from version 2 on.
    Epilog,
    /// Takes two further slots and tells nothing; from version 2 on.
    Spare,
    /// An XMM register is stored; its offset takes one further slot.
    SaveXmm128,
    /// An XMM register is stored; its offset takes two further slots.
    SaveXmm128Far,
    /// A machine frame was pushed.
    PushMachframe,
}

/// A slot with which an operation begins.
#[derive(Clone, Copy, Debug)]
pub struct UnwindCode {
    /// The offset in the code after the instruction that the operation undoes, or the low byte of
    /// what an epilog operation tells.
    pub prolog_offset: u8,
    /// The operation in the low four bits, its information above them.
    pub opcode_and_opinfo: u8,
}

impl UnwindCode {
    /// The number of the operation.
    pub fn operation_code_raw(&self) -> u8
        ensures { result ≡ code_number self.now }
    {
        self.opcode_and_opinfo & 0xf
    }

    /// The information for the operation, 0 to 15.
    pub fn operation_info(&self) -> u8
        ensures { result ≡ code_information self.now }
    {
        self.opcode_and_opinfo >> 4
    }

    /// The operation in a record of this version; `None` exactly above 10, and for 6 and 7 where
    /// the version is below 2.
    pub fn operation_code(&self, unwind_info_version: u8) -> Option<UnwindOperationCode>
        ensures { result ≡ code_of unwind_info_version (code_number self.now) }
    {
        Some(match self.operation_code_raw() {
            0 => UnwindOperationCode::PushNonvol,
            1 => UnwindOperationCode::AllocLarge,
            2 => UnwindOperationCode::AllocSmall,
            3 => UnwindOperationCode::SetFPReg,
            4 => UnwindOperationCode::SaveNonvol,
            5 => UnwindOperationCode::SaveNonvolFar,
            6 if unwind_info_version >= 2 => UnwindOperationCode::Epilog,
            7 if unwind_info_version >= 2 => UnwindOperationCode::Spare,
            8 => UnwindOperationCode::SaveXmm128,
            9 => UnwindOperationCode::SaveXmm128Far,
            10 => UnwindOperationCode::PushMachframe,
            _ => return None,
        })
    }
}

// a number of units of so many bytes in the next slot, in bytes, with the slots after it
fn split_scaled(slots: &[u8], unit: u32) -> Option<(u32, &[u8])>
    requires { unit ≤ 16 }
    ensures { option_map (λ p. (p.0, p.1.now)) result ≡ number_in_units unit (first_u16 slots.now) }
{
    let (number, rest) = split_u16(slots)?;
    Some((u32::from(number) * unit, rest))
}

// how many bytes a large allocation has, in units of eight or one by one, with the slots after it
#[inline(always)]
fn split_size(info: u8, slots: &[u8]) -> Option<(u32, &[u8])>
    ensures { option_map (λ p. (p.0, p.1.now)) result ≡ large_size info slots.now }
{
    match info {
        0 => split_scaled(slots, 8),
        1 => split_u32(slots),
        _ => None,
    }
}

// what an epilog operation tells
#[inline(always)]
fn epilog_information(slot: UnwindCode) -> UnwindOperation
    ensures { result ≡ UnwindOperation.EpilogInformation (record {
      size_or_offset_low = slot.prolog_offset;
      single_or_offset_high = code_information slot;
    }) }
{
    UnwindOperation::EpilogInformation(EpilogInformation {
        size_or_offset_low: slot.prolog_offset,
        single_or_offset_high: slot.operation_info(),
    })
}

#[inline(always)]
fn saved_register(info: u8, offset: u32) -> UnwindOperation
    requires { info < 16 }
    ensures { result ≡ UnwindOperation.ReadNonVolatile (register_of info) (frame_offset offset) }
{
    UnwindOperation::ReadNonVolatile(register_at(info), StackFrameOffset(offset))
}

#[inline(always)]
fn saved_xmm_register(info: u8, offset: u32) -> UnwindOperation
    requires { info < 16 }
    ensures { result ≡ UnwindOperation.ReadXMM (xmm_register_of info) (frame_offset offset) }
{
    UnwindOperation::ReadXMM(xmm_register_at(info), StackFrameOffset(offset))
}

// the operation of a slot, or none where it is spare, with the slots after it
#[inline(always)]
fn decode(
    code: UnwindOperationCode,
    slot: UnwindCode,
    rest: &[u8],
) -> Option<(Option<UnwindOperation>, &[u8])>
    ensures { option_map (λ p. (p.0, p.1.now)) result ≡ head_by (Some code) slot rest.now }
{
    let info = slot.operation_info();
    let (operation, rest) = match code {
        UnwindOperationCode::PushNonvol => {
            let register = register_at(info);
            (UnwindOperation::PopNonVolatile(register), rest)
        }
        UnwindOperationCode::AllocLarge => {
            let (size, rest) = split_size(info, rest)?;
            (UnwindOperation::UnStackAlloc(size), rest)
        }
        UnwindOperationCode::AllocSmall => {
            let size = u32::from(info) * 8 + 8;
            (UnwindOperation::UnStackAlloc(size), rest)
        }
        UnwindOperationCode::SetFPReg => (UnwindOperation::RestoreSPFromFP, rest),
        UnwindOperationCode::SaveNonvol => {
            let (offset, rest) = split_scaled(rest, 8)?;
            (saved_register(info, offset), rest)
        }
        UnwindOperationCode::SaveNonvolFar => {
            let (offset, rest) = split_u32(rest)?;
            (saved_register(info, offset), rest)
        }
        UnwindOperationCode::Epilog => (epilog_information(slot), rest),
        UnwindOperationCode::Spare => return Some((None, rest.get(4..)?)),
        UnwindOperationCode::SaveXmm128 => {
            let (offset, rest) = split_scaled(rest, 16)?;
            (saved_xmm_register(info, offset), rest)
        }
        UnwindOperationCode::SaveXmm128Far => {
            let (offset, rest) = split_u32(rest)?;
            (saved_xmm_register(info, offset), rest)
        }
        UnwindOperationCode::PushMachframe => {
            let error_code = info == 1;
            (UnwindOperation::PopMachineFrame { error_code }, rest)
        }
    };
    Some((Some(operation), rest))
}

// what slots begin with: the first byte, and the operation as `decode` gives it
#[inline(always)]
fn decode_first(version: u8, slots: &[u8]) -> Option<(u8, Option<UnwindOperation>, &[u8])>
    ensures { option_map (λ p. (p.0, p.1, p.2.now)) result ≡ first_of version slots.now }
{
    let [prolog_offset, opcode_and_opinfo, rest @ ..] = slots else {
        return None;
    };
    let slot = UnwindCode {
        prolog_offset: *prolog_offset,
        opcode_and_opinfo: *opcode_and_opinfo,
    };
    let (operation, rest) = decode(slot.operation_code(version)?, slot, rest)?;
    Some((*prolog_offset, operation, rest))
}

/// The unwind operations of a record, from the last instruction of the prolog to the first. Each
/// comes with the offset in the code after the instruction that it undoes. They end at the first
/// one that can't be read.
#[derive(Clone, Copy, Debug)]
pub struct UnwindOperations<'a> {
    version: u8,
    slots: &'a [u8],
}

impl<'a> UnwindOperations<'a> {
    pub(crate) fn new(version: u8, slots: &'a [u8]) -> UnwindOperations<'a>
        ensures operations { operations_left result ≡ operations_of version slots.now }
        ensures slots { slots_left result ≡ slots.now }
    {
        UnwindOperations { version, slots }
    }

    /// Whether one of them may tell of an epilog: that is so from version 2 on.
    #[tactic(auto, using(crate::proofs::OperationLemmas::old_untold))]
    pub(crate) fn may_tell_of_epilogs(&self) -> bool
        ensures { OnFalse result (first_epilog (operations_left self.now) ≡ None) }
    {
        self.version >= 2
    }

    /// The next slot that hasn't been read; `None` exactly where none is left.
    pub fn unwind_code(&self) -> Option<UnwindCode>
        ensures { result ≡ first_code (slots_left self.now) }
    {
        match self.slots {
            [prolog_offset, opcode_and_opinfo, ..] => Some(UnwindCode {
                prolog_offset: *prolog_offset,
                opcode_and_opinfo: *opcode_and_opinfo,
            }),
            _ => None,
        }
    }
}

impl<'a> Iterator for UnwindOperations<'a> {
    ghost use Rattle.std.specs.Prelude.{⊤, ◌≡◌, [], IfNone};
    ghost use Rattle.std.specs.Iterator.{YieldsFirst, MakesProgress, item_count};
    ghost use Rattle.pe_unwind_info.specs.Operations.{operations_left, slots_left, UsesSlot};

    type Item = (u8, UnwindOperation);

    ghost next_gives = { YieldsFirst operations_left };

    ghost remaining = { item_count operations_left };

    #[inline(always)]
    #[tactic(auto, using(crate::proofs::OperationLemmas::operations_end, crate::proofs::OperationLemmas::operations_skip, crate::proofs::OperationLemmas::operations_give, crate::proofs::OperationLemmas::operations_none, crate::proofs::OperationLemmas::fewer_left))]
    fn next(&mut self) -> Option<(u8, UnwindOperation)>
        ensures steps { YieldsFirst operations_left self.old result self.new }
        ensures goes { MakesProgress (λ _. ⊤) (item_count operations_left) self.old result
            self.new }
        ensures uses { UsesSlot (slots_left self.old) (slots_left self.new) }
        ensures ended { IfNone result (slots_left self.new ≡ []) }
    {
        let mut slots = self.slots;
        self.slots = &[];
        while let Some((prolog_offset, operation, rest)) = decode_first(self.version, slots) {
            match operation {
                Some(operation) => {
                    self.slots = rest;
                    return Some((prolog_offset, operation));
                }
                None => slots = rest,
            }
        }
        None
    }
}
