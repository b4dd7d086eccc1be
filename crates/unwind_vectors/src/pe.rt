// Unwind data of PE images.
//
// The records and the code named after gcc and clang are those of objects that
// x86_64-w64-mingw32-gcc 12 and clang 14 (--target=x86_64-w64-mingw32) made with -O2; what is
// expected of them is what llvm-readobj 14 --unwind prints, and what the compilers' code does.

use pe_unwind_info::x86_64::{
    FrameFault, FunctionEpilogInstruction, FunctionTableEntries, InstructionParseError, Register,
    UnwindInfo, UnwindInfoTrailer, UnwindOperation, UnwindState, XmmRegister,
};
use std::alloc::{AllocError, Global};
use std::test::Fail;

/// A machine in memory: its registers, and words of its stack from an address on.
#[derive(Drop)]
struct Machine {
    registers: [u64; 16],
    xmm_registers: [u128; 16],
    base: u64,
    words: [u64; 8],
}

impl UnwindState for Machine {
    ghost use Rattle.std.specs.Prelude.{slice_index};
    ghost use Rattle.unwind_vectors.specs.Stack.{word_in};

    ghost registers = { λ machine register. slice_index machine.registers register };

    ghost xmm_registers = { λ machine register. slice_index machine.xmm_registers register };

    ghost stack = { λ machine address. word_in machine.base machine.words address };

    fn read_register(&mut self, register: Register) -> u64 {
        self.registers[register as usize]
    }

    fn read_stack(&mut self, addr: u64) -> Option<u64> {
        if addr < self.base || (addr - self.base) % 8 != 0 {
            return None;
        }
        self.words.get(((addr - self.base) / 8) as usize).copied()
    }

    fn write_register(&mut self, register: Register, value: u64) {
        self.registers[register as usize] = value;
    }

    fn write_xmm_register(&mut self, register: XmmRegister, value: u128) {
        self.xmm_registers[register as usize] = value;
    }
}

fn stopped_at(stack_pointer: u64, words: [u64; 8]) -> Machine {
    let mut registers = [0; 16];
    registers[Register::RSP as usize] = stack_pointer;
    Machine {
        registers,
        xmm_registers: [0; 16],
        base: 0x7000,
        words,
    }
}

// one record, for 0x1000 to 0x1100, whose unwind record stands at 0x2010
const TABLE: &[u8] = &[0, 0x10, 0, 0, 0, 0x11, 0, 0, 0x10, 0x20, 0, 0];

// a record that is chained to itself
const LOOP: &[u8] = &[
    0x21, 0, 0, 0, 0, 0x10, 0, 0, 0, 0x11, 0, 0, 0x10, 0x20, 0, 0,
];

// An epilog that moves the stack pointer and pops two registers.
fn is_addition_and_two_pops(code: &[u8]) -> bool {
    match FunctionEpilogInstruction::parse_sequence(code, None) {
        Ok(instructions) => matches!(
            instructions.as_slice(),
            [
                FunctionEpilogInstruction::AddSP(32),
                FunctionEpilogInstruction::Pop(Register::RBX),
                FunctionEpilogInstruction::Pop(Register::R14),
            ]
        ),
        Err(_) => false,
    }
}

// How many instructions an epilog has before its end, or why code is none.
fn epilog_of(code: &[u8]) -> Result<usize, &'static str> {
    match FunctionEpilogInstruction::parse_sequence(code, None) {
        Ok(instructions) => Ok(instructions.len()),
        Err(InstructionParseError::NotEnoughData) => Err("cut"),
        Err(InstructionParseError::InvalidInstruction) => Err("invalid"),
        Err(InstructionParseError::TooManyInstructions) => Err("many"),
    }
}

const EPILOGS: &[(&[u8], Result<usize, &str>)] = &[
    (b"\x48\x83\xc4\x20\x5b\x41\x5e\xc3", Ok(3)),
    (b"\xc3", Ok(0)),
    (b"\x48\x81\xc4\x00", Err("cut")),
    (b"\x90", Err("invalid")),
    (b"\x48\x83\xc4", Err("invalid")),
    // twelve pops, and thirteen
    (
        b"\x5b\x5b\x5b\x5b\x5b\x5b\x5b\x5b\x5b\x5b\x5b\x5b\xc3",
        Ok(12),
    ),
    (
        b"\x5b\x5b\x5b\x5b\x5b\x5b\x5b\x5b\x5b\x5b\x5b\x5b\x5b\xc3",
        Err("many"),
    ),
];

#[test]
fn epilogs_are_read(rt: HostRuntime) {
    for (code, wanted) in EPILOGS {
        assert!(rt; epilog_of(code) == *wanted);
    }
    assert!(rt; is_addition_and_two_pops(b"\x48\x83\xc4\x20\x5b\x41\x5e\xc3"));
}

// An operation by its name and numbers.
fn plain(operation: UnwindOperation) -> (&'static str, [u32; 3]) {
    match operation {
        UnwindOperation::UnStackAlloc(size) => ("allocates", [size, 0, 0]),
        UnwindOperation::PopNonVolatile(register) => ("pushes", [register as u32, 0, 0]),
        UnwindOperation::ReadXMM(register, offset) => {
            ("stores", [register as u32, offset.value(), 0])
        }
        UnwindOperation::EpilogInformation(epilog) => {
            let header = epilog.as_header();
            let single = header.single_epilog() as u32;
            (
                "epilog",
                [
                    u32::from(header.epilog_size()),
                    u32::from(epilog.as_offset()),
                    single,
                ],
            )
        }
        _ => ("other", [0; 3]),
    }
}

type Operations = &'static [(u8, &'static str, [u32; 3])];

// Whether a record has these operations, and no more.
fn has_operations(info: &UnwindInfo<'_>, expected: Operations) -> bool {
    let mut operations = info.unwind_operations();
    for (place, name, numbers) in expected {
        match operations.next() {
            Some((at, operation)) => {
                if at != *place || plain(operation) != (*name, *numbers) {
                    return false;
                }
            }
            None => return false,
        }
    }
    operations.next().is_none() && operations.next().is_none() && operations.unwind_code().is_none()
}

// A record, its flags, the size of its prologue, and its operations. None has a frame register.
struct Record {
    bytes: &'static [u8],
    flags: u8,
    prolog_size: u8,
    operations: Operations,
}

const RECORDS: &[Record] = &[
    Record {
        bytes: &[1, 4, 1, 0, 4, 0x42],
        flags: 0,
        prolog_size: 4,
        operations: &[(4, "allocates", [40, 0, 0])],
    },
    // version 2: a single epilog of three bytes, and a place without one
    Record {
        bytes: &[2, 4, 3, 0, 3, 0x16, 0, 6, 4, 0x42],
        flags: 0,
        prolog_size: 4,
        operations: &[
            (3, "epilog", [3, 0x103, 1]),
            (0, "epilog", [0, 0, 0]),
            (4, "allocates", [40, 0, 0]),
        ],
    },
    // nothing is read after an operation that isn't known
    Record {
        bytes: &[1, 0, 2, 0, 0, 0xb, 4, 0x42],
        flags: 0,
        prolog_size: 0,
        operations: &[],
    },
    // what gcc makes of a function that keeps three vectors and pushes RBX
    Record {
        bytes: &[
            0x01, 0x15, 0x08, 0x00, 0x15, 0x88, 0x05, 0x00, 0x0f, 0x78, 0x04, 0x00, 0x0a, 0x68,
            0x03, 0x00, 0x05, 0xb2, 0x01, 0x30,
        ],
        flags: 0,
        prolog_size: 21,
        operations: &[
            (0x15, "stores", [8, 0x50, 0]),
            (0x0f, "stores", [7, 0x40, 0]),
            (0x0a, "stores", [6, 0x30, 0]),
            (0x05, "allocates", [96, 0, 0]),
            (0x01, "pushes", [Register::RBX as u32, 0, 0]),
        ],
    },
    Record {
        bytes: CLANG_HANDLER,
        flags: 3,
        prolog_size: 5,
        operations: &[
            (0x05, "allocates", [48, 0, 0]),
            (0x01, "pushes", [Register::RSI as u32, 0, 0]),
        ],
    },
];

// What clang makes of a function with a handler.
const CLANG_HANDLER: &[u8] = &[
    0x19, 0x05, 0x02, 0x00, 0x05, 0x52, 0x01, 0x60, 0x00, 0x00, 0x00, 0x00, 0xff, 0xff, 0x01, 0x08,
];

fn is_read(record: &Record) -> bool {
    match UnwindInfo::parse(record.bytes) {
        Some(info) => {
            info.flags_raw() == record.flags
                && info.header().prolog_size == record.prolog_size
                && info.frame_register().is_none()
                && has_operations(&info, record.operations)
        }
        None => false,
    }
}

#[test]
fn operations_are_read(rt: HostRuntime) {
    for record in RECORDS {
        assert!(rt; is_read(record));
    }
}

const CHAINED: &[u8] = &[
    0x21, 0, 0, 0, 0, 0x10, 0, 0, 0, 0x11, 0, 0, 0, 0x20, 0, 0, 0xa5,
];

// What stands after the operations of a record.
fn trailer_of(bytes: &[u8]) -> (&'static str, [u32; 3]) {
    let Some(info) = UnwindInfo::parse(bytes) else {
        return ("no record", [0; 3]);
    };
    match info.trailer() {
        None => ("nothing", [0; 3]),
        Some(UnwindInfoTrailer::ChainedUnwindInfo { chained }) => (
            "record",
            [
                chained.begin_address,
                chained.end_address,
                chained.unwind_info_address,
            ],
        ),
        Some(
            UnwindInfoTrailer::ExceptionHandler {
                handler_address,
                handler_data,
            },
        ) => {
            let is_data = handler_data == [0xff, 0xff, 0x01, 0x08].as_slice();
            ("handler", [handler_address, is_data as u32, 0])
        }
        Some(_) => ("other", [0; 3]),
    }
}

#[test]
fn trailers_stand_after_the_slots(rt: HostRuntime) {
    for size in 4..18 {
        let wanted = if size < 16 {
            ("nothing", [0; 3])
        } else {
            ("record", [0x1000, 0x1100, 0x2000])
        };
        assert!(rt; trailer_of(&CHAINED[..size]) == wanted);
    }
    assert!(rt; trailer_of(&[1, 4, 1, 0, 4, 0x42]) == ("nothing", [0; 3]));
    assert!(rt; trailer_of(CLANG_HANDLER) == ("handler", [0, 1, 0]));
}

#[test]
fn a_cut_table_has_its_whole_records(rt: HostRuntime) {
    let table = FunctionTableEntries::parse(&[0; 13]);
    assert!(rt; table.functions_len() == 1);
    assert!(rt; table.functions().is_none());
    assert!(rt; table.count() == 1);
}

// code of which nothing is an epilog
const CODE_OF_NOPS: &[u8] = &[0x90; 176];

// Bytes at an address, and what is read at each other one.
struct Mapped {
    at: u32,
    bytes: &'static [u8],
    elsewhere: Option<&'static [u8]>,
}

fn unwound_in(mapped: &Mapped, stack_pointer: u64, address: u32) -> Result<u64, FrameFault> {
    let mut state = stopped_at(stack_pointer, [0; 8]);
    let memory_at_rva = |rva: u32| -> Option<&[u8]> {
        if rva == mapped.at {
            Some(mapped.bytes)
        } else {
            mapped.elsewhere
        }
    };
    FunctionTableEntries::parse(TABLE).try_unwind_frame(&mut state, memory_at_rva, address)
}

const FAULTS: &[(Mapped, u64, u32, FrameFault)] = &[
    // an endless chain is left
    (
        Mapped {
            at: 0x2010,
            bytes: LOOP,
            elsewhere: Some(CODE_OF_NOPS),
        },
        0x7000,
        0x1050,
        FrameFault::ChainLimit,
    ),
    // a record that isn't mapped
    (
        Mapped {
            at: 0,
            bytes: LOOP,
            elsewhere: None,
        },
        0x7000,
        0x1050,
        FrameFault::Memory(0x2010),
    ),
    // and one that is cut
    (
        Mapped {
            at: 0x2010,
            bytes: &[0x21, 0, 0],
            elsewhere: None,
        },
        0x7000,
        0x1050,
        FrameFault::Info(0x2010),
    ),
    // outside of functions the return address is read from the stack
    (
        Mapped {
            at: 0,
            bytes: LOOP,
            elsewhere: None,
        },
        0x7041,
        0x1100,
        FrameFault::Stack(0x7041),
    ),
];

#[test]
fn faults_carry_their_addresses(rt: HostRuntime) {
    for (mapped, stack_pointer, address, fault) in FAULTS {
        assert!(rt; unwound_in(mapped, *stack_pointer, *address) == Err(*fault));
    }
}

// gcc's `long v(long n) { char a[n]; return g(a, n) + n; }`: its code and its unwind record
const CODE: &[u8] = &[
    0x55, 0x53, 0x48, 0x83, 0xec, 0x28, 0x48, 0x8d, 0x6c, 0x24, 0x20, 0x48, 0x63, 0xc1, 0x48, 0x89,
    0xc3, 0x48, 0x83, 0xc0, 0x0f, 0x48, 0x83, 0xe0, 0xf0, 0xe8, 0x00, 0x00, 0x00, 0x00, 0x48, 0x29,
    0xc4, 0x89, 0xda, 0x48, 0x8d, 0x4c, 0x24, 0x20, 0xe8, 0x00, 0x00, 0x00, 0x00, 0x01, 0xd8, 0x48,
    0x8d, 0x65, 0x08, 0x5b, 0x5d, 0xc3,
];

const INFO: &[u8] = &[
    0x01, 0x0b, 0x04, 0x25, 0x0b, 0x03, 0x06, 0x42, 0x02, 0x30, 0x01, 0x50,
];

// the frame of that function, which stands at 0x1000, at a place in its code, with RBX, RBP and RSP as they are there;
// RBX and RBP of the caller are 0x51 and 0x52, and it goes on at 0x1111
fn unwound(place: u32, rbx: u64, rbp: u64, rsp: u64) -> Option<[u64; 4]> {
    let mut state = stopped_at(rsp, [0, 0, 0, 0, 0, 0x51, 0x52, 0x1111]);
    state.registers[Register::RBX as usize] = rbx;
    state.registers[Register::RBP as usize] = rbp;
    let bytes = [0, 0x10, 0, 0, 0x36, 0x10, 0, 0, 0, 0x20, 0, 0];
    let return_address = FunctionTableEntries::parse(&bytes).unwind_frame(
        &mut state,
        |rva| {
            if rva == 0x2000 {
                Some(INFO)
            } else if rva >= 0x1000 && rva - 0x1000 <= 54 {
                Some(&CODE[(rva - 0x1000) as usize..])
            } else {
                None
            }
        },
        place,
    )?;
    Some([
        return_address,
        state.registers[Register::RBX as usize],
        state.registers[Register::RBP as usize],
        state.registers[Register::RSP as usize],
    ])
}

const PLACES: &[(u32, u64, u64, u64)] = &[
    // before the prologue, and after the pushes
    (0x1000, 0x51, 0x52, 0x7038),
    (0x1002, 0, 0x52, 0x7028),
    // in the body
    (0x102d, 0, 0x7020, 0x6f00),
    // at the epilog, in it, and at the return
    (0x102f, 0, 0x7020, 0x6f00),
    (0x1034, 0x51, 0, 0x7030),
    (0x1035, 0x51, 0x52, 0x7038),
];

#[test]
fn gcc_frames_are_left(rt: HostRuntime) {
    for (place, rbx, rbp, rsp) in PLACES {
        assert!(rt; unwound(*place, *rbx, *rbp, *rsp) == Some([0x1111, 0x51, 0x52, 0x7040]));
    }
}

// one section, of 0x100 bytes at 0x2000, which stands at 0x80 in the file
fn image() -> [u8; 0xa0] {
    let mut image = [0; 0xa0];
    image[0x3c] = 0x3c;
    image[0x42] = 1;
    image[0x5d] = 1;
    image[0x61] = 0x20;
    image[0x68] = 0x80;
    image[0x90..].copy_from_slice(LOOP);
    image
}

// The frame by so many bytes of an image.
fn unwound_with(image: &[u8], size: usize, address: u32) -> Option<u64> {
    let held = image.get(..size)?;
    let mut state = stopped_at(0x7000, [0x1111; 8]);
    FunctionTableEntries::parse(TABLE).unwind_frame_with_image(&mut state, held, address)
}

#[test]
fn images_are_searched_by_section(rt: HostRuntime) {
    let image = image();
    assert!(rt; unwound_with(&image, 0xa0, 0x1100) == Some(0x1111));
    assert!(rt; unwound_with(&image, 0xa0, 0x1050).is_none());
    assert!(rt; unwound_with(&image, 0x50, 0x1100).is_none());
}

const ERRORS: &[(InstructionParseError, &str)] = &[
    (InstructionParseError::NotEnoughData, "not enough data"),
    (
        InstructionParseError::InvalidInstruction,
        "invalid instruction found",
    ),
    (
        InstructionParseError::TooManyInstructions,
        "too many instructions for epilog",
    ),
];

fn is_printed(
    alloc: Global,
    error: &InstructionParseError,
    text: &str,
) -> Result<bool, AllocError> {
    Ok(error.to_string(alloc)?.as_str() == text)
}

#[test]
fn errors_are_printed(rt: HostRuntime) -> Result<(), Fail> {
    for (error, text) in ERRORS {
        assert!(rt; is_printed(rt.alloc(), error, text)?);
    }
    Ok(())
}
