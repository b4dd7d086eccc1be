// Whole runs over three functions of which one has a cleanup and one a handler. The tables, the stacks
// and the texts are worked out by hand from the formats.
use super::*;

/// Descriptions of three functions, and what is to come is the end of the region. That at 0x401000 pushes
/// RBP, sets it, pushes RBX and allocates 8. That at 0x401020 pushes RBX, and has a language table with a
/// cleanup at 0x401040. That at 0x401050 pushes R14 and RBX and allocates 8; its language table has a
/// handler at 0x401070.
pub(super) const TABLE: &str =
    "{\"regions\":[{\"address\":\"0x500000\",\"bytes\":\"1400000000000000017a5200017810011b0c070\
    890010000180000001c000000e00ff0ff2000000000410e108602430d064583031c00000000000000017a504c52\
    00017810079bb92f00001b1b0c0708900100001800000024000000c40ff0ff30000000049b1f0000410e1083020\
    0002000000040000000d80ff0ff30000000048b1f0000420e10410e18440e2083038e02000000000000";

/// The same where the row of the first function asks for an expression.
const FOREIGN_TABLE: &str =
    "{\"regions\":[{\"address\":\"0x500000\",\"bytes\":\"1400000000000000017a5200017810011b0c070\
    890010000180000001c000000e00ff0ff20000000000f037710060000000000001c00000000000000017a504c52\
    00017810079bb92f00001b1b0c0708900100001800000024000000c40ff0ff30000000049b1f0000410e1083020\
    0002000000040000000d80ff0ff30000000048b1f0000420e10410e18440e2083038e02000000000000";

/// The same where the first common information entry has a version that nobody knows.
const DAMAGED_TABLE: &str =
    "{\"regions\":[{\"address\":\"0x500000\",\"bytes\":\"1400000000000000027a5200017810011b0c070\
    890010000180000001c000000e00ff0ff2000000000410e108602430d064583031c00000000000000017a504c52\
    00017810079bb92f00001b1b0c0708900100001800000024000000c40ff0ff30000000049b1f0000410e1083020\
    0002000000040000000d80ff0ff30000000048b1f0000420e10410e18440e2083038e02000000000000";

/// The same where the callee of the handler's function removes 8 bytes of arguments.
const HANDLER_ARGUMENTS_TABLE: &str =
    "{\"regions\":[{\"address\":\"0x500000\",\"bytes\":\"1400000000000000017a5200017810011b0c070\
    890010000180000001c000000e00ff0ff2000000000410e108602430d064583031c00000000000000017a504c52\
    00017810079bb92f00001b1b0c0708900100001800000024000000c40ff0ff30000000049b1f0000410e1083020\
    0002000000040000000d80ff0ff30000000048b1f0000420e10410e18440e2083038e022e0800000000";

/// The same of the cleanup's function, whose callee removes 32 bytes.
const CLEANUP_ARGUMENTS_TABLE: &str =
    "{\"regions\":[{\"address\":\"0x500000\",\"bytes\":\"1400000000000000017a5200017810011b0c070\
    890010000180000001c000000e00ff0ff2000000000410e108602430d064583031c00000000000000017a504c52\
    00017810079bb92f00001b1b0c0708900100001800000024000000c40ff0ff30000000049b1f0000410e1083022\
    e202000000040000000d80ff0ff30000000048b1f0000420e10410e18440e2083038e02000000000000";

/// The header of the frame table.
const HEADER: &str =
    "\"},{\"address\":\"0x504000\",\"bytes\":\"011b033bfcbfffff0300000000d0efff18c0ffff20d0efff54c0ffff50d0efff70c0ffff";

/// The two language tables, the cell that holds the personality's address, and what is to come is the
/// rest of a stack's address and its bytes.
pub(super) const LANGUAGE: &str =
    "\"},{\"address\":\"0x502000\",\"bytes\":\"ffff01080810200020100000ff9b0c0104081020010100000\
    00000\"},{\"address\":\"0x503000\",\"bytes\":\"0040400000000000\"},{\"address\":\"0x70";

/// The module, and what is to come is the start.
pub(super) const MODULE: &str =
    "\"}],\"modules\":[{\"kind\":\"elf\",\"start\":\"0x401000\",\"end\":\"0x401080\",\
    \"eh_frame\":\"0x500000\"}],\"exception\":\"0x900000\",\"limit\":8,\"start\":";

/// The module by its header.
const HEADER_MODULE: &str =
    "\"}],\"modules\":[{\"kind\":\"elf\",\"start\":\"0x401000\",\"end\":\"0x401080\",\
    \"eh_frame_hdr\":\"0x504000\"}],\"exception\":\"0x900000\",\"limit\":8,\"start\":";

pub(super) const STACK: &str =
    "b0\",\"bytes\":\"000000000000000011000000000000000c0000000000000030104000000000002200000000\
    000000601040000000000000000000000000000b000000000000000e000000000000000000000000000000";

/// The cleanup's function calls itself twice.
const DEEP_STACK: &str =
    "90\",\"bytes\":\"000000000000000011000000000000000c0000000000000030104000000000001100000000\
    0000003010400000000000110000000000000030104000000000002200000000000000601040000000000000000\
    000000000000b000000000000000e000000000000000000000000000000";

/// The handler's function is left at an address that no call site holds.
const UNLISTED_STACK: &str =
    "b0\",\"bytes\":\"000000000000000011000000000000000c0000000000000030104000000000002200000000\
    000000701040000000000000000000000000000b000000000000000e000000000000000000000000000000";

/// The cleanup's function is left by a call that ends it, and is asked nothing there.
const LAST_CALL_STACK: &str =
    "b0\",\"bytes\":\"000000000000000011000000000000000c0000000000000050104000000000002200000000\
    000000601040000000000000000000000000000b000000000000000e000000000000000000000000000000";

pub(super) const START: &str =
    "{\"rip\":\"0x401010\",\"rsp\":\"0x70b0\",\"rbx\":\"0x7\",\"rbp\":\"0x70c0\",\"r14\":\"0x2e\"}";

/// A stack pointer 48 lower.
const LOWER_START: &str =
    "{\"rip\":\"0x401010\",\"rsp\":\"0x7080\",\"rbx\":\"0x7\",\"rbp\":\"0x70c0\",\"r14\":\"0x2e\"}";

const DEEP_START: &str =
    "{\"rip\":\"0x401010\",\"rsp\":\"0x7090\",\"rbx\":\"0x7\",\"rbp\":\"0x70a0\",\"r14\":\"0x2e\"}";

/// The start of the second function's state.
const SECOND_START: &str =
    "{\"rip\":\"0x401030\",\"rsp\":\"0x70d0\",\"rbx\":\"0x11\",\"rbp\":\"0xc\",\"r14\":\"0x2e\"}";

pub(super) const RESUMES: &str = ",\"resumes\":[[\"0x401040\",\"0x401048\"]]}";

/// A second entry of the pad doesn't count.
const TWICE: &str = ",\"resumes\":[[\"0x401040\",\"0x401048\"],[\"0x401040\",\"0x0\"]]}";

/// Its address less one is under no call site.
const NOWHERE: &str = ",\"resumes\":[[\"0x401040\",\"0x401040\"]]}";

pub(super) const FIRST: &str =
    "frame 0 ra=0x401010 sp=0x70b0 rbx=0x7 rbp=0x70c0 r12=0x0 r13=0x0 r14=0x2e r15=0x0";

pub(super) const SECOND: &str =
    "frame 1 ra=0x401030 sp=0x70d0 rbx=0x11 rbp=0xc r12=0x0 r13=0x0 r14=0x2e r15=0x0";

pub(super) const THIRD: &str =
    "frame 2 ra=0x401060 sp=0x70e0 rbx=0x22 rbp=0xc r12=0x0 r13=0x0 r14=0x2e r15=0x0";

pub(super) const CLEANUP: &str = "cleanup pad=0x401040 sp=0x70d0";

pub(super) const LANDING: &str =
    "landing ra=0x401070 sp=0x70e0 rbx=0x22 rbp=0xc r12=0x0 r13=0x0 r14=0x2e r15=0x0 rax=0x900000 rdx=0x0";

pub(super) const INSTALLED: &str = "outcome installed";

static CASES: [Case; 20] = [
    Case {
        words: &["deliver"],
        input: &[TABLE, LANGUAGE, STACK, MODULE, START, RESUMES],
        number: 0,
        lines: &[FIRST, SECOND, THIRD, CLEANUP, LANDING, INSTALLED],
    },
    // A walk reads no language tables and no resume table.
    Case {
        words: &["walk"],
        input: &[TABLE, LANGUAGE, STACK, MODULE, START, RESUMES],
        number: 0,
        lines: &[
            FIRST,
            SECOND,
            THIRD,
            "frame 3 ra=0x0 sp=0x7100 rbx=0xb rbp=0xc r12=0x0 r13=0x0 r14=0xe r15=0x0",
            "end",
        ],
    },
    Case {
        words: &["walk"],
        input: &[TABLE, LANGUAGE, STACK, MODULE, START, "}"],
        number: 0,
        lines: &[
            FIRST,
            SECOND,
            THIRD,
            "frame 3 ra=0x0 sp=0x7100 rbx=0xb rbp=0xc r12=0x0 r13=0x0 r14=0xe r15=0x0",
            "end",
        ],
    },
    // A frame pointer allows a lower stack.
    Case {
        words: &["deliver"],
        input: &[TABLE, LANGUAGE, STACK, MODULE, LOWER_START, RESUMES],
        number: 0,
        lines: &[
            "frame 0 ra=0x401010 sp=0x7080 rbx=0x7 rbp=0x70c0 r12=0x0 r13=0x0 r14=0x2e r15=0x0",
            SECOND,
            THIRD,
            CLEANUP,
            LANDING,
            INSTALLED,
        ],
    },
    // Each frame is cleaned once.
    Case {
        words: &["deliver"],
        input: &[TABLE, LANGUAGE, DEEP_STACK, MODULE, DEEP_START, RESUMES],
        number: 0,
        lines: &[
            "frame 0 ra=0x401010 sp=0x7090 rbx=0x7 rbp=0x70a0 r12=0x0 r13=0x0 r14=0x2e r15=0x0",
            "frame 1 ra=0x401030 sp=0x70b0 rbx=0x11 rbp=0xc r12=0x0 r13=0x0 r14=0x2e r15=0x0",
            "frame 2 ra=0x401030 sp=0x70c0 rbx=0x11 rbp=0xc r12=0x0 r13=0x0 r14=0x2e r15=0x0",
            "frame 3 ra=0x401030 sp=0x70d0 rbx=0x11 rbp=0xc r12=0x0 r13=0x0 r14=0x2e r15=0x0",
            "frame 4 ra=0x401060 sp=0x70e0 rbx=0x22 rbp=0xc r12=0x0 r13=0x0 r14=0x2e r15=0x0",
            "cleanup pad=0x401040 sp=0x70b0",
            "cleanup pad=0x401040 sp=0x70c0",
            CLEANUP,
            LANDING,
            INSTALLED,
        ],
    },
    Case {
        words: &["deliver"],
        input: &[TABLE, LANGUAGE, DEEP_STACK, MODULE, DEEP_START, TWICE],
        number: 0,
        lines: &[
            "frame 0 ra=0x401010 sp=0x7090 rbx=0x7 rbp=0x70a0 r12=0x0 r13=0x0 r14=0x2e r15=0x0",
            "frame 1 ra=0x401030 sp=0x70b0 rbx=0x11 rbp=0xc r12=0x0 r13=0x0 r14=0x2e r15=0x0",
            "frame 2 ra=0x401030 sp=0x70c0 rbx=0x11 rbp=0xc r12=0x0 r13=0x0 r14=0x2e r15=0x0",
            "frame 3 ra=0x401030 sp=0x70d0 rbx=0x11 rbp=0xc r12=0x0 r13=0x0 r14=0x2e r15=0x0",
            "frame 4 ra=0x401060 sp=0x70e0 rbx=0x22 rbp=0xc r12=0x0 r13=0x0 r14=0x2e r15=0x0",
            "cleanup pad=0x401040 sp=0x70b0",
            "cleanup pad=0x401040 sp=0x70c0",
            CLEANUP,
            LANDING,
            INSTALLED,
        ],
    },
    // A cleanup needs a return address.
    Case {
        words: &["deliver"],
        input: &[TABLE, LANGUAGE, STACK, MODULE, START, "}"],
        number: 8,
        lines: &["refused: no resume 0x401040"],
    },
    Case {
        words: &["deliver"],
        input: &[TABLE, LANGUAGE, STACK, MODULE, START, NOWHERE],
        number: 0,
        lines: &[FIRST, SECOND, THIRD, CLEANUP, "outcome fatal phase 2"],
    },
    // A call that no site holds ends the program.
    Case {
        words: &["deliver"],
        input: &[TABLE, LANGUAGE, UNLISTED_STACK, MODULE, START, RESUMES],
        number: 0,
        lines: &[
            FIRST,
            SECOND,
            "frame 2 ra=0x401070 sp=0x70e0 rbx=0x22 rbp=0xc r12=0x0 r13=0x0 r14=0x2e r15=0x0",
            "outcome fatal phase 1",
        ],
    },
    Case {
        words: &["deliver"],
        input: &[TABLE, LANGUAGE, UNLISTED_STACK, MODULE, START, "}"],
        number: 0,
        lines: &[
            FIRST,
            SECOND,
            "frame 2 ra=0x401070 sp=0x70e0 rbx=0x22 rbp=0xc r12=0x0 r13=0x0 r14=0x2e r15=0x0",
            "outcome fatal phase 1",
        ],
    },
    // A call that ends a function is its own.
    Case {
        words: &["deliver"],
        input: &[TABLE, LANGUAGE, LAST_CALL_STACK, MODULE, START, RESUMES],
        number: 0,
        lines: &[
            FIRST,
            "frame 1 ra=0x401050 sp=0x70d0 rbx=0x11 rbp=0xc r12=0x0 r13=0x0 r14=0x2e r15=0x0",
            THIRD,
            LANDING,
            INSTALLED,
        ],
    },
    Case {
        words: &["deliver"],
        input: &[TABLE, LANGUAGE, LAST_CALL_STACK, MODULE, START, "}"],
        number: 0,
        lines: &[
            FIRST,
            "frame 1 ra=0x401050 sp=0x70d0 rbx=0x11 rbp=0xc r12=0x0 r13=0x0 r14=0x2e r15=0x0",
            THIRD,
            LANDING,
            INSTALLED,
        ],
    },
    // Descriptions of other code are free.
    Case {
        words: &["deliver"],
        input: &[
            FOREIGN_TABLE,
            LANGUAGE,
            STACK,
            MODULE,
            SECOND_START,
            RESUMES,
        ],
        number: 0,
        lines: &[
            "frame 0 ra=0x401030 sp=0x70d0 rbx=0x11 rbp=0xc r12=0x0 r13=0x0 r14=0x2e r15=0x0",
            "frame 1 ra=0x401060 sp=0x70e0 rbx=0x22 rbp=0xc r12=0x0 r13=0x0 r14=0x2e r15=0x0",
            CLEANUP,
            LANDING,
            INSTALLED,
        ],
    },
    // The frame's address is in the word 16 above the stack pointer, and its return address 8 below.
    Case {
        words: &["walk"],
        input: &[FOREIGN_TABLE, LANGUAGE, STACK, MODULE, START, RESUMES],
        number: 8,
        lines: &["refused: unmapped 0x4"],
    },
    // A landing pad is entered past the arguments, and its frame is known without them.
    Case {
        words: &["deliver"],
        input: &[
            HANDLER_ARGUMENTS_TABLE,
            LANGUAGE,
            STACK,
            MODULE,
            START,
            RESUMES,
        ],
        number: 0,
        lines: &[
            FIRST,
            SECOND,
            THIRD,
            CLEANUP,
            "landing ra=0x401070 sp=0x70e8 rbx=0x22 rbp=0xc r12=0x0 r13=0x0 r14=0x2e r15=0x0 rax=0x900000 rdx=0x0",
            INSTALLED,
        ],
    },
    // So is a cleanup's, from which the next pass goes: here to the end of the stack.
    Case {
        words: &["deliver"],
        input: &[
            CLEANUP_ARGUMENTS_TABLE,
            LANGUAGE,
            STACK,
            MODULE,
            START,
            RESUMES,
        ],
        number: 0,
        lines: &[
            FIRST,
            SECOND,
            THIRD,
            "cleanup pad=0x401040 sp=0x70f0",
            "outcome fatal phase 2",
        ],
    },
    // A walk takes no arguments off.
    Case {
        words: &["walk"],
        input: &[
            CLEANUP_ARGUMENTS_TABLE,
            LANGUAGE,
            STACK,
            MODULE,
            START,
            RESUMES,
        ],
        number: 0,
        lines: &[
            FIRST,
            SECOND,
            THIRD,
            "frame 3 ra=0x0 sp=0x7100 rbx=0xb rbp=0xc r12=0x0 r13=0x0 r14=0xe r15=0x0",
            "end",
        ],
    },
    // By its header, which lists the descriptions, the module is searched with the same answers.
    Case {
        words: &["deliver"],
        input: &[
            TABLE,
            HEADER,
            LANGUAGE,
            STACK,
            HEADER_MODULE,
            START,
            RESUMES,
        ],
        number: 0,
        lines: &[FIRST, SECOND, THIRD, CLEANUP, LANDING, INSTALLED],
    },
    // An entry that can't be read is no obstacle to a search by the header, and ends a scan.
    Case {
        words: &["walk"],
        input: &[
            DAMAGED_TABLE,
            HEADER,
            LANGUAGE,
            STACK,
            HEADER_MODULE,
            SECOND_START,
            RESUMES,
        ],
        number: 0,
        lines: &[
            "frame 0 ra=0x401030 sp=0x70d0 rbx=0x11 rbp=0xc r12=0x0 r13=0x0 r14=0x2e r15=0x0",
            "frame 1 ra=0x401060 sp=0x70e0 rbx=0x22 rbp=0xc r12=0x0 r13=0x0 r14=0x2e r15=0x0",
            "frame 2 ra=0x0 sp=0x7100 rbx=0xb rbp=0xc r12=0x0 r13=0x0 r14=0xe r15=0x0",
            "end",
        ],
    },
    Case {
        words: &["walk"],
        input: &[
            DAMAGED_TABLE,
            LANGUAGE,
            STACK,
            MODULE,
            SECOND_START,
            RESUMES,
        ],
        number: 0,
        lines: &[
            "frame 0 ra=0x401030 sp=0x70d0 rbx=0x11 rbp=0xc r12=0x0 r13=0x0 r14=0x2e r15=0x0",
            "end",
        ],
    },
];

#[test]
fn exceptions_are_delivered(rt: HostRuntime) -> Result<(), Fail> {
    run_cases(&rt, rt.alloc(), &CASES)
}
