// Whole runs over modules of three formats. The tables, the stacks and the texts are worked out by hand
// from the formats.
use super::*;

/// A frame table, two language tables, and the cell that holds the personality's address, as in
/// `deliveries`; and what is to come is the section of compact unwinding.
const ELF: &str =
    "{\"regions\":[{\"address\":\"0x500000\",\"bytes\":\"1400000000000000017a5200017810011b0c070\
    890010000180000001c000000e00ff0ff2000000000410e108602430d064583031c00000000000000017a504c52\
    00017810079bb92f00001b1b0c0708900100001800000024000000c40ff0ff30000000049b1f0000410e1083020\
    0002000000040000000d80ff0ff30000000048b1f0000420e10410e18440e2083038e02000000000000\"},\
    {\"address\":\"0x502000\",\"bytes\":\"ffff01080810200020100000ff9b0c01040810200101000000000\
    0\"},{\"address\":\"0x503000\",\"bytes\":\"0040400000000000\"},{\"address\":\"0x600000\",\
    \"bytes\":\"";

/// A compressed page from 0x1000 on, whose first function has a frame of 8 bytes, and a regular page from
/// 0x2000 on.
const SECTION: &str =
    "010000001c000000010000000000000000000000200000000300000000000102001000004400000000000000002\
    000005800000000000000003000000000000000000000030000000c000200140000000000000000010001020000\
    00080001000020000001000101";

/// The same where the opcode of the first function says that it has a language table, and names no
/// personality.
const HANDLED_SECTION: &str =
    "010000001c000000010000000000000000000000200000000300000000000142001000004400000000000000002\
    000005800000000000000003000000000000000000000030000000c000200140000000000000000010001020000\
    00080001000020000001000101";

/// What is to come is the code of a PE function at 0x140001000.
const CODE: &str = "\"},{\"address\":\"0x140001000\",\"bytes\":\"";

/// The same of the first region.
const FIRST_CODE: &str = "{\"regions\":[{\"address\":\"0x140001000\",\"bytes\":\"";

/// 256 bytes of `nop`.
const NOPS: &str =
    "9090909090909090909090909090909090909090909090909090909090909090909090909090909090909090909\
    0909090909090909090909090909090909090909090909090909090909090909090909090909090909090909090\
    9090909090909090909090909090909090909090909090909090909090909090909090909090909090909090909\
    0909090909090909090909090909090909090909090909090909090909090909090909090909090909090909090\
    9090909090909090909090909090909090909090909090909090909090909090909090909090909090909090909\
    090909090909090909090909090909090909090909090909090909090";

/// The function's record, and what is to come is its unwind record.
const RECORD: &str =
    "\"},{\"address\":\"0x140002000\",\"bytes\":\"001000000011000010200000\"},{\"address\":\"0x140002010\",\"bytes\":\"";

/// It allocates 40 bytes after it has pushed RBX.
const INFO: &str = "0105020005420130";

/// The same of a record that names a handler for exceptions, at 0x1000, after which its region ends.
const HANDLED_INFO: &str = "090502000542013000100000";

/// A record that is chained to itself.
const ENDLESS_INFO: &str = "21000000001000000011000010200000";

/// The stack from 0x70a0 on: the return address into the PE function; 40 bytes, RBX's value, and the
/// return address into the ELF function; and that one's stack. Then the three modules, and a start in the
/// Mach-O function.
const STACK: &str =
    "\"},{\"address\":\"0x70a0\",\"bytes\":\"501000400100000000000000000000000000000000000000000\
    0000000000000000000000000000000000000000000002200000000000000601040000000000000000000000000\
    000b000000000000000e000000000000000000000000000000\"}],\"modules\":[{\"kind\":\"elf\",\
    \"start\":\"0x401000\",\"end\":\"0x401080\",\"eh_frame\":\"0x500000\"},{\"kind\":\"macho\",\
    \"base\":\"0x100000000\",\"size\":\"0x4000\",\"unwind_info\":\"0x600000\"},\
    {\"kind\":\"pe\",\"base\":\"0x140000000\",\"size\":\"0x3000\",\"pdata_rva\":\"0x2000\",\
    \"pdata_size\":\"0xc\"}],\"exception\":\"0x900000\",\"limit\":8,\
    \"start\":{\"rip\":\"0x100001010\",\"rsp\":\"0x70a0\",\"rbx\":\"0x11\",\"rbp\":\"0xc\",\
    \"r14\":\"0x2e\"}}";

/// The PE module alone, and a start in its function.
const PE_START: &str =
    "\"}],\"modules\":[{\"kind\":\"pe\",\"base\":\"0x140000000\",\"size\":\"0x3000\",\
    \"pdata_rva\":\"0x2000\",\"pdata_size\":\"0xc\"}],\"limit\":4,\
    \"start\":{\"rip\":\"0x140001050\",\"rsp\":\"0x7000\"}}";

const FIRST: &str =
    "frame 0 ra=0x100001010 sp=0x70a0 rbx=0x11 rbp=0xc r12=0x0 r13=0x0 r14=0x2e r15=0x0";

const SECOND: &str =
    "frame 1 ra=0x140001050 sp=0x70a8 rbx=0x11 rbp=0xc r12=0x0 r13=0x0 r14=0x2e r15=0x0";

const THIRD: &str =
    "frame 2 ra=0x401060 sp=0x70e0 rbx=0x22 rbp=0xc r12=0x0 r13=0x0 r14=0x2e r15=0x0";

const LAST: &str = "frame 3 ra=0x0 sp=0x7100 rbx=0xb rbp=0xc r12=0x0 r13=0x0 r14=0xe r15=0x0";

const LANDING: &str =
    "landing ra=0x401070 sp=0x70e0 rbx=0x22 rbp=0xc r12=0x0 r13=0x0 r14=0x2e r15=0x0 rax=0x900000 rdx=0x0";

/// Three pushes, of R15, R14 and RBX, and 29 bytes of `nop`.
const PROLOGUE: &str = "4157415653909090909090909090909090909090909090909090909090909090";

/// The record of these 32 bytes, and its unwind record.
const PROLOGUE_RECORD: &str =
    "\"},{\"address\":\"0x140002000\",\"bytes\":\"001000002010000010200000\"},\
    {\"address\":\"0x140002010\",\"bytes\":\"01050300053004e002f00000";

/// Two words that were pushed, and a return address of 0; and a stop after two of the pushes.
const IN_PROLOGUE: &str =
    "\"},{\"address\":\"0x7000\",\"bytes\":\"140000000000000015000000000000000000000000000000\"}\
    ],\"modules\":[{\"kind\":\"pe\",\"base\":\"0x140000000\",\"size\":\"0x3000\",\
    \"pdata_rva\":\"0x2000\",\"pdata_size\":\"0xc\"}],\"limit\":2,\"interrupted\":true,\
    \"start\":{\"rip\":\"0x140001004\",\"rsp\":\"0x7000\",\"r14\":\"0x14\",\"r15\":\"0x15\"}}";

/// 1,024 bytes of `nop`, but an epilog at 0x1400012e0 that pops RBX and returns.
const EPILOG: &str =
    "9090909090909090909090909090909090909090909090909090909090909090909090909090909090909090909\
    0909090909090909090909090909090909090909090909090909090909090909090909090909090909090909090\
    9090909090909090909090909090909090909090909090909090909090909090909090909090909090909090909\
    0909090909090909090909090909090909090909090909090909090909090909090909090909090909090909090\
    9090909090909090909090909090909090909090909090909090909090909090909090909090909090909090909\
    0909090909090909090909090909090909090909090909090909090909090909090909090909090909090909090\
    9090909090909090909090909090909090909090909090909090909090909090909090909090909090909090909\
    0909090909090909090909090909090909090909090909090909090909090909090909090909090909090909090\
    9090909090909090909090909090909090909090909090909090909090909090909090909090909090909090909\
    0909090909090909090909090909090909090909090909090909090909090909090909090909090909090909090\
    9090909090909090909090909090909090909090909090909090909090909090909090909090909090909090909\
    0909090909090909090909090909090909090909090909090909090909090909090909090909090909090909090\
    9090909090909090909090909090909090909090909090909090909090909090909090909090909090909090909\
    0909090909090909090909090909090909090909090909090909090909090909090909090909090909090909090\
    9090909090909090909090909090909090909090909090909090909090909090909090909090909090909090909\
    0909090909090909090909090909090909090909090909090909090909090909090909090909090909090909090\
    90909090909090905bc390909090909090909090909090909090909090909090909090909090909090909090909\
    0909090909090909090909090909090909090909090909090909090909090909090909090909090909090909090\
    9090909090909090909090909090909090909090909090909090909090909090909090909090909090909090909\
    0909090909090909090909090909090909090909090909090909090909090909090909090909090909090909090\
    9090909090909090909090909090909090909090909090909090909090909090909090909090909090909090909\
    0909090909090909090909090909090909090909090909090909090909090909090909090909090909090909090\
    9090909090909090909090909090909090909090909090";

/// The record of these bytes, and its unwind record of version 2, which lists the epilog.
const EPILOG_RECORD: &str =
    "\"},{\"address\":\"0x140002000\",\"bytes\":\"001000000014000010200000\"},\
    {\"address\":\"0x140002010\",\"bytes\":\"020103000206201601300000";

/// A return address of 0, and a stop after the pop.
const IN_EPILOG: &str =
    "\"},{\"address\":\"0x7000\",\"bytes\":\"0000000000000000\"}],\"modules\":[{\"kind\":\"pe\",\
    \"base\":\"0x140000000\",\"size\":\"0x3000\",\"pdata_rva\":\"0x2000\",\
    \"pdata_size\":\"0xc\"}],\"limit\":2,\"interrupted\":true,\
    \"start\":{\"rip\":\"0x1400012e1\",\"rsp\":\"0x7000\",\"rbx\":\"0x9\"}}";

/// A section with one function, whose opcode names the first of the section's personalities and says
/// that it has a language table, which lies 0x1800 bytes after the module's base.
const TABLED_SECTION: &str =
    "{\"regions\":[{\"address\":\"0x600000\",\"bytes\":\"010000001c00000001000000200000000100000\
    02400000002000000000001520030000000100000440000003c0000000020000000000000440000000010000000\
    18000002000000080001000010000000000152";

/// The same where the part of the page in the list of language tables ends 4 bytes earlier.
const CUT_SECTION: &str =
    "{\"regions\":[{\"address\":\"0x600000\",\"bytes\":\"010000001c00000001000000200000000100000\
    02400000002000000000001520030000000100000440000003c0000000020000000000000400000000010000000\
    18000002000000080001000010000000000152";

/// The same as the first where there are no personalities.
const UNNAMED_SECTION: &str =
    "{\"regions\":[{\"address\":\"0x600000\",\"bytes\":\"010000001c00000001000000200000000000000\
    02400000002000000000001520030000000100000440000003c0000000020000000000000440000000010000000\
    18000002000000080001000010000000000152";

/// The same as the first where the opcode names no personality.
const SILENT_SECTION: &str =
    "{\"regions\":[{\"address\":\"0x600000\",\"bytes\":\"010000001c00000001000000200000000100000\
    02400000002000000000001520030000000100000440000003c0000000020000000000000440000000010000000\
    18000002000000080001000010000000000142";

/// The table: the calls in the bytes 8 to 0x18 of the function have a handler at 0x20. Then the module,
/// and a start in the function.
const TABLE: &str = "\"},{\"address\":\"0x100001800\",\"bytes\":\"ffff0104081020010100\"}],\
    \"modules\":[{\"kind\":\"macho\",\"base\":\"0x100000000\",\"size\":\"0x4000\",\
    \"unwind_info\":\"0x600000\"}],\"exception\":\"0x900000\",\"limit\":2,\
    \"start\":{\"rip\":\"0x100001010\",\"rsp\":\"0x7000\"}}";

/// A record that names a handler for exceptions, at 0x2800, and its language table: the calls in the
/// bytes 8 to 0x18 of the function have a handler at 0x20.
const TABLED_INFO: &str = "0900000000280000ffff0104081020010100";

/// The same of a handler for termination.
const TERMINATION_INFO: &str = "1100000000280000ffff0104081020010100";

/// The first one cut inside the handler's address.
const CUT_INFO: &str = "090000000028";

/// A record that is chained to the first one, as that of a function which begins 8 bytes before.
const CHAINED_INFO: &str = "21000000f80f000000110000202000000900000000280000ffff0104081020010100";

/// The PE module, and a start in its function with an exception.
const PE_HANDLER_START: &str =
    "\"}],\"modules\":[{\"kind\":\"pe\",\"base\":\"0x140000000\",\"size\":\"0x3000\",\
    \"pdata_rva\":\"0x2000\",\"pdata_size\":\"0xc\"}],\"exception\":\"0x900000\",\"limit\":2,\
    \"start\":{\"rip\":\"0x140001010\",\"rsp\":\"0x7000\"}}";

const HANDLER_FIRST: &str =
    "frame 0 ra=0x140001010 sp=0x7000 rbx=0x0 rbp=0x0 r12=0x0 r13=0x0 r14=0x0 r15=0x0";

const HANDLER_LANDING: &str =
    "landing ra=0x140001020 sp=0x7000 rbx=0x0 rbp=0x0 r12=0x0 r13=0x0 r14=0x0 r15=0x0 rax=0x9000\
    00 rdx=0x0";

static CASES: [Case; 19] = [
    Case {
        words: &["deliver"],
        input: &[ELF, SECTION, CODE, NOPS, RECORD, INFO, STACK],
        number: 0,
        lines: &[FIRST, SECOND, THIRD, LANDING, "outcome installed"],
    },
    Case {
        words: &["walk"],
        input: &[ELF, SECTION, CODE, NOPS, RECORD, INFO, STACK],
        number: 0,
        lines: &[FIRST, SECOND, THIRD, LAST, "end"],
    },
    Case {
        words: &["deliver"],
        input: &[ELF, HANDLED_SECTION, CODE, NOPS, RECORD, INFO, STACK],
        number: 0,
        lines: &[FIRST, SECOND, THIRD, LANDING, "outcome installed"],
    },
    // A walk doesn't look at handlers.
    Case {
        words: &["walk"],
        input: &[
            ELF,
            HANDLED_SECTION,
            CODE,
            NOPS,
            RECORD,
            HANDLED_INFO,
            STACK,
        ],
        number: 0,
        lines: &[FIRST, SECOND, THIRD, LAST, "end"],
    },
    Case {
        words: &["deliver"],
        input: &[ELF, SECTION, CODE, NOPS, RECORD, HANDLED_INFO, STACK],
        number: 0,
        lines: &[FIRST, SECOND, "outcome fatal phase 1"],
    },
    Case {
        words: &["deliver"],
        input: &[FIRST_CODE, NOPS, RECORD, ENDLESS_INFO, PE_START],
        number: 8,
        lines: &["refused: chain limit"],
    },
    // Without the function's code it can't be told whether it stands in an epilog.
    Case {
        words: &["walk"],
        input: &[FIRST_CODE, "90", RECORD, INFO, PE_START],
        number: 8,
        lines: &["refused: pe info"],
    },
    Case {
        words: &["walk"],
        input: &[ELF, "01", CODE, NOPS, RECORD, INFO, STACK],
        number: 8,
        lines: &["refused: macho ReadError Header"],
    },
    Case {
        words: &["walk"],
        input: &[FIRST_CODE, PROLOGUE, PROLOGUE_RECORD, IN_PROLOGUE],
        number: 0,
        lines: &[
            "frame 0 ra=0x140001004 sp=0x7000 rbx=0x0 rbp=0x0 r12=0x0 r13=0x0 r14=0x14 r15=0x15",
            "frame 1 ra=0x0 sp=0x7018 rbx=0x0 rbp=0x0 r12=0x0 r13=0x0 r14=0x14 r15=0x15",
            "end",
        ],
    },
    Case {
        words: &["walk"],
        input: &[FIRST_CODE, EPILOG, EPILOG_RECORD, IN_EPILOG],
        number: 0,
        lines: &[
            "frame 0 ra=0x1400012e1 sp=0x7000 rbx=0x9 rbp=0x0 r12=0x0 r13=0x0 r14=0x0 r15=0x0",
            "frame 1 ra=0x0 sp=0x7008 rbx=0x9 rbp=0x0 r12=0x0 r13=0x0 r14=0x0 r15=0x0",
            "end",
        ],
    },
    // A function of a Mach-O module with a handler.
    Case {
        words: &["deliver"],
        input: &[TABLED_SECTION, TABLE],
        number: 0,
        lines: &[
            "frame 0 ra=0x100001010 sp=0x7000 rbx=0x0 rbp=0x0 r12=0x0 r13=0x0 r14=0x0 r15=0x0",
            "landing ra=0x100001020 sp=0x7000 rbx=0x0 rbp=0x0 r12=0x0 r13=0x0 r14=0x0 r15=0x0 rax=0x900000 rdx=0x0",
            "outcome installed",
        ],
    },
    Case {
        words: &["deliver"],
        input: &[CUT_SECTION, TABLE],
        number: 8,
        lines: &["refused: macho ReadError Lsda"],
    },
    Case {
        words: &["deliver"],
        input: &[UNNAMED_SECTION, TABLE],
        number: 8,
        lines: &["refused: macho ReadError Personalities"],
    },
    Case {
        words: &["deliver"],
        input: &[SILENT_SECTION, TABLE],
        number: 8,
        lines: &["refused: unmapped 0x7000"],
    },
    // A function of a PE module with a handler.
    Case {
        words: &["deliver"],
        input: &[FIRST_CODE, NOPS, RECORD, TABLED_INFO, PE_HANDLER_START],
        number: 0,
        lines: &[HANDLER_FIRST, HANDLER_LANDING, "outcome installed"],
    },
    Case {
        words: &["deliver"],
        input: &[FIRST_CODE, NOPS, RECORD, CUT_INFO, PE_HANDLER_START],
        number: 8,
        lines: &["refused: pe info"],
    },
    // A walk doesn't ask for it.
    Case {
        words: &["walk"],
        input: &[FIRST_CODE, NOPS, RECORD, CUT_INFO, PE_HANDLER_START],
        number: 8,
        lines: &["refused: unmapped 0x7000"],
    },
    // Which flag is set makes no difference.
    Case {
        words: &["deliver"],
        input: &[FIRST_CODE, NOPS, RECORD, TERMINATION_INFO, PE_HANDLER_START],
        number: 0,
        lines: &[HANDLER_FIRST, HANDLER_LANDING, "outcome installed"],
    },
    // The handler's table counts from the function of the record that names it.
    Case {
        words: &["deliver"],
        input: &[FIRST_CODE, NOPS, RECORD, CHAINED_INFO, PE_HANDLER_START],
        number: 0,
        lines: &[
            HANDLER_FIRST,
            "landing ra=0x140001018 sp=0x7000 rbx=0x0 rbp=0x0 r12=0x0 r13=0x0 r14=0x0 r15=0x0 rax=0x900000 rdx=0x0",
            "outcome installed",
        ],
    },
];

#[test]
fn stacks_through_three_formats_are_unwound(rt: HostRuntime) -> Result<(), Fail> {
    run_cases(&rt, rt.alloc(), &CASES)
}
