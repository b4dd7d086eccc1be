// Core files whose threads are walked, and why none is.
use super::*;

/// The core, up to the type of the file.
const IDENT: &str = "{\"core\":\"7f454c46020101000000000000000000";

/// The type of a core file.
const CORE: &str = "0400";

/// The rest of the ELF header, which counts two program headers.
const HEADER: &str =
    "3e000100000000000000000000004000000000000000000000000000000000000000400038000200000000000000";

/// The same, whose count doesn't stand in the header.
const MANY_HEADERS: &str =
    "3e00010000000000000000000000400000000000000000000000000000000000000040003800ffff000000000000";

/// Notes from byte 176 on, and 16 bytes of memory at 0x7000.
const SEGMENTS: &str =
    "0400000004000000b00000000000000000000000000000000000000000000000640100000000000000000000000\
    0000004000000000000000100000006000000140200000000000000700000000000000000000000000000100000\
    000000000010000000000000000100000000000000";

/// A thread with RBX 9, RIP 0x401006 and RSP 0x7000.
const THREAD: &str =
    "050000005001000001000000434f524500000000000000000000000000000000000000000000000000000000000\
    0000000000000000000000000000000000000000000000000000000000000000000000000000000000000000000\
    0000000000000000000000000000000000000000000000000000000000000000000000000000000000000000000\
    0000000000000000000000000000000000000000000000000000000000000000000000009000000000000000000\
    0000000000000000000000000000000000000000000000000000000000000000000000000000000000000000000\
    0000000000000000000000000000000000000000000000000000000000000000006104000000000000000000000\
    0000000000000000000000007000000000000000000000000000000000000000000000000000000000000000000\
    000000000000000000000000000000000000000000000000000000000000000000000000000";

/// The same with two notes.
const SEGMENTS_OF_TWO: &str =
    "0400000004000000b00000000000000000000000000000000000000000000000c80200000000000000000000000\
    0000004000000000000000100000006000000780300000000000000700000000000000000000000000000100000\
    000000000010000000000000000100000000000000";

/// Two segments of memory, both from 0x7000 on.
const SHARED_SEGMENTS: &str =
    "0100000004000000b00000000000000000700000000000000000000000000000640100000000000064010000000\
    0000004000000000000000100000006000000140200000000000000700000000000000000000000000000100000\
    000000000010000000000000000100000000000000";

/// Notes of one byte less.
const CUT_NOTES: &str =
    "0400000004000000b00000000000000000000000000000000000000000000000630100000000000000000000000\
    0000004000000000000000100000006000000140200000000000000700000000000000000000000000000100000\
    000000000010000000000000000100000000000000";

/// A thread with RSP 0x7008, whose return address would lie past the stack.
const STRAY_THREAD: &str =
    "050000005001000001000000434f524500000000000000000000000000000000000000000000000000000000000\
    0000000000000000000000000000000000000000000000000000000000000000000000000000000000000000000\
    0000000000000000000000000000000000000000000000000000000000000000000000000000000000000000000\
    0000000000000000000000000000000000000000000000000000000000000000000000009000000000000000000\
    0000000000000000000000000000000000000000000000000000000000000000000000000000000000000000000\
    0000000000000000000000000000000000000000000000000000000000000000006104000000000000000000000\
    0000000000000000000000087000000000000000000000000000000000000000000000000000000000000000000\
    000000000000000000000000000000000000000000000000000000000000000000000000000";

/// The stack, but for its last byte.
const CUT_STACK: &str = "050000000000000000000000000000";

/// The frame table and the module of the function, and what is to come is the limit.
const TABLES: &str =
    "\",\"regions\":[{\"address\":\"0x500000\",\"bytes\":\"1400000000000000017a5200017810011b0c0\
    70890010000140000001c000000e00ff0ff1000000000410e108302000000000000\"}],\
    \"modules\":[{\"kind\":\"elf\",\"start\":\"0x401000\",\"end\":\"0x401010\",\
    \"eh_frame\":\"0x500000\"}],";

static CASES: [Case; 12] = [
    Case {
        words: &["core"],
        input: &[
            IDENT,
            CORE,
            HEADER,
            SEGMENTS,
            THREAD,
            STACK,
            TABLES,
            "\"limit\":2}",
        ],
        number: 0,
        lines: &[
            "thread 0",
            "frame 0 ra=0x401006 sp=0x7000 rbx=0x9 rbp=0x0 r12=0x0 r13=0x0 r14=0x0 r15=0x0",
            "frame 1 ra=0x0 sp=0x7010 rbx=0x5 rbp=0x0 r12=0x0 r13=0x0 r14=0x0 r15=0x0",
            "end",
        ],
    },
    Case {
        words: &["core"],
        input: &[
            IDENT,
            CORE,
            HEADER,
            SEGMENTS,
            THREAD,
            STACK,
            TABLES,
            "\"limit\":1}",
        ],
        number: 0,
        lines: &["thread 0", "refused: frame limit"],
    },
    Case {
        words: &["core"],
        input: &[
            IDENT,
            CORE,
            HEADER,
            SEGMENTS,
            THREAD,
            CUT_STACK,
            TABLES,
            "\"limit\":2}",
        ],
        number: 8,
        lines: &["refused: core segments"],
    },
    Case {
        words: &["core"],
        input: &[
            IDENT,
            "0200",
            HEADER,
            SEGMENTS,
            THREAD,
            STACK,
            TABLES,
            "\"limit\":2}",
        ],
        number: 8,
        lines: &["refused: core header"],
    },
    // A thread whose walk is refused doesn't end the report: the next one follows.
    Case {
        words: &["core"],
        input: &[
            IDENT,
            CORE,
            HEADER,
            SEGMENTS_OF_TWO,
            STRAY_THREAD,
            THREAD,
            STACK,
            TABLES,
            "\"limit\":2}",
        ],
        number: 0,
        lines: &[
            "thread 0",
            "refused: unmapped 0x7010",
            "thread 1",
            "frame 0 ra=0x401006 sp=0x7000 rbx=0x9 rbp=0x0 r12=0x0 r13=0x0 r14=0x0 r15=0x0",
            "frame 1 ra=0x0 sp=0x7010 rbx=0x5 rbp=0x0 r12=0x0 r13=0x0 r14=0x0 r15=0x0",
            "end",
        ],
    },
    Case {
        words: &["core"],
        input: &[
            IDENT,
            CORE,
            HEADER,
            SHARED_SEGMENTS,
            THREAD,
            STACK,
            TABLES,
            "\"limit\":2}",
        ],
        number: 8,
        lines: &["refused: core region 1"],
    },
    Case {
        words: &["core"],
        input: &[
            IDENT,
            CORE,
            HEADER,
            CUT_NOTES,
            THREAD,
            STACK,
            TABLES,
            "\"limit\":2}",
        ],
        number: 8,
        lines: &["refused: core notes"],
    },
    Case {
        words: &["core"],
        input: &[
            IDENT,
            CORE,
            MANY_HEADERS,
            SEGMENTS,
            THREAD,
            STACK,
            TABLES,
            "\"limit\":2}",
        ],
        number: 8,
        lines: &["refused: core many segments"],
    },
    // A refused core is reported before a faulty field after it, and a faulty core before that.
    Case {
        words: &["core"],
        input: &["{\"core\":\"\",\"limit\":0}"],
        number: 8,
        lines: &["refused: core header"],
    },
    Case {
        words: &["core"],
        input: &["{\"core\":\"0\"}"],
        number: 7,
        lines: &["bad snapshot: core"],
    },
    Case {
        words: &["core"],
        input: &[
            IDENT,
            CORE,
            HEADER,
            SEGMENTS,
            THREAD,
            STACK,
            TABLES,
            "\"limit\":0}",
        ],
        number: 7,
        lines: &["bad snapshot: limit"],
    },
    Case {
        words: &["core"],
        input: &[
            IDENT,
            CORE,
            HEADER,
            SEGMENTS,
            THREAD,
            STACK,
            "\",\"regions\":[{\"address\":\"0x700f\",\"bytes\":\"00\"}],\"modules\":[],\"limit\":2}",
        ],
        number: 7,
        lines: &["bad snapshot: regions"],
    },
];

#[test]
fn threads_of_cores_are_walked(rt: HostRuntime) -> Result<(), Fail> {
    run_cases(&rt, rt.alloc(), &CASES)
}
