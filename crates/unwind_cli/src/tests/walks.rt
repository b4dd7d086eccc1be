// Stacks of one function that pushes RBX, walked and delivered.
use super::*;

/// Four states of the function, of which the last has the return address 0.
const DEEP: &str =
    "010000000000000006104000000000000200000000000000061040000000000003000000000000000000000000000000";

/// The address before this start is in no module.
const BEFORE: &str = "{\"rip\":\"0x401000\",\"rsp\":\"0x7008\",\"rbx\":\"0x9\"},";

const NO_RETURN: &str = "{\"rip\":\"0x401006\",\"rsp\":\"0x7008\"},";

const OUTERMOST: &str = "{\"rip\":\"0x0\",\"rsp\":\"0x7000\",\"rbx\":\"0x9\"},";

/// Two thirds of a frame.
const SHORT: &str = "050000000000000000000000";

const FIRST: &str = "frame 0 ra=0x401006 sp=0x7000 rbx=0x9 rbp=0x0 r12=0x0 r13=0x0 r14=0x0 r15=0x0";

const SECOND: &str = "frame 1 ra=0x0 sp=0x7010 rbx=0x5 rbp=0x0 r12=0x0 r13=0x0 r14=0x0 r15=0x0";

const DEEP_SECOND: &str =
    "frame 1 ra=0x401006 sp=0x7010 rbx=0x1 rbp=0x0 r12=0x0 r13=0x0 r14=0x0 r15=0x0";

const DEEP_THIRD: &str =
    "frame 2 ra=0x401006 sp=0x7020 rbx=0x2 rbp=0x0 r12=0x0 r13=0x0 r14=0x0 r15=0x0";

const DEEP_LAST: &str = "frame 3 ra=0x0 sp=0x7030 rbx=0x3 rbp=0x0 r12=0x0 r13=0x0 r14=0x0 r15=0x0";

const AT_START: &str =
    "frame 0 ra=0x401000 sp=0x7008 rbx=0x9 rbp=0x0 r12=0x0 r13=0x0 r14=0x0 r15=0x0";
// Stopped before its first instruction, the function has pushed nothing.
const BEHIND_NOTHING: &str =
    "frame 1 ra=0x0 sp=0x7010 rbx=0x9 rbp=0x0 r12=0x0 r13=0x0 r14=0x0 r15=0x0";

const OUTERMOST_STATE: &str =
    "frame 0 ra=0x0 sp=0x7000 rbx=0x9 rbp=0x0 r12=0x0 r13=0x0 r14=0x0 r15=0x0";

/// The frame table of a function from 0x402000 that pushes R15, R14 and RBX, whose saved registers it
/// names at the end of the prologue alone; and the start of a stack at 0x7000.
const LATE_TABLE: &str =
    "{\"regions\":[{\"address\":\"0x500000\",\"bytes\":\"1400000000000000017a5200017810011b0c070\
    8900100001c0000001c000000e01ff0ff2000000000420e10420e18410e2083048e038f0200000000\"},\
    {\"address\":\"0x7000\",\"bytes\":\"";

/// What R14 and R15 hold, and the return address 0.
const TWO_PUSHED: &str = "140000000000000015000000000000000000000000000000";

const LATE_MODULE: &str =
    "\"}],\"modules\":[{\"kind\":\"elf\",\"start\":\"0x402000\",\"end\":\"0x402020\",\
    \"eh_frame\":\"0x500000\"}],\"start\":";

/// The function has pushed R15 and R14.
const AFTER_TWO: &str =
    "{\"rip\":\"0x402004\",\"rsp\":\"0x7000\",\"r14\":\"0x14\",\"r15\":\"0x15\"},";

/// Before the push.
const AT_PUSH: &str = "{\"rip\":\"0x401000\",\"rsp\":\"0x7000\",\"rbx\":\"0x9\"},";

static CASES: [Case; 16] = [
    Case {
        words: &["walk"],
        input: &[
            TABLE,
            STACK,
            MODULE,
            AT_PUSH,
            "\"limit\":2,\"interrupted\":true}",
        ],
        number: 0,
        lines: &[
            "frame 0 ra=0x401000 sp=0x7000 rbx=0x9 rbp=0x0 r12=0x0 r13=0x0 r14=0x0 r15=0x0",
            "frame 1 ra=0x5 sp=0x7008 rbx=0x9 rbp=0x0 r12=0x0 r13=0x0 r14=0x0 r15=0x0",
            "end",
        ],
    },
    Case {
        words: &["walk"],
        input: &[
            TABLE,
            STACK,
            MODULE,
            START,
            "\"limit\":2,\"interrupted\":true}",
        ],
        number: 0,
        lines: &[FIRST, SECOND, "end"],
    },
    // Stopped between two pushes, it has not changed R14 and R15 yet.
    Case {
        words: &["walk"],
        input: &[
            LATE_TABLE,
            TWO_PUSHED,
            LATE_MODULE,
            AFTER_TWO,
            "\"limit\":2,\"interrupted\":true}",
        ],
        number: 0,
        lines: &[
            "frame 0 ra=0x402004 sp=0x7000 rbx=0x0 rbp=0x0 r12=0x0 r13=0x0 r14=0x14 r15=0x15",
            "frame 1 ra=0x0 sp=0x7018 rbx=0x0 rbp=0x0 r12=0x0 r13=0x0 r14=0x14 r15=0x15",
            "end",
        ],
    },
    Case {
        words: &["walk"],
        input: &[TABLE, STACK, MODULE, START, "\"limit\":2}"],
        number: 0,
        lines: &[FIRST, SECOND, "end"],
    },
    Case {
        words: &["walk"],
        input: &[TABLE, STACK, MODULE, START, "\"limit\":1}"],
        number: 8,
        lines: &["refused: frame limit"],
    },
    Case {
        words: &["walk"],
        input: &[
            TABLE,
            STACK,
            MODULE,
            BEFORE,
            "\"limit\":2,\"interrupted\":true}",
        ],
        number: 0,
        lines: &[AT_START, BEHIND_NOTHING, "end"],
    },
    Case {
        words: &["walk"],
        input: &[TABLE, STACK, MODULE, BEFORE, "\"limit\":2}"],
        number: 0,
        lines: &[AT_START, "end"],
    },
    Case {
        words: &["walk"],
        input: &[TABLE, STACK, MODULE, NO_RETURN, "\"limit\":2}"],
        number: 8,
        lines: &["refused: unmapped 0x7010"],
    },
    Case {
        words: &["walk"],
        input: &[TABLE, STACK, MODULE, START, "\"limit\":0}"],
        number: 7,
        lines: &["bad snapshot: limit"],
    },
    Case {
        words: &["walk"],
        input: &[TABLE, DEEP, MODULE, START, "\"limit\":3}"],
        number: 8,
        lines: &["refused: frame limit"],
    },
    Case {
        words: &["walk"],
        input: &[TABLE, DEEP, MODULE, START, "\"limit\":4}"],
        number: 0,
        lines: &[FIRST, DEEP_SECOND, DEEP_THIRD, DEEP_LAST, "end"],
    },
    Case {
        words: &["deliver"],
        input: &[TABLE, STACK, MODULE, OUTERMOST, "\"limit\":1}"],
        number: 0,
        lines: &[OUTERMOST_STATE, "outcome end of stack"],
    },
    Case {
        words: &["deliver"],
        input: &[TABLE, STACK, MODULE, START, "\"limit\":1}"],
        number: 8,
        lines: &["refused: frame limit"],
    },
    Case {
        words: &["deliver"],
        input: &[TABLE, SHORT, MODULE, START, "\"limit\":2}"],
        number: 8,
        lines: &["refused: unmapped 0x7008"],
    },
    Case {
        words: &["deliver"],
        input: &[TABLE, DEEP, MODULE, START, "\"limit\":3}"],
        number: 8,
        lines: &["refused: frame limit"],
    },
    Case {
        words: &["deliver"],
        input: &[TABLE, DEEP, MODULE, START, "\"limit\":4}"],
        number: 0,
        lines: &[
            FIRST,
            DEEP_SECOND,
            DEEP_THIRD,
            DEEP_LAST,
            "outcome end of stack",
        ],
    },
];

#[test]
fn stacks_of_one_function_are_unwound(rt: HostRuntime) -> Result<(), Fail> {
    run_cases(&rt, rt.alloc(), &CASES)
}
