// Stacks with a signal's frame, with rules and frame addresses that are expressions, and with arguments
// that a callee removes. The tables and the texts are worked out by hand from the formats.
use super::*;

/// The function 0x401000 to 0x401010 is a signal's, whose frame has 8 bytes throughout; and the start of
/// a stack at 0x7000.
const SIGNAL_TABLE: &str =
    "{\"regions\":[{\"address\":\"0x500000\",\"bytes\":\"1400000000000000017a525300017810011b0c0\
    708900100140000001c000000e00ff0ff10000000000000000000000000000000\"},\
    {\"address\":\"0x7000\",\"bytes\":\"";

/// The same without the mark of a signal.
const CALL_TABLE: &str =
    "{\"regions\":[{\"address\":\"0x500000\",\"bytes\":\"1400000000000000017a5200017810011b0c070\
    890010000140000001c000000e00ff0ff10000000000000000000000000000000\"},\
    {\"address\":\"0x7000\",\"bytes\":\"";

/// RBX is at the address 8 above the frame's, by an expression.
const RULE_TABLE: &str =
    "{\"regions\":[{\"address\":\"0x500000\",\"bytes\":\"1400000000000000017a5200017810011b0c070\
    890010000140000001c000000e00ff0ff10000000001003022308000000000000\"},\
    {\"address\":\"0x7000\",\"bytes\":\"";

/// The frame's address is in the word 16 above the stack pointer.
const ADDRESS_TABLE: &str =
    "{\"regions\":[{\"address\":\"0x500000\",\"bytes\":\"1400000000000000017a5200017810011b0c070\
    890010000140000001c000000e00ff0ff10000000000f03771006000000000000\"},\
    {\"address\":\"0x7000\",\"bytes\":\"";

/// The frame's address is 8 above a word that nothing has put on the stack.
const EMPTY_TABLE: &str =
    "{\"regions\":[{\"address\":\"0x500000\",\"bytes\":\"1400000000000000017a5200017810011b0c070\
    890010000140000001c000000e00ff0ff10000000000f02230800000000000000\"},\
    {\"address\":\"0x7000\",\"bytes\":\"";

/// RBX is the value of an expression that goes back to its start.
const ENDLESS_TABLE: &str =
    "{\"regions\":[{\"address\":\"0x500000\",\"bytes\":\"1400000000000000017a5200017810011b0c070\
    890010000140000001c000000e00ff0ff10000000001603032ffdff0000000000\"},\
    {\"address\":\"0x7000\",\"bytes\":\"";

/// The return address at the function's start, and 0.
const AT_START_STACK: &str = "00104000000000000000000000000000";

const RULE_STACK: &str = "000000000000000001000000000000007700000000000000";

const PLAIN_START: &str = "{\"rip\":\"0x401006\",\"rsp\":\"0x7000\"},";

const FIRST: &str = "frame 0 ra=0x401006 sp=0x7000 rbx=0x0 rbp=0x0 r12=0x0 r13=0x0 r14=0x0 r15=0x0";

const INTERRUPTED: &str =
    "frame 1 ra=0x401000 sp=0x7008 rbx=0x0 rbp=0x0 r12=0x0 r13=0x0 r14=0x0 r15=0x0";

static CASES: [Case; 7] = [
    // After a signal's frame the first instruction of a function is its own.
    Case {
        words: &["walk"],
        input: &[
            SIGNAL_TABLE,
            AT_START_STACK,
            MODULE,
            PLAIN_START,
            "\"limit\":4}",
        ],
        number: 0,
        lines: &[
            FIRST,
            INTERRUPTED,
            "frame 2 ra=0x0 sp=0x7010 rbx=0x0 rbp=0x0 r12=0x0 r13=0x0 r14=0x0 r15=0x0",
            "end",
        ],
    },
    // After a call it is none of a call's.
    Case {
        words: &["walk"],
        input: &[
            CALL_TABLE,
            AT_START_STACK,
            MODULE,
            PLAIN_START,
            "\"limit\":4}",
        ],
        number: 0,
        lines: &[FIRST, INTERRUPTED, "end"],
    },
    Case {
        words: &["walk"],
        input: &[RULE_TABLE, RULE_STACK, MODULE, PLAIN_START, "\"limit\":2}"],
        number: 0,
        lines: &[
            FIRST,
            "frame 1 ra=0x0 sp=0x7008 rbx=0x77 rbp=0x0 r12=0x0 r13=0x0 r14=0x0 r15=0x0",
            "end",
        ],
    },
    // What an expression reads has to be mapped.
    Case {
        words: &["walk"],
        input: &[
            ADDRESS_TABLE,
            AT_START_STACK,
            MODULE,
            PLAIN_START,
            "\"limit\":2}",
        ],
        number: 8,
        lines: &["refused: unmapped 0x7010"],
    },
    // So has what stands at the address that it gives.
    Case {
        words: &["deliver"],
        input: &[
            ADDRESS_TABLE,
            RULE_STACK,
            MODULE,
            PLAIN_START,
            "\"limit\":2}",
        ],
        number: 8,
        lines: &["refused: unmapped 0x6f"],
    },
    // The expression of a frame's address begins with an empty stack.
    Case {
        words: &["walk"],
        input: &[EMPTY_TABLE, STACK, MODULE, PLAIN_START, "\"limit\":2}"],
        number: 8,
        lines: &["refused: table PopWithEmptyStack"],
    },
    Case {
        words: &["walk"],
        input: &[ENDLESS_TABLE, STACK, MODULE, PLAIN_START, "\"limit\":2}"],
        number: 8,
        lines: &["refused: table TooManyOperations"],
    },
];

#[test]
fn every_rule_is_followed(rt: HostRuntime) -> Result<(), Fail> {
    run_cases(&rt, rt.alloc(), &CASES)
}
