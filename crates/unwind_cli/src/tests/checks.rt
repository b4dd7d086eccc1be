// Functions that a module is claimed to have, and whether its tables describe them.
use super::*;

/// The frame table of the function that pushes RBX, without a stack.
const TABLE_ALONE: &str =
    "{\"regions\":[{\"address\":\"0x500000\",\"bytes\":\"1400000000000000017a5200017810011b0c070\
    890010000140000001c000000e00ff0ff1000000000410e108302000000000000\"}],";

/// The module of the function, and what is to come are the functions.
const CLAIMED_MODULE: &str =
    "\"modules\":[{\"kind\":\"elf\",\"start\":\"0x401000\",\"end\":\"0x401010\",\
    \"eh_frame\":\"0x500000\"}],\"functions\":";

/// The frame table and the module, and what is to come are the function's steps and its body.
const FUNCTION: &str =
    "{\"regions\":[{\"address\":\"0x500000\",\"bytes\":\"1400000000000000017a5200017810011b0c070\
    890010000140000001c000000e00ff0ff1000000000410e108302000000000000\"}],\
    \"modules\":[{\"kind\":\"elf\",\"start\":\"0x401000\",\"end\":\"0x401010\",\
    \"eh_frame\":\"0x500000\"}],\"functions\":[{\"start\":\"0x401000\",\"end\":\"0x401010\",";

/// Its push, and its body after the push.
const PUSHES_RBX: &str =
    "\"steps\":[{\"push\":\"rbx\",\"end\":\"0x1\"}],\"body\":[[\"0x401001\",\"0x401010\"]]";

/// As if it pushed R12.
const PUSHES_R12: &str =
    "\"steps\":[{\"push\":\"r12\",\"end\":\"0x1\"}],\"body\":[[\"0x401001\",\"0x401010\"]]}]}";

/// Half of the function.
const HALF: &str = "[{\"start\":\"0x401000\",\"end\":\"0x401008\",\"steps\":[{\"push\":\"rbx\",\
    \"end\":\"0x1\"}],\"body\":[[\"0x401001\",\"0x401008\"]]}]}";

/// A cleanup, and calls that ask nothing.
const SITES: &str =
    ",\"sites\":[[\"0x401002\",\"0x401006\",\"cleanup\",\"0x401008\"],[\"0x401006\",\
    \"0x401007\",\"none\"]]}]}";

const TWO_THINGS: &str =
    "\"steps\":[{\"push\":\"rbx\",\"set\":\"0x0\",\"end\":\"0x1\"}],\"body\":[]}]}";

const PUSHES_RAX: &str = "\"steps\":[{\"push\":\"rax\",\"end\":\"0x1\"}],\"body\":[]}]}";

const PAD_FOR_NOTHING: &str = ",\"sites\":[[\"0x401002\",\"0x401006\",\"none\",\"0x401008\"]]}]}";

const NO_PLACE: &str =
    "\"steps\":[{\"allocate\":\"0x10\",\"end\":\"0x4\"},{\"store\":\"rbx\",\"end\":\"0x8\"}],\
    \"body\":[]}]}";

const MACHO_MODULE: &str =
    "\"modules\":[{\"kind\":\"macho\",\"base\":\"0x401000\",\"size\":\"0x10\",\
    \"unwind_info\":\"0x500000\"}],\"functions\":[]}";

static CASES: [Case; 14] = [
    // The tables are those of a function that pushes RBX.
    Case {
        words: &["check"],
        input: &[FUNCTION, PUSHES_RBX, "}]}"],
        number: 0,
        lines: &["yes"],
    },
    Case {
        words: &["check"],
        input: &[FUNCTION, PUSHES_R12],
        number: 0,
        lines: &["no program 0"],
    },
    // Half of the function is claimed as one.
    Case {
        words: &["check"],
        input: &[TABLE_ALONE, CLAIMED_MODULE, HALF],
        number: 0,
        lines: &["no extra 0x401000"],
    },
    Case {
        words: &["check"],
        input: &[TABLE_ALONE, CLAIMED_MODULE, "[]}"],
        number: 0,
        lines: &["yes"],
    },
    // No function is claimed, and the frame table isn't mapped.
    Case {
        words: &["check"],
        input: &["{\"regions\":[],", CLAIMED_MODULE, "[]}"],
        number: 0,
        lines: &["yes"],
    },
    // A language table is claimed, and the description leads to none.
    Case {
        words: &["check"],
        input: &[FUNCTION, PUSHES_RBX, SITES],
        number: 0,
        lines: &["no sites 0"],
    },
    // It pushes, and can't be the first function of a stack.
    Case {
        words: &["check"],
        input: &[FUNCTION, PUSHES_RBX, ",\"outermost\":true}]}"],
        number: 0,
        lines: &["no claim 0"],
    },
    // The step does two things.
    Case {
        words: &["check"],
        input: &[FUNCTION, TWO_THINGS],
        number: 7,
        lines: &["bad snapshot: functions"],
    },
    // Prologues keep no RAX.
    Case {
        words: &["check"],
        input: &[FUNCTION, PUSHES_RAX],
        number: 7,
        lines: &["bad snapshot: functions"],
    },
    // Calls that ask nothing have no landing pad.
    Case {
        words: &["check"],
        input: &[FUNCTION, PUSHES_RBX, PAD_FOR_NOTHING],
        number: 7,
        lines: &["bad snapshot: functions"],
    },
    // A place above the stack pointer is missing.
    Case {
        words: &["check"],
        input: &[FUNCTION, NO_PLACE],
        number: 7,
        lines: &["bad snapshot: functions"],
    },
    // Exactly one module is checked, and its fault comes before that of the functions.
    Case {
        words: &["check"],
        input: &[TABLE_ALONE, "\"modules\":[],\"functions\":0}"],
        number: 7,
        lines: &["bad snapshot: modules"],
    },
    Case {
        words: &["check"],
        input: &[TABLE_ALONE, MACHO_MODULE],
        number: 7,
        lines: &["bad snapshot: modules"],
    },
    Case {
        words: &["check", "all"],
        input: &[],
        number: 2,
        lines: &[
            "usage: unwind_cli deliver | throw | walk | generate COUNT SEED | fold | core | check | audit",
        ],
    },
];

#[test]
fn claims_are_checked(rt: HostRuntime) -> Result<(), Fail> {
    run_cases(&rt, rt.alloc(), &CASES)
}
