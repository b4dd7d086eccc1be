// Whole runs of `throw`: over a small C++ program (examples/guarded_handler.cpp) whose handlers stand
// behind a cleanup in one chain of action records, and over members that are missing or faulty. What is
// expected of the program is worked out by hand from its tables, as `readelf -wf` and `objdump` print
// them: the landing pad compares RDX with 1 for `Other`, whose description lies at 0x403fe0, and with 2
// for `Thrown`, whose lies at 0x403ff0. The states are those that gdb showed.
use super::*;

/// Its frame table, and what is to come are the bytes of its language tables.
const TABLES: &str =
    "{\"regions\":[{\"address\":\"0x402010\",\"bytes\":\"1400000000000000017a5200017810011b0c0708\
    90010000100000001c000000d0efffff01000000000000001000000030000000ccefffff02000000000000001000\
    000044000000c8efffff04000000000000001000000058000000c4efffff0f00000000440e10100000006c000000\
    c0efffff04000000000000001000000080000000bcefffff01000000000000001000000094000000b8efffff0300\
    00000000000018000000a8000000b4efffff0f00000000410e1083024d0e080000001c00000000000000017a504c\
    5200017810079b2d1f00001b1b0c0708900100002c0000002400000088efffff370000000473000000410e108602\
    440e188303440e20540a0e18450e10410e08410b00003c0000005400000098efffff5d000000044f000000420e10\
    8d02420e188c03410e208604410e288305470e30550a0e28440e20410e18420e10420e08410b0000100000005401\
    0000b8efffff1f00000000440e10\"},{\"address\":\"0x402174\",\"bytes\":\"";

/// The language table of `cleans`, which has a cleanup for its call, and that of `catches`, whose call leads
/// to the third of three action records: a cleanup, then the first type, and then the second.
const LANGUAGE: &str =
    "ffff01080905240032050000ff9b1901080d052c054c0500000200017d007d00741e0000681e0000";

/// The same where the call site of `catches` ends before its call: no exception may leave that.
const UNLISTED: &str =
    "ffff01080905240032050000ff9b1901080d022c054c0500000200017d007d00741e0000681e0000";

/// The same where the second action record is a specification's, whose list stands after the types and
/// has the first one.
const LISTED: &str =
    "ffff01080905240032050000ff9b1901080d052c054c05000002007f7d007d00741e0000681e00000100";

/// The cells of the types and of the personality, the stack, the module, and what is done; what is to come are
/// the types and the personalities.
const REST: &str =
    "\"},{\"address\":\"0x404000\",\"bytes\":\"e03f400000000000f03f4000000000006010400000000000\"\
    },{\"address\":\"0x7fffffffed68\",\"bytes\":\"09000000000000008e1040000000000000000000000000\
    0009000000000000000000000000000000d210400000000000000000000000000000000000000000000000000000\
    000000000000000000000000000000000000002e1140000000000000000000000000000100000000000000\"}],\
    \"modules\":[{\"kind\":\"elf\",\"start\":\"0x401000\",\"end\":\"0x40113f\",\"eh_frame\":\"0x\
    402010\"}],\"start\":{\"rip\":\"0x401079\",\"rsp\":\"0x7fffffffed68\",\"rbx\":\"0x9\",\"rbp\
    \":\"0x9\"},\"exception\":\"0x900000\",\"resumes\":[[\"0x4010a4\",\"0x4010b7\"]],\"limit\":5";

const RAISES: &str =
    "frame 0 ra=0x401079 sp=0x7fffffffed68 rbx=0x9 rbp=0x9 r12=0x0 r13=0x0 r14=0x0 r15=0x0";

const CLEANS: &str =
    "frame 1 ra=0x40108e sp=0x7fffffffed78 rbx=0x9 rbp=0x9 r12=0x0 r13=0x0 r14=0x0 r15=0x0";

const CATCHES: &str =
    "frame 2 ra=0x4010d2 sp=0x7fffffffed98 rbx=0x9 rbp=0x0 r12=0x0 r13=0x0 r14=0x0 r15=0x0";

const START_FRAME: &str =
    "frame 3 ra=0x40112e sp=0x7fffffffedc8 rbx=0x0 rbp=0x0 r12=0x0 r13=0x0 r14=0x0 r15=0x0";

const OUTSIDE: &str =
    "frame 4 ra=0x1 sp=0x7fffffffedd8 rbx=0x0 rbp=0x0 r12=0x0 r13=0x0 r14=0x0 r15=0x0";

const CLEANUP: &str = "cleanup pad=0x4010a4 sp=0x7fffffffed78";

/// The second action record takes it, whose number in RDX is its type's.
const CAUGHT_BY_SECOND: &[&str] = &[
    RAISES,
    CLEANS,
    CATCHES,
    CLEANUP,
    "landing ra=0x4010ec sp=0x7fffffffed98 rbx=0x9 rbp=0x0 r12=0x0 r13=0x0 r14=0x0 r15=0x0 rax=0x900000 rdx=0x1",
    "outcome installed",
];

/// The third does.
const CAUGHT_BY_THIRD: &[&str] = &[
    RAISES,
    CLEANS,
    CATCHES,
    CLEANUP,
    "landing ra=0x4010ec sp=0x7fffffffed98 rbx=0x9 rbp=0x0 r12=0x0 r13=0x0 r14=0x0 r15=0x0 rax=0x900000 rdx=0x2",
    "outcome installed",
];

/// The second does as a specification's, whose number is negative.
const CAUGHT_BY_LIST: &[&str] = &[
    RAISES,
    CLEANS,
    CATCHES,
    CLEANUP,
    "landing ra=0x4010ec sp=0x7fffffffed98 rbx=0x9 rbp=0x0 r12=0x0 r13=0x0 r14=0x0 r15=0x0 rax=0x900000 rdx=0xffffffffffffffff",
    "outcome installed",
];

/// Nothing takes it.
const PASSED: &[&str] = &[
    RAISES,
    CLEANS,
    CATCHES,
    START_FRAME,
    OUTSIDE,
    "outcome end of stack",
];

/// The program ends, after the cleanup inside.
const ENDED_LATER: &[&str] = &[RAISES, CLEANS, CATCHES, CLEANUP, "outcome fatal phase 2"];

/// It ends in the search.
const ENDED_AT_ONCE: &[&str] = &[RAISES, CLEANS, CATCHES, "outcome fatal phase 1"];

/// A foreign exception: no handler of a type takes it.
const FOREIGN: &str = ",\"foreign\":true,\"types\":[],\"personalities\":[\"0x401060\"]";

const OF_THROWN: &str = ",\"types\":[\"0x403ff0\"],\"personalities\":[\"0x401060\"]";

/// A run of `throw`: the language tables, the members of the exception, and the last of them, and the
/// number and the lines that are due.
struct Throw {
    tables: &'static str,
    exception: &'static str,
    ending: &'static str,
    number: u8,
    lines: &'static [&'static str],
}

static THROWS: [Throw; 18] = [
    // The third record takes it.
    Throw {
        tables: LANGUAGE,
        exception: OF_THROWN,
        ending: "}",
        number: 0,
        lines: CAUGHT_BY_THIRD,
    },
    // So does the second, which comes first, where its type is among those of a derived class.
    Throw {
        tables: LANGUAGE,
        exception: ",\"types\":[\"0x1\",\"0x403fe0\",\"0x403ff0\"]",
        ending: ",\"personalities\":[\"0x401060\"]}",
        number: 0,
        lines: CAUGHT_BY_SECOND,
    },
    // None takes another type, and a cell of a type is not the type.
    Throw {
        tables: LANGUAGE,
        exception: ",\"types\":[\"0x404000\"]",
        ending: ",\"personalities\":[\"0x401060\"]}",
        number: 0,
        lines: PASSED,
    },
    // The personality's cell is not the routine: by the rule of Rust the first record is a cleanup.
    Throw {
        tables: LANGUAGE,
        exception: ",\"types\":[\"0x403ff0\"]",
        ending: ",\"personalities\":[\"0x404010\"]}",
        number: 0,
        lines: PASSED,
    },
    // The program ends, after the cleanup inside.
    Throw {
        tables: UNLISTED,
        exception: OF_THROWN,
        ending: "}",
        number: 0,
        lines: ENDED_LATER,
    },
    // So it does where the snapshot says which runtime it is.
    Throw {
        tables: UNLISTED,
        exception: OF_THROWN,
        ending: ",\"runtime\":\"libstdc++\"}",
        number: 0,
        lines: ENDED_LATER,
    },
    // libc++abi ends it in the search.
    Throw {
        tables: UNLISTED,
        exception: OF_THROWN,
        ending: ",\"runtime\":\"libc++abi\"}",
        number: 0,
        lines: ENDED_AT_ONCE,
    },
    // A native exception is handled by both runtimes alike.
    Throw {
        tables: LANGUAGE,
        exception: OF_THROWN,
        ending: ",\"runtime\":\"libc++abi\"}",
        number: 0,
        lines: CAUGHT_BY_THIRD,
    },
    // By libstdc++ a foreign exception passes a specification that lists a type.
    Throw {
        tables: LISTED,
        exception: FOREIGN,
        ending: ",\"runtime\":\"libstdc++\"}",
        number: 0,
        lines: PASSED,
    },
    // By libc++abi its landing pad is entered.
    Throw {
        tables: LISTED,
        exception: FOREIGN,
        ending: ",\"runtime\":\"libc++abi\"}",
        number: 0,
        lines: CAUGHT_BY_LIST,
    },
    Throw {
        tables: LANGUAGE,
        exception: "",
        ending: ",\"personalities\":[\"0x401060\"]}",
        number: 7,
        lines: &["bad snapshot: types"],
    },
    Throw {
        tables: LANGUAGE,
        exception: ",\"types\":[4210688]",
        ending: ",\"personalities\":[\"0x401060\"]}",
        number: 7,
        lines: &["bad snapshot: types"],
    },
    Throw {
        tables: LANGUAGE,
        exception: ",\"types\":[]",
        ending: "}",
        number: 7,
        lines: &["bad snapshot: personalities"],
    },
    Throw {
        tables: LANGUAGE,
        exception: ",\"types\":[]",
        ending: ",\"personalities\":\"0x401060\"}",
        number: 7,
        lines: &["bad snapshot: personalities"],
    },
    Throw {
        tables: LANGUAGE,
        exception: ",\"foreign\":null,\"types\":[]",
        ending: ",\"personalities\":[\"0x401060\"]}",
        number: 7,
        lines: &["bad snapshot: foreign"],
    },
    Throw {
        tables: LANGUAGE,
        exception: OF_THROWN,
        ending: ",\"runtime\":\"libc++\"}",
        number: 7,
        lines: &["bad snapshot: runtime"],
    },
    Throw {
        tables: LANGUAGE,
        exception: OF_THROWN,
        ending: ",\"runtime\":null}",
        number: 7,
        lines: &["bad snapshot: runtime"],
    },
    Throw {
        tables: LANGUAGE,
        exception: OF_THROWN,
        ending: ",\"foreign\":0,\"runtime\":true}",
        number: 7,
        lines: &["bad snapshot: foreign"],
    },
];

static CASES: [Case; 2] = [
    Case {
        words: &["throw"],
        input: &["{}"],
        number: 7,
        lines: &["bad snapshot: regions"],
    },
    Case {
        words: &["throw"],
        input: &[""],
        number: 6,
        lines: &["not json"],
    },
];

#[test]
fn throws_end_where_their_types_are_handled(rt: HostRuntime) -> Result<(), Fail> {
    for throw in &THROWS {
        let input = [TABLES, throw.tables, REST, throw.exception, throw.ending];
        run_case(
            &rt,
            rt.alloc(),
            &["throw"],
            &input,
            throw.number,
            throw.lines,
        )?;
    }
    run_cases(&rt, rt.alloc(), &CASES)
}
