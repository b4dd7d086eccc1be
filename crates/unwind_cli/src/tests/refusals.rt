// What is no command, no JSON text or no snapshot.
use super::*;

/// The function's module with a header and a frame table, and what is to come is the start.
const BOTH_MODULE: &str =
    "\"}],\"modules\":[{\"kind\":\"elf\",\"start\":\"0x401000\",\"end\":\"0x401010\",\
    \"eh_frame_hdr\":\"0x500000\",\"eh_frame\":\"0x500000\"}],\"start\":";

/// A base of the text that is no word.
const TEXT_MODULE: &str =
    "\"}],\"modules\":[{\"kind\":\"elf\",\"start\":\"0x401000\",\"end\":\"0x401010\",\
    \"eh_frame\":\"0x500000\",\"text_base\":\"0\"}],\"start\":";

const OTHER_MODULE: &str =
    "\"}],\"modules\":[{\"kind\":\"coff\",\"base\":\"0x401000\",\"size\":\"0x10\",\"unwind_info\":\"0x0\"}],\"start\":";

const USAGE: &str =
    "usage: unwind_cli deliver | throw | walk | generate COUNT SEED | fold | core | check | audit";

static CASES: [Case; 21] = [
    Case {
        words: &[],
        input: &[""],
        number: 2,
        lines: &[USAGE],
    },
    Case {
        words: &["walks"],
        input: &[""],
        number: 2,
        lines: &[USAGE],
    },
    Case {
        words: &["deliver", "walk"],
        input: &[""],
        number: 2,
        lines: &[USAGE],
    },
    Case {
        words: &["deliver"],
        input: &[""],
        number: 6,
        lines: &["not json"],
    },
    Case {
        words: &["walk"],
        input: &[""],
        number: 6,
        lines: &["not json"],
    },
    Case {
        words: &["deliver"],
        input: &["[]"],
        number: 7,
        lines: &["bad snapshot: object"],
    },
    Case {
        words: &["walk"],
        input: &["[]"],
        number: 7,
        lines: &["bad snapshot: object"],
    },
    Case {
        words: &["deliver"],
        input: &["{\"seen\":[1.5]}"],
        number: 7,
        lines: &["bad snapshot: object"],
    },
    Case {
        words: &["deliver"],
        input: &["{}"],
        number: 7,
        lines: &["bad snapshot: regions"],
    },
    Case {
        words: &["deliver"],
        input: &[TABLE, "0", MODULE, START, "\"limit\":2}"],
        number: 7,
        lines: &["bad snapshot: regions"],
    },
    Case {
        words: &["deliver"],
        input: &[TABLE, "", MODULE, START, "\"limit\":2}"],
        number: 7,
        lines: &["bad snapshot: regions"],
    },
    Case {
        words: &["deliver"],
        input: &[TABLE, STACK, BOTH_MODULE, START, "\"limit\":2}"],
        number: 7,
        lines: &["bad snapshot: modules"],
    },
    Case {
        words: &["deliver"],
        input: &[TABLE, STACK, TEXT_MODULE, START, "\"limit\":2}"],
        number: 7,
        lines: &["bad snapshot: modules"],
    },
    Case {
        words: &["deliver"],
        input: &[TABLE, STACK, OTHER_MODULE, START, "\"limit\":2}"],
        number: 7,
        lines: &["bad snapshot: modules"],
    },
    Case {
        words: &["deliver"],
        input: &[
            TABLE,
            STACK,
            MODULE,
            "{\"rip\":\"0x401006\"},",
            "\"limit\":2}",
        ],
        number: 7,
        lines: &["bad snapshot: start"],
    },
    Case {
        words: &["deliver"],
        input: &[
            TABLE,
            STACK,
            MODULE,
            START,
            "\"limit\":2,\"exception\":null}",
        ],
        number: 7,
        lines: &["bad snapshot: exception"],
    },
    Case {
        words: &["deliver"],
        input: &[TABLE, STACK, MODULE, START, "\"limit\":2,\"class\":\"8\"}"],
        number: 7,
        lines: &["bad snapshot: class"],
    },
    Case {
        words: &["deliver"],
        input: &[
            TABLE,
            STACK,
            MODULE,
            START,
            "\"limit\":2,\"resumes\":[[\"0x1\",\"0x2\",\"0x3\"]]}",
        ],
        number: 7,
        lines: &["bad snapshot: resumes"],
    },
    Case {
        words: &["deliver"],
        input: &[TABLE, STACK, MODULE, START, "\"limit\":0}"],
        number: 7,
        lines: &["bad snapshot: limit"],
    },
    Case {
        words: &["deliver"],
        input: &[TABLE, STACK, MODULE, START, "\"limit\":1048577}"],
        number: 7,
        lines: &["bad snapshot: limit"],
    },
    Case {
        words: &["deliver"],
        input: &[
            TABLE,
            STACK,
            MODULE,
            START,
            "\"limit\":2,\"interrupted\":1}",
        ],
        number: 7,
        lines: &["bad snapshot: interrupted"],
    },
];

#[test]
fn the_first_fault_is_told(rt: HostRuntime) -> Result<(), Fail> {
    run_cases(&rt, rt.alloc(), &CASES)
}
