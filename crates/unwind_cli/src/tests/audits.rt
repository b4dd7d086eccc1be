// Claims of what is known of a module's code, and where its tables don't say them. The frame table is that
// of a function that pushes RBX; by `readelf` its rows are RSP + 8 at 0x401000, and RSP + 16 with RBX at
// the CFA less 16 from 0x401001 to before 0x401010.
use super::*;

/// The frame table and the module, and what is to come are the claims.
const CODE: &str =
    "{\"regions\":[{\"address\":\"0x500000\",\"bytes\":\"1400000000000000017a5200017810011b0c070\
    890010000140000001c000000e00ff0ff1000000000410e108302000000000000\"}],\
    \"modules\":[{\"kind\":\"elf\",\"start\":\"0x401000\",\"end\":\"0x401010\",\
    \"eh_frame\":\"0x500000\"}],\"claims\":[";

/// The same by a header that isn't mapped.
const NO_TABLE: &str =
    "{\"regions\":[],\"modules\":[{\"kind\":\"elf\",\"start\":\"0x401000\",\"end\":\"0x401010\",\
    \"eh_frame_hdr\":\"0x500000\"}],\"claims\":[]}";

/// The first instruction, at which all registers are kept.
const ENTRY: &str =
    "{\"from\":\"0x401000\",\"to\":\"0x401001\",\"rsp\":\"0x8\",\"kept\":[\"rbx\",\"rbp\",\
    \"r12\",\"r13\",\"r14\",\"r15\"]}";

/// What is known after the push, from and to somewhere.
const PUSHED: &str =
    "\"rsp\":\"0x10\",\"saved\":{\"rbx\":\"0x10\"},\"kept\":[\"rbp\",\"r12\",\"r13\",\"r14\",\"r15\"]}";

const BODY: &str = "{\"from\":\"0x401001\",\"to\":\"0x401010\",";

const WHOLE: &str = "{\"from\":\"0x401000\",\"to\":\"0x401010\",";

const LONGER: &str = "{\"from\":\"0x401001\",\"to\":\"0x401011\",";

static CASES: [Case; 13] = [
    // The rows say both claims.
    Case {
        words: &["audit"],
        input: &[CODE, ENTRY, ",", BODY, PUSHED, "]}"],
        number: 0,
        lines: &["claims 2", "differ 0", "without a row 0"],
    },
    // Nothing is claimed.
    Case {
        words: &["audit"],
        input: &[CODE, "]}"],
        number: 0,
        lines: &["claims 0", "differ 0", "without a row 0"],
    },
    // The push isn't done at the first instruction.
    Case {
        words: &["audit"],
        input: &[CODE, WHOLE, PUSHED, "]}"],
        number: 0,
        lines: &[
            "differ 0x401000 claim 0 cfa r7+0x8; claimed cfa r7+0x10, rule 3 c-0x10, rule 6 same value, rule 12 same value, \
            rule 13 same value, rule 14 same value, rule 15 same value, rule 16 c-0x8",
            "claims 1",
            "differ 1",
            "without a row 0",
        ],
    },
    // RBX is column 3 and isn't kept after the push.
    Case {
        words: &["audit"],
        input: &[
            CODE,
            BODY,
            "\"rsp\":\"0x10\",\"kept\":[\"rbx\",\"rbp\",\"r12\",\"r13\",\"r14\",\"r15\"]}]}",
        ],
        number: 0,
        lines: &[
            "differ 0x401001 claim 0 rule 3 c-0x10; claimed cfa r7+0x10, rule 3 same value, rule 6 same value, rule 12 same value, \
            rule 13 same value, rule 14 same value, rule 15 same value, rule 16 c-0x8",
            "claims 1",
            "differ 1",
            "without a row 0",
        ],
    },
    // The function's description ends before the range does.
    Case {
        words: &["audit"],
        input: &[CODE, ENTRY, ",", LONGER, PUSHED, "]}"],
        number: 0,
        lines: &[
            "differ 0x401001 claim 1 no description; claimed cfa r7+0x10, rule 3 c-0x10, rule 6 same value, rule 12 same value, \
            rule 13 same value, rule 14 same value, rule 15 same value, rule 16 c-0x8",
            "claims 2",
            "differ 0",
            "without a row 1",
        ],
    },
    // The second claim begins before the first one ends.
    Case {
        words: &["audit"],
        input: &[CODE, WHOLE, PUSHED, ",", BODY, PUSHED, "]}"],
        number: 8,
        lines: &["refused: claim 1 overlaps"],
    },
    // The claims don't ascend.
    Case {
        words: &["audit"],
        input: &[CODE, BODY, PUSHED, ",", ENTRY, "]}"],
        number: 8,
        lines: &["refused: claim 1 out of order"],
    },
    // The range is empty.
    Case {
        words: &["audit"],
        input: &[
            CODE,
            "{\"from\":\"0x401001\",\"to\":\"0x401001\",",
            PUSHED,
            "]}",
        ],
        number: 8,
        lines: &["refused: claim 0 empty"],
    },
    Case {
        words: &["audit"],
        input: &[NO_TABLE],
        number: 8,
        lines: &["refused: no frame table"],
    },
    // The end of the second range is missing, and what is third is no object.
    Case {
        words: &["audit"],
        input: &[CODE, ENTRY, ",{\"from\":\"0x401001\",", PUSHED, ",0]}"],
        number: 7,
        lines: &["bad snapshot: claim 1"],
    },
    // The object has no claims, but functions.
    Case {
        words: &["audit"],
        input: &[
            "{\"regions\":[],\"modules\":[{\"kind\":\"elf\",\"start\":\"0x401000\",\
            \"end\":\"0x401010\",\"eh_frame\":\"0x500000\"}],\"functions\":[]}",
        ],
        number: 7,
        lines: &["bad snapshot: claims"],
    },
    // Exactly one module is audited, and its fault comes before that of the claims.
    Case {
        words: &["audit"],
        input: &["{\"regions\":[],\"modules\":[],\"claims\":0}"],
        number: 7,
        lines: &["bad snapshot: modules"],
    },
    // The text breaks off.
    Case {
        words: &["audit"],
        input: &[CODE, ENTRY],
        number: 6,
        lines: &["not json"],
    },
];

#[test]
fn claims_of_code_are_audited(rt: HostRuntime) -> Result<(), Fail> {
    run_cases(&rt, rt.alloc(), &CASES)
}
