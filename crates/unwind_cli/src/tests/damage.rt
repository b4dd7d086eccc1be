// Tables that are damaged or aren't there, stacks and resume tables that loop, and ends of which each
// call fails in turn.
use super::{deliveries as calls, *};

/// The frame of the function 0x401000 to 0x401010 has no bytes: its return address is below the stack
/// pointer, which stays. And the start of a stack at 0x7000.
const LOOPING_TABLE: &str =
    "{\"regions\":[{\"address\":\"0x500000\",\"bytes\":\"1400000000000000017a5200017810011b0c070\
    090010000140000001c000000e00ff0ff10000000000000000000000000000000\"},\
    {\"address\":\"0x7000\",\"bytes\":\"";

/// The return address after the function's call, and the address after it.
const LOOPING_STACK: &str = "0610400000000000";

const LOOPING_START: &str = "{\"rip\":\"0x401006\",\"rsp\":\"0x7008\"},";

/// The frame table of the module isn't mapped.
const LOST_MODULE: &str =
    "\"}],\"modules\":[{\"kind\":\"elf\",\"start\":\"0x401000\",\"end\":\"0x401010\",\
    \"eh_frame\":\"0x900000\"}],\"start\":";

const FIRST: &str = "frame 0 ra=0x401006 sp=0x7000 rbx=0x9 rbp=0x0 r12=0x0 r13=0x0 r14=0x0 r15=0x0";

/// The language tables without the cell that holds the personality's address.
const WITHOUT_CELL: &str =
    "\"},{\"address\":\"0x502000\",\"bytes\":\"ffff01080810200020100000ff9b0c0104081020010100000\
    00000\"},{\"address\":\"0x70";

/// The cell without the language tables.
const WITHOUT_TABLES: &str =
    "\"},{\"address\":\"0x503000\",\"bytes\":\"0040400000000000\"},{\"address\":\"0x70";

/// After its cleanup the frame goes on at the call whose cleanup it is.
const AROUND: &str = ",\"resumes\":[[\"0x401040\",\"0x401030\"]]}";

static CASES: [Case; 6] = [
    Case {
        words: &["deliver"],
        input: &[
            LOOPING_TABLE,
            LOOPING_STACK,
            MODULE,
            LOOPING_START,
            "\"limit\":3}",
        ],
        number: 8,
        lines: &["refused: frame limit"],
    },
    Case {
        words: &["walk"],
        input: &[
            LOOPING_TABLE,
            LOOPING_STACK,
            MODULE,
            LOOPING_START,
            "\"limit\":3}",
        ],
        number: 8,
        lines: &["refused: frame limit"],
    },
    Case {
        words: &["deliver"],
        input: &[
            calls::TABLE,
            calls::LANGUAGE,
            calls::STACK,
            calls::MODULE,
            calls::START,
            AROUND,
        ],
        number: 8,
        lines: &["refused: pass limit"],
    },
    Case {
        words: &["deliver"],
        input: &[
            calls::TABLE,
            WITHOUT_CELL,
            calls::STACK,
            calls::MODULE,
            calls::START,
            calls::RESUMES,
        ],
        number: 8,
        lines: &["refused: unmapped 0x503000"],
    },
    Case {
        words: &["deliver"],
        input: &[
            calls::TABLE,
            WITHOUT_TABLES,
            calls::STACK,
            calls::MODULE,
            calls::START,
            calls::RESUMES,
        ],
        number: 0,
        lines: &[calls::FIRST, calls::SECOND, "outcome fatal phase 1"],
    },
    Case {
        words: &["deliver"],
        input: &[TABLE, STACK, LOST_MODULE, START, "\"limit\":2}"],
        number: 0,
        lines: &[FIRST, "outcome end of stack"],
    },
];

#[test]
fn damage_is_answered_by_name(rt: HostRuntime) -> Result<(), Fail> {
    run_cases(&rt, rt.alloc(), &CASES)
}

#[test]
fn each_failing_read_is_told(rt: HostRuntime) -> Result<(), Fail> {
    let alloc = rt.alloc();
    let input = joined(alloc, &[TABLE, STACK, MODULE, START, "\"limit\":2}"], "")?;
    // The last one finds the end.
    let calls = input.len().div_ceil(PIECE) as u64 + 1;
    for call in 0..calls {
        let (number, written) = run_over(alloc, &["deliver"], input.as_str(), &[call], &[])?;
        assert_eq!(rt; (number, written.len()), (3, 0));
    }
    let (number, _) = run_over(alloc, &["deliver"], input.as_str(), &[calls], &[])?;
    assert_eq!(rt; number, 0);
    Ok(())
}

#[test]
fn each_failing_write_is_told(rt: HostRuntime) -> Result<(), Fail> {
    let alloc = rt.alloc();
    let pieces = [
        calls::TABLE,
        calls::LANGUAGE,
        calls::STACK,
        calls::MODULE,
        calls::START,
        calls::RESUMES,
    ];
    let lines = [
        calls::FIRST,
        calls::SECOND,
        calls::THIRD,
        calls::CLEANUP,
        calls::LANDING,
        calls::INSTALLED,
    ];
    let input = joined(alloc, &pieces, "")?;
    let text = joined(alloc, &lines, "\n")?;
    let mut fails = false;
    let mut ends = false;
    for call in 0..100 {
        let (number, written) = run_over(alloc, &["deliver"], input.as_str(), &[], &[call])?;
        assert!(rt; text.as_bytes().starts_with(written.as_slice()));
        if number == 0 {
            assert_eq!(rt; written.len(), text.len());
            ends = true;
        } else {
            assert_eq!(rt; number, 4);
            fails = true;
        }
    }
    assert!(rt; fails && ends);
    Ok(())
}

/// The frame table of the first region.
const ENTRIES: &str =
    "1400000000000000017a5200017810011b0c070890010000140000001c000000e00ff0ff1000000000410e108302000000000000";

const AT_TABLE: &str = "{\"regions\":[{\"address\":\"0x500000\",\"bytes\":\"";

const AT_STACK: &str = "\"},{\"address\":\"0x7000\",\"bytes\":\"";

#[test]
fn each_cut_table_is_answered(rt: HostRuntime) -> Result<(), Fail> {
    let alloc = rt.alloc();
    for bytes in 0..=ENTRIES.len() / 2 {
        let cut = ENTRIES.get(..2 * bytes).unwrap_or("");
        let pieces = [
            AT_TABLE,
            cut,
            AT_STACK,
            STACK,
            MODULE,
            START,
            "\"limit\":2}",
        ];
        let input = joined(alloc, &pieces, "")?;
        let (number, written) = run_over(alloc, &["deliver"], input.as_str(), &[], &[])?;
        if bytes == 0 {
            assert_eq!(rt; number, 7);
            assert_eq!(rt; written.as_slice(), b"bad snapshot: regions\n".as_slice());
        } else {
            assert!(rt; number == 0 || number == 8);
        }
    }
    Ok(())
}
