// Folded stacks of samples.
use super::deliveries::{
    LANGUAGE, MODULE as CHAIN_MODULE, STACK as CHAIN_STACK, TABLE as CHAIN_TABLE,
};
use super::*;

/// Samples of the function that pushes RBX.
const MODULE_OF_SAMPLES: &str =
    "\"}],\"modules\":[{\"kind\":\"elf\",\"start\":\"0x401000\",\"end\":\"0x401010\",\
    \"eh_frame\":\"0x500000\"}],\"samples\":[";

/// After its push, stopped after a call.
const SAMPLE: &str = "{\"start\":{\"rip\":\"0x401006\",\"rsp\":\"0x7000\",\"rbx\":\"0x9\"}}";

/// The same in another thread of no frame.
const ENDED: &str = ",{\"start\":{\"rip\":\"0x0\",\"rsp\":\"0x7000\"}}";

/// Before its push, at which the word at the stack pointer is the return address.
const AT_PUSH: &str = ",{\"start\":{\"rip\":\"0x401000\",\"rsp\":\"0x7008\"},\"interrupted\":true}";

/// Without a stack pointer.
const NO_STACK: &str = ",{\"start\":{\"rip\":\"0x401000\"}}";

/// Samples of the chain through three functions, by the first of them.
const CHAIN_SAMPLES: &str =
    ",\"samples\":[{\"start\":{\"rip\":\"0x401010\",\"rsp\":\"0x70b0\",\"rbx\":\"0x7\",\
    \"rbp\":\"0x70c0\",\"r14\":\"0x2e\"}},{\"start\":{\"rip\":\"0x401010\",\"rsp\":\"0x70b0\",\
    \"rbx\":\"0x7\",\"rbp\":\"0x9000\",\"r14\":\"0x2e\"}}]}";

static CASES: [Case; 8] = [
    // Two samples with one stack, and one at the end of its stack.
    Case {
        words: &["fold"],
        input: &[
            TABLE,
            STACK,
            MODULE_OF_SAMPLES,
            SAMPLE,
            ",",
            SAMPLE,
            ENDED,
            "],\"limit\":4}",
        ],
        number: 0,
        lines: &["[end] 1", "0x401006 2", "refused 0"],
    },
    // The second one's frame pointer leads out of the memory.
    Case {
        words: &["fold"],
        input: &[
            CHAIN_TABLE,
            LANGUAGE,
            CHAIN_STACK,
            CHAIN_MODULE,
            "{}",
            CHAIN_SAMPLES,
        ],
        number: 0,
        lines: &["0x401060;0x401030;0x401010 1", "refused 1"],
    },
    Case {
        words: &["fold"],
        input: &["{\"regions\":[],\"modules\":[],\"samples\":[],\"limit\":1}"],
        number: 0,
        lines: &["refused 0"],
    },
    // A limit that is too low for one of them.
    Case {
        words: &["fold"],
        input: &[
            TABLE,
            STACK,
            MODULE_OF_SAMPLES,
            SAMPLE,
            ENDED,
            AT_PUSH,
            "],\"limit\":1}",
        ],
        number: 0,
        lines: &["[end] 1", "refused 2"],
    },
    Case {
        words: &["fold"],
        input: &[
            TABLE,
            STACK,
            MODULE_OF_SAMPLES,
            SAMPLE,
            AT_PUSH,
            "],\"limit\":2}",
        ],
        number: 0,
        lines: &["0x401000 1", "0x401006 1", "refused 0"],
    },
    Case {
        words: &["fold"],
        input: &[
            TABLE,
            STACK,
            MODULE_OF_SAMPLES,
            SAMPLE,
            NO_STACK,
            "],\"limit\":0}",
        ],
        number: 7,
        lines: &["bad snapshot: samples"],
    },
    Case {
        words: &["fold"],
        input: &["{\"regions\":[],\"modules\":[],\"samples\":[],\"limit\":1025}"],
        number: 7,
        lines: &["bad snapshot: limit"],
    },
    Case {
        words: &["fold"],
        input: &["{\"regions\":[],\"modules\":[]}"],
        number: 7,
        lines: &["bad snapshot: samples"],
    },
];

#[test]
fn samples_are_folded(rt: HostRuntime) -> Result<(), Fail> {
    run_cases(&rt, rt.alloc(), &CASES)
}

/// So many samples of no frame, in memory without regions.
fn ended_samples(alloc: Global, count: usize) -> Result<String, AllocError> {
    let mut text = String::from_str(alloc, "{\"regions\":[],\"modules\":[],\"samples\":[")?;
    for i in 0..count {
        if i > 0 {
            text.push_str(",")?;
        }
        text.push_str("{\"start\":{\"rip\":\"0x0\",\"rsp\":\"0x0\"}}")?;
    }
    text.push_str("],\"limit\":1024}")?;
    Ok(text)
}

#[test]
fn more_samples_than_are_held_are_a_fault(rt: HostRuntime) -> Result<(), Fail> {
    let alloc = rt.alloc();
    let cases = [
        (65_536, 0, "[end] 65536\nrefused 0\n"),
        (65_537, 7, "bad snapshot: samples\n"),
    ];
    for (count, number, text) in cases {
        let input = ended_samples(alloc, count)?;
        let (status, written) = run_over(alloc, &["fold"], input.as_str(), &[], &[])?;
        assert_eq!(rt; status, number);
        assert_eq!(rt; written.as_slice(), text.as_bytes());
    }
    Ok(())
}
