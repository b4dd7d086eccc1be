// Language tables of C++ functions as `g++` 12.2 wrote them for `examples/thrown.cpp`, and what the
// personality of its runtime answered in each frame that it was asked of.
use crate::asserting::expect_equal;
use crate::languages::bytes_of;
use eh_frame::{Bases, Error};
use memory_image::MemoryImage;
use std::alloc::Global;
use std::process::Abort;
use std::test::Fail;
use unwinding_core::CxxAction::{Cleanup, Handler, Terminate};
use unwinding_core::{
    CxxAction, CxxError, CxxRuntime, Exception, ExceptionKind, Place, find_cxx_action_at,
};

// What is thrown. `Derived` has the base `Base`.
#[derive(Clone, Copy)]
enum Thrown {
    Derived,
    Base,
    Other,
    Int,
}

use Thrown::{Base, Derived, Int, Other};

const NONE: CxxAction = CxxAction::None;

// A call: the start of its function, whose language table it is, where it returns, and what was done
// there for what is thrown.
struct CallSite {
    start: u64,
    lsda: u64,
    return_address: u64,
    answers: &'static [(Thrown, CxxAction)],
}

// The tables of `-O2 -fno-pie -no-pie`, from 0x4026b0 on: types by four bytes of their addresses.
const ABSOLUTE: &str =
    "ffff010404051300ffff010405050000ff030d01040405100101000090214000ff030d01041a050000010000902\
    14000ff03110104040515030000017d00000050214000ff031101041f0500000000017d00000050214000ff0319\
    0104040510050300027d017d00902140005021400070214000ff03190104142300000300027d017d00902140005\
    021400070214000ff030d01040405100101000000000000ff030d01040505000001000000000000ff0315010404\
    0515050100007d027d009021400050214000ff031501043e0500000100007d027d009021400050214000ff03110\
    10404050e017f0000502140009021400001020000ff03110104060a00007f0000502140009021400001020000ff\
    0309010404050e017f000000000000ff03090104060a00007f000000ffff0100000000ff0315010b4c3a0000960\
    181019902010100000000000000ff0315010c0a0519000f0500002405000001000000000000";

// The tables of `-O1 -fpie -no-pie`, from 0x4024cc on: types by the distance to a cell that holds
// their address. The cells stand in the section from 0x4040b0 on.
const INDIRECT: &str =
    "ffff0108040515001f050000ff9b110108040513011c050000010000e01b0000ff9b15010804051a032a0500000\
    000017d000000c01b0000ff9b1d0108040513052a0f00000300027d017d00b01b0000a41b0000b01b0000ff9b11\
    0108040513011b05000001000000000000ff9b19010804051a055c0500000100007d027d007c1b0000701b0000f\
    f9b15010804050b01140a00007f00005c1b0000601b000001020000ff9b0d010804050b01140a00007f000000ff\
    ff0100000000ff9b25011b62450000c4019401f402018303058f030088030500009a03050000010000000000000\
    0";

const CELLS: &str =
    "00000000000000000000000000000000b03d400000000000d83d400000000000c03d400000000000c412400000000000";

const ABSOLUTE_SITES: &[CallSite] = &[
    CallSite {
        start: 0x40_1230,
        lsda: 0x40_26b8,
        return_address: 0x40_123a,
        answers: &[(Derived, NONE)],
    },
    CallSite {
        start: 0x40_1259,
        lsda: 0x40_26f4,
        return_address: 0x40_127d,
        answers: &[(Int, NONE)],
    },
    CallSite {
        start: 0x40_12e6,
        lsda: 0x40_2778,
        return_address: 0x40_1329,
        answers: &[(Int, NONE)],
    },
    CallSite {
        start: 0x40_1329,
        lsda: 0x40_27a8,
        return_address: 0x40_1334,
        answers: &[(Int, NONE)],
    },
    CallSite {
        start: 0x40_1380,
        lsda: 0x40_27e4,
        return_address: 0x40_141b,
        answers: &[(Derived, Handler(0x40_1499, 1))],
    },
    CallSite {
        start: 0x40_16d0,
        lsda: 0x40_26b0,
        return_address: 0x40_16d9,
        answers: &[
            (Derived, Cleanup(0x40_16e3)),
            (Base, Cleanup(0x40_16e3)),
            (Other, Cleanup(0x40_16e3)),
            (Int, Cleanup(0x40_16e3)),
        ],
    },
    CallSite {
        start: 0x40_16f0,
        lsda: 0x40_26c0,
        return_address: 0x40_16f9,
        answers: &[(Derived, NONE), (Other, Handler(0x40_1700, 1))],
    },
    CallSite {
        start: 0x40_1710,
        lsda: 0x40_26e0,
        return_address: 0x40_1719,
        answers: &[
            (Derived, Handler(0x40_1725, 1)),
            (Base, Handler(0x40_1725, 1)),
            (Int, Cleanup(0x40_1725)),
        ],
    },
    CallSite {
        start: 0x40_1730,
        lsda: 0x40_2708,
        return_address: 0x40_1739,
        answers: &[
            (Derived, Handler(0x40_1740, 1)),
            (Base, Handler(0x40_1740, 2)),
            (Other, Handler(0x40_1740, 3)),
            (Int, NONE),
        ],
    },
    CallSite {
        start: 0x40_1750,
        lsda: 0x40_2740,
        return_address: 0x40_1759,
        answers: &[(Int, Handler(0x40_1760, 1))],
    },
    CallSite {
        start: 0x40_1770,
        lsda: 0x40_2760,
        return_address: 0x40_1779,
        answers: &[
            (Derived, Handler(0x40_1785, 1)),
            (Base, Handler(0x40_1785, 1)),
            (Other, Handler(0x40_1785, 2)),
            (Int, Cleanup(0x40_1785)),
        ],
    },
    CallSite {
        start: 0x40_1790,
        lsda: 0x40_2790,
        return_address: 0x40_1799,
        answers: &[(Derived, NONE), (Int, Handler(0x40_179e, u64::MAX))],
    },
    CallSite {
        start: 0x40_17b0,
        lsda: 0x40_27c0,
        return_address: 0x40_17b9,
        answers: &[
            (Derived, Handler(0x40_17be, u64::MAX)),
            (Base, Handler(0x40_17be, u64::MAX)),
            (Other, Handler(0x40_17be, u64::MAX)),
            (Int, Handler(0x40_17be, u64::MAX)),
        ],
    },
    CallSite {
        start: 0x40_17d0,
        lsda: 0x40_27dd,
        return_address: 0x40_17d9,
        answers: &[
            (Derived, Terminate),
            (Base, Terminate),
            (Other, Terminate),
            (Int, Terminate),
        ],
    },
];

const INDIRECT_SITES: &[CallSite] = &[
    CallSite {
        start: 0x40_145b,
        lsda: 0x40_24cc,
        return_address: 0x40_1464,
        answers: &[
            (Derived, Cleanup(0x40_1470)),
            (Base, Cleanup(0x40_1470)),
            (Other, Cleanup(0x40_1470)),
            (Int, Cleanup(0x40_1470)),
        ],
    },
    CallSite {
        start: 0x40_145b,
        lsda: 0x40_24cc,
        return_address: 0x40_147f,
        answers: &[(Derived, NONE), (Base, NONE), (Other, NONE), (Int, NONE)],
    },
    CallSite {
        start: 0x40_147f,
        lsda: 0x40_24d8,
        return_address: 0x40_1488,
        answers: &[
            (Derived, NONE),
            (Base, NONE),
            (Other, Handler(0x40_1492, 1)),
            (Int, NONE),
        ],
    },
    CallSite {
        start: 0x40_14b1,
        lsda: 0x40_24ec,
        return_address: 0x40_14ba,
        answers: &[
            (Derived, Handler(0x40_14cb, 1)),
            (Base, Handler(0x40_14cb, 1)),
            (Int, Cleanup(0x40_14cb)),
        ],
    },
    CallSite {
        start: 0x40_14b1,
        lsda: 0x40_24ec,
        return_address: 0x40_14e0,
        answers: &[(Int, NONE)],
    },
    CallSite {
        start: 0x40_14f1,
        lsda: 0x40_2504,
        return_address: 0x40_14fa,
        answers: &[
            (Derived, Handler(0x40_1504, 1)),
            (Base, Handler(0x40_1504, 2)),
            (Other, Handler(0x40_1504, 3)),
            (Int, NONE),
        ],
    },
    CallSite {
        start: 0x40_1553,
        lsda: 0x40_2524,
        return_address: 0x40_155c,
        answers: &[(Int, Handler(0x40_1566, 1))],
    },
    CallSite {
        start: 0x40_157a,
        lsda: 0x40_2538,
        return_address: 0x40_1583,
        answers: &[
            (Derived, Handler(0x40_1594, 1)),
            (Base, Handler(0x40_1594, 1)),
            (Other, Handler(0x40_1594, 2)),
            (Int, Cleanup(0x40_1594)),
        ],
    },
    CallSite {
        start: 0x40_157a,
        lsda: 0x40_2538,
        return_address: 0x40_15db,
        answers: &[(Int, NONE)],
    },
    CallSite {
        start: 0x40_15db,
        lsda: 0x40_2554,
        return_address: 0x40_15e4,
        answers: &[
            (Derived, NONE),
            (Base, NONE),
            (Other, NONE),
            (Int, Handler(0x40_15e6, u64::MAX)),
        ],
    },
    CallSite {
        start: 0x40_15db,
        lsda: 0x40_2554,
        return_address: 0x40_15f9,
        answers: &[(Int, NONE)],
    },
    CallSite {
        start: 0x40_15fe,
        lsda: 0x40_2570,
        return_address: 0x40_1607,
        answers: &[
            (Derived, Handler(0x40_1609, u64::MAX)),
            (Base, Handler(0x40_1609, u64::MAX)),
            (Other, Handler(0x40_1609, u64::MAX)),
            (Int, Handler(0x40_1609, u64::MAX)),
        ],
    },
    CallSite {
        start: 0x40_1621,
        lsda: 0x40_2581,
        return_address: 0x40_162a,
        answers: &[
            (Derived, Terminate),
            (Base, Terminate),
            (Other, Terminate),
            (Int, Terminate),
        ],
    },
    CallSite {
        start: 0x40_1636,
        lsda: 0x40_2588,
        return_address: 0x40_16ff,
        answers: &[(Derived, Handler(0x40_17aa, 1))],
    },
];

// The addresses of the type descriptions.
struct TypeAddresses {
    base: u64,
    derived: u64,
    other: u64,
    int: u64,
}

const ABSOLUTE_TYPES: TypeAddresses = TypeAddresses {
    base: 0x40_2150,
    derived: 0x40_2170,
    other: 0x40_2190,
    int: 0x40_3d00,
};

const INDIRECT_TYPES: TypeAddresses = TypeAddresses {
    base: 0x40_3db0,
    derived: 0x40_3dc0,
    other: 0x40_3dd8,
    int: 0x40_3da0,
};

// The types by which what is thrown is caught.
fn caught_by(thrown: Thrown, types: &TypeAddresses) -> [u64; 2] {
    match thrown {
        Derived => [types.derived, types.base],
        Base => [types.base, types.base],
        Other => [types.other, types.other],
        Int => [types.int, types.int],
    }
}

const RUNTIMES: [CxxRuntime; 2] = [CxxRuntime::Libstdcxx, CxxRuntime::Libcxxabi];

// Compares what is asked of a frame that is stopped in a call with what was done there. Of exceptions
// that are native both runtimes ask the same.
fn expect_answers(
    rt: &impl Abort,
    image: &MemoryImage<'_>,
    site: &CallSite,
    types: &TypeAddresses,
) {
    let place = Place {
        start: site.start,
        lsda: site.lsda,
        bases: Bases::default(),
    };
    let address = site.return_address.wrapping_sub(1);
    for (thrown, answer) in site.answers {
        for runtime in RUNTIMES {
            let exception = Exception {
                types: &caught_by(*thrown, types),
                kind: ExceptionKind::Native,
                runtime,
            };
            let action = find_cxx_action_at(image, &place, exception, address);
            expect_equal(rt, action, Ok(*answer));
        }
    }
}

#[test]
fn handlers_are_those_that_the_runtime_chose(rt: HostRuntime) -> Result<(), Fail> {
    let tables = bytes_of(rt.alloc(), ABSOLUTE)?;
    let mut image = MemoryImage::new(rt.alloc());
    let _ = image.add(0x40_26b0, &tables);
    for site in ABSOLUTE_SITES {
        expect_answers(&rt, &image, site, &ABSOLUTE_TYPES);
    }
    let tables = bytes_of(rt.alloc(), INDIRECT)?;
    let cells = bytes_of(rt.alloc(), CELLS)?;
    let mut image = MemoryImage::new(rt.alloc());
    let _ = image.add(0x40_24cc, &tables);
    let _ = image.add(0x40_40b0, &cells);
    for site in INDIRECT_SITES {
        expect_answers(&rt, &image, site, &INDIRECT_TYPES);
    }
    Ok(())
}

// What the language table at 0x1000 of a function at 0x100 asks at 0x120 of an exception that has no
// types.
fn asked_by(
    alloc: Global,
    table: &str,
    kind: ExceptionKind,
    runtime: CxxRuntime,
) -> Result<Result<CxxAction, CxxError>, Fail> {
    let bytes = bytes_of(alloc, table)?;
    let mut image = MemoryImage::new(alloc);
    let _ = image.add(0x1000, &bytes);
    let place = Place {
        start: 0x100,
        lsda: 0x1000,
        bases: Bases::default(),
    };
    let exception = Exception {
        types: &[],
        kind,
        runtime,
    };
    Ok(find_cxx_action_at(&image, &place, exception, 0x120))
}

// Each table has one call site, from 0x110 to 0x130 with the landing pad 0x140, after a head
// without a base of its pads, and then its action records.
#[test]
fn chains_end_or_are_refused(rt: HostRuntime) -> Result<(), Fail> {
    let cases: [(&str, Result<CxxAction, CxxError>); 7] = [
        ("ffff0104 10204001 00 00", Ok(Cleanup(0x140))),
        ("ffff0104 10204001 007f", Err(CxxError::RecordsLoop)),
        ("ffff0104 10204001 007e", Err(CxxError::RecordOutside)),
        ("ffff0104 10204001 0040", Err(CxxError::RecordOutside)),
        ("ffff0104 10204003 0000", Err(CxxError::RecordOutside)),
        ("ffff0104 10204001 0100", Err(CxxError::NoTypes)),
        // a handler of all, of four bytes: the number 0
        ("ff030c0104 10204001 0100 00000000", Ok(Handler(0x140, 1))),
    ];
    for (table, action) in cases {
        for kind in [ExceptionKind::Foreign, ExceptionKind::Forced] {
            for runtime in RUNTIMES {
                expect_equal(&rt, asked_by(rt.alloc(), table, kind, runtime)?, action);
            }
        }
    }
    Ok(())
}

// A table, as of those above, and what libstdc++ and libc++abi ask by it: of a native exception, which
// has none of the listed types, of a foreign one, and of a forced unwinding.
#[derive(Clone, Copy)]
struct Specified {
    table: &'static str,
    libstdcxx: [Result<CxxAction, CxxError>; 3],
    libcxxabi: [Result<CxxAction, CxxError>; 3],
}

const KINDS: [ExceptionKind; 3] = [
    ExceptionKind::Native,
    ExceptionKind::Foreign,
    ExceptionKind::Forced,
];

const CUT: Result<CxxAction, CxxError> = Err(CxxError::Table(Error::UnexpectedEof));

const PASSED: Result<CxxAction, CxxError> = Ok(CxxAction::None);

const ENDED: Result<CxxAction, CxxError> = Ok(Terminate);

// The pad with the number -1 as a word.
const ENTERED: Result<CxxAction, CxxError> = Ok(Handler(0x140, u64::MAX));

// What the runtimes do by their sources, `__gxx_personality_v0` in eh_personality.cc of libstdc++ and
// `scan_eh_tab` in cxa_personality.cpp of libc++abi: at exception specifications, and without a call
// site.
const SPECIFIED: [Specified; 7] = [
    // a list of nothing
    Specified {
        table: "ff03080104 10204001 7f00 00",
        libstdcxx: [ENTERED, ENDED, ENDED],
        libcxxabi: [ENTERED, ENTERED, PASSED],
    },
    // a list of one type, whose entry is the number 0x2010
    Specified {
        table: "ff030c0104 10204001 7f00 10200000 0100",
        libstdcxx: [ENTERED, PASSED, PASSED],
        libcxxabi: [ENTERED, ENTERED, PASSED],
    },
    // the same, and then a cleanup in the chain
    Specified {
        table: "ff030e0104 10204001 7f010000 10200000 0100",
        libstdcxx: [ENTERED, Ok(Cleanup(0x140)), Ok(Cleanup(0x140))],
        libcxxabi: [ENTERED, ENTERED, Ok(Cleanup(0x140))],
    },
    // a handler of the type, which takes none of these
    Specified {
        table: "ff030c0104 10204001 0100 10200000",
        libstdcxx: [PASSED, PASSED, PASSED],
        libcxxabi: [PASSED, PASSED, PASSED],
    },
    // a list that isn't in memory
    Specified {
        table: "ff03090104 10204001 9c7f00",
        libstdcxx: [CUT, CUT, CUT],
        libcxxabi: [CUT, Ok(Handler(0x140, 0u64.wrapping_sub(100))), PASSED],
    },
    // a table that has no types, and so no lists
    Specified {
        table: "ffff0104 10204001 7f00",
        libstdcxx: [
            Err(CxxError::NoTypes),
            Err(CxxError::NoTypes),
            Err(CxxError::NoTypes),
        ],
        libcxxabi: [Err(CxxError::NoTypes), ENTERED, PASSED],
    },
    // a call site that begins past the call
    Specified {
        table: "ffff0104 30104000",
        libstdcxx: [ENDED, ENDED, ENDED],
        libcxxabi: [ENDED, ENDED, ENDED],
    },
];

#[test]
fn specifications_go_by_their_runtime(rt: HostRuntime) -> Result<(), Fail> {
    for case in SPECIFIED {
        for (index, kind) in KINDS.iter().enumerate() {
            let gnu = asked_by(rt.alloc(), case.table, *kind, CxxRuntime::Libstdcxx)?;
            expect_equal(&rt, gnu, case.libstdcxx[index]);
            let llvm = asked_by(rt.alloc(), case.table, *kind, CxxRuntime::Libcxxabi)?;
            expect_equal(&rt, llvm, case.libcxxabi[index]);
        }
    }
    Ok(())
}
