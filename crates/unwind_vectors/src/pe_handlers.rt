// Handlers that unwind records of PE images name.
use pe_unwind_info::x86_64::{
    FrameFault, FunctionTableEntries, Handler, UnwindInfo, handler_of_function,
};

// A function from 0x1000 to 0x1100 with its record at 0x2010, one from 0x1100 to 0x1200 with its
// record at 0x2028, and one from 0x1200 to 0x1300 with its record at 0x2038.
const TABLE: &[u8] = &[
    0x00, 0x10, 0x00, 0x00, 0x00, 0x11, 0x00, 0x00, 0x10, 0x20, 0x00, 0x00, 0x00, 0x11, 0x00, 0x00,
    0x00, 0x12, 0x00, 0x00, 0x28, 0x20, 0x00, 0x00, 0x00, 0x12, 0x00, 0x00, 0x00, 0x13, 0x00, 0x00,
    0x38, 0x20, 0x00, 0x00,
];

// It names a handler at 0x2800, whose data follows.
const NAMING: &[u8] = &[
    0x09, 0x00, 0x00, 0x00, 0x00, 0x28, 0x00, 0x00, 0xff, 0xff, 0x01, 0x04, 0x08, 0x10, 0x20, 0x01,
    0x00,
];

// It goes on with the first function's record.
const CHAINED: &[u8] = &[
    0x21, 0x00, 0x00, 0x00, 0x00, 0x10, 0x00, 0x00, 0x00, 0x11, 0x00, 0x00, 0x10, 0x20, 0x00, 0x00,
];

// It names nothing.
const PLAIN: &[u8] = &[0x01, 0x00, 0x00, 0x00];

/// The memory of the first function's record, and that of the second one's.
#[derive(Drop)]
struct Mapped {
    first: Option<&'static [u8]>,
    second: Option<&'static [u8]>,
}

fn handler_in(mapped: &Mapped, address: u32) -> Result<Option<Handler>, FrameFault> {
    let memory_at_rva = |rva: u32| -> Option<&[u8]> {
        if rva == 0x2010 {
            mapped.first
        } else if rva == 0x2028 {
            mapped.second
        } else {
            Some(PLAIN)
        }
    };
    FunctionTableEntries::parse(TABLE).handler(memory_at_rva, address)
}

// The same by the record that a look-up answers.
fn handler_by(mapped: &Mapped, address: u32) -> Result<Option<Handler>, FrameFault> {
    let memory_at_rva = |rva: u32| -> Option<&[u8]> {
        if rva == 0x2010 {
            mapped.first
        } else if rva == 0x2028 {
            mapped.second
        } else {
            Some(PLAIN)
        }
    };
    handler_of_function(
        FunctionTableEntries::parse(TABLE).lookup(address),
        memory_at_rva,
    )
}

const WHOLE: Mapped = Mapped {
    first: Some(NAMING),
    second: Some(CHAINED),
};

const HANDLER: Handler = Handler {
    begin: 0x1000,
    handler_address: 0x2800,
    data_rva: 0x2018,
};

#[test]
fn handlers_are_found(rt: HostRuntime) {
    assert!(rt; handler_in(&WHOLE, 0x100f) == Ok(Some(HANDLER)));
    assert!(rt; handler_in(&WHOLE, 0x1100) == Ok(Some(HANDLER)));
    assert!(rt; handler_in(&WHOLE, 0x1200) == Ok(None));
    assert!(rt; handler_in(&WHOLE, 0x1300) == Ok(None));
    assert!(rt; handler_in(&WHOLE, 0x0fff) == Ok(None));
    assert!(rt; handler_by(&WHOLE, 0x100f) == Ok(Some(HANDLER)));
}

// The first record with so many of its bytes.
fn cut_to(size: usize) -> Mapped {
    Mapped {
        first: Some(&NAMING[..size.min(NAMING.len())]),
        second: Some(CHAINED),
    }
}

#[test]
fn cut_records_have_no_handler(rt: HostRuntime) {
    // The handler's address is cut, all after the header is, and the header is.
    assert!(rt; handler_in(&cut_to(7), 0x100f) == Err(FrameFault::Info(0x2010)));
    assert!(rt; handler_in(&cut_to(4), 0x1100) == Err(FrameFault::Info(0x2010)));
    assert!(rt; handler_in(&cut_to(3), 0x100f) == Err(FrameFault::Info(0x2010)));
    assert!(rt; handler_in(&cut_to(8), 0x100f) == Ok(Some(HANDLER)));
}

// No record is mapped.
const UNMAPPED: Mapped = Mapped {
    first: None,
    second: None,
};

// The first function's record goes on with itself.
const ENDLESS: Mapped = Mapped {
    first: Some(CHAINED),
    second: Some(CHAINED),
};

#[test]
fn faults_of_handlers(rt: HostRuntime) {
    assert!(rt; handler_in(&UNMAPPED, 0x1100) == Err(FrameFault::Memory(0x2028)));
    assert!(rt; handler_in(&ENDLESS, 0x1100) == Err(FrameFault::ChainLimit));
}

// What clang makes of a function with a handler: two slots, and then the handler and its data.
const CLANG_HANDLER: &[u8] = &[
    0x19, 0x05, 0x02, 0x00, 0x05, 0x52, 0x01, 0x60, 0x00, 0x00, 0x00, 0x00, 0xff, 0xff, 0x01, 0x08,
];

fn data_offset(bytes: &[u8]) -> Option<u32> {
    UnwindInfo::parse(bytes)?.handler_data_offset()
}

#[test]
fn handler_data_stands_after_the_slots(rt: HostRuntime) {
    assert!(rt; data_offset(CLANG_HANDLER) == Some(12));
    assert!(rt; data_offset(&CLANG_HANDLER[..11]) == None);
    assert!(rt; data_offset(&[0x11, 1, 1, 0, 1, 0x02, 0, 0, 0, 0, 0, 0]) == Some(12));
    assert!(rt; data_offset(CHAINED) == None);
    assert!(rt; data_offset(PLAIN) == None);
}
