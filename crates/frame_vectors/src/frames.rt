// Frames of worked examples: how they are found, and what their callers are.
use crate::asserting::expect_equal;
use eh_frame::Bases;
use memory_image::{MemoryImage, NoLedger, Steps};
use stack_deliver::{Context, DeliverError, Error, FrameInfo, FrameInfoKind, Space, Stepped, step};
use std::alloc::{AllocError, Global};
use std::test::Fail;
use unwind_arch::x86_64::{Arch, R12, R14, RBP, RBX, RSP};
use unwinding_core::{
    CustomFinder, EhFrameFinder, FDEFinder, Frame, SetCustomEhFrameFinderError, StaticFinder,
    StepError,
};

// A common information entry of version 1: code alignment 1, data alignment -8, return address in
// column 16; the CFA is RSP plus 8, and the return address lies 8 below it.
const COMMON: &str = "1400000000000000017a5200017810011b0c070890010000";

// Pushes RBP, sets it, pushes RBX: 0x401000 to 0x401020.
const FRAME_POINTER: &str = "180000001c000000e00ff0ff2000000000410e108602430d06458303";

// Allocates 24 bytes, and stores R12 8 bytes above the stack pointer: 0x401000 to 0x401020.
const STORE: &str = "140000001c000000e00ff0ff2000000000440e20458c030000000000";

// Pushes RBX: 0x401000 to 0x401010.
const PUSH: &str = "140000001c000000e00ff0ff1000000000410e108302000000000000";

// A function whose second rule is for a vector register, which the machine's contexts don't have:
// DW_CFA_offset of column 17.
const VECTOR: &str = "140000001c000000e00ff0ff200000000091020000000000000000";

// What names one frame table for every address.
#[derive(Drop)]
pub(crate) struct Named(pub(crate) FrameInfo);

impl EhFrameFinder for Named {
    ghost use Rattle.std.specs.Prelude.{◌≡◌, Some};

    ghost names = { λ n pc info. info ≡ Some n.0 };

    fn find(&self, pc: u64) -> Option<FrameInfo> {
        let _ = pc;
        Some(self.0)
    }
}

// The bytes of a frame table: its entries in hexadecimal digits, and the end of the list.
fn table(alloc: Global, entries: &[&str]) -> Result<Vec<u8>, Fail> {
    let mut bytes = Vec::new(alloc);
    for entry in entries {
        bytes.extend_from_slice(&hex::decode(alloc, entry)?)?;
    }
    bytes.extend_from_slice(&[0; 4])?;
    Ok(bytes)
}

fn words(alloc: Global, words: &[u64]) -> Result<Vec<u8>, AllocError> {
    let mut bytes = Vec::new(alloc);
    for word in words {
        bytes.extend_from_slice(&word.to_le_bytes())?;
    }
    Ok(bytes)
}

// The frame tables at 0x500000.
fn frame_table() -> FrameInfo {
    FrameInfo {
        text_base: None,
        kind: FrameInfoKind::EhFrame(0x50_0000),
    }
}

// One step, not interrupted, over a module from 0x401000 to 0x401020 with a frame table, and a
// stack.
fn stepped(
    alloc: Global,
    entries: &[&str],
    stack: u64,
    held: &[u64],
    context: &Context,
) -> Result<Result<Option<Stepped>, DeliverError>, Fail> {
    let frames = table(alloc, entries)?;
    let bytes = words(alloc, held)?;
    let mut image = MemoryImage::new(alloc);
    let _ = image.add(0x50_0000, &frames);
    let _ = image.add(stack, &bytes);
    let mut space = Space::new(alloc, image);
    let _ = space.add_elf(0x40_1000, 0x40_1020, frame_table());
    let mut steps = Steps::new(NoLedger);
    Ok(step(&space, context, false, &mut steps))
}

#[test]
fn a_frame_pointer_is_undone(rt: HostRuntime) -> Result<(), Fail> {
    let mut context = Context::default();
    context.ra = 0x40_1010;
    context.registers[RBX] = 0x7;
    context.registers[RBP] = 0x70c0;
    context.registers[RSP] = 0x70b0;
    context.registers[R14] = 0x2e;
    let held = [0, 0x11, 0xc, 0x40_1030, 0x22, 0x40_1060, 0, 0xb, 0xe, 0];
    let answer = stepped(
        rt.alloc(),
        &[COMMON, FRAME_POINTER],
        0x70b0,
        &held,
        &context,
    )?;
    let mut caller = context;
    caller.ra = 0x40_1030;
    caller.registers[RBX] = 0x11;
    caller.registers[RBP] = 0xc;
    caller.registers[RSP] = 0x70d0;
    expect_equal(
        &rt,
        answer,
        Ok(Some(Stepped {
            context: caller,
            signal: false,
        })),
    );
    Ok(())
}

#[test]
fn a_stored_register_is_read_back(rt: HostRuntime) -> Result<(), Fail> {
    let mut context = Context::default();
    context.ra = 0x40_1010;
    context.registers[RSP] = 0x7000;
    context.registers[R12] = 1;
    let held = [1, 0xc12, 3, 0x40_1010];
    let answer = stepped(rt.alloc(), &[COMMON, STORE], 0x7000, &held, &context)?;
    let mut caller = context;
    caller.registers[RSP] = 0x7020;
    caller.registers[R12] = 0xc12;
    expect_equal(
        &rt,
        answer,
        Ok(Some(Stepped {
            context: caller,
            signal: false,
        })),
    );
    Ok(())
}

#[test]
fn faults_of_a_step_name_their_cause(rt: HostRuntime) -> Result<(), Fail> {
    let mut context = Context::default();
    context.ra = 0x40_1010;
    context.registers[RSP] = 0x7000;
    let held = [1, 0xc12, 3];
    // The return address's slot, above two words that are there: the lowest column comes first.
    let unmapped = stepped(rt.alloc(), &[COMMON, STORE], 0x7000, &held, &context)?;
    expect_equal(&rt, unmapped, Err(DeliverError::Unmapped(0x7018)));
    let vector = stepped(rt.alloc(), &[COMMON, VECTOR], 0x6ff8, &[1, 2], &context)?;
    expect_equal(
        &rt,
        vector,
        Err(DeliverError::Table(Error::UnsupportedRegister)),
    );
    // A version that isn't known ends the stack, as where no entry contains the address.
    let unread = stepped(
        rt.alloc(),
        &["04000000000000000900000000", STORE],
        0x7000,
        &held,
        &context,
    )?;
    expect_equal(&rt, unread, Ok(None));
    Ok(())
}

#[test]
fn a_finder_is_set_once(rt: HostRuntime) -> Result<(), Fail> {
    let frames = table(rt.alloc(), &[COMMON, STORE])?;
    let mut image = MemoryImage::new(rt.alloc());
    expect_equal(&rt, image.add(0x50_0000, &frames), Ok(()));
    let mut steps = Steps::new(NoLedger);
    let mut finder = CustomFinder::new();
    expect_equal(
        &rt,
        finder.find_fde(&image, 0x40_1000, &mut steps).is_none(),
        true,
    );
    let header = FrameInfo {
        text_base: None,
        kind: FrameInfoKind::EhFrameHdr(0x50_0000),
    };
    expect_equal(
        &rt,
        finder.set_custom_eh_frame_finder(Named(frame_table())),
        Ok(()),
    );
    expect_equal(
        &rt,
        finder.set_custom_eh_frame_finder(Named(header)),
        Err(SetCustomEhFrameFinderError),
    );
    let Some(found) = finder.find_fde(&image, 0x40_101f, &mut steps) else {
        assert!(rt; false);
        return Ok(());
    };
    expect_equal(&rt, found.fde.initial_address(), 0x40_1000);
    expect_equal(&rt, found.bases.frame, Some(0x50_0000));
    expect_equal(&rt, found.fde.is_signal_trampoline(), false);
    expect_equal(
        &rt,
        finder.find_fde(&image, 0x40_1020, &mut steps).is_none(),
        true,
    );
    Ok(())
}

#[test]
fn a_frame_tells_what_was_found(rt: HostRuntime) -> Result<(), Fail> {
    let frames = table(rt.alloc(), &[COMMON, STORE])?;
    let mut image = MemoryImage::new(rt.alloc());
    expect_equal(&rt, image.add(0x50_0000, &frames), Ok(()));
    let mut finder = CustomFinder::new();
    expect_equal(
        &rt,
        finder.set_custom_eh_frame_finder(Named(frame_table())),
        Ok(()),
    );
    let mut steps = Steps::new(NoLedger);
    let mut context = Context::default();
    context.ra = 0x40_1020;
    context.registers[RSP] = 0x7000;
    // After a call that is the function's last instruction; at that address nothing is found.
    let after = Frame::<Arch>::from_context(&image, &finder, &context, false, &mut steps);
    let Ok(Some(frame)) = after else {
        assert!(rt; false);
        return Ok(());
    };
    expect_equal(&rt, frame.initial_address(), 0x40_1000);
    expect_equal(&rt, frame.is_signal_trampoline(), false);
    expect_equal(
        &rt,
        frame.bases(),
        Bases {
            frame: Some(0x50_0000),
            ..Bases::default()
        },
    );
    expect_equal(
        &rt,
        frame.unwind(&image, &context),
        Err(StepError::Unmapped(0x7008)),
    );
    let mut adjusted = context;
    frame.adjust_stack_for_args(&mut adjusted);
    expect_equal(&rt, adjusted, context);
    Ok(())
}

// Whether there is no frame where a context was stopped at an address, by the table at 0x500000.
fn ends_at(alloc: Global, address: u64) -> Result<bool, Fail> {
    let frames = table(alloc, &[COMMON, STORE])?;
    let mut image = MemoryImage::new(alloc);
    let _ = image.add(0x50_0000, &frames);
    let mut finder = CustomFinder::new();
    let _ = finder.set_custom_eh_frame_finder(Named(frame_table()));
    let mut context = Context::default();
    context.ra = address;
    let mut steps = Steps::new(NoLedger);
    let frame = Frame::<Arch>::from_context(&image, &finder, &context, true, &mut steps);
    Ok(matches!(frame, Ok(None)))
}

#[test]
fn the_stack_ends_where_no_function_is(rt: HostRuntime) -> Result<(), Fail> {
    expect_equal(&rt, ends_at(rt.alloc(), 0x40_1020)?, true);
    expect_equal(&rt, ends_at(rt.alloc(), 0)?, true);
    expect_equal(&rt, ends_at(rt.alloc(), 0x40_1000)?, false);
    Ok(())
}

// A function that pushes RBX: 0x401000 to 0x401010. Stopped after the push, its caller's RBX is on the
// stack, and its return address above it.
#[test]
fn a_frame_is_made_of_its_parts(rt: HostRuntime) -> Result<(), Fail> {
    let frames = table(rt.alloc(), &[COMMON, PUSH])?;
    let mut stack = Vec::new(rt.alloc());
    stack.extend_from_slice(&0x9_u64.to_le_bytes())?;
    stack.extend_from_slice(&0x5_u64.to_le_bytes())?;
    let mut image = MemoryImage::new(rt.alloc());
    expect_equal(&rt, image.add(0x50_0000, &frames), Ok(()));
    expect_equal(&rt, image.add(0x7000, &stack), Ok(()));
    let finder = StaticFinder::new(0x40_1000, 0x40_1010, 0x50_0000);
    let mut steps = Steps::new(NoLedger);
    let found = finder
        .find_fde(&image, 0x40_1006, &mut steps)
        .ok_or("no description")?;
    let row = found
        .fde
        .unwind_info_for_address(&found.eh_frame, &found.bases, 0x40_1006)
        .map_err(|_| "no row")?;
    let frame = Frame::<Arch>::from_parts(found, row);
    let mut context = Context::default();
    context.ra = 0x40_1006;
    context.registers[RSP] = 0x7000;
    let mut caller = Context::default();
    caller.ra = 0x5;
    caller.registers[RSP] = 0x7010;
    caller.registers[RBX] = 0x9;
    expect_equal(&rt, frame.unwind(&image, &context), Ok(caller));
    Ok(())
}

#[test]
fn frames_are_shown(rt: HostRuntime) -> Result<(), Fail> {
    let frames = table(rt.alloc(), &[COMMON, STORE])?;
    let mut image = MemoryImage::new(rt.alloc());
    expect_equal(&rt, image.add(0x50_0000, &frames), Ok(()));
    let mut finder = CustomFinder::new();
    expect_equal(
        &rt,
        finder.set_custom_eh_frame_finder(Named(frame_table())),
        Ok(()),
    );
    let mut steps = Steps::new(NoLedger);
    let mut context = Context::default();
    context.ra = 0x40_1010;
    let Ok(Some(frame)) = Frame::<Arch>::from_context(&image, &finder, &context, false, &mut steps)
    else {
        assert!(rt; false);
        return Ok(());
    };
    let text = format!(in rt.alloc(); "{frame:?}")?;
    expect_equal(
        &rt,
        text.as_str(),
        "Frame { fde_result: FDESearchResult { start: 0x401000, len: 0x20, bases: Bases { text: \
        None, data_base: None, func: None, hdr: None, frame: Some(5242880) } }, cfa: RegisterAn\
        dOffset { register: Register(7), offset: 32 } }",
    );
    let refused = format!(in rt.alloc(); "{:?}", SetCustomEhFrameFinderError)?;
    expect_equal(&rt, refused.as_str(), "SetCustomEhFrameFinderError");
    Ok(())
}
