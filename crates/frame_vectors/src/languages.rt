// Language tables of worked examples and of a compiler: what they ask of frames, and what a
// personality answers.
use crate::asserting::expect_equal;
use crate::frames::Named;
use eh_frame::Bases;
use memory_image::{MemoryImage, NoLedger, Steps};
use stack_deliver::{Context, Error, FrameInfo, FrameInfoKind};
use std::alloc::Global;
use std::test::Fail;
use unwind_arch::x86_64::{Arch, RAX, RDX, RSP};
use unwinding_core::{
    _Unwind_GetCFA, _Unwind_GetDataRelBase, _Unwind_GetGR, _Unwind_GetIP, _Unwind_GetIPInfo,
    _Unwind_GetLanguageSpecificData, _Unwind_GetRegionStart, _Unwind_GetTextRelBase, _Unwind_SetGR,
    _Unwind_SetIP, CustomFinder, EhAction, Frame, Personality, Place, RustPersonality, StepError,
    UnwindAction, UnwindContext, find_eh_action, find_eh_action_at,
};

// The descriptions of three functions, one after the other: 0x401000 to 0x401020 without a language
// table, and 0x401020 to 0x401050 and 0x401050 to 0x401080 with the language tables at 0x502000 and
// 0x50200c. The cell of their personality is at 0x503000.
pub(crate) const FRAMES: &str =
    "1400000000000000017a5200017810011b0c070890010000180000001c000000e00ff0ff2000000000410e10860\
    2430d064583031c00000000000000017a504c5200017810079bb92f00001b1b0c07089001000018000000240000\
    00c40ff0ff30000000049b1f0000410e10830200002000000040000000d80ff0ff30000000048b1f0000420e104\
    10e18440e2083038e0200000000";

// The language tables of the second and the third function.
pub(crate) const LANGUAGES: &str = "ffff01080810200020100000ff9b0c010408102001010000000000";

// The cell: the personality is at 0x404000.
pub(crate) const CELL: &str = "0040400000000000";

// A language table of `g++ -O2`: one call in a `try` that catches an `int` and all else.
const CAUGHT: &str = "ff9b15010405052103020001 7d00000000000000";

// Another, for the handlers themselves: calls with cleanups, and one without.
const HANDLERS: &str = "ff9b2101100b0554001005 4f0021053500 4a05000002 00017d0000";

// Another, for a function that is `noexcept`: it has no call sites.
const NOEXCEPT: &str = "ffff0100";

// Bytes in hexadecimal digits, which spaces may part.
pub(crate) fn bytes_of(alloc: Global, digits: &str) -> Result<Vec<u8>, Fail> {
    let mut bytes = Vec::new(alloc);
    for part in digits.split(' ') {
        bytes.extend_from_slice(&hex::decode(alloc, part)?)?;
    }
    Ok(bytes)
}

// Addresses in the second and in the third function.
const SECOND: u64 = 0x40_1030;

const THIRD: u64 = 0x40_1060;

fn tables() -> FrameInfo {
    FrameInfo {
        text_base: None,
        kind: FrameInfoKind::EhFrame(0x50_0000),
    }
}

// The frame that returns to `ra`.
fn frame_at<'a>(image: &MemoryImage<'a>, ra: u64) -> Option<Frame<'a, Arch>> {
    let mut finder = CustomFinder::new();
    let _ = finder.set_custom_eh_frame_finder(Named(tables()));
    let mut context = Context::default();
    context.ra = ra;
    let mut steps = Steps::new(NoLedger);
    Frame::from_context(image, &finder, &context, false, &mut steps)
        .ok()
        .flatten()
}

// What is asked of the frame of the function that holds `held`, with the language tables at
// 0x502000, for a return address.
fn asked(
    alloc: Global,
    languages: &str,
    held: u64,
    ra: u64,
    signal: bool,
) -> Result<Option<Result<EhAction, StepError>>, Fail> {
    let frames = bytes_of(alloc, FRAMES)?;
    let languages = bytes_of(alloc, languages)?;
    let mut image = MemoryImage::new(alloc);
    let _ = image.add(0x50_0000, &frames);
    let _ = image.add(0x50_2000, &languages);
    let mut context = Context::default();
    context.ra = ra;
    Ok(frame_at(&image, held).map(|frame| find_eh_action(&image, &frame, &context, signal)))
}

// Language tables, the function that holds the frame, its return address, and what is asked.
static ASKED: [(&str, u64, u64, Result<EhAction, StepError>); 35] = [
    // no language table
    (LANGUAGES, 0x40_1010, 0x40_1010, Ok(EhAction::None)),
    (
        LANGUAGES,
        SECOND,
        0x40_1030,
        Ok(EhAction::Cleanup(0x40_1040)),
    ),
    (LANGUAGES, THIRD, 0x40_1060, Ok(EhAction::Catch(0x40_1070))),
    // after the last call of a function
    (LANGUAGES, SECOND, 0x40_1050, Ok(EhAction::None)),
    // before, between and after the call sites
    (LANGUAGES, SECOND, 0x40_1028, Ok(EhAction::Terminate)),
    (
        LANGUAGES,
        SECOND,
        0x40_1029,
        Ok(EhAction::Cleanup(0x40_1040)),
    ),
    (
        LANGUAGES,
        SECOND,
        0x40_1038,
        Ok(EhAction::Cleanup(0x40_1040)),
    ),
    (LANGUAGES, SECOND, 0x40_1039, Ok(EhAction::Terminate)),
    (LANGUAGES, SECOND, 0x40_1040, Ok(EhAction::Terminate)),
    (LANGUAGES, SECOND, 0x40_1041, Ok(EhAction::None)),
    (LANGUAGES, THIRD, 0x40_1070, Ok(EhAction::Terminate)),
    (LANGUAGES, THIRD, 0, Ok(EhAction::Terminate)),
    // The function is taken to start at 0x401020, where the compiler's object file has 0. Landing pads
    // and calls are those of its assembly listing.
    (CAUGHT, SECOND, 0x40_102a, Ok(EhAction::Catch(0x40_1041))),
    (CAUGHT, SECOND, 0x40_1025, Ok(EhAction::Terminate)),
    (CAUGHT, SECOND, 0x40_1039, Ok(EhAction::Terminate)),
    (HANDLERS, SECOND, 0x40_102b, Ok(EhAction::Terminate)),
    (
        HANDLERS,
        SECOND,
        0x40_1030,
        Ok(EhAction::Cleanup(0x40_1074)),
    ),
    (
        HANDLERS,
        SECOND,
        0x40_1035,
        Ok(EhAction::Cleanup(0x40_106f)),
    ),
    (HANDLERS, SECOND, 0x40_103f, Ok(EhAction::Terminate)),
    (
        HANDLERS,
        SECOND,
        0x40_1046,
        Ok(EhAction::Cleanup(0x40_1055)),
    ),
    (HANDLERS, SECOND, 0x40_106f, Ok(EhAction::None)),
    (HANDLERS, SECOND, 0x40_107c, Ok(EhAction::Terminate)),
    (NOEXCEPT, SECOND, 0x40_1028, Ok(EhAction::Terminate)),
    // the base of landing pads is 0x402000, a word; a cleanup 0x10 after it
    (
        "000020400000000000 ff01 04 00201000",
        SECOND,
        SECOND,
        Ok(EhAction::Cleanup(0x40_2010)),
    ),
    // the base is 0x40 after the function's start
    (
        "4240 00 ff01 04 00201000",
        SECOND,
        SECOND,
        Ok(EhAction::Cleanup(0x40_1070)),
    ),
    // the base is in a cell after the table
    (
        "80 1020500000000000 ff 01 04 00201000 0030400000000000",
        SECOND,
        SECOND,
        Ok(EhAction::Cleanup(0x40_3010)),
    ),
    // call sites in four bytes, and the types with a number
    (
        "ff 0380 01 03 0d 00000000 20000000 10000000 01 7f",
        SECOND,
        SECOND,
        Ok(EhAction::Filter(0x40_1030)),
    ),
    // the same in two bytes, with an action that is 0
    (
        "ff ff 02 07 0000 2000 1000 02 7f 00",
        SECOND,
        SECOND,
        Ok(EhAction::Cleanup(0x40_1030)),
    ),
    // What stands after the deciding site isn't read: it would be a fault.
    (
        "ffff0105 08101000 80",
        SECOND,
        SECOND,
        Ok(EhAction::Cleanup(0x40_1030)),
    ),
    (
        "ffff0105 08101000 80",
        SECOND,
        0x40_1028,
        Ok(EhAction::Terminate),
    ),
    (
        "ffff0105 08101000 80",
        SECOND,
        0x40_1040,
        Err(StepError::Table(Error::UnexpectedEof)),
    ),
    // the cell of a landing pad's base isn't mapped
    (
        "80 0020600000000000 ff 01 04 00201000",
        SECOND,
        SECOND,
        Err(StepError::Unmapped(0x60_2000)),
    ),
    // a site's start, its end and its landing pad pass 2^64 - 1
    (
        "ffff0419 ffffffffffffffff 0000000000000000 0000000000000000 00",
        SECOND,
        SECOND,
        Err(StepError::Table(Error::AddressOverflow)),
    ),
    (
        "ffff0419 0000000000000000 ffffffffffffffff 0000000000000000 00",
        SECOND,
        SECOND,
        Err(StepError::Table(Error::AddressOverflow)),
    ),
    (
        "ffff0419 0000000000000000 2000000000000000 ffffffffffffffff 00",
        SECOND,
        SECOND,
        Err(StepError::Table(Error::AddressOverflow)),
    ),
];

// Language tables that can't be read, and why.
static UNREAD: [(&str, Error); 12] = [
    ("", Error::UnexpectedEof),
    ("07", Error::UnknownPointerEncoding),
    ("30 00", Error::UndefinedBase),
    ("50 00", Error::UnsupportedPointerEncoding),
    // the call sites pass the end of the table
    ("ffff0105 00201000", Error::UnexpectedEof),
    // a call site passes the end of the call sites
    ("ffff0103 00201000", Error::UnexpectedEof),
    ("ffffff04 00201000", Error::CannotParseOmitPointerEncoding),
    // the action table is cut: it has nothing, ends in a number, or isn't reached
    ("ffff0104 00201001", Error::UnexpectedEof),
    ("ffff0104 00201001 81", Error::UnexpectedEof),
    ("ffff0104 00201009 01", Error::UnexpectedEof),
    (
        "ffff0104 00201001 80808080808080808001",
        Error::BadSignedLeb128,
    ),
    ("ffff000d ffffffffffffffff 00 ", Error::UnexpectedEof),
];

// The same after a signal, where the address itself is asked.
static SIGNALLED: [(u64, EhAction); 4] = [
    (0x40_1027, EhAction::Terminate),
    (0x40_1028, EhAction::Cleanup(0x40_1040)),
    (0x40_1038, EhAction::Terminate),
    (0x40_1040, EhAction::None),
];

#[test]
fn tables_ask(rt: HostRuntime) -> Result<(), Fail> {
    let alloc = rt.alloc();
    for case in &ASKED {
        let (languages, held, ra, answer) = *case;
        expect_equal(&rt, asked(alloc, languages, held, ra, false)?, Some(answer));
    }
    for case in &UNREAD {
        let (languages, error) = *case;
        let answer = Some(Err(StepError::Table(error)));
        expect_equal(&rt, asked(alloc, languages, SECOND, SECOND, false)?, answer);
    }
    for case in &SIGNALLED {
        let (ra, action) = *case;
        expect_equal(
            &rt,
            asked(alloc, LANGUAGES, SECOND, ra, true)?,
            Some(Ok(action)),
        );
    }
    Ok(())
}

#[test]
fn frames_name_their_tables(rt: HostRuntime) -> Result<(), Fail> {
    let frames = bytes_of(rt.alloc(), FRAMES)?;
    let cell = bytes_of(rt.alloc(), CELL)?;
    let mut image = MemoryImage::new(rt.alloc());
    expect_equal(&rt, image.add(0x50_0000, &frames), Ok(()));
    let first = frame_at(&image, 0x40_1010).ok_or("no frame")?;
    expect_equal(&rt, first.personality(&image), Ok(None));
    expect_equal(&rt, first.lsda(&image), Ok(0));
    let second = frame_at(&image, SECOND).ok_or("no frame")?;
    expect_equal(&rt, second.lsda(&image), Ok(0x50_2000));
    expect_equal(
        &rt,
        second.personality(&image),
        Err(StepError::Unmapped(0x50_3000)),
    );
    expect_equal(&rt, image.add(0x50_3000, &cell), Ok(()));
    expect_equal(&rt, second.personality(&image), Ok(Some(0x40_4000)));
    Ok(())
}

// What the personality of Rust answers for the frame of the function that holds `held`, returning to
// `ra`, and the registers that it leaves.
fn answered(
    alloc: Global,
    held: u64,
    ra: u64,
    version: i32,
    actions: UnwindAction,
) -> Result<Option<(i32, Context)>, Fail> {
    let frames = bytes_of(alloc, FRAMES)?;
    let languages = bytes_of(alloc, LANGUAGES)?;
    let mut image = MemoryImage::new(alloc);
    let _ = image.add(0x50_0000, &frames);
    let _ = image.add(0x50_2000, &languages);
    let mut context = Context::default();
    context.ra = ra;
    context.registers[RDX] = 0x11;
    let Some(frame) = frame_at(&image, held) else {
        return Ok(None);
    };
    let mut unwind_ctx = UnwindContext::new(&image, Some(&frame), &mut context, false);
    let code = RustPersonality.call(
        0x40_4000,
        version,
        actions,
        0x22,
        0x90_0000,
        &mut unwind_ctx,
    );
    Ok(Some((code.0, context)))
}

// The places of the language tables of the three functions.
fn place_of(held: u64) -> Place {
    let (start, lsda) = match held {
        SECOND => (0x40_1020, 0x50_2000),
        THIRD => (0x40_1050, 0x50_200c),
        _ => (0x40_1000, 0),
    };
    Place {
        start,
        lsda,
        bases: Bases::default(),
    }
}

// The same by the place of the language table.
fn answered_by_place(
    alloc: Global,
    held: u64,
    ra: u64,
    version: i32,
    actions: UnwindAction,
) -> Result<(i32, Context), Fail> {
    let languages = bytes_of(alloc, LANGUAGES)?;
    let mut image = MemoryImage::new(alloc);
    let _ = image.add(0x50_2000, &languages);
    let place = place_of(held);
    let mut context = left(ra);
    let mut unwind_ctx = UnwindContext::<Arch>::with_place(&image, &place, &mut context, false);
    let code = RustPersonality.call(
        0x40_4000,
        version,
        actions,
        0x22,
        0x90_0000,
        &mut unwind_ctx,
    );
    Ok((code.0, context))
}

// The registers of a frame that returns to `ra`, and those at a landing pad.
fn left(ra: u64) -> Context {
    let mut context = Context::default();
    context.ra = ra;
    context.registers[RDX] = 0x11;
    context
}

fn landed(pad: u64) -> Context {
    let mut context = Context::default();
    context.ra = pad;
    context.registers[RAX] = 0x90_0000;
    context
}

// The function that holds the frame, its return address, the version of the interface, the actions, the
// answer, and the landing pad that is entered.
static ANSWERED: [(u64, u64, i32, i32, i32, Option<u64>); 12] = [
    // search: continue, or found
    (0x40_1010, 0x40_1010, 1, 1, 8, None),
    (SECOND, 0x40_1030, 1, 1, 8, None),
    (SECOND, 0x40_1050, 1, 1, 8, None),
    (THIRD, 0x40_1060, 1, 1, 6, None),
    // the program ends
    (THIRD, 0x40_1070, 1, 1, 3, None),
    // another version of the interface
    (THIRD, 0x40_1060, 2, 1, 3, None),
    // cleanup: continue, or the program ends
    (0x40_1010, 0x40_1010, 1, 2, 8, None),
    (SECOND, 0x40_1050, 1, 2, 8, None),
    (THIRD, 0x40_1070, 1, 2, 2, None),
    // landing pads of a cleanup, of the handler, and of the handler where the unwinding is forced
    (SECOND, 0x40_1030, 1, 2, 7, Some(0x40_1040)),
    (THIRD, 0x40_1060, 1, 6, 7, Some(0x40_1070)),
    (THIRD, 0x40_1060, 1, 10, 7, Some(0x40_1070)),
];

#[test]
fn a_personality_answers(rt: HostRuntime) -> Result<(), Fail> {
    let alloc = rt.alloc();
    for case in &ANSWERED {
        let (held, ra, version, actions, code, pad) = *case;
        let registers = match pad {
            Some(pad) => landed(pad),
            None => left(ra),
        };
        let answer = answered(alloc, held, ra, version, UnwindAction(actions))?;
        expect_equal(&rt, answer, Some((code, registers)));
        let by_place = answered_by_place(alloc, held, ra, version, UnwindAction(actions))?;
        expect_equal(&rt, by_place, (code, registers));
    }
    Ok(())
}

#[test]
fn places_are_read(rt: HostRuntime) -> Result<(), Fail> {
    let image = MemoryImage::new(rt.alloc());
    let bases = Bases {
        text: Some(0x40_0000),
        ..Bases::default()
    };
    let place = Place {
        start: 0x40_1020,
        lsda: 0x50_2000,
        bases,
    };
    expect_equal(
        &rt,
        find_eh_action_at(&image, &place, 0x40_102f),
        Err(StepError::Table(Error::UnexpectedEof)),
    );
    let mut context = left(0x40_1030);
    let ctx = UnwindContext::<Arch>::with_place(&image, &place, &mut context, false);
    expect_equal(&rt, _Unwind_GetRegionStart(&ctx), 0x40_1020);
    expect_equal(&rt, _Unwind_GetLanguageSpecificData(&ctx), Ok(0x50_2000));
    expect_equal(&rt, _Unwind_GetTextRelBase(&ctx), Some(0x40_0000));
    expect_equal(&rt, _Unwind_GetDataRelBase(&ctx), None);
    expect_equal(&rt, _Unwind_GetIP(&ctx), 0x40_1030);
    Ok(())
}

#[test]
fn actions_are_sets_of_bits(rt: HostRuntime) -> Result<(), Fail> {
    let forced = UnwindAction::FORCE_UNWIND | UnwindAction::CLEANUP_PHASE;
    expect_equal(&rt, forced.0, 10);
    expect_equal(&rt, (forced | UnwindAction::END_OF_STACK).0, 26);
    expect_equal(&rt, forced.contains(UnwindAction::CLEANUP_PHASE), true);
    expect_equal(&rt, forced.contains(UnwindAction::SEARCH_PHASE), false);
    expect_equal(&rt, forced.contains(UnwindAction::empty()), false);
    expect_equal(
        &rt,
        UnwindAction(-1).contains(UnwindAction::END_OF_STACK),
        true,
    );
    Ok(())
}

#[test]
fn a_context_is_read_and_written(rt: HostRuntime) -> Result<(), Fail> {
    let frames = bytes_of(rt.alloc(), FRAMES)?;
    let mut image = MemoryImage::new(rt.alloc());
    expect_equal(&rt, image.add(0x50_0000, &frames), Ok(()));
    let frame = frame_at(&image, SECOND).ok_or("no frame")?;
    let mut context = Context::default();
    context.ra = 0x40_1030;
    context.registers[RSP] = 0x70d0;
    let mut ctx = UnwindContext::<Arch>::new(&image, Some(&frame), &mut context, true);
    expect_equal(&rt, _Unwind_GetCFA(&ctx), 0x70d0);
    expect_equal(&rt, _Unwind_GetGR(&ctx, 7), Some(0x70d0));
    for index in [17, 66, 65_536, -1] {
        expect_equal(&rt, _Unwind_GetGR(&ctx, index), None);
        expect_equal(&rt, _Unwind_SetGR(&mut ctx, index, 5), None);
    }
    let mut before = 7;
    expect_equal(&rt, _Unwind_GetIPInfo(&ctx, &mut before), 0x40_1030);
    expect_equal(&rt, before, 1);
    expect_equal(&rt, _Unwind_GetRegionStart(&ctx), 0x40_1020);
    expect_equal(&rt, _Unwind_GetLanguageSpecificData(&ctx), Ok(0x50_2000));
    expect_equal(&rt, _Unwind_GetTextRelBase(&ctx), None);
    expect_equal(&rt, _Unwind_GetDataRelBase(&ctx), None);
    _Unwind_SetIP(&mut ctx, 0x40_1040);
    expect_equal(&rt, _Unwind_GetIP(&ctx), 0x40_1040);
    expect_equal(&rt, _Unwind_SetGR(&mut ctx, 1, 9), Some(()));
    expect_equal(&rt, context.ra, 0x40_1040);
    expect_equal(&rt, context.registers[RDX], 9);
    let end = UnwindContext::<Arch>::new(&image, None, &mut context, false);
    expect_equal(&rt, _Unwind_GetRegionStart(&end), 0);
    expect_equal(&rt, _Unwind_GetLanguageSpecificData(&end), Ok(0));
    expect_equal(&rt, _Unwind_GetTextRelBase(&end), Some(0));
    expect_equal(&rt, _Unwind_GetDataRelBase(&end), Some(0));
    expect_equal(&rt, _Unwind_GetIPInfo(&end, &mut before), 0x40_1040);
    expect_equal(&rt, before, 0);
    Ok(())
}
