// The runs of an unwinding over the worked examples: a stack of one frame without a personality,
// and one of three with a cleanup and a handler.
ghost use Rattle.std.specs.Prelude.{◌≡◌};
ghost use Rattle.frame_vectors.specs.Visiting.{visit, visit_answer};

use crate::asserting::expect_equal;
use crate::languages::{CELL, FRAMES, LANGUAGES, bytes_of};
use memory_image::{MemoryImage, NoLedger, Steps};
use stack_deliver::{MachoTables, Module, ModuleTables};
use std::alloc::Global;
use std::test::Fail;
use unwind_arch::x86_64::{Arch, Context, RBP, RBX, RSP};
use unwinding_core::{
    _Unwind_Backtrace, _Unwind_DeleteException, _Unwind_FindEnclosingFunction,
    _Unwind_ForcedUnwind, _Unwind_GetIP, _Unwind_RaiseException, _Unwind_Resume,
    _Unwind_Resume_or_Rethrow, Cause, CustomFinder, DummyPersonality, EhFrameFinder, FrameInfo,
    FrameInfoKind, Kept, RustPersonality, Stop, Trace, UnwindAction, UnwindContext,
    UnwindException, UnwindReasonCode, Unwound,
};

// A function that pushes RBX: 0x401000 to 0x401010.
const PUSHES: &str =
    "1400000000000000017a5200017810011b0c070890010000140000001c000000e00ff0ff1000000000410e108302000000000000";

// The frame table at 0x500000.
fn frame_table() -> FrameInfo {
    FrameInfo {
        text_base: None,
        kind: FrameInfoKind::EhFrame(0x50_0000),
    }
}

// The module of the text from 0x401000 on, which names that table.
fn text(end: u64) -> Module {
    Module {
        start: 0x40_1000,
        end,
        tables: ModuleTables::Elf(frame_table()),
    }
}

fn finder(end: u64) -> CustomFinder<Module> {
    let mut finder = CustomFinder::new();
    let _ = finder.set_custom_eh_frame_finder(text(end));
    finder
}

#[test]
fn a_module_is_its_own_finder(rt: HostRuntime) -> Result<(), Fail> {
    let elf = text(0x40_1010);
    expect_equal(&rt, elf.find(0x40_0fff), None);
    expect_equal(&rt, elf.find(0x40_1000), Some(frame_table()));
    expect_equal(&rt, elf.find(0x40_100f), Some(frame_table()));
    expect_equal(&rt, elf.find(0x40_1010), None);
    let macho = Module {
        tables: ModuleTables::Macho(MachoTables {
            unwind_info: 0x50_0000,
            frames: None,
        }),
        ..elf
    };
    expect_equal(&rt, macho.find(0x40_1000), None);
    Ok(())
}

// What a stop or a trace was asked: how often, and for which actions or return addresses first and
// last.
#[derive(Clone, Copy)]
struct Visits {
    refuses: bool,
    calls: u64,
    first: u64,
    last: u64,
}

const NONE: Visits = Visits {
    refuses: false,
    calls: 0,
    first: 0,
    last: 0,
};

const REFUSED: Visits = Visits {
    refuses: true,
    calls: 0,
    first: 0,
    last: 0,
};

impl Visits {
    fn visit(&mut self, now: u64) -> UnwindReasonCode
        ensures { (result, visit self.new.refuses self.new.calls self.new.first self.new.last) ≡
            visit_answer (visit self.old.refuses self.old.calls self.old.first self.old.last) now }
    {
        if self.calls == 0 {
            self.first = now;
        }
        self.last = now;
        self.calls = self.calls.wrapping_add(1);
        if self.refuses {
            UnwindReasonCode::NORMAL_STOP
        } else {
            UnwindReasonCode::NO_REASON
        }
    }

    fn seen(&self) -> (u64, u64, u64) {
        (self.calls, self.first, self.last)
    }
}

impl Stop<Arch> for Visits {
    ghost use Rattle.frame_vectors.specs.Visiting.{visit, by_actions};

    ghost words = { λ s. visit s.refuses s.calls s.first s.last };

    ghost stops = { by_actions };

    fn stop(
        &mut self,
        version: i32,
        actions: UnwindAction,
        exception_class: u64,
        unwind_ctx: &mut UnwindContext<'_, '_, Arch>,
    ) -> UnwindReasonCode {
        let _ = (version, exception_class, _Unwind_GetIP(unwind_ctx));
        self.visit(u64::from(actions.0.cast_unsigned()))
    }
}

impl Trace<Arch> for Visits {
    ghost use Rattle.frame_vectors.specs.Visiting.{visit, by_address};

    ghost words = { λ s. visit s.refuses s.calls s.first s.last };

    ghost traces = { by_address };

    fn trace(&mut self, unwind_ctx: &UnwindContext<'_, '_, Arch>) -> UnwindReasonCode {
        self.visit(_Unwind_GetIP(unwind_ctx))
    }
}

// The registers at an instruction of the first function.
fn start(ip: u64, stack_pointer: u64) -> Context {
    let mut context = Context::default();
    context.ra = ip;
    context.registers[RSP] = stack_pointer;
    context
}

// How a forced unwinding of the stack of one frame ends, and what the stop was asked.
fn forced(alloc: Global, stop: Visits, limit: u32) -> Result<(Option<i32>, (u64, u64, u64)), Fail> {
    let frames = bytes_of(alloc, PUSHES)?;
    let stack = bytes_of(alloc, "05000000000000000000000000000000")?;
    let mut image = MemoryImage::new(alloc);
    let _ = image.add(0x50_0000, &frames);
    let _ = image.add(0x7000, &stack);
    let mut stop = stop;
    let mut exception = UnwindException::new(0x22, 0x90_0000);
    let end = _Unwind_ForcedUnwind::<
        Arch,
        CustomFinder<Module>,
        DummyPersonality,
        Visits,
        NoLedger,
    >(
        &image,
        &finder(0x40_1010),
        &start(0x40_1006, 0x7000),
        &mut exception,
        &DummyPersonality,
        &mut stop,
        limit,
        &mut Steps::new(NoLedger),
    );
    let code = match end {
        Unwound::Code { code, cause: None } if exception.kept == Kept::Stop => Some(code.0),
        _ => None,
    };
    Ok((code, stop.seen()))
}

#[test]
fn forced_unwinding_asks_the_stop(rt: HostRuntime) -> Result<(), Fail> {
    let alloc = rt.alloc();
    let end = UnwindReasonCode::END_OF_STACK.0;
    expect_equal(&rt, forced(alloc, NONE, 4)?, (Some(end), (2, 10, 26)));
    let fatal = UnwindReasonCode::FATAL_PHASE2_ERROR.0;
    expect_equal(&rt, forced(alloc, REFUSED, 4)?, (Some(fatal), (1, 10, 10)));
    expect_equal(&rt, forced(alloc, NONE, 1)?, (None, (1, 10, 10)));
    expect_equal(
        &rt,
        UnwindAction(10).contains(UnwindAction::CLEANUP_PHASE),
        true,
    );
    expect_equal(
        &rt,
        UnwindAction::empty().contains(UnwindAction::empty()),
        false,
    );
    Ok(())
}

// How a backtrace of the stack of one frame ends, and at which addresses the trace was asked.
fn traced(
    alloc: Global,
    trace: Visits,
    hidden: Option<u64>,
    limit: u32,
) -> Result<(i32, Option<Cause>, (u64, u64, u64)), Fail> {
    let frames = bytes_of(alloc, PUSHES)?;
    let stack = bytes_of(alloc, "05000000000000000000000000000000")?;
    let mut image = MemoryImage::new(alloc);
    let _ = image.add(0x50_0000, &frames);
    let _ = image.add(0x7000, &stack);
    let mut trace = trace;
    let ended = _Unwind_Backtrace::<Arch, CustomFinder<Module>, Visits, NoLedger>(
        &image,
        &finder(0x40_1010),
        &start(0x40_1006, 0x7000),
        hidden,
        &mut trace,
        limit,
        &mut Steps::new(NoLedger),
    );
    Ok((ended.code.0, ended.cause, trace.seen()))
}

#[test]
fn backtraces_visit_frames(rt: HostRuntime) -> Result<(), Fail> {
    let alloc = rt.alloc();
    let end = UnwindReasonCode::END_OF_STACK.0;
    let fatal = UnwindReasonCode::FATAL_PHASE1_ERROR.0;
    let ip = 0x40_1006;
    expect_equal(&rt, traced(alloc, NONE, None, 4)?, (end, None, (2, ip, 0)));
    expect_equal(
        &rt,
        traced(alloc, NONE, Some(0x40_1000), 4)?,
        (end, None, (1, 0, 0)),
    );
    expect_equal(
        &rt,
        traced(alloc, NONE, Some(1), 4)?,
        (end, None, (0, 0, 0)),
    );
    let crowded = Some(Cause::FrameLimit);
    expect_equal(
        &rt,
        traced(alloc, NONE, None, 0)?,
        (fatal, crowded, (0, 0, 0)),
    );
    expect_equal(
        &rt,
        traced(alloc, NONE, None, 1)?,
        (fatal, crowded, (1, ip, ip)),
    );
    expect_equal(
        &rt,
        traced(alloc, REFUSED, None, 4)?,
        (fatal, None, (1, ip, ip)),
    );
    Ok(())
}

// The landing pad, the stack pointer, RBX and RAX of registers that are installed, and whether they
// are the handler's.
type Landing = (u64, u64, u64, u64, bool);

fn landing(end: Unwound<Arch>) -> Option<Landing> {
    match end {
        Unwound::Install { context, handler } => {
            let [rax, _, _, rbx, _, _, _, rsp, ..] = context.registers;
            Some((context.ra, rsp, rbx, rax, handler))
        }
        Unwound::Code { .. } => None,
    }
}

// A stack of three frames, of which the second has a cleanup and the third a handler.
const STACK: &str =
    "0000000000000000 1100000000000000 0c00000000000000 3010400000000000 2200000000000000 601040\
    0000000000 0000000000000000 0b00000000000000 0e00000000000000 0000000000000000";

// How a raise from the innermost of three frames lands.
fn first_landing(image: &MemoryImage<'_>, exception: &mut UnwindException) -> Option<Landing> {
    let mut context = start(0x40_1010, 0x70b0);
    context.registers[RBX] = 0x7;
    context.registers[RBP] = 0x70c0;
    landing(_Unwind_RaiseException::<Arch, CustomFinder<Module>, RustPersonality, NoLedger>(
        image,
        &finder(0x40_1080),
        &context,
        exception,
        &RustPersonality,
        8,
        &mut Steps::new(NoLedger),
    ))
}

// How it lands once the cleanup resumes at an address.
fn next_landing(
    image: &MemoryImage<'_>,
    exception: &mut UnwindException,
    resume: u64,
) -> Option<Landing> {
    let mut context = start(resume, 0x70d0);
    context.registers[RBX] = 0x11;
    context.registers[RBP] = 0xc;
    let mut stop = NONE;
    landing(_Unwind_Resume::<Arch, CustomFinder<Module>, RustPersonality, Visits, NoLedger>(
        image,
        &finder(0x40_1080),
        &context,
        exception,
        &RustPersonality,
        &mut stop,
        8,
        &mut Steps::new(NoLedger),
    ))
}

// Both, and what the exception keeps in between. With `Stop` kept the resume is by force.
fn raised(
    alloc: Global,
    kept: Kept,
    resume: u64,
) -> Result<(Option<Landing>, Kept, Option<Landing>), Fail> {
    let frames = bytes_of(alloc, FRAMES)?;
    let languages = bytes_of(alloc, LANGUAGES)?;
    let cell = bytes_of(alloc, CELL)?;
    let stack = bytes_of(alloc, STACK)?;
    let mut image = MemoryImage::new(alloc);
    let _ = image.add(0x50_0000, &frames);
    let _ = image.add(0x50_2000, &languages);
    let _ = image.add(0x50_3000, &cell);
    let _ = image.add(0x70b0, &stack);
    let mut exception = UnwindException::new(0x22, 0x90_0000);
    let first = first_landing(&image, &mut exception);
    let found = exception.kept;
    exception.kept = if kept == Kept::Stop { kept } else { found };
    let next = next_landing(&image, &mut exception, resume);
    Ok((first, found, next))
}

#[test]
fn a_raise_goes_to_its_handler(rt: HostRuntime) -> Result<(), Fail> {
    let alloc = rt.alloc();
    let cleanup = Some((0x40_1040, 0x70d0, 0x11, 0x90_0000, false));
    let (first, found, second) = raised(alloc, Kept::Handler(0), 0x40_1048)?;
    expect_equal(&rt, first, cleanup);
    expect_equal(&rt, found == Kept::Handler(0x70e0), true);
    expect_equal(
        &rt,
        second,
        Some((0x40_1070, 0x70e0, 0x22, 0x90_0000, true)),
    );
    // by force the handler's landing pad is entered too, but not as the handler's
    let (_, _, by_force) = raised(alloc, Kept::Stop, 0x40_1048)?;
    expect_equal(
        &rt,
        by_force,
        Some((0x40_1070, 0x70e0, 0x22, 0x90_0000, false)),
    );
    // after an address that no call site holds
    let (_, _, none) = raised(alloc, Kept::Handler(0), 0x40_1040)?;
    expect_equal(&rt, none, None);
    Ok(())
}

// How a raise on a stack without a handler ends, whether the exception stays as it was, and what the
// stop was asked.
fn rethrown(alloc: Global) -> Result<(Option<i32>, bool, (u64, u64, u64)), Fail> {
    let frames = bytes_of(alloc, PUSHES)?;
    let stack = bytes_of(alloc, "05000000000000000000000000000000")?;
    let mut image = MemoryImage::new(alloc);
    let _ = image.add(0x50_0000, &frames);
    let _ = image.add(0x7000, &stack);
    let mut exception = UnwindException::new(0x22, 0x90_0000);
    let mut stop = NONE;
    let end = _Unwind_Resume_or_Rethrow::<
        Arch,
        CustomFinder<Module>,
        RustPersonality,
        Visits,
        NoLedger,
    >(
        &image,
        &finder(0x40_1010),
        &start(0x40_1006, 0x7000),
        &mut exception,
        &RustPersonality,
        &mut stop,
        4,
        &mut Steps::new(NoLedger),
    );
    let code = match end {
        Unwound::Code { code, cause: None } => Some(code.0),
        _ => None,
    };
    let stays = exception == UnwindException::new(0x22, 0x90_0000);
    Ok((code, stays, stop.seen()))
}

#[test]
fn a_raise_without_handler_keeps_the_exception(rt: HostRuntime) -> Result<(), Fail> {
    let end = Some(UnwindReasonCode::END_OF_STACK.0);
    expect_equal(&rt, rethrown(rt.alloc())?, (end, true, (0, 0, 0)));
    Ok(())
}

#[test]
fn a_function_is_found_by_an_address_in_it(rt: HostRuntime) -> Result<(), Fail> {
    let alloc = rt.alloc();
    let frames = bytes_of(alloc, PUSHES)?;
    let mut image = MemoryImage::new(alloc);
    expect_equal(&rt, image.add(0x50_0000, &frames), Ok(()));
    let finder = finder(0x40_1010);
    let mut steps = Steps::new(NoLedger);
    let enclosing = _Unwind_FindEnclosingFunction(&image, &finder, 0x40_1010, &mut steps);
    expect_equal(&rt, enclosing, 0x40_1000);
    let none = _Unwind_FindEnclosingFunction(&image, &finder, 0, &mut steps);
    expect_equal(&rt, none, 0);
    Ok(())
}

#[test]
fn an_exception_is_deleted_as_caught_elsewhere(rt: HostRuntime) -> Result<(), Fail> {
    let exception = UnwindException::new(0x22, 0x90_0000);
    let mut reason = 0;
    _Unwind_DeleteException(
        &exception,
        Some(|code: UnwindReasonCode, _gone: &UnwindException| reason = code.0),
    );
    expect_equal(&rt, reason, 1);
    Ok(())
}
