// What the language of a frame asks. Itanium C++ ABI, exception handling, level II.
ghost use Rattle.std.specs.Prelude.{◌≡◌, None, Ok};
ghost use Rattle.std.specs.Option.{option_map};
ghost use Rattle.unwinding_frames.specs.ContextSeen.{language_place_of};
ghost use Rattle.unwinding_frames.specs.CxxTables.{cxx_table_action};
ghost use Rattle.unwinding_frames.specs.CxxViews.{exception_of};
ghost use Rattle.unwinding_frames.specs.LanguageViews.{action_of, answer_seen};
ghost use Rattle.stack_steps.specs.Asking.{or_terminate};
ghost use Rattle.stack_steps.specs.FrameViews.{IsFrameOf};
ghost use Rattle.stack_steps.specs.Languages.{Languages as SpecLanguages, asked_by_cxx};
ghost use Rattle.stack_steps.specs.Languages.{asked_by_rust, asks_if_named, ended_by, frame_asks};
ghost use Rattle.stack_steps.specs.Languages.{is_taken, languages_of, pad_of, selector_of};
ghost use Rattle.stack_steps.specs.Frames.{FrameAt};

use crate::elf;
use crate::error::DeliverError;
use crate::frames::FoundFrame;
use crate::languages::Languages;
use format_frames::Stepped;
use memory_image::MemoryImage;
use unwinding_frames::{
    CxxAction, CxxRuntime, EhAction, Exception, Place, StepError, find_cxx_action_at,
    find_eh_action_at,
};

/// What a frame asks of an exception that comes to it.
#[derive(Clone, Copy, Debug, PartialEq, Eq)]
pub enum FrameAction {
    /// Nothing: the exception goes on to the caller.
    Nothing,
    /// To enter the landing pad at this address for a cleanup, and then to go on.
    Cleanup(u64),
    /// To enter the landing pad at this address for a handler or a violated exception
    /// specification, with this number in the second data register: by the rule of C++ that of the
    /// action record that takes the exception, as a word, and by that of Rust 0.
    Handler(u64, u64),
    /// To end the program at once.
    Terminate,
    /// To end the program once the cleanups of the frames inside this one have run.
    TerminateAfterCleanups,
}

impl FrameAction {
    /// The landing pad that is asked for, `None` where nothing is asked, or the program is to end.
    pub fn pad(self) -> Option<u64>
        ensures { result ≡ pad_of self }
    {
        match self {
            FrameAction::Cleanup(pad) | FrameAction::Handler(pad, _) => Some(pad),
            FrameAction::Nothing | FrameAction::Terminate | FrameAction::TerminateAfterCleanups =>
                None,
        }
    }

    /// Whether the frame takes the exception: by a handler, or since the program ends there once the
    /// cleanups inside have run.
    pub fn is_taken(self) -> bool
        ensures { result ≡ is_taken self }
    {
        match self {
            FrameAction::Handler(_, _) | FrameAction::TerminateAfterCleanups => true,
            FrameAction::Nothing | FrameAction::Cleanup(_) | FrameAction::Terminate => false,
        }
    }

    /// What a landing pad finds in the second data register: the number of the handler, or 0.
    pub fn selector(self) -> u64
        ensures { result ≡ selector_of self }
    {
        match self {
            FrameAction::Handler(_, number) => number,
            FrameAction::Nothing
            | FrameAction::Cleanup(_)
            | FrameAction::Terminate
            | FrameAction::TerminateAfterCleanups => 0,
        }
    }
}

/// What is asked by the rule of Rust. A language table that can't be read ends the program.
#[inline(always)]
pub(crate) fn asked_by_rust(action: Result<EhAction, StepError>) -> FrameAction
    ensures { result ≡ asked_by_rust (or_terminate (answer_seen action_of action)) }
{
    match action.unwrap_or(EhAction::Terminate) {
        EhAction::None => FrameAction::Nothing,
        EhAction::Cleanup(pad) => FrameAction::Cleanup(pad),
        EhAction::Catch(pad) | EhAction::Filter(pad) => FrameAction::Handler(pad, 0),
        EhAction::Terminate => FrameAction::Terminate,
    }
}

/// What the language table at a place asks at an address by the rule of C++. One that can't be read
/// ends the program at once.
#[inline(never)]
pub(crate) fn asked_by_cxx(
    exception: Exception<'_>,
    image: &MemoryImage<'_>,
    place: Result<Place, StepError>,
    address: u64,
) -> FrameAction
    ensures { result ≡ asked_by_cxx exception.entry.runtime (cxx_table_action image.now
        (exception_of exception.entry) address (answer_seen language_place_of place)) }
{
    let Ok(place) = place else {
        return FrameAction::Terminate;
    };
    match find_cxx_action_at(image, &place, exception, address) {
        Ok(CxxAction::None) => FrameAction::Nothing,
        Ok(CxxAction::Cleanup(pad)) => FrameAction::Cleanup(pad),
        Ok(CxxAction::Handler(pad, number)) => FrameAction::Handler(pad, number),
        Ok(CxxAction::Terminate) => ended_by(exception.runtime),
        Err(_) => FrameAction::Terminate,
    }
}

/// How a runtime of C++ ends the program.
fn ended_by(runtime: CxxRuntime) -> FrameAction
    ensures { result ≡ ended_by runtime }
{
    match runtime {
        CxxRuntime::Libstdcxx => FrameAction::TerminateAfterCleanups,
        CxxRuntime::Libcxxabi => FrameAction::Terminate,
    }
}

/// What is asked by the language table at a place by the rule of Rust, or nothing without one.
fn placed_asks(image: &MemoryImage<'_>, place: Option<Place>, address: u64) -> FrameAction
    ensures { (l : SpecLanguages) → result ≡ asks_if_named l image.now address None
        (option_map (λ p. Ok (language_place_of p)) place) }
{
    match place {
        Some(place) => asked_by_rust(find_eh_action_at(image, &place, address)),
        None => FrameAction::Nothing,
    }
}

/// What the language of a frame asks of an exception. A language table that can't be read ends the
/// program, but what names it has to be read.
///
/// The language is C++ where the frame's description names one of its personality routines, and else
/// Rust. That of a Mach-O function by compact unwinding and of a PE function isn't looked at.
///
/// # Errors
///
/// `Unmapped` where the cell that names the personality isn't wholly mapped; `MachO` where the
/// personality that an opcode names isn't listed in its section, or the language tables of its page
/// can't be read; `PeInfo` and `ChainLimit` where the records of a PE frame can't be read up to one that
/// names a handler, `PeInfo` also where the bytes of that handler are missing.
#[inline(always)]
pub fn frame_asks(
    languages: &Languages<'_>,
    image: &MemoryImage<'_>,
    state: &Stepped,
    frame: &FoundFrame<'_, '_>,
) -> Result<FrameAction, DeliverError>
    ensures { (f : FrameAt) → IsFrameOf frame.now f →
        result ≡ frame_asks (languages_of languages.now) image.now state.now.context
        state.now.signal f }
{
    match frame {
        // So it is of most frames.
        FoundFrame::Prepared(_, frame) if !frame.has_personality() => Ok(FrameAction::Nothing),
        FoundFrame::Prepared(table, frame) => {
            elf::prepared_asks(languages, image, table, frame, state.address())
        }
        _ => found_asks(languages, image, state, frame),
    }
}

/// The same, however the frame was found.
#[inline(never)]
fn found_asks(
    languages: &Languages<'_>,
    image: &MemoryImage<'_>,
    state: &Stepped,
    frame: &FoundFrame<'_, '_>,
) -> Result<FrameAction, DeliverError>
    ensures { (f : FrameAt) → IsFrameOf frame.now f →
        result ≡ frame_asks (languages_of languages.now) image.now state.now.context
        state.now.signal f }
{
    let address = state.address();
    match frame {
        FoundFrame::Searched(frame) => elf::described_asks(languages, image, frame.found, address),
        FoundFrame::Prepared(table, frame) => {
            elf::prepared_asks(languages, image, table, frame, address)
        }
        FoundFrame::Compact(frame) => { Ok(placed_asks(image, frame.place(image)?, address)) }
        FoundFrame::Recorded(frame) => { Ok(placed_asks(image, frame.place(image)?, address)) }
    }
}
