// Frames by call frame information: what is found for an address of an ELF module, its caller, and
// its language table. The same where the opcode of a Mach-O module's function points to frame data.
ghost use Rattle.std.specs.Prelude.{◌≡◌, List, Ok, Some, OnErr, false, length, true};
ghost use Rattle.memory_image.specs.Image.{Span, IsLaidOut};
ghost use Rattle.memory_image.specs.Results.{result_map};
ghost use Rattle.unwind_definitions.specs.LanguageSearch.{language_place};
ghost use Rattle.eh_frame.specs.Index.{AreFewSteps};
ghost use Rattle.fde_finders.specs.declared.custom.FrameInfo.{FrameInfo as Tables};
ghost use Rattle.fde_finders.specs.FoundViews.{found_fde_of};
ghost use Rattle.fde_finders.specs.Named.{found_by, pairs_by};
ghost use Rattle.frame_rows.specs.Rows.{IsRowOf};
ghost use Rattle.unwinding_frames.specs.ContextSeen.{language_place_of};
ghost use Rattle.unwinding_frames.specs.CxxTables.{cxx_table_action};
ghost use Rattle.unwinding_frames.specs.CxxViews.{exception_of};
ghost use Rattle.unwinding_frames.specs.LanguageViews.{answer_seen};
ghost use Rattle.stack_steps.specs.Elf.{caller, frame, frame_by};
ghost use Rattle.stack_steps.specs.FrameViews.{GivesFrameAt, prepared_fde};
ghost use Rattle.stack_steps.specs.Frames.{DescribedFrame};
ghost use Rattle.stack_steps.specs.AddedModule.{IsTableOf};
ghost use Rattle.stack_steps.specs.Languages.{asked_by_cxx, described_asks, languages_of};
ghost use Rattle.stack_steps.specs.Ticking.{RisesBySearch};

use crate::asking::{FrameAction, asked_by_cxx, asked_by_rust};
use crate::error::DeliverError;
use crate::frames::FoundFrame;
use crate::languages::Languages;
use crate::prepared::PreparedTable;
use eh_frame::{PreparedFrame, RowRef, RowRoom};
use fde_finders::{FDESearchResult, FrameInfo, find_by_tables};
use format_frames::Stepped;
use memory_image::{Ledger, MemoryImage, Steps};
use unwind_arch::x86_64::{Arch, Context, RSP};
use unwinding_frames::{
    Exception, Place, StepError, Window, eh_action_of, lsda_of, personality_of, write_caller,
};

/// A frame by a description that was found for it.
#[derive(Drop)]
pub struct SearchedFrame<'f, 'a> {
    /// What was found, lent from the place for it, as it is large.
    pub found: &'f FDESearchResult<'a>,
    /// Its row, lent from the room in which it was made.
    pub row: RowRef<'f, 'a>,
}

/// Puts what was found into the place for it, and lends it.
fn lent_place<'f, 'a>(
    place: &'f mut Option<FDESearchResult<'a>>,
    found: FDESearchResult<'a>,
) -> &'f FDESearchResult<'a>
    ensures { result.now ≡ found.entry }
{
    *place = Some(found);
    match place {
        Some(found) => found,
        None => unreachable!(),
    }
}

/// The frame at an address of an ELF module, by its frame tables. It lends what was found from
/// `place`, and its row from `rows`.
pub(crate) fn frame<'f, 'a, L: Ledger>(
    image: &MemoryImage<'a>,
    address: u64,
    tables: FrameInfo,
    place: &'f mut Option<FDESearchResult<'a>>,
    rows: &'f mut RowRoom<'a>,
    steps: &mut Steps<L>,
) -> Result<Option<FoundFrame<'f, 'a>>, DeliverError>
    ensures frame { GivesFrameAt result (frame image.now address tables) }
    ensures ticks { RisesBySearch (pairs_by tables image.now) steps.old.number steps.new.number }
{
    match find_by_tables(image, address, tables, steps) {
        Some(found) => described_frame(address, found, place, rows),
        None => Ok(None),
    }
}

/// The frame at an address by a description. It lends that from `place`, and its row from `rows`.
pub(crate) fn described_frame<'f, 'a>(
    address: u64,
    found: FDESearchResult<'a>,
    place: &'f mut Option<FDESearchResult<'a>>,
    rows: &'f mut RowRoom<'a>,
) -> Result<Option<FoundFrame<'f, 'a>>, DeliverError>
    ensures { GivesFrameAt result (frame_by address (Some (found_fde_of found.entry))) }
{
    match found.make_row(address, rows) {
        Ok(()) => Ok(Some(FoundFrame::Searched(SearchedFrame {
            found: lent_place(place, found),
            row: rows.row(),
        }))),
        Err(fault) => Err(DeliverError::Table(fault)),
    }
}

/// The frame at an address of a prepared module, by the index of its frame table.
#[inline(always)]
pub(crate) fn prepared_frame<'f, 'a, L: Ledger>(
    table: &'f PreparedTable<'a>,
    address: u64,
    steps: &mut Steps<L>,
) -> Result<Option<FoundFrame<'f, 'a>>, DeliverError>
    ensures frame { (image : List Span) (tables : Tables) → IsLaidOut 0 image →
        IsTableOf image tables table.now →
        GivesFrameAt result (frame_by address (found_by tables image address)) }
    ensures ticks { AreFewSteps (length table.now.index.functions) steps.old.number
        steps.new.number }
{
    let Some(frame) = table.index.frame(address, steps) else {
        return Ok(None);
    };
    match frame.row() {
        Ok(_) => Ok(Some(FoundFrame::Prepared(table, frame))),
        Err(fault) => Err(DeliverError::Table(fault)),
    }
}

/// Makes a copy of a frame's state its caller's, by the row of the frame's description. After a fault
/// the copy's registers are unspecified. `signal` says whether the description is of a signal's frame,
/// and `stack` is a window over the image.
#[inline(always)]
pub(crate) fn step_to_caller(
    stack: &mut Window<'_, '_>,
    callee: &Context,
    row: &RowRef<'_, '_>,
    signal: bool,
    next: &mut Stepped,
) -> Result<(), DeliverError>
    requires { next.old.context ≡ callee.now }
    ensures caller { (f : DescribedFrame) → IsRowOf row.now f.run →
        signal ≡ f.found.fde.cie.letters.signal →
        result_map (λ done. next.new) result ≡ caller stack.old callee.now f }
    ensures mark { OnErr result (next.new.signal ≡ next.old.signal) }
    ensures same { stack.new ≡ stack.old }
{
    stack.seek(callee.registers[RSP]);
    match write_caller::<Arch>(stack, callee, row, &mut next.context) {
        Ok(()) => {
            // A look at them tells the proof that there are sixteen registers.
            let _ = next.context.registers[RSP];
            next.signal = signal;
            Ok(())
        }
        Err(fault) => Err(DeliverError::from(fault)),
    }
}

/// Puts a frame's caller in the place of the frame's state, where the row is one of those that need no
/// copy of the registers. `false`, and nothing is changed, where it isn't. `signal` says whether the
/// description is of a signal's frame, and `stack` is a window over the image.
#[inline(always)]
pub(crate) fn step_in_place(
    stack: &Window<'_, '_>,
    row: &RowRef<'_, '_>,
    signal: bool,
    state: &mut Stepped,
) -> bool
    ensures caller { result ≡ true → (f : DescribedFrame) → IsRowOf row.now f.run →
        signal ≡ f.found.fde.cie.letters.signal →
        caller stack.now state.old.context f ≡ Ok state.new }
    ensures stays { result ≡ false → state.new ≡ state.old }
{
    if !unwinding_frames::step_in_place(stack, row, &mut state.context) {
        return false;
    }
    // A look at them tells the proof that there are sixteen registers.
    let _ = state.context.registers[RSP];
    state.signal = signal;
    true
}

/// Where the language table of a description stands.
#[inline(always)]
fn place(image: &MemoryImage<'_>, found: &FDESearchResult<'_>) -> Result<Place, StepError>
    ensures { answer_seen language_place_of result ≡ language_place image.now
        (found_fde_of found.now).bases (found_fde_of found.now).fde }
{
    Ok(Place {
        start: found.fde.initial_address(),
        lsda: lsda_of(found, image)?,
        bases: found.bases,
    })
}

/// What is asked by a description.
#[inline(always)]
pub(crate) fn described_asks(
    languages: &Languages<'_>,
    image: &MemoryImage<'_>,
    found: &FDESearchResult<'_>,
    address: u64,
) -> Result<FrameAction, DeliverError>
    ensures { result ≡ described_asks (languages_of languages.now) image.now address
        (found_fde_of found.now) }
{
    match personality_of(found, image)? {
        None => Ok(FrameAction::Nothing),
        routine => {
            if languages.is_cxx(routine) {
                let place = place(image, found);
                Ok(asked_by_cxx(languages.exception, image, place, address))
            } else {
                Ok(asked_by_rust(eh_action_of(found, image, address)))
            }
        }
    }
}

/// What is asked by a description that an index found and that names a personality. What is known of
/// it is large, so each part makes of it what it reads.
#[inline(never)]
pub(crate) fn prepared_asks(
    languages: &Languages<'_>,
    image: &MemoryImage<'_>,
    table: &PreparedTable<'_>,
    frame: &PreparedFrame<'_, '_>,
    address: u64,
) -> Result<FrameAction, DeliverError>
    ensures { result ≡ described_asks (languages_of languages.now) image.now address
        (prepared_fde table.now frame.now.fde) }
{
    match personality_of(&table.search_result(frame), image)? {
        None => Ok(FrameAction::Nothing),
        routine => {
            if languages.is_cxx(routine) {
                Ok(prepared_cxx_asks(languages.exception, image, table, frame, address))
            } else {
                let action = eh_action_of(&table.search_result(frame), image, address);
                Ok(asked_by_rust(action))
            }
        }
    }
}

/// What is asked by such a description by the rule of C++.
#[inline(never)]
fn prepared_cxx_asks(
    exception: Exception<'_>,
    image: &MemoryImage<'_>,
    table: &PreparedTable<'_>,
    frame: &PreparedFrame<'_, '_>,
    address: u64,
) -> FrameAction
    ensures { result ≡ asked_by_cxx exception.entry.runtime (cxx_table_action image.now
        (exception_of exception.entry) address
        (language_place image.now (prepared_fde table.now frame.now.fde).bases frame.now.fde)) }
{
    asked_by_cxx(
        exception,
        image,
        place(image, &table.search_result(frame)),
        address,
    )
}
